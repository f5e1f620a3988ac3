//! What clients are owed about reads that wait.
ghost use Rattle.std.specs.Prelude.{◌≡◌, ◌≤◌, ◌+◌, ◌*◌, true, fold, OnOk, IfOk, IsErrOf};
ghost use Rattle.channel_table.specs.ClientRows.{read_count};
ghost use Rattle.consequences.specs.LateReads.{read_said};
ghost use Rattle.gateway_rows.specs.Looked.{Looked, LookedOn, OnlyLooked, OnlyLookedOn};
ghost use Rattle.gateway_rows.specs.Own.{reads_on};
ghost use Rattle.gateway_state.specs.Notices.{answered_over, read_notice, read_notices, read_told, reads_told};
ghost use Rattle.gateway_state.specs.Numbers.{is_past_numbers};
ghost use Rattle.gateway_state.specs.Settled.{AreNumbersApart};
ghost use Rattle.gateway_state.specs.Told.{KnowRights};
ghost use Rattle.gateway_state.specs.Variables.{connected};
ghost use Rattle.touched_rows.specs.Touched.{interest_told, one_read_told, read_notices_on, reads_told_on};
ghost use Rattle.touched_rows.specs.Touches.{with_read};

use crate::links::tell_interest;
use ca_message::ToClient;
use ca_message::codes::ECA_NORDACCESS;
use channel_table::WaitingRead;
use gateway_rows::{CountedRows, Known, RowsRefusal};
use gateway_state::ReadNotice;
use gateway_values::may_read;
use pv_name::Name;
use std::alloc::AllocError;
use std::collections::VecDeque;

/// The answer to a read that is covered.
fn answer_over(
    known: &Known,
    read: WaitingRead,
    name: &Name,
) -> Result<Option<ReadNotice>, AllocError>
    ensures { IfOk result (λ notice. notice ≡ answered_over known.now.state read (connected known.now.state name.now)) }
{
    let Some(variable) = known.connected(name) else {
        return Ok(None);
    };
    let native = variable.native.count;
    match known.cached_value(variable.link.cid, native, read.dtype, read.count)? {
        Some(given) => Ok(Some(ReadNotice::Answered(read, given.count, given.payload))),
        None => Ok(None),
    }
}

/// What is owed about a read: its refusal where the channel can't be read any more, or its answer.
fn read_notice(rows: &mut CountedRows, read: WaitingRead) -> Result<Option<ReadNotice>, AllocError>
    requires told { KnowRights rows.old.state }
    ensures found { IfOk result (λ notice. notice ≡ read_notice rows.old.state read) }
    ensures looked { OnlyLooked 1 rows.old rows.new }
{
    let Some(channel) = rows
        .known
        .told_channel(&mut rows.visits, read.session, read.sid)
    else {
        return Ok(None);
    };
    if may_read(channel.rights_told) {
        answer_over(&rows.known, read, &channel.real)
    } else {
        Ok(Some(ReadNotice::Refused(read, ECA_NORDACCESS)))
    }
}

fn read_notices(rows: &mut CountedRows) -> Result<VecDeque<ReadNotice>, AllocError>
    requires told { KnowRights rows.old.state }
    ensures found { IfOk result (λ notices. notices.items ≡ read_notices rows.old.state) }
    ensures looked { OnlyLookedOn rows.old rows.new }
{
    let mut notices = VecDeque::new(rows.known.alloc);
    for read in &rows
        .known
        .clients
        .reads(&mut rows.visits, rows.known.alloc)?
    {
        if let Some(notice) = read_notice(rows, *read)? {
            notices.push_back(notice)?;
        }
    }
    Ok(notices)
}

/// What is owed about the reads that wait for a variable.
fn read_notices_on(rows: &mut CountedRows, name: &Name) -> Result<VecDeque<ReadNotice>, AllocError>
    requires told { KnowRights rows.old.state }
    ensures found { IfOk result (λ notices. notices.items ≡ read_notices_on name.now rows.old.state) }
    ensures looked { OnlyLookedOn rows.old rows.new }
    ensures bound { OnOk result (rows.new.count.looks ≤ rows.old.count.looks + 2 * reads_on rows.old.state name.now) }
{
    let mut notices = VecDeque::new(rows.known.alloc);
    for read in &rows.reads_for(name)? {
        if let Some(notice) = read_notice(rows, *read)? {
            notices.push_back(notice)?;
        }
    }
    Ok(notices)
}

/// Tells a client of a read, which stands in no row.
fn say_read(known: &mut Known, notice: ReadNotice) -> Result<(), AllocError>
    ensures ok { OnOk result (known.new.state ≡ read_said notice known.old.state) }
    ensures brand { known.new.brand ≡ known.old.brand }
{
    match notice {
        ReadNotice::Refused(read, code) => {
            let said = ToClient::ReadNotifyRefused {
                ioid: read.ioid,
                dtype: read.dtype,
                count: read.count,
                code,
            };
            known.tell(read.session, &said)
        }
        ReadNotice::Answered(read, count, value) => {
            let said = ToClient::ReadNotify {
                ioid: read.ioid,
                dtype: read.dtype,
                count,
                value,
            };
            known.tell(read.session, &said)
        }
    }
}

fn tell_read(known: &mut Known, notice: ReadNotice) -> Result<(), AllocError>
    ensures ok { OnOk result (known.new.state ≡ read_told known.old.state notice) }
    ensures brand { known.new.brand ≡ known.old.brand }
{
    match &notice {
        ReadNotice::Refused(read, _) => known.remove_read(read),
        ReadNotice::Answered(read, _, _) => known.remove_read(read),
    }
    say_read(known, notice)
}

fn tell_each(known: &mut Known, mut notices: VecDeque<ReadNotice>) -> Result<(), AllocError>
    ensures ok { OnOk result (known.new.state ≡ fold read_told known.old.state notices.items) }
    ensures brand { known.new.brand ≡ known.old.brand }
{
    while let Some(notice) = notices.pop_front() {
        tell_read(known, notice)?;
    }
    Ok(())
}

/// Answers reads that are covered, and refuses those whose right is gone.
pub(crate) fn tell_reads(rows: &mut CountedRows) -> Result<(), AllocError>
    requires told { KnowRights rows.old.state }
    ensures ok { OnOk result (rows.new.state ≡ reads_told rows.old.state) }
    ensures looked { LookedOn rows.old rows.new }
{
    let notices = read_notices(rows)?;
    tell_each(&mut rows.known, notices)
}

/// The same of the reads that wait for one variable.
pub(crate) fn tell_reads_on(rows: &mut CountedRows, name: &Name) -> Result<(), AllocError>
    requires told { KnowRights rows.old.state }
    ensures ok { OnOk result (rows.new.state ≡ reads_told_on name.now rows.old.state) }
    ensures looked { LookedOn rows.old rows.new }
    ensures bound { OnOk result (rows.new.count.looks ≤ rows.old.count.looks + 2 * reads_on rows.old.state name.now) }
{
    if rows.known.clients.all_reads() == 0 || rows.known.clients.reads_on(name) == 0 {
        return Ok(());
    }
    let notices = read_notices_on(rows, name)?;
    tell_each(&mut rows.known, notices)
}

/// The same of one read.
pub(crate) fn tell_one_read(rows: &mut CountedRows, read: WaitingRead) -> Result<(), AllocError>
    requires told { KnowRights rows.old.state }
    ensures ok { OnOk result (rows.new.state ≡ one_read_told read rows.old.state) }
    ensures looked { Looked 1 rows.old rows.new }
{
    match read_notice(rows, read)? {
        Some(notice) => tell_read(&mut rows.known, notice),
        None => Ok(()),
    }
}

/// Tells the server of a variable what its readers want, and then the client of a new read, which isn't kept
/// yet: it is only if there is nothing to tell. Where others of its session wait, one like it may be among
/// them, and the first of these goes: then it is kept at once.
pub(crate) fn tell_new_read(
    rows: &mut CountedRows,
    name: &Name,
    read: WaitingRead,
) -> Result<(), RowsRefusal>
    requires order { AreNumbersApart rows.old.state }
    requires told { KnowRights rows.old.state }
    ensures ok { OnOk result (rows.new.state ≡ one_read_told read (interest_told name.now (with_read read rows.old.state))) }
    ensures used_up { IsErrOf result RowsRefusal.NumbersUsedUp → is_past_numbers (one_read_told read (interest_told name.now (with_read read rows.old.state))) ≡ true }
    ensures looked { Looked 1 rows.old rows.new }
{
    if read_count(&rows.known, read.session) > 0 {
        return tell_kept_read(rows, name, read);
    }
    tell_interest(&mut rows.known, name)?;
    match read_notice(rows, read)? {
        Some(notice) => Ok(say_read(&mut rows.known, notice)?),
        None => Ok(keep_read(&mut rows.known, read)?),
    }
}

/// How many reads of a session wait.
fn read_count(known: &Known, session: u32) -> usize
    ensures { result ≡ read_count session known.now.state.clients }
{
    known.clients.read_count(session)
}

fn keep_read(known: &mut Known, read: WaitingRead) -> Result<(), AllocError>
    ensures ok { OnOk result (known.new.state ≡ with_read read known.old.state) }
    ensures brand { known.new.brand ≡ known.old.brand }
{
    known.clients.keep_read(read)
}

/// The same of a read that is kept first.
#[tactic(auto, using(touched_rows::proofs::Numbers::read_follows_past))]
fn tell_kept_read(rows: &mut CountedRows, name: &Name, read: WaitingRead) -> Result<(), RowsRefusal>
    requires order { AreNumbersApart rows.old.state }
    requires told { KnowRights rows.old.state }
    ensures ok { OnOk result (rows.new.state ≡ one_read_told read (interest_told name.now (with_read read rows.old.state))) }
    ensures used_up { IsErrOf result RowsRefusal.NumbersUsedUp → is_past_numbers (one_read_told read (interest_told name.now (with_read read rows.old.state))) ≡ true }
    ensures looked { Looked 1 rows.old rows.new }
{
    keep_read(&mut rows.known, read)?;
    tell_interest(&mut rows.known, name)?;
    Ok(tell_one_read(rows, read)?)
}
