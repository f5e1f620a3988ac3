//! The pass over reads that wait: what clients are owed about them.
ghost use Rattle.std.specs.Prelude.{◌≡◌, IfOk, OnOk};
ghost use Rattle.gateway_state.specs.Notices.{answered_over, read_notice, read_notices, read_told, reads_told};
ghost use Rattle.gateway_state.specs.Variables.{connected};

use ca_message::ToClient;
use ca_message::codes::ECA_NORDACCESS;
use channel_table::WaitingRead;
use gateway_state::ReadNotice;
use gateway_values::may_read;
use plain_rows::clients::remove_read;
use plain_rows::state::PlainRows;
use pv_name::Name;
use std::alloc::AllocError;
use std::collections::VecDeque;

/// The answer to a read that is covered.
fn answer_over(
    rows: &PlainRows,
    read: WaitingRead,
    name: &Name,
) -> Result<Option<ReadNotice>, AllocError>
    ensures { IfOk result (λ notice. notice ≡ answered_over rows.now read (connected rows.now name.now)) }
{
    let Some(variable) = rows.connected(name) else {
        return Ok(None);
    };
    let native = variable.native.count;
    match rows.cached_value(variable.link.cid, native, read.dtype, read.count)? {
        Some(given) => Ok(Some(ReadNotice::Answered(read, given.count, given.payload))),
        None => Ok(None),
    }
}

/// What is owed about a read: its refusal where the channel can't be read any more, or its answer.
fn read_notice(rows: &PlainRows, read: WaitingRead) -> Result<Option<ReadNotice>, AllocError>
    ensures { IfOk result (λ notice. notice ≡ read_notice rows.now read) }
{
    let Some(channel) = rows.channel_of(read.session, read.sid) else {
        return Ok(None);
    };
    if may_read(rows.rights_of(channel)?) {
        answer_over(rows, read, &channel.real)
    } else {
        Ok(Some(ReadNotice::Refused(read, ECA_NORDACCESS)))
    }
}

fn read_notices(rows: &PlainRows) -> Result<VecDeque<ReadNotice>, AllocError>
    ensures { IfOk result (λ notices. notices.items ≡ read_notices rows.now) }
{
    let mut notices = VecDeque::new(rows.alloc);
    for read in &rows.reads {
        if let Some(notice) = read_notice(rows, *read)? {
            notices.push_back(notice)?;
        }
    }
    Ok(notices)
}

fn tell_read(rows: &mut PlainRows, notice: ReadNotice) -> Result<(), AllocError>
    ensures { OnOk result (rows.new ≡ read_told rows.old notice) }
{
    match notice {
        ReadNotice::Refused(read, code) => {
            remove_read(&mut rows.reads, read);
            rows.refuse_read(read, code)
        }
        ReadNotice::Answered(read, count, value) => {
            remove_read(&mut rows.reads, read);
            let said = ToClient::ReadNotify {
                ioid: read.ioid,
                dtype: read.dtype,
                count,
                value,
            };
            rows.tell(read.session, said)
        }
    }
}

/// Answers reads that are covered, and refuses those whose right is gone.
pub(crate) fn tell_reads(rows: &mut PlainRows) -> Result<(), AllocError>
    ensures { OnOk result (rows.new ≡ reads_told rows.old) }
{
    let mut notices = read_notices(rows)?;
    while let Some(notice) = notices.pop_front() {
        tell_read(rows, notice)?;
    }
    Ok(())
}
