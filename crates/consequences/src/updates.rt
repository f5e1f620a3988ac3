//! What clients are owed about their subscriptions.
ghost use Rattle.std.specs.Prelude.{◌≡◌, ◌≤◌, ◌+◌, ◌*◌, All, filter, true, Some, fold, OnOk, IfOk};
ghost use Rattle.ca_message.specs.declared.to_client.ToClient.TheVariants as replies;
ghost use Rattle.named_rows.specs.Subs.{is_sub_of};
ghost use Rattle.consequences.specs.Giving.{GivesOf};
ghost use Rattle.consequences.specs.InTurn.{told_in_turn};
ghost use Rattle.channel_table.specs.Looks.{GoesOn};
ghost use Rattle.gateway_rows.specs.Looked.{Looked, LookedOn, OnlyLooked, OnlyLookedOn};
ghost use Rattle.gateway_rows.specs.Own.{is_owed, subs_on};
ghost use Rattle.gateway_state.specs.Rights.{channel_of};
ghost use Rattle.gateway_state.specs.Telling.{told};
ghost use Rattle.gateway_state.specs.Told.{KnowRights, KnowsRights};
ghost use Rattle.gateway_state.specs.Updates.{is_open_to, is_paused, is_sub_to, takes_updates, is_unreadable, is_withheld, update_notice, update_on, update_over, update_told, updates_told, updates_withheld, withheld};
ghost use Rattle.gateway_state.specs.Variables.{connected};
ghost use Rattle.touched_rows.specs.Touched.{one_update_told, updates_told_to, updates_withheld_on, withheld_on};

use crate::giving::Giving;
use ca_message::ToClient;
use channel_table::{Channel, ClientSub, Visits};
use gateway_rows::{CountedRows, Known};
use gateway_state::UpdateNotice;
use gateway_values::may_read;
use pv_name::Name;
use std::alloc::AllocError;

/// Whether a channel stands that may not be read.
fn is_unreadable(rows: &mut CountedRows, session: u32, sid: u32) -> bool
    requires told { KnowRights rows.old.state }
    ensures found { result ≡ is_unreadable rows.old.state (channel_of rows.old.state session sid) }
    ensures looked { OnlyLooked 1 rows.old rows.new }
{
    match rows.known.told_channel(&mut rows.visits, session, sid) {
        Some(channel) => !may_read(channel.rights_told),
        None => false,
    }
}

/// Whether a subscription's channel may not be read, and nothing is owed to it yet.
fn is_withheld(rows: &mut CountedRows, sub: &ClientSub) -> bool
    requires told { KnowRights rows.old.state }
    ensures found { result ≡ is_withheld rows.old.state sub.now }
    ensures looked { OnlyLooked 1 rows.old rows.new }
{
    !sub.owed && is_unreadable(rows, sub.session, sub.sid)
}

/// All subscriptions, in the order in which they were made.
fn all_subs(known: &Known, visits: &mut Visits) -> Result<Vec<ClientSub>, AllocError>
    requires own { visits.old.brand ≡ known.now.brand }
    ensures found { IfOk result (λ subs. subs.items ≡ known.now.state.clients.subs) }
    ensures looked { GoesOn visits.old visits.new }
{
    let mut subs = Vec::new(known.alloc);
    for sub in known.clients.subs(visits, known.alloc)? {
        subs.push(*sub)?;
    }
    Ok(subs)
}

fn withheld(rows: &mut CountedRows) -> Result<Vec<ClientSub>, AllocError>
    requires told { KnowRights rows.old.state }
    ensures found { IfOk result (λ subs. subs.items ≡ withheld rows.old.state) }
    ensures looked { OnlyLookedOn rows.old rows.new }
{
    let mut subs = Vec::new(rows.known.alloc);
    for sub in &all_subs(&rows.known, &mut rows.visits)? {
        if is_withheld(rows, sub) {
            subs.push(*sub)?;
        }
    }
    Ok(subs)
}

/// Owes the latest value to subscriptions whose channels may not be read.
pub(crate) fn withhold_updates(rows: &mut CountedRows) -> Result<(), AllocError>
    requires told { KnowRights rows.old.state }
    ensures ok { OnOk result (rows.new.state ≡ updates_withheld rows.old.state) }
    ensures looked { LookedOn rows.old rows.new }
{
    let subs = withheld(rows)?;
    rows.owe_all(&subs);
    Ok(())
}

fn withheld_on(rows: &mut CountedRows, name: &Name) -> Result<Vec<ClientSub>, AllocError>
    requires told { KnowRights rows.old.state }
    ensures found { IfOk result (λ subs. subs.items ≡ withheld_on name.now rows.old.state) }
    ensures looked { OnlyLookedOn rows.old rows.new }
    ensures bound { OnOk result (rows.new.count.looks ≤ rows.old.count.looks + 2 * subs_on rows.old.state name.now) }
{
    let mut subs = Vec::new(rows.known.alloc);
    for sub in rows.subs_on(name)?.as_slice() {
        if is_withheld(rows, sub) {
            subs.push(*sub)?;
        }
    }
    Ok(subs)
}

/// The same of the subscriptions to one variable.
#[tactic(auto, using(crate::proofs::RightsLooks::few_withheld))]
pub(crate) fn withhold_updates_on(rows: &mut CountedRows, name: &Name) -> Result<(), AllocError>
    requires told { KnowRights rows.old.state }
    ensures ok { OnOk result (rows.new.state ≡ updates_withheld_on name.now rows.old.state) }
    ensures looked { LookedOn rows.old rows.new }
    ensures bound { OnOk result (rows.new.count.looks ≤ rows.old.count.looks + 3 * subs_on rows.old.state name.now) }
{
    let subs = withheld_on(rows, name)?;
    rows.owe_all(&subs);
    Ok(())
}

fn is_paused(rows: &mut CountedRows, number: u32) -> bool
    ensures found { result ≡ is_paused rows.old.state number }
    ensures looked { OnlyLooked 1 rows.old rows.new }
{
    match rows.known.clients.session(&mut rows.visits, number) {
        Some(session) => session.paused,
        None => false,
    }
}

/// Whether a subscription's session takes updates now.
fn is_open_to(rows: &mut CountedRows, sub: &ClientSub) -> bool
    ensures found { result ≡ is_open_to rows.old.state sub.now }
    ensures looked { OnlyLooked 1 rows.old rows.new }
{
    !is_paused(rows, sub.session) && rows.known.takes_updates(sub.session)
}

fn update_over(
    known: &Known,
    sub: &ClientSub,
    name: &Name,
) -> Result<Option<UpdateNotice>, AllocError>
    ensures { IfOk result (λ notice. notice ≡ update_over known.now.state sub.now (connected known.now.state name.now)) }
{
    let Some(variable) = known.connected(name) else {
        return Ok(None);
    };
    let native = variable.native.count;
    match known.cached_value(variable.link.cid, native, sub.dtype, sub.count)? {
        Some(given) => Ok(Some(UpdateNotice {
            session: sub.session,
            id: sub.id,
            dtype: sub.dtype,
            count: given.count,
            payload: given.payload,
        })),
        None => Ok(None),
    }
}

fn update_on(
    known: &Known,
    sub: &ClientSub,
    channel: &Channel,
) -> Result<Option<UpdateNotice>, AllocError>
    requires told { KnowsRights known.now.state channel.now }
    ensures { IfOk result (λ notice. notice ≡ update_on known.now.state sub.now (Some channel.now)) }
{
    if may_read(channel.rights_told) {
        update_over(known, sub, &channel.real)
    } else {
        Ok(None)
    }
}

/// The same by where the value is.
#[tactic(auto, using(crate::proofs::TellingInTurn::update_given))]
fn update_from(
    known: &Known,
    sub: &ClientSub,
    name: &Name,
    giving: &mut Giving,
) -> Result<Option<UpdateNotice>, AllocError>
    requires gives { GivesOf known.now.state name.now giving.old }
    ensures found { IfOk result (λ notice. notice ≡ update_over known.now.state sub.now (connected known.now.state name.now)) }
    ensures gives { GivesOf known.now.state name.now giving.new }
{
    match giving.give(known, sub)? {
        Some(given) => Ok(Some(UpdateNotice {
            session: sub.session,
            id: sub.id,
            dtype: sub.dtype,
            count: given.count,
            payload: given.payload,
        })),
        None => Ok(None),
    }
}

/// The same of a subscription on a channel on this name, by where its value is: that is looked up once for
/// all who are told of it.
fn update_on_name(
    known: &Known,
    sub: &ClientSub,
    channel: &Channel,
    name: &Name,
    giving: &mut Giving,
) -> Result<Option<UpdateNotice>, AllocError>
    requires told { KnowsRights known.now.state channel.now }
    requires real { channel.now.real ≡ name.now }
    requires gives { GivesOf known.now.state name.now giving.old }
    ensures found { IfOk result (λ notice. notice ≡ update_on known.now.state sub.now (Some channel.now)) }
    ensures gives { GivesOf known.now.state name.now giving.new }
{
    if !may_read(channel.rights_told) {
        return Ok(None);
    }
    update_from(known, sub, name, giving)
}

/// The update that is due to a subscription to this name, by where its value is.
#[tactic(auto, using(crate::proofs::TellingInTurn::real_is_name), unfolding(gateway_state::specs::Updates::update_notice))]
pub(crate) fn update_notice_of(
    rows: &mut CountedRows,
    sub: ClientSub,
    name: &Name,
    giving: &mut Giving,
) -> Result<Option<UpdateNotice>, AllocError>
    requires told { KnowRights rows.old.state }
    requires on { is_sub_to rows.old.state name.now sub ≡ true }
    requires gives { GivesOf rows.old.state name.now giving.old }
    ensures found { IfOk result (λ notice. notice ≡ update_notice rows.old.state sub) }
    ensures gives { GivesOf rows.old.state name.now giving.new }
    ensures looked { OnlyLooked 2 rows.old rows.new }
{
    if !(sub.owed && is_open_to(rows, &sub)) {
        return Ok(None);
    }
    match rows
        .known
        .told_channel(&mut rows.visits, sub.session, sub.sid)
    {
        Some(channel) => update_on_name(&rows.known, &sub, channel, name, giving),
        None => Ok(None),
    }
}

/// The update that is due to a subscription.
#[tactic(auto, unfolding(gateway_state::specs::Updates::update_notice))]
fn update_notice(rows: &mut CountedRows, sub: ClientSub) -> Result<Option<UpdateNotice>, AllocError>
    requires told { KnowRights rows.old.state }
    ensures found { IfOk result (λ notice. notice ≡ update_notice rows.old.state sub) }
    ensures looked { OnlyLooked 2 rows.old rows.new }
{
    if !(sub.owed && is_open_to(rows, &sub)) {
        return Ok(None);
    }
    match rows
        .known
        .told_channel(&mut rows.visits, sub.session, sub.sid)
    {
        Some(channel) => update_on(&rows.known, &sub, channel),
        None => Ok(None),
    }
}

/// The subscriptions that are owed an update.
fn owed(rows: &mut CountedRows) -> Result<Vec<ClientSub>, AllocError>
    ensures found { IfOk result (λ subs. subs.items ≡ filter is_owed rows.old.state.clients.subs) }
    ensures looked { OnlyLookedOn rows.old rows.new }
{
    let mut subs = all_subs(&rows.known, &mut rows.visits)?;
    subs.retain(|sub| sub.owed);
    Ok(subs)
}

/// Says an update to its session.
pub(crate) fn say_update(known: &mut Known, notice: UpdateNotice) -> Result<(), AllocError>
    ensures ok { OnOk result (known.new.state ≡ told notice.session (replies.Update notice.id notice.dtype notice.count notice.payload) known.old.state) }
    ensures brand { known.new.brand ≡ known.old.brand }
{
    known.tell_update(notice)
}

/// Gives an update to a session that takes updates.
fn give_update(rows: &mut CountedRows, notice: UpdateNotice) -> Result<(), AllocError>
    requires room { takes_updates rows.old.state notice.session ≡ true }
    ensures ok { OnOk result (rows.new.state ≡ update_told rows.old.state notice) }
    ensures looked { Looked 1 rows.old rows.new }
{
    rows.set_owed(notice.session, notice.id, false);
    say_update(&mut rows.known, notice)
}

/// Gives a subscription the update that is due to it.
#[tactic(auto, using(crate::proofs::TellingInTurn::takes_it))]
pub(crate) fn tell_one_update(rows: &mut CountedRows, sub: ClientSub) -> Result<(), AllocError>
    requires told { KnowRights rows.old.state }
    ensures ok { OnOk result (rows.new.state ≡ one_update_told sub rows.old.state) }
    ensures looked { Looked 3 rows.old rows.new }
{
    match update_notice(rows, sub)? {
        Some(notice) => give_update(rows, notice),
        None => {
            if sub.owed {
                rows.known.note_held(sub.session);
            }
            Ok(())
        }
    }
}

/// The same of each of these, in their order. What is due to one is laid out when its turn comes: so no more
/// is laid out at once than an outbox takes, and one update more.
#[tactic(auto, using(crate::proofs::TellingInTurn::know_rights_next))]
fn tell_one_by_one(rows: &mut CountedRows, subs: &[ClientSub]) -> Result<(), AllocError>
    requires told { KnowRights rows.old.state }
    ensures ok { OnOk result (rows.new.state ≡ fold told_in_turn rows.old.state subs.now) }
    ensures looked { LookedOn rows.old rows.new }
{
    for sub in subs {
        tell_one_update(rows, *sub)?;
    }
    Ok(())
}

/// The same of subscriptions of one session, as long as its outbox takes any: so what a session has to wait for costs
/// nothing each time that a few of its messages went out.
#[tactic(auto, using(crate::proofs::TellingInTurn::know_rights_next, crate::proofs::TellingInTurn::none_left))]
fn tell_while_taking(
    rows: &mut CountedRows,
    number: u32,
    subs: &[ClientSub],
) -> Result<(), AllocError>
    requires told { KnowRights rows.old.state }
    requires of { All (λ sub. is_sub_of number sub ≡ true) subs.now }
    ensures ok { OnOk result (rows.new.state ≡ fold told_in_turn rows.old.state subs.now) }
    ensures looked { LookedOn rows.old rows.new }
{
    for sub in subs {
        if !rows.known.takes_updates(number) {
            rows.known.note_held(number);
            return Ok(());
        }
        tell_one_update(rows, *sub)?;
    }
    Ok(())
}

/// Gives the updates that are due to a session.
#[tactic(auto, using(crate::proofs::TellingInTurn::told_one_by_one, crate::proofs::TellingInTurn::due_to_owed, crate::proofs::TellingInTurn::owed_are_its))]
pub(crate) fn tell_updates_to(rows: &mut CountedRows, number: u32) -> Result<(), AllocError>
    requires told { KnowRights rows.old.state }
    ensures ok { OnOk result (rows.new.state ≡ updates_told_to number rows.old.state) }
    ensures looked { LookedOn rows.old rows.new }
{
    let subs = rows.owed_of(number)?;
    tell_while_taking(rows, number, &subs)
}

/// Gives all updates that are due.
#[tactic(auto, using(crate::proofs::TellingInTurn::told_one_by_one, crate::proofs::TellingInTurn::due_to_owed))]
pub(crate) fn tell_updates(rows: &mut CountedRows) -> Result<(), AllocError>
    requires told { KnowRights rows.old.state }
    ensures ok { OnOk result (rows.new.state ≡ updates_told rows.old.state) }
    ensures looked { LookedOn rows.old rows.new }
{
    let subs = owed(rows)?;
    tell_one_by_one(rows, &subs)
}
