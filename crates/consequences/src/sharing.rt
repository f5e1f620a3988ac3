//! Payloads that several readers of a variable share.
ghost use Rattle.std.specs.Prelude.{◌≡◌, length};
ghost use Rattle.gateway_rows.specs.Looked.{OnlyLooked};

use crate::met::MetPairs;
use crate::source::{ValueSource, source_of};
use channel_table::ClientSub;
use gateway_rows::{CountedRows, Known};
use gateway_values::may_read;
use pv_name::Name;
use std::alloc::AllocError;
use touched_rows::Concern;

/// Keeps what several of the subscriptions to a variable that wait for its value are given of it, before it
/// is told: so they are told the same payload. Those whom it concerns wait, and those who were owed one before. A type and a count are kept once they are met again among the
/// last eight that differ. What one subscription alone asks for is laid out when its turn comes, if its
/// session takes it then. One that is of those that were kept last isn't looked at further. What the gateway
/// knows is as before.
pub(crate) fn share_on(
    rows: &mut CountedRows,
    name: &Name,
    concern: Concern,
    subs: &[ClientSub],
) -> Result<(), AllocError>
    ensures looked { OnlyLooked (length subs.now) rows.old rows.new }
{
    if subs.len() < 2 {
        return Ok(());
    }
    let Some(source) = source_of(&rows.known, name) else {
        return Ok(());
    };
    let mut kept = None;
    let mut met = MetPairs::none();
    for sub in subs {
        if kept != Some((sub.dtype, sub.count))
            && is_waiting(rows, &concern.marked(*sub))
            && met.meet(sub.dtype, sub.count)
        {
            keep_for(rows, source, sub)?;
            kept = Some((sub.dtype, sub.count));
        }
    }
    Ok(())
}

/// The same of one subscription, where the variable has others. It tells where the value is if anything was kept.
pub(crate) fn share_with(
    rows: &mut CountedRows,
    name: &Name,
    sub: &ClientSub,
) -> Result<Option<ValueSource>, AllocError>
    ensures looked { OnlyLooked 1 rows.old rows.new }
{
    if rows.known.clients.subs_on(name) < 2 || !is_waiting(rows, sub) {
        return Ok(None);
    }
    let Some(source) = source_of(&rows.known, name) else {
        return Ok(None);
    };
    keep_for(rows, source, sub)?;
    Ok(Some(source))
}

// Keeps what a subscription is given of the value there.
fn keep_for(rows: &mut CountedRows, source: ValueSource, sub: &ClientSub) -> Result<(), AllocError>
    ensures looked { OnlyLooked 0 rows.old rows.new }
{
    let ValueSource { cid, native } = source;
    rows.known.keep_value(cid, native, sub.dtype, sub.count)
}

// Whether a subscription may be told an update, by the rights that were told last. What is kept for
// one whose client wants none for now is kept in vain.
fn is_waiting(rows: &mut CountedRows, sub: &ClientSub) -> bool
    ensures looked { OnlyLooked 1 rows.old rows.new }
{
    sub.owed
        && rows.known.takes_updates(sub.session)
        && match rows
            .known
            .channel_of(&mut rows.visits, sub.session, sub.sid)
        {
            Some(channel) => may_read(channel.rights_told),
            None => false,
        }
}

/// Lets go what is large of what was kept, but for one kind, once a variable's value was told: nobody needs
/// more of it at once until the next value.
pub(crate) fn thin_on(known: &mut Known, source: Option<ValueSource>)
    ensures { known.new ≡ known.old }
{
    if let Some(source) = source {
        known.thin_value(source.cid);
    }
}
