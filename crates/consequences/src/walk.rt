//! The walk over the subscriptions to a variable, once an update of it came. No row says that the update is
//! owed before its turn comes, and none that is told at once ever does.
ghost use Rattle.std.specs.Prelude.{◌≡◌, ◌*◌, All, true, fold, length, OnOk};
ghost use Rattle.consequences.specs.Giving.{GivesOf};
ghost use Rattle.consequences.specs.InTurn.{owed_from_now, owed_no_more, told_once, told_once_by};
ghost use Rattle.gateway_rows.specs.Looked.{Looked};
ghost use Rattle.gateway_state.specs.Told.{KnowRights};
ghost use Rattle.gateway_state.specs.Updates.{is_sub_to, update_notice};
ghost use Rattle.touched_rows.specs.Concern.{passes};

use crate::giving::Giving;
use crate::source::source_of;
use crate::updates::{say_update, update_notice_of};
use channel_table::ClientSub;
use gateway_rows::CountedRows;
use pv_name::Name;
use std::alloc::AllocError;
use touched_rows::Concern;

/// Notes that nothing is owed any more to a subscription, where something was.
fn clear_owed(rows: &mut CountedRows, sub: &ClientSub)
    ensures cleared { rows.new.state ≡ owed_no_more sub.now rows.old.state }
    ensures looked { Looked 1 rows.old rows.new }
{
    if sub.owed {
        rows.set_owed(sub.session, sub.id, false);
    }
}

/// Notes that a subscription that has to wait is owed the update, where nothing was owed to it before.
fn note_owed(rows: &mut CountedRows, sub: &ClientSub, due: &ClientSub)
    ensures noted { rows.new.state ≡ owed_from_now sub.now due.now rows.old.state }
    ensures looked { Looked 1 rows.old rows.new }
{
    if due.owed {
        rows.known.note_held(sub.session);
        if !sub.owed {
            rows.set_owed(sub.session, sub.id, true);
        }
    }
}

/// Tells a subscription what is due to it, by its row as it is and as the update makes it.
fn tell_due(
    rows: &mut CountedRows,
    sub: ClientSub,
    due: ClientSub,
    name: &Name,
    giving: &mut Giving,
) -> Result<(), AllocError>
    requires told { KnowRights rows.old.state }
    requires on { is_sub_to rows.old.state name.now due ≡ true }
    requires gives { GivesOf rows.old.state name.now giving.old }
    ensures gives { GivesOf rows.old.state name.now giving.new }
    ensures ok { OnOk result (rows.new.state ≡ told_once_by sub due (update_notice rows.old.state due) rows.old.state) }
    ensures looked { Looked 3 rows.old rows.new }
{
    match update_notice_of(rows, due, name, giving)? {
        Some(notice) => {
            clear_owed(rows, &sub);
            say_update(&mut rows.known, notice)
        }
        None => {
            note_owed(rows, &sub, &due);
            Ok(())
        }
    }
}

/// Tells a subscription to a variable an update, where that concerns it, and what was due to it before.
#[tactic(auto, using(crate::proofs::Turns::marked_is_on), unfolding(crate::specs::InTurn::told_once))]
fn tell_in_turn(
    rows: &mut CountedRows,
    sub: ClientSub,
    concern: Concern,
    name: &Name,
    giving: &mut Giving,
) -> Result<(), AllocError>
    requires told { KnowRights rows.old.state }
    requires on { is_sub_to rows.old.state name.now sub ≡ true }
    requires gives { GivesOf rows.old.state name.now giving.old }
    ensures gives { GivesOf rows.old.state name.now giving.new }
    ensures ok { OnOk result (rows.new.state ≡ told_once (passes concern) rows.old.state sub) }
    ensures looked { Looked 3 rows.old rows.new }
{
    let due = concern.marked(sub);
    tell_due(rows, sub, due, name, giving)
}

/// The same of each of these, in their order.
#[tactic(auto, using(crate::proofs::Turns::know_rights_then))]
pub(crate) fn tell_each(
    rows: &mut CountedRows,
    name: &Name,
    concern: Concern,
    subs: &[ClientSub],
) -> Result<(), AllocError>
    requires told { KnowRights rows.old.state }
    requires on { All (λ sub. is_sub_to rows.old.state name.now sub ≡ true) subs.now }
    ensures ok { OnOk result (rows.new.state ≡ fold (told_once (passes concern)) rows.old.state subs.now) }
    ensures looked { Looked (3 * length subs.now) rows.old rows.new }
{
    let source = source_of(&rows.known, name);
    let mut giving = Giving::new(source, subs.len() > 1);
    for sub in subs {
        tell_in_turn(rows, *sub, concern, name, &mut giving)?;
    }
    Ok(())
}
