//! Whom an update concerns.
ghost use Rattle.std.specs.Prelude.{◌≡◌, true, false, IfSome, IsNone, Ok};
ghost use Rattle.dbr_layout.specs.View.{shown};
ghost use Rattle.gateway_state.specs.Servers.{has_other_alarm, is_heard};
ghost use Rattle.gateway_state.specs.Updates.{alarm_differs_in, held_by};
ghost use Rattle.touched_rows.specs.Concern.{concern_of};

use dbr_layout::View;
use gateway_rows::Known;
use gateway_values::{is_heard, time_of};
use link_table::Subject;
use touched_rows::Concern;

/// What a server says with an update beside its payload, and what its subscription asks for.
#[derive(Clone, Copy)]
pub(crate) struct Arrival {
    pub(crate) subject: Subject,
    /// The native type of the variable.
    pub(crate) native: u16,
    /// The count that the subscription asks for.
    pub(crate) asked_with: u32,
    pub(crate) dtype: u16,
    pub(crate) count: u32,
}

/// Whom an update of a link concerns, where it counts. What is held of the link is still as it was.
pub(crate) fn concern_of(
    known: &Known,
    cid: u32,
    arrival: Arrival,
    payload: &[u8],
) -> Option<Concern>
    ensures heard { IfSome result (λ concern. is_heard arrival.subject arrival.native arrival.asked_with arrival.dtype arrival.count payload.now ≡ true) }
    ensures concern { IfSome result (λ concern. concern ≡ concern_of arrival.subject known.now.state cid arrival.dtype arrival.count payload.now) }
    ensures none { IsNone result → is_heard arrival.subject arrival.native arrival.asked_with arrival.dtype arrival.count payload.now ≡ false }
{
    let Arrival {
        native,
        asked_with,
        dtype,
        count,
        ..
    } = arrival;
    match arrival.subject {
        Subject::Values => {
            if dtype != time_of(native) || count > asked_with {
                return None;
            }
            let view = View::new(dtype, count, payload).ok()?;
            Some(Concern::Value(has_other_alarm(known, cid, &view)))
        }
        Subject::Properties => {
            if !is_heard(
                Subject::Properties,
                native,
                asked_with,
                dtype,
                count,
                payload,
            ) {
                return None;
            }
            Some(Concern::Properties)
        }
    }
}

/// Whether the alarm of an update differs from that of the value that is held, or none is held.
fn has_other_alarm(known: &Known, cid: u32, view: &View<'_>) -> bool
    ensures { result ≡ alarm_differs_in (Ok view.now) (held_by known.now.state cid) }
{
    match known.cache.get(cid) {
        Some(last) => last.held.alarm_differs(view),
        None => true,
    }
}
