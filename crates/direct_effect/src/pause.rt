//! EVENTS_OFF and EVENTS_ON.
ghost use Rattle.std.specs.Prelude.{◌≡◌, true, false, OnOk, IfOk};
ghost use Rattle.gateway_rows.specs.Looked.{Looked};
ghost use Rattle.gateway_state.specs.Subscribing.{paused_to};
ghost use Rattle.touched_rows.specs.declared.touched.Touched.TheVariants as touches;

use gateway_rows::CountedRows;
use std::alloc::AllocError;
use touched_rows::Touched;

/// A client wants no updates for now.
pub(crate) fn pause(rows: &mut CountedRows, number: u32) -> Result<Touched, AllocError>
    ensures ok { OnOk result (rows.new.state ≡ paused_to number true rows.old.state) }
    ensures touched { IfOk result (λ touched. touched ≡ touches.Nothing) }
    ensures looked { Looked 2 rows.old rows.new }
{
    set_paused(rows, number, true)?;
    Ok(Touched::Nothing)
}

/// A client wants updates again.
pub(crate) fn resume(rows: &mut CountedRows, number: u32) -> Result<Touched, AllocError>
    ensures ok { OnOk result (rows.new.state ≡ paused_to number false rows.old.state) }
    ensures touched { IfOk result (λ touched. touched ≡ touches.Session number) }
    ensures looked { Looked 2 rows.old rows.new }
{
    set_paused(rows, number, false)?;
    Ok(Touched::Session(number))
}

/// Whether the client wants no updates; its host stays as it is.
#[tactic(auto, using(rows::proofs::RowLemmas::change_first_as, rows::proofs::RowLemmas::change_first_unfound))]
fn set_paused(rows: &mut CountedRows, number: u32, paused: bool) -> Result<(), AllocError>
    ensures ok { OnOk result (rows.new.state ≡ paused_to number paused rows.old.state) }
    ensures looked { Looked 2 rows.old rows.new }
{
    if let Some(session) = rows.known.clients.session(&mut rows.visits, number) {
        let host = session.host.copy()?;
        let host_fixed = session.host_fixed;
        rows.known
            .clients
            .put_session(&mut rows.visits, number, host, host_fixed, paused);
    }
    Ok(())
}
