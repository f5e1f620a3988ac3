//! HOST_NAME.
ghost use Rattle.std.specs.Prelude.{◌≡◌, OnOk, IfOk};
ghost use Rattle.gateway_rows.specs.Looked.{Looked};
ghost use Rattle.gateway_state.specs.Clients.{with_host_fixed, host_named};
ghost use Rattle.touched_rows.specs.declared.touched.Touched.TheVariants.{Nothing};

use ca_message::HostText;
use gateway_rows::CountedRows;
use pv_name::Host;
use std::alloc::AllocError;
use touched_rows::Touched;

/// The session's host can no longer change.
#[tactic(auto, using(rows::proofs::RowLemmas::change_first_as, rows::proofs::RowLemmas::change_first_unfound))]
pub(crate) fn fix_host(rows: &mut CountedRows, number: u32) -> Result<(), AllocError>
    ensures ok { OnOk result (rows.new.state ≡ with_host_fixed number rows.old.state) }
    ensures looked { Looked 2 rows.old rows.new }
{
    if let Some(session) = rows.known.clients.session(&mut rows.visits, number) {
        let host = session.host.copy()?;
        let paused = session.paused;
        rows.known
            .clients
            .put_session(&mut rows.visits, number, host, true, paused);
    }
    Ok(())
}

/// A client said where it is.
pub(crate) fn hear_host_name(
    rows: &mut CountedRows,
    number: u32,
    host: &HostText<'_>,
) -> Result<Touched, AllocError>
    ensures ok { OnOk result (rows.new.state ≡ host_named number host.now rows.old.state) }
    ensures touched { IfOk result (λ touched. touched ≡ Nothing) }
    ensures looked { Looked 2 rows.old rows.new }
{
    let host = host.to_host(rows.known.alloc)?;
    name_host(rows, number, host);
    Ok(Touched::Nothing)
}

/// Where a client is, which counts until its host is fixed, unless hosts are the addresses that connections come
/// from. It is fixed where the client has a channel, so no channel's name leads elsewhere.
#[tactic(auto, using(rows::proofs::RowLemmas::change_first_as, rows::proofs::RowLemmas::change_first_unfound, rows::proofs::RowLemmas::change_first_kept))]
fn name_host(rows: &mut CountedRows, number: u32, host: Host)
    ensures named { rows.new.state ≡ host_named number host rows.old.state }
    ensures looked { Looked 2 rows.old rows.new }
{
    let checks_hosts = rows.known.limits.checks_hosts;
    let Some(session) = rows.known.clients.session(&mut rows.visits, number) else {
        return;
    };
    if session.host_fixed || checks_hosts {
        return;
    }
    let paused = session.paused;
    rows.known
        .clients
        .put_session(&mut rows.visits, number, host, false, paused);
}
