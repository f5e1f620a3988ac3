//! What is asked of the gateway itself.
ghost use Rattle.std.specs.Prelude.{◌≡◌, OnOk, IfOk};
ghost use Rattle.ca_message.specs.declared.to_server.ToServer.TheVariants.{Echo};
ghost use Rattle.gateway_rows.specs.BrandedState.{Becomes};
ghost use Rattle.gateway_state.specs.Direct.{limited};
ghost use Rattle.gateway_state.specs.Telling.{asked};
ghost use Rattle.touched_rows.specs.declared.touched.Touched.TheVariants.{All, Nothing};

use ca_message::ToServer;
use gateway_rows::Known;
use gateway_state::Limits;
use std::alloc::AllocError;
use touched_rows::Touched;

/// From now on these limits hold. Nothing that stands goes at that; who waited for room is told.
pub(crate) fn limit(known: &mut Known, limits: Limits) -> Touched
    ensures state { Becomes (limited limits known.old.state) known.old known.new }
    ensures touched { result ≡ All }
{
    known.set_limits(limits);
    Touched::All
}

/// A server is asked whether it is there.
pub(crate) fn probe(known: &mut Known, number: u32) -> Result<Touched, AllocError>
    ensures ok { OnOk result (known.new.state ≡ asked number Echo known.old.state) }
    ensures touched { IfOk result (λ touched. touched ≡ Nothing) }
    ensures brand { known.new.brand ≡ known.old.brand }
{
    known.ask(number, &ToServer::Echo)?;
    Ok(Touched::Nothing)
}
