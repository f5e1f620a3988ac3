//! Where a variable's value is.
ghost use Rattle.std.specs.Prelude.{◌≡◌};
ghost use Rattle.consequences.specs.InTurn.{source_over};
ghost use Rattle.gateway_state.specs.Variables.{connected};

use gateway_rows::Known;
use pv_name::Name;

/// Where a variable's value is: what is looked up once for all who are told of it.
#[derive(Clone, Copy)]
pub(crate) struct ValueSource {
    /// The CID of its link.
    pub(crate) cid: u32,
    /// Its native count.
    pub(crate) native: u32,
}

/// Nowhere where the variable has no link, or none that is connected.
pub(crate) fn source_of(known: &Known, name: &Name) -> Option<ValueSource>
    ensures { result ≡ source_over (connected known.now.state name.now) }
{
    let variable = known.connected(name)?;
    Some(ValueSource {
        cid: variable.link.cid,
        native: variable.native.count,
    })
}
