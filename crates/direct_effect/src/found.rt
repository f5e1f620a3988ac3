//! Variables that servers have.
ghost use Rattle.std.specs.Prelude.{◌≡◌, true, false, OnOk, IsErrOf};
ghost use Rattle.gateway_state.specs.Numbers.{is_past_numbers};
ghost use Rattle.gateway_state.specs.Servers.{found, linked};
ghost use Rattle.gateway_state.specs.Settled.{HasCidsApart};
ghost use Rattle.gateway_state.specs.Variables.{is_linked};

use ca_message::{NameText, ToServer};
use gateway_rows::{Known, RowsRefusal};
use gateway_state::{Dest, RowLimit};
use pv_name::Name;

/// A server has a variable.
pub fn find_at(known: &mut Known, name: Name, server: u32) -> Result<(), RowsRefusal>
    requires order { HasCidsApart known.old.state }
    ensures ok { OnOk result (known.new.state ≡ found known.old.state name server) }
    ensures used_up { IsErrOf result RowsRefusal.NumbersUsedUp → is_past_numbers (found known.old.state name server) ≡ true }
    ensures brand { known.new.brand ≡ known.old.brand }
{
    if !known.is_missing(&name) || !known.acts(Dest::Upstream(server)) {
        return Ok(());
    }
    if known.upstream.link_count() >= known.limits.links {
        known.meet(RowLimit::Links);
        return Ok(());
    }
    make_link(known, server, name)
}

/// Makes a link, and asks the server for a channel.
#[tactic(auto, using(gateway_state::proofs::NewNumbers::new_cid, gateway_state::proofs::NewNumbers::unlinked), unfolding(gateway_state::specs::Telling::sent, gateway_state::specs::Numbers::is_past_numbers))]
fn make_link(known: &mut Known, server: u32, name: Name) -> Result<(), RowsRefusal>
    requires order { HasCidsApart known.old.state }
    requires unlinked { is_linked known.old.state name ≡ false }
    ensures ok { OnOk result (known.new.state ≡ linked known.old.state server name) }
    ensures used_up { IsErrOf result RowsRefusal.NumbersUsedUp → is_past_numbers (linked known.old.state server name) ≡ true }
    ensures brand { known.new.brand ≡ known.old.brand }
{
    let (reuses, first) = (known.limits.reuses_numbers, known.config.first);
    let Some(cid) = known.upstream.new_cid(reuses, first) else {
        return Err(RowsRefusal::NumbersUsedUp);
    };
    let asked = name.copy()?;
    let limit = known.limits.links;
    let added = known.upstream.add_link_within(limit, server, cid, name);
    if added.is_err() {
        return Err(RowsRefusal::OutOfMemory);
    }
    known.ask(
        server,
        &ToServer::CreateChannel {
            cid,
            name: NameText::from(&asked),
        },
    )?;
    Ok(())
}
