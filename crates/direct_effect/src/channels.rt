//! What servers say of channels.
ghost use Rattle.std.specs.Prelude.{◌≡◌, OnOk, IfOk};
ghost use Rattle.gateway_rows.specs.BrandedState.{Becomes};
ghost use Rattle.gateway_state.specs.Servers.{channel_made, answered_creating, channel_returned, rights_said, creation_refused, channel_dropped, with_link_state};
ghost use Rattle.touched_rows.specs.Touches.{created_touches, gone_touches, rights_touches};

use ca_message::ToServer;
use gateway_rows::Known;
use gateway_values::{is_connected, is_creating, is_usable};
use link_table::LinkState;
use std::alloc::AllocError;
use touched_rows::Touched;

fn put_link(known: &mut Known, server: u32, cid: u32, state: LinkState, rights: u32)
    ensures state { Becomes (with_link_state server cid state rights known.old.state) known.old known.new }
{
    known.upstream.put_link(server, cid, state, rights);
}

/// The gateway gives up a channel that it doesn't want.
fn return_channel(known: &mut Known, server: u32, sid: u32, cid: u32) -> Result<(), AllocError>
    ensures ok { OnOk result (known.new.state ≡ channel_returned server sid cid known.old.state) }
    ensures brand { known.new.brand ≡ known.old.brand }
{
    known.ask(server, &ToServer::ClearChannel { sid, cid })
}

/// A server made a channel.
pub(crate) fn make_channel(
    known: &mut Known,
    server: u32,
    cid: u32,
    sid: u32,
    dtype: u16,
    count: u32,
) -> Result<Touched, AllocError>
    ensures ok { OnOk result (known.new.state ≡ channel_made known.old.state server cid sid dtype count) }
    ensures touched { IfOk result (λ touched. touched ≡ created_touches known.old.state server cid) }
    ensures brand { known.new.brand ≡ known.old.brand }
{
    let Some(link) = known.upstream.by_cid(server, cid) else {
        return_channel(known, server, sid, cid)?;
        return Ok(Touched::Nothing);
    };
    if !is_creating(link.state) {
        return Ok(Touched::Nothing);
    }
    let touched = Touched::Interest(link.name.copy()?);
    let rights = link.rights;
    if is_usable(dtype, count) {
        put_link(
            known,
            server,
            cid,
            LinkState::Connected { sid, dtype, count },
            rights,
        );
    } else {
        put_link(known, server, cid, LinkState::Unusable, rights);
        return_channel(known, server, sid, cid)?;
    }
    Ok(touched)
}

/// A server said what may be done with a channel.
pub(crate) fn hear_rights(
    known: &mut Known,
    server: u32,
    cid: u32,
    rights: u32,
) -> Result<Touched, AllocError>
    ensures ok { OnOk result (known.new.state ≡ rights_said known.old.state server cid rights) }
    ensures touched { IfOk result (λ touched. touched ≡ rights_touches known.old.state server cid) }
    ensures brand { known.new.brand ≡ known.old.brand }
{
    let Some(link) = known.upstream.by_cid(server, cid) else {
        return Ok(Touched::Nothing);
    };
    let touched = if is_creating(link.state) {
        Touched::Interest(link.name.copy()?)
    } else {
        Touched::Variable(link.name.copy()?)
    };
    let state = link.state;
    put_link(known, server, cid, state, rights);
    Ok(touched)
}

/// A server didn't make a channel. No client has a channel on it.
pub(crate) fn hear_refusal(known: &mut Known, server: u32, cid: u32)
    ensures state { Becomes (creation_refused known.old.state server cid) known.old known.new }
{
    if let Some(link) = known.upstream.by_cid(server, cid) {
        if is_creating(link.state) {
            known.remove_link(server, cid);
        }
    }
}

/// A server dropped a channel. Clients may have channels on a variable that was connected.
pub(crate) fn hear_disconnect(
    known: &mut Known,
    server: u32,
    cid: u32,
) -> Result<Touched, AllocError>
    ensures ok { OnOk result (known.new.state ≡ channel_dropped known.old.state server cid) }
    ensures touched { IfOk result (λ touched. touched ≡ gone_touches known.old.state server cid) }
    ensures brand { known.new.brand ≡ known.old.brand }
{
    let Some(link) = known.upstream.by_cid(server, cid) else {
        return Ok(Touched::Nothing);
    };
    let touched = if is_connected(link.state) {
        Touched::Variable(link.name.copy()?)
    } else {
        Touched::Nothing
    };
    known.remove_link(server, cid);
    Ok(touched)
}
