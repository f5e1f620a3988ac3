//! WRITE_NOTIFY: how writes ended.
ghost use Rattle.std.specs.Prelude.{◌≡◌, OnOk};
ghost use Rattle.gateway_rows.specs.BrandedState.{Becomes};
ghost use Rattle.gateway_state.specs.Writing.{write_ended, without_write};

use ca_message::ToClient;
use gateway_rows::Known;
use std::alloc::AllocError;

/// The write waits no longer.
fn remove_write(known: &mut Known, server: u32, id: u32)
    ensures state { Becomes (without_write server id known.old.state) known.old known.new }
{
    known.upstream.remove_write(server, id);
}

/// A server says how a write ended: the client that asked for it is told, under its own ID of it.
pub(crate) fn end_write(
    known: &mut Known,
    server: u32,
    id: u32,
    status: u32,
) -> Result<(), AllocError>
    ensures ok { OnOk result (known.new.state ≡ write_ended known.old.state server id status) }
    ensures brand { known.new.brand ≡ known.old.brand }
{
    let Some(write) = known.upstream.write(server, id) else {
        return Ok(());
    };
    let write = *write;
    remove_write(known, server, id);
    let said = ToClient::WriteNotify {
        ioid: write.ioid,
        dtype: write.dtype,
        count: write.count,
        status,
    };
    known.tell(write.session, &said)
}
