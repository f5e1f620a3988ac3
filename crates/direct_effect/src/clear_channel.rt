//! CLEAR_CHANNEL.
ghost use Rattle.std.specs.Prelude.{◌≡◌, OnOk, IfOk};
ghost use Rattle.gateway_rows.specs.Looked.{Looked};
ghost use Rattle.gateway_state.specs.Clients.{channel_cleared};
ghost use Rattle.touched_rows.specs.Touches.{clear_touches};

use crate::refusals::refuse_channel;
use ca_header::Header;
use ca_message::{ClearChannel, ToClient};
use gateway_rows::CountedRows;
use std::alloc::AllocError;
use touched_rows::Touched;

/// A client gives up a channel.
pub(crate) fn clear_channel(
    rows: &mut CountedRows,
    number: u32,
    clear: ClearChannel,
    head: &Header,
) -> Result<Touched, AllocError>
    ensures ok { OnOk result (rows.new.state ≡ channel_cleared number clear.sid clear.cid head.now rows.old.state) }
    ensures touched { IfOk result (λ touched. touched ≡ clear_touches rows.old.state number clear.sid) }
    ensures looked { Looked 1 rows.old rows.new }
{
    let ClearChannel { sid, cid } = clear;
    match rows.known.channel_of(&mut rows.visits, number, sid) {
        Some(channel) => {
            let name = channel.real.copy()?;
            rows.known.remove_channel(number, sid);
            rows.known
                .tell(number, &ToClient::ClearChannel { sid, cid })?;
            Ok(Touched::Link(name))
        }
        None => {
            refuse_channel(&mut rows.known, number, head)?;
            Ok(Touched::Nothing)
        }
    }
}
