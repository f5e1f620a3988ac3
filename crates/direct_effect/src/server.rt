//! What servers say.
ghost use Rattle.std.specs.Prelude.{◌≡◌, ◌≤◌, OnOk, IfOk};
ghost use Rattle.ca_message.specs.ServerReply.{reply_of};
ghost use Rattle.gateway_rows.specs.BrandedState.{Becomes};
ghost use Rattle.gateway_rows.specs.Looked.{LookedOn};
ghost use Rattle.gateway_rows.specs.Own.{IsWithin};
ghost use Rattle.direct_effect.specs.Looks.{reply_looks};
ghost use Rattle.gateway_state.specs.Servers.{server_said, server_versioned};
ghost use Rattle.touched_rows.specs.Touches.{reply_touches, with_touched};

use crate::channels::{hear_disconnect, hear_refusal, hear_rights, make_channel};
use crate::update::update;
use crate::write_reply::end_write;
use ca_header::Message;
use ca_message::{ServerReply, read_reply};
use gateway_rows::{CountedRows, Known};
use std::alloc::AllocError;
use touched_rows::Touched;

/// A server sent a message. Those whom an update concerns aren't owed it yet.
#[tactic(auto, using(gateway_rows::proofs::OwnStays::within_none, touched_rows::proofs::KeptLate::made_keeps_none, touched_rows::proofs::KeptLate::gone_keeps_none, touched_rows::proofs::KeptLate::rights_keep_none))]
pub fn hear_server(
    rows: &mut CountedRows,
    server: u32,
    message: Message,
) -> Result<Touched, AllocError>
    ensures ok { IfOk result (λ touched. with_touched touched rows.new.state ≡ server_said rows.old.state server message) }
    ensures touched { IfOk result (λ touched. touched ≡ reply_touches rows.old.state server (reply_of message.head message.payload)) }
    ensures looked { LookedOn rows.old rows.new }
    ensures bound { OnOk result (IsWithin (reply_looks rows.old.state server (reply_of message.head message.payload)) rows.old.count.looks rows.new.count.looks) }
{
    Ok(match read_reply(&message.head, &message.payload) {
        Ok(ServerReply::Version { minor }) => {
            hear_server_version(&mut rows.known, server, minor);
            Touched::Nothing
        }
        Ok(
            ServerReply::EventAdd {
                id,
                status,
                dtype,
                count,
                ..
            },
        ) => { update(rows, server, id, status, dtype, count, message.payload)? }
        Ok(
            ServerReply::CreateChannel {
                cid,
                sid,
                dtype,
                count,
            },
        ) => make_channel(&mut rows.known, server, cid, sid, dtype, count)?,
        Ok(ServerReply::AccessRights { cid, rights }) => hear_rights(
            &mut rows.known,
            server,
            cid,
            rights,
        )?,
        Ok(ServerReply::CreateChannelFail { cid }) => {
            hear_refusal(&mut rows.known, server, cid);
            Touched::Nothing
        }
        Ok(ServerReply::ServerDisconnect { cid }) => hear_disconnect(&mut rows.known, server, cid)?,
        Ok(ServerReply::WriteNotify { ioid, status }) => {
            end_write(&mut rows.known, server, ioid, status)?;
            Touched::Nothing
        }
        Err(_) => Touched::Nothing,
    })
}

/// A server said which minor version it speaks.
fn hear_server_version(known: &mut Known, server: u32, minor: u32)
    ensures state { Becomes (server_versioned known.old.state server minor) known.old known.new }
{
    known.upstream.put_server(server, minor);
}
