//! ERROR: requests that are refused.
ghost use Rattle.std.specs.Prelude.{◌≡◌, OnOk};
ghost use Rattle.gateway_rows.specs.Looked.{Looked};
ghost use Rattle.gateway_state.specs.Clients.{not_understood, no_channel, was_given_out};
ghost use Rattle.gateway_state.specs.Subscribing.{request_refused, short_subscription};

use ca_header::Header;
use ca_message::ToClient;
use ca_message::codes::{ECA_BADCHID, ECA_INTERNAL};
use ca_message::commands::NO_CHANNEL;
use gateway_rows::{CountedRows, Known};
use link_table::{Counter, LAST_NUMBER};
use std::alloc::AllocError;

/// A message isn't understood.
pub(crate) fn refuse_unknown(
    known: &mut Known,
    number: u32,
    head: &Header,
) -> Result<(), AllocError>
    ensures ok { OnOk result (known.new.state ≡ not_understood known.old.state number head.now) }
    ensures brand { known.new.brand ≡ known.old.brand }
{
    let said = ToClient::Error {
        cid: NO_CHANNEL,
        code: ECA_INTERNAL,
        request: *head,
    };
    known.tell(number, &said)
}

/// Whether the number of a channel was given out. Where its counter began again, each was.
fn was_given_out(known: &Known, sid: u32) -> bool
    ensures { result ≡ was_given_out known.now.state sid }
{
    let next = known.upstream.next(Counter::Sid);
    let again = known.upstream.began_again(Counter::Sid);
    known.config.first <= sid && (sid < next || again && sid <= LAST_NUMBER)
}

/// The request names no channel of the session. One on a number that was given out is passed over, where
/// that is wanted: its client was told that the channel is gone.
pub(crate) fn refuse_channel(
    known: &mut Known,
    number: u32,
    head: &Header,
) -> Result<(), AllocError>
    ensures ok { OnOk result (known.new.state ≡ no_channel known.old.state number head.now) }
    ensures brand { known.new.brand ≡ known.old.brand }
{
    if known.limits.passes_over_gone && was_given_out(known, head.p1) {
        return Ok(());
    }
    let said = ToClient::Error {
        cid: NO_CHANNEL,
        code: ECA_BADCHID,
        request: *head,
    };
    known.tell(number, &said)
}

/// A client's request about its channel is refused.
pub(crate) fn refuse_request(
    known: &mut Known,
    number: u32,
    cid: u32,
    code: u32,
    head: &Header,
) -> Result<(), AllocError>
    ensures ok { OnOk result (known.new.state ≡ request_refused number cid code head.now known.old.state) }
    ensures brand { known.new.brand ≡ known.old.brand }
{
    let said = ToClient::Error {
        cid,
        code,
        request: *head,
    };
    known.tell(number, &said)
}

/// An EVENT_ADD without all of its fields: the ERROR says which channel it names.
pub(crate) fn refuse_short_subscription(
    rows: &mut CountedRows,
    number: u32,
    head: &Header,
) -> Result<(), AllocError>
    ensures ok { OnOk result (rows.new.state ≡ short_subscription rows.old.state number head.now) }
    ensures looked { Looked 1 rows.old rows.new }
{
    let cid = match rows.known.channel_of(&mut rows.visits, number, head.p1) {
        Some(channel) => channel.cid,
        None => NO_CHANNEL,
    };
    refuse_request(&mut rows.known, number, cid, ECA_INTERNAL, head)
}
