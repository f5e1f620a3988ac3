//! How many messages are sent out at once.
ghost use Rattle.std.specs.Prelude.{◌≡◌};
ghost use Rattle.board_moves.specs.Share.{sent_at_once};

use board_rings::MOST_SENT;

/// Where so many bytes are on their way to a connection no more are sent out to it.
pub const RING_BYTES: usize = 262_144;

/// More messages than these wait for a server where those whose requests reach it are held: half of what an outbox
/// holds where no limit is told.
pub const HELD_MESSAGES: usize = 8_192;

/// More bytes than these wait for a server where those whose requests reach it are held. For none a server is cut off:
/// this bounds the memory.
pub const HELD_BYTES: u64 = 16_777_216;

/// More bytes than these wait for a client where it is held: what it asks for is answered once it has read. What is on
/// its way isn't counted: that is known by looks that are made while messages wait, and a stale one would hold for ever.
pub const HELD_CLIENT_BYTES: u64 = 33_554_432;

/// How many messages are sent out at once, where so many places of the ring are free, so many messages with so many
/// bytes wait, and so many bytes are on their way.
pub(crate) fn sent_at_once(places: usize, waiting: usize, bytes: u64, on_the_way: u128) -> usize
    ensures { result ≡ sent_at_once places waiting bytes on_the_way }
{
    let bound = RING_BYTES as u128;
    if on_the_way >= bound {
        return 0;
    }
    let most = MOST_SENT.min(places);
    let left = bound - on_the_way;
    let bytes = u128::from(bytes);
    if bytes <= left {
        return waiting.min(most);
    }
    let fitting = left * waiting as u128 / bytes;
    fitting.min(most as u128).max(1) as usize
}
