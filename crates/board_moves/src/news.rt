//! Whom a board's moves concern.
ghost use Rattle.std.specs.Prelude.{◌≡◌, ℕ, ◌*◌, ◌/◌, ◌%◌, ◌^◌, ◌<◌, ◌⊎◌, ◌||◌, nat_lt, slice_index, slice_index_or, slice_set, true, false};
ghost use Rattle.std.specs.Int.Bits.{bit_or};
ghost use Rattle.board_moves.specs.Noted.{counted_if, counted_on, seat_bit, seat_of, IsAsLeft, IsNoted, Notes, StayNoted};

use board_rings::RING_SIZE;
use gateway_state::Dest;

/// How many seats there are. Each connection has one, that it shares with few others.
pub const SEATS: usize = 2_048;

const CLIENT_SEATS: u32 = 1_024;

const SERVER_SEATS: u32 = 1_024;

/// How many words of 64 seats there are.
pub const SEAT_WORDS: usize = 32;

/// The seat of a connection.
pub fn seat_of(dest: Dest) -> usize
    ensures seat { result ≡ seat_of dest }
    ensures within { result < SEATS }
{
    match dest {
        Dest::Session(number) => (number % CLIENT_SEATS) as usize,
        Dest::Upstream(number) => (CLIENT_SEATS + number % SERVER_SEATS) as usize,
    }
}

/// How many messages went through a board so far, each number up to the type's last value.
#[derive(Clone, Copy, Debug, PartialEq, Eq)]
pub struct Traffic {
    /// Those of connections that were performed.
    pub received: u64,
    /// Those that were handed on to be written.
    pub sent: u64,
}

// Sets the bit of a seat.
fn set_bit(words: &mut [u64; SEAT_WORDS], seat: usize)
    requires { seat < SEATS }
    ensures { words.new ≡ slice_set words.old (seat / 64) (bit_or (slice_index words.old (seat / 64)) (1 * 2 ^ (seat % 64) % 2 ^ 64)) }
{
    words[seat / 64] |= 1u64 << (seat % 64);
}

/// The seats of those connections whose workers may go on after what was moved, how much was moved, whether the last
/// round left items or messages, and whether too much came to wait for a client. They are no part of what a board is: its
/// moves say what they note beside it.
#[derive(Clone, Copy, Debug)]
pub struct News {
    words: [u64; SEAT_WORDS],
    traffic: Traffic,
    left: bool,
    unsent: bool,
    grown: bool,
}

impl News {
    /// None are concerned.
    pub fn none() -> News
        ensures nothing { (seat : ℕ) → seat_bit seat result.words ≡ 0 }
        ensures uncounted { (result.traffic.received ≡ 0) × (result.traffic.sent ≡ 0) }
    {
        News {
            words: [0; SEAT_WORDS],
            traffic: Traffic {
                received: 0,
                sent: 0,
            },
            left: false,
            unsent: false,
            grown: false,
        }
    }

    /// A round begins, which saw no items or messages yet that it leaves, nor a client for which too much came to wait.
    pub fn begin_round(&mut self)
        ensures { self.new ≡ record self.old { left = false; unsent = false; grown = false } }
    {
        self.left = false;
        self.unsent = false;
        self.grown = false;
    }

    /// Whether the last round left items that it saw.
    pub fn has_left(&self) -> bool
        ensures { result ≡ self.now.left }
    {
        self.left
    }

    /// Notes of messages that weren't sent whether others were before them, and whether so much waits for a client by now
    /// that it is too much.
    pub fn note_unsent(&mut self, some_sent: bool, has_grown: bool)
        ensures { self.new ≡ record self.old { unsent = self.old.unsent || some_sent; grown = self.old.grown || has_grown } }
    {
        self.unsent |= some_sent;
        self.grown |= has_grown;
    }

    /// Whether too much came to wait for a client in the last round.
    pub fn has_grown(&self) -> bool
        ensures { result ≡ self.now.grown }
    {
        self.grown
    }

    /// Whether the last round left messages behind others that it sent.
    pub fn has_unsent(&self) -> bool
        ensures { result ≡ self.now.unsent }
    {
        self.unsent
    }

    /// Notes the seat of a connection.
    pub fn note(&mut self, dest: Dest)
        ensures notes { Notes dest self.old.words self.new.words }
        ensures kept { StayNoted self.old self.new }
        ensures counts { (self.new.traffic ≡ self.old.traffic) × IsAsLeft self.old self.new }
    {
        set_bit(&mut self.words, seat_of(dest));
    }

    /// Notes a connection where its ring in came down to half, or to nothing: a reader that waits for a
    /// place then goes on, once for many places. An end of a connection is no message.
    #[tactic(auto, using(crate::proofs::Told::noted_through))]
    pub fn note_received(&mut self, dest: Dest, left: usize, is_message: bool)
        ensures places { (left ≡ 0) ⊎ (left ≡ 128) → IsNoted dest self.new }
        ensures kept { StayNoted self.old self.new }
        ensures received { self.new.traffic.received ≡ counted_if is_message self.old.traffic.received }
        ensures sent { self.new.traffic.sent ≡ self.old.traffic.sent }
        ensures left { (self.new.left ≡ (self.old.left || nat_lt 0 left)) × ((self.new.unsent ≡ self.old.unsent) × (self.new.grown ≡ self.old.grown)) }
    {
        self.count_received(is_message);
        self.left |= left > 0;
        if left == RING_SIZE / 2 || left == 0 {
            self.note(dest);
        }
    }

    fn count_received(&mut self, is_message: bool)
        ensures received { self.new.traffic.received ≡ counted_if is_message self.old.traffic.received }
        ensures sent { self.new.traffic.sent ≡ self.old.traffic.sent }
        ensures same { (self.new.words ≡ self.old.words) × IsAsLeft self.old self.new }
    {
        if is_message {
            self.traffic.received = self.traffic.received.saturating_add(1);
        }
    }

    /// Notes a connection to which so many messages were handed on.
    #[tactic(auto, using(crate::proofs::Told::counted_many))]
    pub fn note_sent(&mut self, dest: Dest, count: usize)
        ensures noted { IsNoted dest self.new }
        ensures kept { StayNoted self.old self.new }
        ensures sent { self.new.traffic.sent ≡ counted_on self.old.traffic.sent count }
        ensures received { self.new.traffic.received ≡ self.old.traffic.received }
        ensures left { IsAsLeft self.old self.new }
    {
        self.traffic.sent = self.traffic.sent.saturating_add(count as u64);
        self.note(dest);
    }

    /// How many messages went through so far.
    pub fn traffic(&self) -> Traffic
        ensures { result ≡ self.now.traffic }
    {
        self.traffic
    }

    /// The n-th 64 seats: a bit for each that was noted.
    pub fn word(&self, n: usize) -> u64
        ensures { result ≡ slice_index_or self.now.words n 0 }
    {
        match self.words.get(n) {
            Some(word) => *word,
            None => 0,
        }
    }

    /// Hands out what was noted, and notes the next seats anew. Messages are counted on.
    pub fn take(&mut self) -> News
        ensures out { result ≡ self.old }
        ensures anew { (seat : ℕ) → seat_bit seat self.new.words ≡ 0 }
        ensures counts { (self.new.traffic ≡ self.old.traffic) × IsAsLeft self.old self.new }
    {
        let news = *self;
        self.words = [0; SEAT_WORDS];
        news
    }
}
