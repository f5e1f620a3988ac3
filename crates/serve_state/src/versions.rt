//! Which version of the protocol a client has.
ghost use Rattle.std.specs.Prelude.{◌≡◌, ℕ, List};
ghost use Rattle.serve_state.specs.Versions.{IsByHeaders, after_byte, after_bytes, is_too_old, unheard};

use ca_header::{Head, Header, read_head};
use std::marker::Model;

/// The command of VERSION, whose count is the minor version.
const VERSION: u16 = 0;

/// The minor version that a client must have.
const LEAST_VERSION: u32 = 9;

/// The most bytes of a header.
const HEAD_SIZE: usize = 24;

/// Whether a client said a version that is too old, by the bytes that came from it. It is asked for a notice
/// alone: the gateway itself looks at the messages.
#[derive(Drop)]
pub struct Versions {
    // The first bytes of the message that comes.
    head: [u8; HEAD_SIZE],
    held: usize,
    // How many bytes of the payload are to come.
    skip: u32,
    // What came is no message: none comes any more.
    is_lost: bool,
    is_too_old: bool,
}

impl Model for Versions {
    ghost use Rattle.std.specs.Prelude.{◌<◌, take};
    ghost use Rattle.serve_state.specs.Versions.{VersionState};

    ghost Value = { VersionState };

    ghost view = { λ v. record {
      held = take v.held v.head;
      skip = v.skip;
      lost = v.is_lost;
      too_old = v.is_too_old;
    } };

    ghost invariant = { λ v. v.held < 24 };
}

impl Versions {
    /// Nothing came.
    pub fn new() -> Versions
        ensures { result ≡ unheard }
    {
        Versions {
            head: [0u8; HEAD_SIZE],
            held: 0,
            skip: 0,
            is_lost: false,
            is_too_old: false,
        }
    }

    /// The next bytes came.
    pub fn hear(&mut self, piece: &[u8])
        ensures { self.new ≡ after_bytes piece.now self.old }
    {
        for byte in piece {
            self.hear_byte(*byte);
        }
    }

    /// Whether a VERSION below 9 came.
    pub fn is_too_old(&self) -> bool
        ensures { result ≡ self.now.too_old }
    {
        self.is_too_old
    }

    #[tactic(auto, using(crate::proofs::HeadLemmas::needed_is_short))]
    fn hear_byte(&mut self, byte: u8)
        ensures { self.new ≡ after_byte byte self.old }
    {
        if self.is_lost {
            return;
        }
        if self.skip > 0 {
            self.skip -= 1;
            return;
        }
        self.head[self.held] = byte;
        self.held += 1;
        match read_head(&self.head[..self.held]) {
            Head::Need => (),
            Head::Got(head, _) => {
                self.held = 0;
                self.skip = head.size;
                self.is_too_old = self.is_too_old || is_too_old(&head);
            }
            Head::Misaligned | Head::TooLarge => {
                self.held = 0;
                self.is_lost = true;
            }
        }
    }
}

fn is_too_old(head: &Header) -> bool
    ensures { result ≡ is_too_old head.now }
{
    head.command == VERSION && head.count < LEAST_VERSION
}

/// However the bytes of a client come in pieces, a version below 9 was heard exactly where they have the header of a
/// VERSION that says so, at the place where a message begins.
pub fn versions_are_heard_by_headers()
    ensures { (pieces : List (List ℕ)) → IsByHeaders pieces }
{}
