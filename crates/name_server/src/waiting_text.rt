//! What waits to be written.
ghost use Rattle.std.specs.Prelude.{◌≡◌, ◌+◌, ◌<◌, ◌↔◌, [], ◌++◌, length, IsErrOf, IsTrue, OnErr, OnOk};

use std::alloc::Global;
use std::marker::Model;
use std::mem::replace;

/// So many bytes wait at most.
pub const WAITING_LIMIT: usize = 131_072;

/// Why a text isn't kept.
#[derive(Clone, Copy, Debug, PartialEq, Eq)]
pub enum NotKept {
    OutOfMemory,
    /// More would wait than may.
    Full,
}

/// What waits to be written, in order.
#[derive(Debug, Drop)]
pub struct WaitingText {
    text: Vec<u8>,
}

impl Model for WaitingText {
    ghost use Rattle.std.specs.Prelude.{ℕ, ◌≤◌, List, length};
    ghost use Rattle.name_server.specs.declared.waiting_text.TheConstants.{WAITING_LIMIT};

    ghost Value = { List ℕ };

    ghost view = { λ w. w.text.items };

    ghost invariant = { λ w. length w.text.items ≤ WAITING_LIMIT };
}

impl WaitingText {
    pub fn new(alloc: Global) -> WaitingText
        ensures { result ≡ [] }
    {
        WaitingText {
            text: Vec::new(alloc),
        }
    }

    pub fn is_empty(&self) -> bool
        ensures { IsTrue result ↔ (self.now ≡ []) }
    {
        self.text.is_empty()
    }

    /// Puts a text behind what waits, as a whole or not at all.
    pub fn add(&mut self, text: &[u8]) -> Result<(), NotKept>
        ensures ok { OnOk result (self.new ≡ self.old ++ text.now) }
        ensures err { OnErr result (self.new ≡ self.old) }
        ensures full { IsErrOf result NotKept.Full ↔ (WAITING_LIMIT < length self.old + length text.now) }
    {
        if text.len() > WAITING_LIMIT - self.text.len() {
            return Err(NotKept::Full);
        }
        match self.text.extend_from_slice(text) {
            Ok(()) => Ok(()),
            Err(_) => Err(NotKept::OutOfMemory),
        }
    }

    /// All that waits. Then nothing does.
    pub fn take(&mut self, alloc: Global) -> Vec<u8>
        ensures text { result.items ≡ self.old }
        ensures rest { self.new ≡ [] }
    {
        replace(&mut self.text, Vec::new(alloc))
    }
}
