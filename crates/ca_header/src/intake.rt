//! The messages of a stream that comes in pieces.
ghost use Rattle.std.specs.Prelude.{◌≡◌, ◌+◌, ◌^◌, ◌<◌, ◌≤◌, ◌++◌, ◌↔◌, [], length, take, drop, IfOk, OnOk, OnErr};

use crate::header::Message;
use crate::reading::{FrameFault, Front, read_front};
use bytes::{Bytes, BytesMut};
use std::alloc::{AllocError, Global};
use std::error::Error;
use std::fmt;
use std::marker::Model;

/// Why an [`Intake`] did not do what it was asked to. It is as it was before the call.
#[derive(Clone, Copy, Debug, PartialEq, Eq)]
pub enum IntakeFault {
    OutOfMemory,
    /// The bytes held begin with this fault. Every later call says the same.
    Faulted(FrameFault),
}

impl fmt::Display for IntakeFault {
    fn fmt<W: fmt::Write>(&self, f: &mut fmt::Formatter<W>) -> fmt::Result {
        match self {
            IntakeFault::OutOfMemory => f.write_str("out of memory"),
            IntakeFault::Faulted(fault) => fault.fmt(f),
        }
    }
}

impl Error for IntakeFault {}

impl From<AllocError> for IntakeFault {
    ghost use Rattle.std.specs.Prelude.{◌≡◌};
    ghost use Rattle.ca_header.specs.declared.intake.IntakeFault.TheVariants.{OutOfMemory};

    ghost from_gives = { λ _ fault. fault ≡ OutOfMemory };

    fn from(_: AllocError) -> Self {
        IntakeFault::OutOfMemory
    }
}

/// The bytes of a stream that were received and not taken yet.
#[derive(Debug, Drop)]
pub struct Intake {
    held: BytesMut,
}

impl Model for Intake {
    ghost use Rattle.std.specs.Prelude.{ℕ, List};

    ghost Value = { List ℕ };

    ghost view = { λ i. i.held.items };
}

impl Intake {
    ghost use Rattle.ca_header.specs.Intake.{IsTake};
    ghost use Rattle.ca_header.specs.Reading.{front_at};

    pub fn new(alloc: Global) -> Self
        ensures { result ≡ [] }
    {
        Intake {
            held: BytesMut::new(alloc),
        }
    }

    /// Puts the next piece of the stream behind the bytes held.
    pub fn feed(&mut self, piece: &[u8]) -> Result<(), IntakeFault>
        ensures ok { OnOk result (self.new ≡ self.old ++ piece.now) }
        ensures err { OnErr result (self.new ≡ self.old) }
        ensures faulted { (fault : FrameFault) → (result ≡ Err (IntakeFault.Faulted fault))
            ↔ (front_at self.old ≡ Front.Fault fault) }
    {
        if let Front::Fault(fault) = read_front(self.held.as_slice()) {
            return Err(IntakeFault::Faulted(fault));
        }
        make_room(&mut self.held, piece.len())?;
        self.held.extend_reserved(piece);
        Ok(())
    }

    /// Takes the message at the front of the bytes held, or `None` while it is not whole.
    pub fn take(&mut self) -> Result<Option<Message>, IntakeFault>
        ensures { IsTake self.old (front_at self.old) result self.new }
    {
        match read_front(self.held.as_slice()) {
            Front::Whole(head, len) => {
                let payload = cut_payload(&mut self.held, len, head.size as usize)?;
                Ok(Some(Message { head, payload }))
            }
            Front::Partial => Ok(None),
            Front::Fault(fault) => Err(IntakeFault::Faulted(fault)),
        }
    }
}

// Room for `more` bytes. Where it grows, it at least doubles, whoever else holds parts of the
// buffer: so the bytes are moved a bounded number of times each.
fn make_room(held: &mut BytesMut, more: usize) -> Result<(), AllocError>
    ensures items { held.new.items ≡ held.old.items }
    ensures ok { OnOk result (more ≤ held.new.spare) }
{
    let spare = held.capacity() - held.len();
    if more > spare {
        held.reserve(more.max(held.len()))?;
    }
    Ok(())
}

// Takes a header of `len` bytes and its payload off the front. The payload shares the buffer.
fn cut_payload(held: &mut BytesMut, len: usize, size: usize) -> Result<Bytes, AllocError>
    requires within { len + size ≤ length held.old.items }
    requires fits { len + size < 2 ^ 63 }
    ensures ok { IfOk result (λ payload. payload ≡ take size (drop len held.old.items)) }
    ensures rest { OnOk result (held.new.items ≡ drop (len + size) held.old.items) }
    ensures err { OnErr result ((0 < size) × (held.new.items ≡ held.old.items)) }
{
    if size == 0 {
        held.advance(len);
        return Ok(Bytes::new());
    }
    let mut whole = held.freeze_to(len + size)?;
    whole.advance(len);
    Ok(whole)
}
