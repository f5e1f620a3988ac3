//! Bytes that go to a link, gathered into few writes.
ghost use Rattle.std.specs.Prelude.{◌≡◌, ◌≤◌, ◌+◌, ◌++◌, ◌↔◌, [], length, take, is_ok, IsOk, OnOk, IsTrue, IsFalse};
ghost use Rattle.std.specs.Io.KnownBytes.{Keeps};
ghost use Rattle.session_worker.specs.Writing.{IsWritten, Progress};

use crate::link::{Link, LinkFault};
use std::marker::Model;

/// How many bytes a buffer holds at most.
pub const OUT_BUFFER_SIZE: usize = 16_384;

/// Bytes that go to a link: they are held until so many have come together, or until they are flushed, so that one
/// write takes many. It takes no memory besides its own.
///
/// After a call has failed nothing is said of what it holds.
#[derive(Drop)]
pub struct OutBuffer {
    bytes: [u8; OUT_BUFFER_SIZE],
    held: usize,
    // How many bytes the link has taken, up to the type's last value.
    written: u128,
}

impl Model for OutBuffer {
    ghost use Rattle.std.specs.Prelude.{◌≤◌, take};
    ghost use Rattle.session_worker.specs.Writing.{BufferState};
    ghost use Rattle.session_worker.specs.declared.out_buffer.TheConstants.{OUT_BUFFER_SIZE};

    ghost Value = { BufferState };

    ghost view = { λ b. record { held = take b.held b.bytes; count = b.written } };

    ghost invariant = { λ b. b.held ≤ OUT_BUFFER_SIZE };
}

impl OutBuffer {
    /// It holds none, and has written none.
    pub fn new() -> OutBuffer
        ensures { result ≡ record { held = []; count = 0 } }
    {
        OutBuffer {
            bytes: [0; OUT_BUFFER_SIZE],
            held: 0,
            written: 0,
        }
    }

    /// How many bytes were written, up to the type's last value.
    pub fn written(&self) -> u128
        ensures { result ≡ self.now.count }
    {
        self.written
    }

    /// Puts bytes behind those that are held. Where they don't fit, those that are held are written first; more
    /// than it can hold are then written at once.
    pub fn put<L: Link>(&mut self, link: &mut L, bytes: &[u8]) -> Result<(), LinkFault>
        ensures written { IsWritten (is_ok result) (self.old.held ++ bytes.now) self.new.held
            (record { written = L.written link.old; failed = L.failed link.old; count = self.old.count })
            (record { written = L.written link.new; failed = L.failed link.new; count = self.new.count }) }
        ensures gathers { length self.old.held + length bytes.now ≤ OUT_BUFFER_SIZE →
            IsOk result × (self.new ≡ record self.old { held = self.old.held ++ bytes.now }) }
        ensures kept { Keeps (L.unread link.old) (L.unread link.new) }
    {
        if self.hold(bytes) {
            return Ok(());
        }
        match self.flush(link) {
            Ok(()) => (),
            Err(fault) => return Err(fault),
        }
        if self.hold(bytes) {
            return Ok(());
        }
        write_all(link, bytes, &mut self.written)
    }

    /// Writes all that is held.
    pub fn flush<L: Link>(&mut self, link: &mut L) -> Result<(), LinkFault>
        ensures written { IsWritten (is_ok result) self.old.held self.new.held
            (record { written = L.written link.old; failed = L.failed link.old; count = self.old.count })
            (record { written = L.written link.new; failed = L.failed link.new; count = self.new.count }) }
        ensures none { OnOk result (self.new.held ≡ []) }
        ensures kept { Keeps (L.unread link.old) (L.unread link.new) }
    {
        write_all(link, &self.bytes[..self.held], &mut self.written)?;
        self.held = 0;
        Ok(())
    }

    // Puts bytes behind those that are held, where they fit.
    fn hold(&mut self, bytes: &[u8]) -> bool
        ensures fits { IsTrue result ↔ (length self.old.held + length bytes.now ≤ OUT_BUFFER_SIZE) }
        ensures some { IsTrue result → self.new ≡ record self.old { held = self.old.held ++ bytes.now } }
        ensures none { IsFalse result → self.new ≡ self.old }
    {
        if bytes.len() > OUT_BUFFER_SIZE - self.held {
            return false;
        }
        copy_in(&mut self.bytes, self.held, bytes);
        self.held += bytes.len();
        true
    }
}

// Copies bytes to a place for which there is room.
fn copy_in(buffer: &mut [u8], start: usize, bytes: &[u8])
    requires { start + length bytes.now ≤ length buffer.old }
    ensures front { take (start + length bytes.now) buffer.new ≡ take start buffer.old ++ bytes.now }
    ensures same { length buffer.new ≡ length buffer.old }
{
    let end = start + bytes.len();
    buffer[start..end].copy_from_slice(bytes);
}

// Writes the bytes, and counts what was written.
fn write_all<L: Link>(link: &mut L, bytes: &[u8], written: &mut u128) -> Result<(), LinkFault>
    ensures written { IsWritten (is_ok result) bytes.now []
        (record { written = L.written link.old; failed = L.failed link.old; count = written.old })
        (record { written = L.written link.new; failed = L.failed link.new; count = written.new }) }
    ensures kept { Keeps (L.unread link.old) (L.unread link.new) }
{
    let mut at = 0;
    while at < bytes.len() {
        let count = match link.write_piece(&bytes[at..]) {
            Ok(count) => count,
            Err(fault) => return Err(fault),
        };
        at += count;
        *written = written.saturating_add(count as u128);
    }
    Ok(())
}
