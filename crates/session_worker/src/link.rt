//! A connection's bytes, both ways.
ghost use Rattle.std.specs.Prelude.{◌≡◌, ◌≤◌, ◌<◌, ℕ, List, Option, None, length, IfOk, OnOk, OnErr};
ghost use Rattle.std.specs.Io.KnownBytes.{Keeps, ReadConsumes, WriteAppends};
ghost use Rattle.session_worker.specs.Links.{HasRisen};

/// A call of a link failed: the connection can't be read or written.
#[derive(Clone, Copy, Debug, PartialEq, Eq)]
pub struct LinkFault;

/// A stream of bytes both ways, as a socket is. What its calls say of bytes is said where these are known,
/// as those of a `MemoryLink` are; of a socket's none are.
pub trait Link {
    // The bytes that reads will give from here on, where they are known.
    ghost unread: { Self → Option (List ℕ) } = { λ _. None };

    // The bytes that were written so far, where they are known.
    ghost written: { Self → Option (List ℕ) } = { λ _. None };

    // How many calls have failed.
    ghost failed: { Self → ℕ };

    /// Reads the next bytes into the buffer and answers how many. None are the end of the stream, where
    /// the buffer isn't empty.
    fn read_piece(&mut self, buffer: &mut [u8]) -> Result<usize, LinkFault>
        ensures bound { IfOk result (λ n. n ≤ length buffer.new) }
        ensures length { length buffer.new ≡ length buffer.old }
        ensures bytes { ReadConsumes (unread self.old) (unread self.new) result buffer.new }
        ensures kept { Keeps (written self.old) (written self.new) }
        ensures ok { OnOk result (failed self.new ≡ failed self.old) }
        ensures err { OnErr result (HasRisen (failed self.old) (failed self.new)) };

    /// Writes some of the bytes, at least one where there is one, and answers how many.
    fn write_piece(&mut self, bytes: &[u8]) -> Result<usize, LinkFault>
        ensures bound { IfOk result (λ n. n ≤ length bytes.now) }
        ensures some { IfOk result (λ n. 0 < length bytes.now → 0 < n) }
        ensures bytes { WriteAppends (written self.old) (written self.new) result bytes.now }
        ensures kept { Keeps (unread self.old) (unread self.new) }
        ensures ok { OnOk result (failed self.new ≡ failed self.old) }
        ensures err { OnErr result (HasRisen (failed self.old) (failed self.new)) };

    /// How many calls have failed, up to the type's last value.
    fn faults(&self) -> u64
        ensures { result ≡ failed self.now };
}
