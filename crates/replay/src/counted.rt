//! A reader whose reads are counted.
ghost use Rattle.std.specs.Prelude.{◌≡◌, ◌+◌, ◌<◌, IsErr};
ghost use Rattle.std.specs.Io.{ReadsAtMost};
ghost use Rattle.std.specs.Io.KnownBytes.{ReadConsumes};

use std::io;
use std::io::{ErrorKind, Read};

/// A reader that fails in place of the read after the last one that it is allowed.
#[derive(Drop)]
pub struct Counted<R> {
    reader: R,
    left: u64,
}

impl<R: Read> Counted<R> {
    /// A reader that may be read so many times.
    pub fn new(reader: R, most: u64) -> Self
        ensures reader { result.reader ≡ reader }
        ensures left { result.left ≡ most }
    {
        Counted { reader, left: most }
    }
}

impl<R: Read> Read for Counted<R> {
    ghost remaining = { λ c. R.remaining c.reader };

    fn read(&mut self, buf: &mut [u8]) -> io::Result<usize>
        ensures bound { ReadsAtMost result buf.new }
        ensures bytes { ReadConsumes (R.remaining self.old.reader) (R.remaining self.new.reader) result buf.new }
        ensures counted { 0 < self.old.left → self.new.left + 1 ≡ self.old.left }
        ensures ended { self.old.left ≡ 0 → IsErr result × (self.new ≡ self.old) }
    {
        if self.left == 0 {
            return Err(io::Error::new(ErrorKind::Other, "too many reads"));
        }
        self.left -= 1;
        self.reader.read(buf)
    }
}
