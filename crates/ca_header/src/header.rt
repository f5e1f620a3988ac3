//! Headers and messages, and the numbers that limit them.
ghost use Rattle.std.specs.Prelude.{◌≡◌, ◌+◌, ◌%◌, ◌<◌, ◌≤◌};

use bytes::Bytes;

/// How many bytes a plain header has.
pub const PLAIN_LEN: usize = 16;

/// How many bytes an extended header has.
pub const EXTENDED_LEN: usize = 24;

/// What stands in the size field of an extended header, beside a count field of 0. A size or a
/// count from here on is sent in the extended form.
pub const EXTENDED_MARK: u16 = 0xFFFF;

/// A payload's size is a multiple of this many bytes.
pub const ALIGNMENT: u32 = 8;

/// The size of the largest payload that is taken, in bytes.
pub const MAX_PAYLOAD: u32 = 16_777_216;

/// The header of a message (Channel Access Protocol Specification, "Message Header"). What `dtype`,
/// `count`, `p1` and `p2` mean depends on the command.
#[derive(Clone, Copy, Debug, PartialEq, Eq)]
pub struct Header {
    pub command: u16,
    pub dtype: u16,
    pub p1: u32,
    pub p2: u32,
    /// How many elements the payload has.
    pub count: u32,
    /// How many bytes the payload has, its padding counted.
    pub size: u32,
}

/// A message. Its payload has as many bytes as its header's `size` says.
#[derive(Debug, Drop)]
pub struct Message {
    pub head: Header,
    pub payload: Bytes,
}

/// The size of a payload of `len` bytes with its padding: the least multiple of 8 that is not below
/// `len`.
pub fn pad8(len: u32) -> u32
    requires { len ≤ MAX_PAYLOAD }
    ensures multiple { result % ALIGNMENT ≡ 0 }
    ensures enough { len ≤ result }
    ensures least { result < len + ALIGNMENT }
{
    len.div_ceil(ALIGNMENT) * ALIGNMENT
}
