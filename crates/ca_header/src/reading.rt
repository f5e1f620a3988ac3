//! How a header is read, and what stands at the front of a stream.
ghost use Rattle.std.specs.Prelude.{◌≡◌, ◌+◌, ◌≤◌, length, IfSome};
ghost use Rattle.ca_header.specs.Reading.{IfGot, IfWhole, extended_at, front_at, head_at, header_at, is_extended, plain_at, verdict};

use crate::header::{ALIGNMENT, EXTENDED_LEN, EXTENDED_MARK, Header, MAX_PAYLOAD, PLAIN_LEN};
use byteorder::{BigEndian, ByteOrder};
use std::error::Error;
use std::fmt;

/// What some bytes begin with.
#[derive(Clone, Copy)]
pub enum Head {
    /// Less than a header.
    Need,
    /// A header, which takes so many bytes.
    Got(Header, usize),
    /// A header whose size is no multiple of [`ALIGNMENT`].
    Misaligned,
    /// A header whose size is above [`MAX_PAYLOAD`].
    TooLarge,
}

/// Why a stream cannot be cut into messages any further. The connection is to be closed.
#[derive(Clone, Copy, Debug, PartialEq, Eq)]
pub enum FrameFault {
    /// A header's size is no multiple of [`ALIGNMENT`].
    Misaligned,
    /// A header's size is above [`MAX_PAYLOAD`].
    TooLarge,
}

impl fmt::Display for FrameFault {
    fn fmt<W: fmt::Write>(&self, f: &mut fmt::Formatter<W>) -> fmt::Result {
        f.write_str(match self {
            FrameFault::Misaligned => "a payload's size is no multiple of 8",
            FrameFault::TooLarge => "a payload's size is above 16777216",
        })
    }
}

impl Error for FrameFault {}

/// What stands at the front of a stream.
#[derive(Clone, Copy)]
pub enum Front {
    /// A whole message: its header, which takes so many bytes, and then its payload.
    Whole(Header, usize),
    /// Less than a message.
    Partial,
    Fault(FrameFault),
}

/// The header that the bytes begin with. Either form is read for any size.
pub fn read_head(bytes: &[u8]) -> Head
    ensures exact { result ≡ head_at bytes.now }
    ensures got { IfGot result (λ head len. len ≤ length bytes.now) }
{
    match header_of(bytes) {
        None => Head::Need,
        Some((head, len)) => judge(head, len),
    }
}

pub fn read_front(bytes: &[u8]) -> Front
    ensures exact { result ≡ front_at bytes.now }
    ensures whole { IfWhole result (λ head len. len + head.size ≤ length bytes.now) }
{
    match read_head(bytes) {
        Head::Need => Front::Partial,
        Head::Got(head, len) => {
            if head.size as usize <= bytes.len() - len {
                Front::Whole(head, len)
            } else {
                Front::Partial
            }
        }
        Head::Misaligned => Front::Fault(FrameFault::Misaligned),
        Head::TooLarge => Front::Fault(FrameFault::TooLarge),
    }
}

fn judge(head: Header, len: usize) -> Head
    ensures { result ≡ verdict head len }
{
    if !head.size.is_multiple_of(ALIGNMENT) {
        Head::Misaligned
    } else if head.size > MAX_PAYLOAD {
        Head::TooLarge
    } else {
        Head::Got(head, len)
    }
}

#[tactic(auto, unfolding(crate::specs::Reading::header_at))]
fn header_of(bytes: &[u8]) -> Option<(Header, usize)>
    ensures exact { result ≡ header_at bytes.now }
    ensures found { IfSome result (λ found. found.1 ≤ length bytes.now) }
{
    if bytes.len() < PLAIN_LEN {
        None
    } else if !has_mark(bytes) {
        Some((plain(bytes), PLAIN_LEN))
    } else if bytes.len() < EXTENDED_LEN {
        None
    } else {
        Some((extended(bytes), EXTENDED_LEN))
    }
}

fn has_mark(bytes: &[u8]) -> bool
    requires { PLAIN_LEN ≤ length bytes.now }
    ensures { result ≡ is_extended bytes.now }
{
    BigEndian::read_u16(&bytes[2..]) == EXTENDED_MARK && BigEndian::read_u16(&bytes[6..]) == 0
}

fn plain(bytes: &[u8]) -> Header
    requires { PLAIN_LEN ≤ length bytes.now }
    ensures { result ≡ plain_at bytes.now }
{
    Header {
        command: BigEndian::read_u16(bytes),
        dtype: BigEndian::read_u16(&bytes[4..]),
        p1: BigEndian::read_u32(&bytes[8..]),
        p2: BigEndian::read_u32(&bytes[12..]),
        count: u32::from(BigEndian::read_u16(&bytes[6..])),
        size: u32::from(BigEndian::read_u16(&bytes[2..])),
    }
}

fn extended(bytes: &[u8]) -> Header
    requires { EXTENDED_LEN ≤ length bytes.now }
    ensures { result ≡ extended_at bytes.now }
{
    Header {
        size: BigEndian::read_u32(&bytes[16..]),
        count: BigEndian::read_u32(&bytes[20..]),
        ..plain(bytes)
    }
}
