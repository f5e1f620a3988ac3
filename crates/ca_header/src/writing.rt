//! How a header is written.
ghost use Rattle.std.specs.Prelude.{◌≡◌, ℕ, ◌<◌, ◌≤◌, List, ◌++◌, length, take, drop};
ghost use Rattle.ca_header.specs.Header.{canonical_header, extended_header, leading_fields, plain_header};
ghost use Rattle.ca_header.specs.declared.header.TheConstants.{EXTENDED_LEN};

use crate::header::{EXTENDED_LEN, EXTENDED_MARK, Header, PLAIN_LEN};
use byteorder::{BigEndian, ByteOrder};
use std::marker::Model;

/// A header as it is sent: 16 bytes, or 24 in the extended form.
#[derive(Debug, Drop)]
pub struct HeadBytes {
    bytes: [u8; EXTENDED_LEN],
    len: usize,
}

impl Model for HeadBytes {
    ghost Value = { List ℕ };

    ghost view = { λ h. take h.len h.bytes };

    ghost invariant = { λ h. h.len ≤ EXTENDED_LEN };
}

impl HeadBytes {
    pub fn as_slice(&self) -> &[u8]
        ensures { result.now ≡ self.now }
    {
        &self.bytes[..self.len]
    }
}

/// The header as it is sent: in the extended form exactly where its size or its count needs it.
pub fn write_head(head: &Header) -> HeadBytes
    ensures { result ≡ canonical_header head.now }
{
    let mark = u32::from(EXTENDED_MARK);
    if head.size >= mark || head.count >= mark {
        extended(head)
    } else {
        plain(head)
    }
}

fn plain(head: &Header) -> HeadBytes
    requires size { head.now.size < EXTENDED_MARK }
    requires count { head.now.count < EXTENDED_MARK }
    ensures { result ≡ plain_header head.now }
{
    let mut bytes = [0; EXTENDED_LEN];
    put_leading_fields(&mut bytes, head, head.size as u16, head.count as u16);
    HeadBytes {
        bytes,
        len: PLAIN_LEN,
    }
}

fn extended(head: &Header) -> HeadBytes
    ensures { result ≡ extended_header head.now }
{
    let mut bytes = [0; EXTENDED_LEN];
    put_leading_fields(&mut bytes, head, EXTENDED_MARK, 0);
    BigEndian::write_u32(&mut bytes[16..], head.size);
    BigEndian::write_u32(&mut bytes[20..], head.count);
    HeadBytes {
        bytes,
        len: EXTENDED_LEN,
    }
}

fn put_leading_fields(out: &mut [u8], head: &Header, size: u16, count: u16)
    requires { PLAIN_LEN ≤ length out.old }
    ensures { out.new ≡ leading_fields head.now size count ++ drop PLAIN_LEN out.old }
{
    BigEndian::write_u16(out, head.command);
    BigEndian::write_u16(&mut out[2..], size);
    BigEndian::write_u16(&mut out[4..], head.dtype);
    BigEndian::write_u16(&mut out[6..], count);
    BigEndian::write_u32(&mut out[8..], head.p1);
    BigEndian::write_u32(&mut out[12..], head.p2);
}
