//! Values as they lie in payloads.
ghost use Rattle.std.specs.Prelude.{◌≡◌, ◌<◌, ◌≤◌, ◌^◌, true, bytes_eq, length, replicate, take, IfSome};
ghost use Rattle.std.specs.Cmp.{partial_equiv_from_equiv};
ghost use Rattle.std.specs.Cmp.Lexicographic.{nat_list_eq_equiv};
ghost use Rattle.dbr_layout.specs.Layout.{filled_to};
ghost use Rattle.ca_message.specs.Padding.{padded};

use crate::payload::padded_len;
use bytes::Bytes;
use std::fmt;
use std::marker::Model;

/// The bytes of a value, borrowed from the payload in which it came.
#[derive(Drop)]
pub struct ValueBytes<'a> {
    bytes: &'a [u8],
    /// The payload whose bytes these are, where it may be shared.
    payload: Option<&'a Bytes>,
}

impl<'a> Model for ValueBytes<'a> {
    ghost use Rattle.std.specs.Prelude.{◌≡◌, ℕ, List, IfSome};

    ghost Value = { List ℕ };

    ghost view = { λ v. v.bytes.now };

    ghost invariant = { λ v. IfSome v.payload (λ payload. payload.now ≡ v.bytes.now) };
}

impl<'a> ValueBytes<'a> {
    /// A payload that is a value, and that may be shared with who hands the value on.
    pub fn of_payload(payload: &'a Bytes) -> ValueBytes<'a>
        ensures { result ≡ payload.now }
    {
        ValueBytes {
            bytes: payload.as_slice(),
            payload: Some(payload),
        }
    }

    pub fn as_slice(&self) -> &'a [u8]
        ensures { result.now ≡ self.now }
    {
        self.bytes
    }

    /// The payload, where it is already what a value is handed on as whose `size` bytes are the first
    /// `len` bytes and zero bytes.
    pub(crate) fn handed_on(&self, len: usize, size: usize) -> Option<&'a Bytes>
        requires within { len ≤ size }
        requires there { len ≤ length self.now }
        requires small { size < 2 ^ 40 }
        ensures { IfSome result (λ payload. payload.now ≡ padded (filled_to size (take len self.now))) }
    {
        let payload = self.payload?;
        if is_handed_on(self.bytes, len, size) {
            Some(payload)
        } else {
            None
        }
    }
}

/// Whether a payload ends with the padding of a value of `size` bytes, and has zero bytes alone behind
/// its first `len` bytes.
fn is_handed_on(payload: &[u8], len: usize, size: usize) -> bool
    requires within { len ≤ size }
    requires there { len ≤ length payload.now }
    requires small { size < 2 ^ 40 }
    ensures { result ≡ true → payload.now ≡ padded (filled_to size (take len payload.now)) }
{
    payload.len() == padded_len(size) && is_zero(&payload[len..])
}

/// Whether there are zero bytes alone.
fn is_zero(bytes: &[u8]) -> bool
    ensures { result ≡ true → bytes.now ≡ replicate (length bytes.now) 0 }
{
    bytes.iter().all(|byte| *byte == 0)
}

impl<'a> From<&'a [u8]> for ValueBytes<'a> {
    ghost from_gives = { λ bytes value. value ≡ bytes.now };

    fn from(bytes: &'a [u8]) -> ValueBytes<'a> {
        ValueBytes {
            bytes,
            payload: None,
        }
    }
}

impl<'a> fmt::Debug for ValueBytes<'a> {
    fn fmt<W: fmt::Write>(&self, f: &mut fmt::Formatter<W>) -> fmt::Result {
        f.debug_struct("ValueBytes")
            .field("bytes", &self.bytes)
            .finish()
    }
}

impl<'a> PartialEq for ValueBytes<'a> {
    ghost eq = { bytes_eq };

    ghost laws = { partial_equiv_from_equiv nat_list_eq_equiv };

    fn eq(&self, other: &ValueBytes<'a>) -> bool {
        self.bytes == other.bytes
    }
}

impl<'a> Eq for ValueBytes<'a> {
    ghost laws = { nat_list_eq_equiv };
}
