//! Headers by their fields, and how payloads are padded.
ghost use Rattle.std.specs.Prelude.{◌≡◌, ◌+◌, ◌-◌, ◌<◌, ◌≤◌, ◌^◌, [], ◌++◌, length, min, replicate, take, IfOk};
ghost use Rattle.ca_header.specs.declared.header.TheConstants.{MAX_PAYLOAD};
ghost use Rattle.dbr_layout.specs.Layout.{filled_to};
ghost use Rattle.ca_message.specs.Padding.{missing_bytes, nul_ended, padded};
ghost use Rattle.ca_message.specs.Wire.{message, size_field};

use crate::NoMemory;
use bytes::Bytes;
use ca_header::{ALIGNMENT, Header, MAX_PAYLOAD, pad8};
use std::alloc::Global;

/// The most bytes that the size field can speak of.
pub(crate) const LARGEST_SIZE: u32 = 0xFFFF_FFFF;

/// How many bytes the payload of an EVENT_ADD request has.
pub(crate) const EVENT_PAYLOAD_LEN: u32 = 16;

/// Where its mask stands, behind three obsolete numbers of four bytes each.
pub(crate) const EVENT_MASK_OFFSET: usize = 12;

/// The header of a message without a payload.
pub(crate) fn header(command: u16, dtype: u16, count: u32, p1: u32, p2: u32) -> Header
    ensures { result ≡ (message command dtype count p1 p2 []).head }
{
    Header {
        command,
        dtype,
        p1,
        p2,
        count,
        size: 0,
    }
}

/// What the size field says of a payload.
pub(crate) fn size_of(payload: &Bytes) -> u32
    ensures { result ≡ size_field payload.now }
{
    size_of_len(payload.len())
}

/// What the size field says of a payload of `len` bytes.
pub(crate) fn size_of_len(len: usize) -> u32
    ensures { result ≡ min len LARGEST_SIZE }
{
    u32::try_from(len).unwrap_or(LARGEST_SIZE)
}

/// How many bytes a payload has whose value has `len` bytes.
pub(crate) fn padded_len(len: usize) -> usize
    requires { len < 2 ^ 40 }
    ensures { result ≡ len + missing_bytes len }
{
    let alignment = ALIGNMENT as usize;
    len + (alignment - len % alignment) % alignment
}

/// What the size field says of a payload that is `front`, `text`, a NUL and padding.
pub(crate) fn size_of_nul_ended(front: &[u8], text: &[u8]) -> u32
    requires { length front.now + length text.now < MAX_PAYLOAD }
    ensures bytes { result ≡ length (nul_ended (front.now ++ text.now)) }
    ensures field { result ≡ size_field (nul_ended (front.now ++ text.now)) }
{
    let len = front.len() + text.len() + 1;
    pad8(len as u32)
}

/// A payload that is `front`, `text`, a NUL and padding.
#[tactic(auto, using(crate::proofs::NulEnded::filled_up))]
pub(crate) fn write_nul_ended(alloc: Global, front: &[u8], text: &[u8]) -> Result<Bytes, NoMemory>
    requires { length front.now + length text.now < MAX_PAYLOAD }
    ensures { IfOk result (λ payload. payload ≡ nul_ended (front.now ++ text.now)) }
{
    // The NUL and the padding are zero bytes alike.
    let size = size_of_nul_ended(front, text) as usize;
    write_filled(alloc, front, text, size)
}

/// A payload that is `bytes`, zero bytes up to `len` bytes, and padding.
#[tactic(auto, using(crate::proofs::Filled::filled_up))]
pub(crate) fn write_padded(alloc: Global, bytes: &[u8], len: usize) -> Result<Bytes, NoMemory>
    requires within { length bytes.now ≤ len }
    requires small { len < 2 ^ 40 }
    ensures { IfOk result (λ payload. payload ≡ padded (filled_to len bytes.now)) }
{
    write_filled(alloc, &[], bytes, padded_len(len))
}

// A payload of `size` bytes that is `front`, `text` and zero bytes.
fn write_filled(alloc: Global, front: &[u8], text: &[u8], size: usize) -> Result<Bytes, NoMemory>
    ensures { IfOk result (λ payload. payload
        ≡ take size (front.now ++ text.now) ++ replicate (size - length (front.now ++ text.now)) 0) }
{
    let mut payload = Vec::with_capacity(alloc, size)?;
    payload.extend_from_slice(front)?;
    payload.extend_from_slice(text)?;
    payload.resize(size, 0)?;
    Ok(Bytes::from_vec(payload)?)
}
