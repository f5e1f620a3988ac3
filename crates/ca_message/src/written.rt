//! Values that are written.
ghost use Rattle.std.specs.Prelude.{◌≡◌, ◌<◌, ◌≤◌, ◌^◌, length, take, IfOk};
ghost use Rattle.std.specs.List.{before_first};
ghost use Rattle.ca_message.specs.Padding.{padded};
ghost use Rattle.ca_message.specs.Text.{is_nul};
ghost use Rattle.ca_message.specs.Wire.{message};
ghost use Rattle.ca_message.specs.Written.{plain_type};

use crate::NoMemory;
use crate::codes::{ECA_BADCOUNT, ECA_BADTYPE};
use crate::payload::{header, padded_len, size_of_len, write_padded};
use crate::text::nul_place;
use crate::value::ValueBytes;
use bytes::Bytes;
use ca_header::Header;
use dbr_layout::{Base, Dbr, Form};
use std::alloc::Global;
use std::marker::Model;

/// How many bytes a STRING has.
pub(crate) const STRING_SIZE: usize = 40;

/// Why a value can't be written.
#[derive(Clone, Copy, Debug, PartialEq, Eq)]
pub enum WriteFault {
    /// The type isn't a plain one: something stands before its elements, or there is no such type.
    BadType,
    /// The count is 0, or over that of the channel.
    BadCount,
    /// The payload ends before the elements do. A single STRING may be shorter than 40 bytes, but
    /// not empty.
    Short,
}

impl WriteFault {
    ghost use Rattle.ca_message.specs.Written.{refusal_code};

    /// The code under which the write is refused.
    pub fn code(self) -> u32
        ensures { result ≡ refusal_code self }
    {
        match self {
            WriteFault::BadType => ECA_BADTYPE,
            WriteFault::BadCount | WriteFault::Short => ECA_BADCOUNT,
        }
    }
}

/// A value that may be written: so many elements of a plain type. It has exactly their bytes, which
/// are slices of the payload in which the value came, and, for a single STRING, zero bytes behind its
/// text.
#[derive(Debug, Drop)]
pub struct WrittenValue<'a> {
    dtype: u16,
    count: u32,
    bytes: &'a [u8],
    /// How many bytes the elements have. Those that `bytes` lacks are zero.
    size: usize,
    /// The payload in which the value came, where that is what is handed on already.
    handed_on: Option<&'a Bytes>,
}

impl<'a> Model for WrittenValue<'a> {
    ghost use Rattle.std.specs.Prelude.{◌≡◌, ◌<◌, ◌≤◌, ◌^◌, length, IfSome};
    ghost use Rattle.dbr_layout.specs.Layout.{filled_to};
    ghost use Rattle.ca_message.specs.Padding.{padded};
    ghost use Rattle.ca_message.specs.Written.{Written};

    ghost Value = { Written };

    ghost view = { λ v. record { dtype = v.dtype; count = v.count; bytes = filled_to v.size v.bytes.now } };

    ghost invariant = { λ v. (length v.bytes.now ≤ v.size) × (0 < v.size) × (v.size < 2 ^ 40)
        × IfSome v.handed_on (λ payload. payload.now ≡ padded (filled_to v.size v.bytes.now)) };
}

impl<'a> WrittenValue<'a> {
    ghost use Rattle.ca_message.specs.Written.{string_value, value_of, whole_value, written};

    /// The value that a client writes with this type, count and payload to a channel of `native`
    /// elements. What the payload holds past the elements is left out, and so is what a single STRING
    /// holds past its first NUL. It takes no memory.
    pub fn read(dtype: u16, count: u32, native: u32, payload: &'a [u8]) -> Result<Self, WriteFault>
        ensures { result ≡ written dtype count native payload.now }
    {
        Self::of(dtype, count, native, &ValueBytes::from(payload))
    }

    /// The same of a value that a request brings. Where its payload may be shared, and is already what
    /// is handed on, it is handed on itself, without a copy.
    pub fn of(
        dtype: u16,
        count: u32,
        native: u32,
        payload: &ValueBytes<'a>,
    ) -> Result<Self, WriteFault>
        ensures { result ≡ written dtype count native payload.now }
    {
        let dbr = plain_type(dtype).ok_or(WriteFault::BadType)?;
        if count == 0 || native < count {
            return Err(WriteFault::BadCount);
        }
        match dbr.base {
            Base::String if count == 1 => Self::string(dtype, payload),
            _ => Self::whole(
                dtype,
                count,
                count as usize * dbr.element() as usize,
                payload,
            ),
        }
    }

    // A value of `size` bytes.
    fn whole(
        dtype: u16,
        count: u32,
        size: usize,
        payload: &ValueBytes<'a>,
    ) -> Result<Self, WriteFault>
        requires some { 0 < size }
        requires small { size < 2 ^ 40 }
        ensures { result ≡ whole_value dtype count size payload.now }
    {
        let bytes = payload.as_slice();
        if bytes.len() < size {
            return Err(WriteFault::Short);
        }
        Ok(WrittenValue {
            dtype,
            count,
            bytes: &bytes[..size],
            size,
            handed_on: payload.handed_on(size, size),
        })
    }

    // A single STRING.
    fn string(dtype: u16, payload: &ValueBytes<'a>) -> Result<Self, WriteFault>
        ensures { result ≡ string_value dtype payload.now }
    {
        let bytes = payload.as_slice();
        if bytes.is_empty() {
            return Err(WriteFault::Short);
        }
        let text = text_of(bytes);
        Ok(WrittenValue {
            dtype,
            count: 1,
            bytes: text,
            size: STRING_SIZE,
            handed_on: payload.handed_on(text.len(), STRING_SIZE),
        })
    }

    /// The header of a message that brings the value.
    pub(crate) fn head(&self, command: u16, p1: u32, p2: u32) -> Header
        ensures { result ≡ (message command self.now.dtype self.now.count p1 p2 (padded self.now.bytes)).head }
    {
        Header {
            size: size_of_len(padded_len(self.size)),
            ..header(command, self.dtype, self.count, p1, p2)
        }
    }

    /// The payload of such a message: the bytes of the elements, and zero bytes up to a multiple of 8.
    /// It is the payload in which the value came, where that is so.
    pub(crate) fn payload(&self, alloc: Global) -> Result<Bytes, NoMemory>
        ensures ok { IfOk result (λ payload. payload ≡ padded self.now.bytes) }
        ensures some { 0 < length (padded self.now.bytes) }
    {
        match self.handed_on {
            Some(payload) => payload.slice(..),
            None => write_padded(alloc, self.bytes, self.size),
        }
    }
}

// The plain type with this number.
fn plain_type(dtype: u16) -> Option<Dbr>
    ensures { result ≡ plain_type dtype }
{
    let dbr = Dbr::of(dtype)?;
    match dbr.form {
        Form::Plain => Some(dbr),
        _ => None,
    }
}

// The text of a single STRING: of its first 40 bytes those before the first NUL.
fn text_of(payload: &[u8]) -> &[u8]
    ensures text { result.now ≡ before_first is_nul (take STRING_SIZE payload.now) }
    ensures short { length result.now ≤ STRING_SIZE }
{
    before_nul(first_bytes(payload))
}

// The first 40 bytes, or all where fewer are there.
fn first_bytes(payload: &[u8]) -> &[u8]
    ensures bytes { result.now ≡ take STRING_SIZE payload.now }
    ensures short { length result.now ≤ STRING_SIZE }
{
    if payload.len() < STRING_SIZE {
        payload
    } else {
        &payload[..STRING_SIZE]
    }
}

// The bytes before the first NUL, or all where there is none.
#[tactic(auto, using(std::proofs::lemmas::List::take_all))]
fn before_nul(bytes: &[u8]) -> &[u8]
    ensures text { result.now ≡ before_first is_nul bytes.now }
    ensures short { length result.now ≤ length bytes.now }
{
    match nul_place(bytes) {
        Some(end) => &bytes[..end],
        None => bytes,
    }
}
