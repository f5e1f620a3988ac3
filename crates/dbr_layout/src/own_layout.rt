//! Parts of payloads that are laid out already.
ghost use Rattle.std.specs.Prelude.{◌≡◌, ◌+◌, ◌<◌, ◌≤◌, ◌^◌, ◌↔◌, false, drop, length, replicate, IsTrue, IsSome, IfSome, SomeIff, Some};
ghost use Rattle.std.specs.Int.{next_multiple_of};
ghost use Rattle.dbr_layout.specs.declared.dbr.Dbr.{Dbr};
ghost use Rattle.dbr_layout.specs.declared.dbr.TheConstants.{ALIGNMENT, MAX_PAYLOAD};
ghost use Rattle.dbr_layout.specs.Conversion.{given_count};
ghost use Rattle.dbr_layout.specs.Dbr.{base_number, dbr_of, payload_size};
ghost use Rattle.dbr_layout.specs.Needs.{is_described};
ghost use Rattle.dbr_layout.specs.OwnLayout.{IsLaidOut, IsOwnPart, IsPlainThere};
ghost use Rattle.dbr_layout.specs.Parts.{fields_len};

use crate::dbr::{ALIGNMENT, Dbr, Form, MAX_PAYLOAD};
use std::ops::Range;

/// The part of a payload of `there` elements of the type with the number `dtype` that is already what
/// `Converted::write` gives of it, where `count` elements are asked for under the type with the number
/// `asked`, whatever the properties are. It can be given as it is then, without a copy. There is one where
///
/// - the count asks for all elements: it is `there` or 0;
/// - `asked` is `dtype`, of a form without properties, and the part begins with the payload; or `asked` is
///   the plain type of the same base, and the part begins with the elements;
/// - the part is within the payload and within `MAX_PAYLOAD`, with zero bytes alone between the fields
///   and the value and behind the elements. Bytes that follow the part aren't looked at.
///
/// No element is looked at, so many of them cost no more than one.
pub fn own_part(
    dtype: u16,
    there: u32,
    bytes: &[u8],
    asked: u16,
    count: u32,
) -> Option<Range<usize>>
    ensures part { IfSome result (λ part. IsOwnPart dtype there bytes.now asked count part.start part.end) }
    ensures own { (native : Dbr) → dbr_of dtype ≡ Some native → given_count count there ≡ there
        → asked ≡ dtype → IsLaidOut native there bytes.now → IsSome result }
    ensures plain { (native : Dbr) → dbr_of dtype ≡ Some native → given_count count there ≡ there
        → asked ≡ base_number native.base → IsPlainThere native there bytes.now → IsSome result }
{
    let native = Dbr::of(dtype)?;
    if !asks_for_all(there, count) {
        return None;
    }
    if asked == dtype {
        part_from(0, native, there, bytes)
    } else if asked == native.base.number() {
        let plain = Dbr {
            base: native.base,
            form: Form::Plain,
        };
        part_from(native.offset() as usize, plain, there, bytes)
    } else {
        None
    }
}

// Whether a count asks for as many elements as there are.
fn asks_for_all(there: u32, count: u32) -> bool
    ensures { IsTrue result ↔ (given_count count there ≡ there) }
{
    count == 0 || count == there
}

// The part from `start` on that is laid out as this many elements of a type.
fn part_from(start: usize, dbr: Dbr, count: u32, bytes: &[u8]) -> Option<Range<usize>>
    ensures start { IfSome result (λ part. part.start ≡ start) }
    ensures end { IfSome result (λ part. part.end ≡ start + payload_size dbr count) }
    ensures within { IfSome result (λ part. part.end ≤ length bytes.now) }
    ensures laid_out { IfSome result (λ part. IsLaidOut dbr count (drop start bytes.now)) }
    ensures found { start ≤ length bytes.now → IsLaidOut dbr count (drop start bytes.now) → IsSome result }
{
    let len = laid_out_len(dbr, count, bytes.get(start..)?)?;
    Some(start..start + len)
}

// How many of the bytes are what the parts that they hold are laid out as. The tables of offsets and
// sizes are looked at once each.
fn laid_out_len(dbr: Dbr, count: u32, bytes: &[u8]) -> Option<usize>
    ensures { SomeIff result (IsLaidOut dbr count bytes.now) (payload_size dbr count) }
{
    let start = dbr.offset() as usize;
    let end = start + count as usize * dbr.element() as usize;
    let len = size_within(end, bytes.len())?;
    let fields = fields_len(dbr.form)? as usize;
    if is_zero(&bytes[fields..start]) && is_zero(&bytes[end..len]) {
        Some(len)
    } else {
        None
    }
}

// The size of a payload whose elements end there, where there are so many bytes and may be.
fn size_within(end: usize, len: usize) -> Option<usize>
    requires { end < 2 ^ 40 }
    ensures { let size = next_multiple_of end ALIGNMENT in SomeIff result ((size ≤ len) × (size ≤ MAX_PAYLOAD)) size }
{
    let size = end.next_multiple_of(ALIGNMENT);
    if size <= len && size <= MAX_PAYLOAD as usize {
        Some(size)
    } else {
        None
    }
}

// How many bytes the fields have, in a form that tells no properties.
fn fields_len(form: Form) -> Option<u32>
    ensures { SomeIff result (is_described form ≡ false) (fields_len form) }
{
    match form {
        Form::Plain => Some(0),
        Form::Sts => Some(4),
        Form::Time => Some(12),
        Form::Gr | Form::Ctrl => None,
    }
}

fn is_zero(bytes: &[u8]) -> bool
    ensures { IsTrue result ↔ (bytes.now ≡ replicate (length bytes.now) 0) }
{
    bytes.iter().all(|byte| *byte == 0)
}
