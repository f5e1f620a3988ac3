//! Elements of one base as elements of another.
ghost use Rattle.std.specs.Prelude.{◌≡◌, ◌≤◌, [], ◌++◌, is_some, length, map, take, OnOk};
ghost use Rattle.std.specs.List.{concat};
ghost use Rattle.dbr_layout.specs.Conversion.{base_of, conversion_between, converted_element, converted_size, number_in, read_size, states_read, text_of};
ghost use Rattle.dbr_layout.specs.Dbr.{element_size};
ghost use Rattle.dbr_layout.specs.Elements.{AreSized};
ghost use Rattle.dbr_layout.specs.Layout.{filled_to};
ghost use Rattle.dbr_layout.specs.States.{state_text};

use crate::dbr::{Base, Dbr};
use crate::sized::Elements;
use crate::states::{STATES_SIZE, text_in};
use byteorder::{BigEndian, ByteOrder};
use itoa::Buffer;
use std::alloc::AllocError;

/// How many bytes a STRING has.
const STRING_SIZE: usize = 40;

/// The bases whose elements are integers.
#[derive(Clone, Copy, Debug, PartialEq, Eq)]
pub(crate) enum Integer {
    Short,
    Enum,
    Char,
    Long,
}

/// How an element becomes one of another base.
#[derive(Clone, Copy, Debug, PartialEq, Eq)]
pub(crate) enum Conversion {
    /// The bytes stay.
    Unchanged,
    /// The number of a CHAR becomes a SHORT.
    CharToShort,
    /// The number becomes a LONG.
    ToLong(Integer),
    /// The number becomes a STRING, its decimal text.
    ToText(Integer),
    /// The number of a state becomes a STRING, the state's text.
    ToState,
}

impl Integer {
    // The number that an element is.
    fn number_in(self, element: &[u8]) -> i32
        requires { element_size (base_of self) ≤ length element.now }
        ensures { result ≡ number_in self element.now }
    {
        match self {
            Integer::Short => i32::from(BigEndian::read_i16(element)),
            Integer::Enum => i32::from(BigEndian::read_u16(element)),
            Integer::Char => i32::from(element[0]),
            Integer::Long => BigEndian::read_i32(element),
        }
    }
}

impl Conversion {
    /// How an element of the first base becomes one of the second, where that is served.
    #[tactic(auto, unfolding(crate::specs::Conversion::conversion_between))]
    pub(crate) fn between(from: Base, to: Base) -> Option<Conversion>
        ensures { result ≡ conversion_between from to }
    {
        match (from, to) {
            (Base::Char, Base::Short) => Some(Conversion::CharToShort),
            (Base::Char, Base::Long) => Some(Conversion::ToLong(Integer::Char)),
            (Base::Short, Base::Long) => Some(Conversion::ToLong(Integer::Short)),
            (Base::Enum, Base::Long) => Some(Conversion::ToLong(Integer::Enum)),
            (Base::Char, Base::String) => Some(Conversion::ToText(Integer::Char)),
            (Base::Short, Base::String) => Some(Conversion::ToText(Integer::Short)),
            (Base::Long, Base::String) => Some(Conversion::ToText(Integer::Long)),
            (Base::Enum, Base::String) => Some(Conversion::ToState),
            _ if from == to => Some(Conversion::Unchanged),
            _ => None,
        }
    }
}

/// Whether elements of the first type are given as elements of the second: those of each base as
/// they are, CHAR as SHORT, CHAR, SHORT and ENUM as LONG, and the four integers as STRING.
pub fn converts(from: Dbr, to: Dbr) -> bool
    ensures { result ≡ is_some (conversion_between from.base to.base) }
{
    Conversion::between(from.base, to.base).is_some()
}

/// Writes the first elements at the end, `count` of them where as many are there. The states are those
/// of the variable, where its elements become their texts.
pub(crate) fn put_elements(
    out: &mut Vec<u8>,
    how: Conversion,
    states: &[u8],
    elements: &Elements<'_>,
    count: u32,
) -> Result<(), AllocError>
    requires read { read_size how ≤ elements.now.size }
    requires states { states_read how ≤ length states.now }
    ensures ok { OnOk result (out.new.items
        ≡ out.old.items ++ concat (take count (map (converted_element states.now how) elements.now.items))) }
    ensures sized { OnOk result (AreSized (converted_size how elements.now.size)
        (take count (map (converted_element states.now how) elements.now.items))) }
{
    match how {
        Conversion::Unchanged => out.extend_from_slice(elements.first(count)),
        _ => put_each(out, how, states, elements, count),
    }
}

// The same, one element after another.
fn put_each(
    out: &mut Vec<u8>,
    how: Conversion,
    states: &[u8],
    elements: &Elements<'_>,
    count: u32,
) -> Result<(), AllocError>
    requires read { read_size how ≤ elements.now.size }
    requires states { states_read how ≤ length states.now }
    ensures ok { OnOk result (out.new.items
        ≡ out.old.items ++ concat (take count (map (converted_element states.now how) elements.now.items))) }
    ensures sized { OnOk result (AreSized (converted_size how elements.now.size)
        (take count (map (converted_element states.now how) elements.now.items))) }
{
    for index in 0..count.min(elements.count()) {
        put_element(out, how, states, elements.element(index))?;
    }
    Ok(())
}

fn put_element(
    out: &mut Vec<u8>,
    how: Conversion,
    states: &[u8],
    element: &[u8],
) -> Result<(), AllocError>
    requires read { read_size how ≤ length element.now }
    requires states { states_read how ≤ length states.now }
    ensures ok { OnOk result (out.new.items ≡ out.old.items ++ converted_element states.now how element.now) }
    ensures sized { length (converted_element states.now how element.now) ≡ converted_size how (length element.now) }
{
    match how {
        Conversion::Unchanged => out.extend_from_slice(element),
        Conversion::CharToShort => out.extend_from_slice(&u16::from(element[0]).to_be_bytes()),
        Conversion::ToLong(from) => out.extend_from_slice(&from.number_in(element).to_be_bytes()),
        Conversion::ToText(from) => put_decimal(out, from.number_in(element)),
        Conversion::ToState => put_state(out, states, BigEndian::read_u16(element)),
    }
}

// Writes the text of the state with this number, or the number where it has none.
fn put_state(out: &mut Vec<u8>, states: &[u8], number: u16) -> Result<(), AllocError>
    requires { STATES_SIZE ≤ length states.now }
    ensures ok { OnOk result (out.new.items ≡ out.old.items ++ state_text states.now number) }
    ensures sized { length (state_text states.now number) ≡ STRING_SIZE }
{
    match text_in(states, number) {
        Some(text) => put_text(out, text),
        None => put_decimal(out, i32::from(number)),
    }
}

// Writes the decimal text of the number.
fn put_decimal(out: &mut Vec<u8>, number: i32) -> Result<(), AllocError>
    ensures ok { OnOk result (out.new.items ≡ out.old.items ++ text_of number) }
    ensures sized { length (text_of number) ≡ STRING_SIZE }
{
    let mut buffer = Buffer::new();
    let text = buffer.format(number);
    put_text(out, text.as_bytes())
}

// Writes the text, and zero bytes up to the size of a STRING.
fn put_text(out: &mut Vec<u8>, text: &[u8]) -> Result<(), AllocError>
    requires { length text.now ≤ STRING_SIZE }
    ensures ok { OnOk result (out.new.items ≡ out.old.items ++ filled_to STRING_SIZE text.now) }
    ensures sized { length (filled_to STRING_SIZE text.now) ≡ STRING_SIZE }
{
    out.extend_from_slice(text)?;
    out.extend_from_slice(&[0; STRING_SIZE][text.len()..])
}
