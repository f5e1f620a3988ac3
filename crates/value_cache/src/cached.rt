//! What is kept of what a variable told last.
ghost use Rattle.std.specs.Prelude.{◌≡◌, ◌≤◌, ◌||◌, not, is_some, length, slice_range, IsOk, IfOk, IsSome, OnOk, OnErr, Option, Some};
ghost use Rattle.std.specs.Option.{option_copied, option_map};
ghost use Rattle.std.specs.Ordering.{int_eq};
ghost use Rattle.value_cache.specs.Held.{answer, are_there, covers_by, given, needs_by};
ghost use Rattle.value_cache.specs.Message.{IsReadable, IsDescription, held_in, told_in, value_in};

use crate::encodings::{Encoding, Encodings};
use bytes::Bytes;
use dbr_layout::{Base, Converted, Dbr, LayoutFault, Props, View, needs, own_part};
use std::alloc::{AllocError, Global};
use std::marker::Model;
use std::ops::Range;

/// A message as it came.
#[derive(Debug, Drop)]
struct HeldMessage {
    dtype: u16,
    count: u32,
    payload: Bytes,
    asked_with: u32,
}

/// A message that tells properties, as it came. Its value isn't looked at.
#[derive(Debug, Drop)]
struct Described {
    dtype: u16,
    payload: Bytes,
}

/// The last value of a variable and its properties, each if it was told. The messages are kept as they
/// came, and beside them the encodings that several readers share.
#[derive(Debug, Drop)]
pub struct Cached {
    last: Option<HeldMessage>,
    described: Option<Described>,
    kept: Encodings,
}

impl Model for Cached {
    ghost use Rattle.value_cache.specs.Kept.{Keeping};
    ghost use Rattle.value_cache.specs.Message.{IsSound, keeping_in};

    ghost Value = { Keeping };

    ghost view = { λ c. keeping_in c.last c.described c.kept };

    ghost invariant = { λ c. IsSound c.last c.described c.kept };
}

impl Cached {
    ghost use Rattle.dbr_layout.specs.View.{shown};
    ghost use Rattle.value_cache.specs.Held.{alarm_differs, covers, nothing, with_properties, with_value, without_properties, without_value};
    ghost use Rattle.value_cache.specs.Kept.{fresh, keeping, thinned};
    ghost use Rattle.value_cache.specs.Message.{TellsProperties};

    /// Nothing is held.
    pub fn empty() -> Cached
        ensures { result ≡ fresh nothing }
    {
        Cached {
            last: None,
            described: None,
            kept: Encodings::none(),
        }
    }

    /// Holds a message of `count` elements of the type with the number `dtype` in place of the value
    /// before. `asked_with` is the count that was asked for when it came. The properties stay. No
    /// encoding is kept. Answers share the payload, and so does who waits for them: it should be in a block
    /// of its own.
    pub fn put(&mut self, dtype: u16, count: u32, payload: Bytes, asked_with: u32)
        requires { IsOk (shown dtype count payload) }
        ensures { self.new ≡ fresh (with_value dtype count payload asked_with self.old.held) }
    {
        let message = HeldMessage {
            dtype,
            count,
            payload,
            asked_with,
        };
        self.last = Some(message);
        self.kept = Encodings::none();
    }

    /// Holds the properties that a message of the CTRL type with the number `dtype` tells in place of
    /// those before. The value stays. No encoding is kept.
    pub fn put_properties(&mut self, dtype: u16, payload: Bytes)
        requires { TellsProperties dtype payload }
        ensures { self.new ≡ fresh (with_properties dtype payload self.old.held) }
    {
        self.described = Some(Described { dtype, payload });
        self.kept = Encodings::none();
    }

    /// Forgets the value, and all encodings. The properties stay.
    pub fn drop_value(&mut self)
        ensures { self.new ≡ fresh (without_value self.old.held) }
    {
        self.last = None;
        self.kept = Encodings::none();
    }

    /// Forgets the properties, and all encodings. The value stays.
    pub fn drop_properties(&mut self)
        ensures { self.new ≡ fresh (without_properties self.old.held) }
    {
        self.described = None;
        self.kept = Encodings::none();
    }

    /// Keeps what is answered under the type with the number `dtype` and a count, so that answers
    /// share it, until the next message. There are at most eight; a ninth takes the place of the
    /// first. Nothing changes where it is kept already, or where there is no answer.
    pub fn keep(&mut self, alloc: Global, dtype: u16, count: u32) -> Result<(), AllocError>
        ensures ok { OnOk result (self.new ≡ keeping dtype count self.old) }
        ensures err { OnErr result (self.new ≡ self.old) }
        ensures cause { OnErr result (IsSome (answer dtype count self.old.held)) }
    {
        if self.kept.get(dtype, count).is_some() {
            return Ok(());
        }
        match encoded(alloc, &self.last, &self.described, dtype, count)? {
            Some((given, payload)) => self.kept.add(
                alloc,
                Encoding {
                    dtype,
                    count,
                    given,
                    payload,
                },
            ),
            None => Ok(()),
        }
    }

    /// Lets go the encodings of 64 KiB and more, where there are several. One stays, for those who ask
    /// for it later, and more stay only while an update is told.
    pub fn thin(&mut self)
        ensures { self.new ≡ thinned self.old }
    {
        self.kept.thin();
    }

    /// How many encodings are kept.
    pub fn kept(&self) -> usize
        ensures value { result ≡ length self.now.kept }
        ensures most { result ≤ 8 }
    {
        self.kept.len()
    }

    /// Whether properties are held.
    pub fn has_properties(&self) -> bool
        ensures { result ≡ is_some self.now.held.properties }
    {
        match &self.described {
            Some(_) => true,
            None => false,
        }
    }

    /// Whether what is held can answer a read of so many elements of the type with the number `dtype`:
    /// no more than were asked for when the value came, and properties of its base are there where the
    /// type needs them. The caller gives the native count in place of 0.
    pub fn covers(&self, dtype: u16, count: u32) -> bool
        ensures { result ≡ covers dtype count self.now.held }
    {
        match &self.last {
            Some(message) => is_covered(message, &self.described, dtype, count),
            None => false,
        }
    }

    /// Whether the alarm that a view shows is another than that of what is held, in its status or in
    /// its severity. It is where nothing is held.
    pub fn alarm_differs(&self, new: &View<'_>) -> bool
        ensures { result ≡ alarm_differs new.now self.now.held }
    {
        match self.view() {
            Some(old) => differ(&old, new),
            None => true,
        }
    }

    /// What a read of `count` elements of the type with the number `dtype` is given: how many
    /// elements these are, and their payload. A count of 0 asks for those that are there. There is
    /// no answer where no value is held, where the type isn't had from it, where the type needs
    /// properties and none of the value's base are held, or where the payload would be too large.
    /// Whether the count is covered isn't asked here. Where the encoding is kept, its payload is shared,
    /// and so is the message's own, where a part of it is that answer as it came.
    pub fn answer(
        &self,
        alloc: Global,
        dtype: u16,
        count: u32,
    ) -> Result<Option<(u32, Bytes)>, AllocError>
        ensures ok { IfOk result (λ given. given ≡ answer dtype count self.now.held) }
        ensures err { OnErr result (IsSome (answer dtype count self.now.held)) }
    {
        match self.kept.get(dtype, count) {
            Some(encoding) => shared(encoding),
            None => encoded(alloc, &self.last, &self.described, dtype, count),
        }
    }

    fn view(&self) -> Option<View<'_>>
        ensures { result ≡ option_map (λ value. value.shown) self.now.held.value }
    {
        view_of(&self.last)
    }
}

// Two views have different alarms.
fn differ(old: &View<'_>, new: &View<'_>) -> bool
    ensures { result ≡ (not (int_eq old.now.parts.status new.now.parts.status)
        || not (int_eq old.now.parts.severity new.now.parts.severity)) }
{
    old.status() != new.status() || old.severity() != new.severity()
}

fn is_covered(message: &HeldMessage, described: &Option<Described>, dtype: u16, count: u32) -> bool
    requires { IsDescription described.now }
    ensures { result ≡ covers_by dtype count (told_in described.now) (value_in (Some message.now)) }
{
    match View::new(message.dtype, message.count, &message.payload) {
        Ok(view) => count <= message.asked_with && is_enough(view.dbr(), described, dtype),
        Err(_) => false,
    }
}

// Properties of the base are there, where the type needs them.
fn is_enough(native: Dbr, described: &Option<Described>, dtype: u16) -> bool
    requires { IsDescription described.now }
    ensures { result ≡ (not (needs_by native.base dtype) || are_there native.base (told_in described.now)) }
{
    !needs_by(native, dtype) || are_there(native.base, described)
}

fn needs_by(native: Dbr, dtype: u16) -> bool
    ensures { result ≡ needs_by native.base dtype }
{
    match Dbr::of(dtype) {
        Some(asked) => needs(native, asked),
        None => false,
    }
}

fn are_there(base: Base, described: &Option<Described>) -> bool
    requires { IsDescription described.now }
    ensures { result ≡ are_there base (told_in described.now) }
{
    match props_of(described) {
        Some(props) => props.base() == base,
        None => false,
    }
}

fn view_of(last: &Option<HeldMessage>) -> Option<View<'_>>
    requires { IsReadable last.now }
    ensures { result ≡ option_map (λ value. value.shown) (value_in last.now) }
{
    match last {
        Some(message) => View::new(message.dtype, message.count, &message.payload).ok(),
        None => None,
    }
}

fn props_of(described: &Option<Described>) -> Option<Props<'_>>
    requires { IsDescription described.now }
    ensures { result ≡ told_in described.now }
{
    match described {
        Some(told) => match View::new(told.dtype, 0, &told.payload) {
            Ok(view) => Props::of(&view),
            Err(_) => None,
        },
        None => None,
    }
}

fn shared(encoding: &Encoding) -> Result<Option<(u32, Bytes)>, AllocError>
    ensures { IfOk result (λ given. given ≡ Some (encoding.now.given, encoding.now.payload)) }
{
    Ok(Some((encoding.given, encoding.payload.clone()?)))
}

// What is answered of a message and of properties, where it isn't kept.
fn encoded(
    alloc: Global,
    last: &Option<HeldMessage>,
    described: &Option<Described>,
    dtype: u16,
    count: u32,
) -> Result<Option<(u32, Bytes)>, AllocError>
    requires readable { IsReadable last.now }
    requires told { IsDescription described.now }
    ensures ok { IfOk result (λ given. given ≡ answer dtype count (held_in last.now described.now)) }
    ensures err { OnErr result (IsSome (answer dtype count (held_in last.now described.now))) }
{
    let Some(message) = last else {
        return Ok(None);
    };
    if let Some(part) = own_part(message.dtype, message.count, &message.payload, dtype, count) {
        return part_of(message, part);
    }
    laid_out(alloc, last, described, dtype, count)
}

// All elements of a message, as a part of its payload, which is shared.
fn part_of(message: &HeldMessage, part: Range<usize>) -> Result<Option<(u32, Bytes)>, AllocError>
    requires ordered { part.start ≤ part.end }
    requires within { part.end ≤ length message.now.payload }
    ensures { IfOk result (λ given. given ≡ Some (message.now.count, slice_range message.now.payload part.start part.end)) }
{
    Ok(Some((message.count, message.payload.slice(part)?)))
}

// What is answered of a message and of properties, laid out afresh.
fn laid_out(
    alloc: Global,
    last: &Option<HeldMessage>,
    described: &Option<Described>,
    dtype: u16,
    count: u32,
) -> Result<Option<(u32, Bytes)>, AllocError>
    requires readable { IsReadable last.now }
    requires told { IsDescription described.now }
    ensures ok { IfOk result (λ given. given ≡ answer dtype count (held_in last.now described.now)) }
    ensures err { OnErr result (IsSome (answer dtype count (held_in last.now described.now))) }
{
    match view_of(last) {
        Some(view) => given(alloc, &view, props_of(described).as_ref(), dtype, count),
        None => Ok(None),
    }
}

// So many elements of a view under another type: how many these are, and their payload. Nothing
// where they aren't laid out.
fn given(
    alloc: Global,
    view: &View<'_>,
    props: Option<&Props<'_>>,
    dtype: u16,
    count: u32,
) -> Result<Option<(u32, Bytes)>, AllocError>
    ensures ok { IfOk result (λ answer. answer ≡ given dtype count (option_copied props.entry) view.now) }
    ensures err { OnErr result (IsSome (given dtype count (option_copied props.entry) view.now)) }
{
    match Converted::write(alloc, view, props, dtype, count) {
        Ok(payload) => Ok(Some((view.given(count), payload))),
        Err(LayoutFault::OutOfMemory) => Err(AllocError),
        Err(
            LayoutFault::BadType
            | LayoutFault::Short
            | LayoutFault::NoProperties
            | LayoutFault::TooLarge,
        ) => Ok(None),
    }
}
