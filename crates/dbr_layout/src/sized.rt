//! Elements of one size, one behind the other.
ghost use Rattle.std.specs.Prelude.{◌≡◌, ◌*◌, ◌<◌, ◌≤◌, ◌^◌, [], length, slice_index_or, take};
ghost use Rattle.std.specs.List.{concat};
ghost use Rattle.dbr_layout.specs.Elements.{AreSized, elements_in};

use std::marker::Model;

/// So many elements of one size, at the front of bytes.
#[derive(Debug, Drop)]
pub(crate) struct Elements<'a> {
    size: u32,
    count: u32,
    bytes: &'a [u8],
}

impl<'a> Model for Elements<'a> {
    ghost use Rattle.std.specs.Prelude.{◌≤◌, ◌*◌, length};
    ghost use Rattle.dbr_layout.specs.Elements.{Sized, elements_in};

    ghost Value = { Sized };

    ghost view = { λ e. record { size = e.size; items = elements_in e.size e.count e.bytes.now } };

    ghost invariant = { λ e. e.count * e.size ≤ length e.bytes.now };
}

impl<'a> Elements<'a> {
    /// The first elements in the bytes. Bytes past them aren't looked at.
    pub(crate) fn new(size: u32, count: u32, bytes: &'a [u8]) -> Elements<'a>
        requires { count * size ≤ length bytes.now }
        ensures size { result.size ≡ size }
        ensures items { result.items ≡ elements_in size count bytes.now }
    {
        Elements { size, count, bytes }
    }

    /// How many there are.
    pub(crate) fn count(&self) -> u32
        ensures { result ≡ length self.now.items }
    {
        self.count
    }

    /// The bytes of the first, `count` of them where as many are there.
    pub(crate) fn first(&self, count: u32) -> &'a [u8]
        ensures bytes { result.now ≡ concat (take count self.now.items) }
        ensures sized { AreSized self.now.size self.now.items }
    {
        &self.bytes[..self.count.min(count) as usize * self.size as usize]
    }

    /// The bytes of the one at an index.
    pub(crate) fn element(&self, index: u32) -> &'a [u8]
        requires { index < length self.now.items }
        ensures bytes { result.now ≡ slice_index_or self.now.items index [] }
        ensures len { length result.now ≡ self.now.size }
    {
        let start = index as usize * self.size as usize;
        &self.bytes[start..start + self.size as usize]
    }
}
