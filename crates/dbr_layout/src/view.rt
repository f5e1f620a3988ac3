//! Payloads that are read.
ghost use Rattle.std.specs.Prelude.{◌≡◌, ◌*◌, length};
ghost use Rattle.std.specs.List.{concat};

use crate::dbr::{Dbr, Form};
use crate::fault::LayoutFault;
use crate::fields::{severity_in, stamp_in, status_in};
use crate::props::Props;
use crate::sized::Elements;
use std::marker::Model;

/// When a value was taken, from the start of 1990 in UTC on.
#[derive(Clone, Copy, Debug, Default, PartialEq, Eq, Hash)]
pub struct Stamp {
    pub seconds: u32,
    pub nanoseconds: u32,
}

/// A payload seen as a type and the parts that it holds: the alarm, the stamp and the elements.
#[derive(Debug, Drop)]
pub struct View<'a> {
    dbr: Dbr,
    count: u32,
    bytes: &'a [u8],
}

impl<'a> Model for View<'a> {
    ghost use Rattle.std.specs.Prelude.{◌≤◌, length};
    ghost use Rattle.dbr_layout.specs.Dbr.{value_end};
    ghost use Rattle.dbr_layout.specs.Parts.{parts_in};
    ghost use Rattle.dbr_layout.specs.View.{Shown};

    ghost Value = { Shown };

    ghost view = { λ v. record { dbr = v.dbr; parts = parts_in v.dbr v.count v.bytes.now } };

    ghost invariant = { λ v. value_end v.dbr v.count ≤ length v.bytes.now };
}

impl<'a> View<'a> {
    ghost use Rattle.dbr_layout.specs.Conversion.{given_count};
    ghost use Rattle.dbr_layout.specs.Dbr.{element_size};
    ghost use Rattle.dbr_layout.specs.Elements.{AreSized};
    ghost use Rattle.dbr_layout.specs.View.{shown};

    /// What the bytes hold as `count` elements of the type with the number `dtype`. Bytes past the
    /// elements aren't looked at.
    pub fn new(dtype: u16, count: u32, bytes: &'a [u8]) -> Result<View<'a>, LayoutFault>
        ensures { result ≡ shown dtype count bytes.now }
    {
        let dbr = Dbr::of(dtype).ok_or(LayoutFault::BadType)?;
        if dbr.value_end(count) <= bytes.len() {
            Ok(View { dbr, count, bytes })
        } else {
            Err(LayoutFault::Short)
        }
    }

    /// The type.
    pub fn dbr(&self) -> Dbr
        ensures { result ≡ self.now.dbr }
    {
        self.dbr
    }

    /// How many elements there are.
    pub fn count(&self) -> u32
        ensures { result ≡ length self.now.parts.elements }
    {
        self.count
    }

    /// How many elements a request for `count` is given: for 0, as many as there are.
    pub fn given(&self, count: u32) -> u32
        ensures { result ≡ given_count count (length self.now.parts.elements) }
    {
        if count == 0 { self.count() } else { count }
    }

    /// The status of the alarm, 0 where the form has none.
    pub fn status(&self) -> i16
        ensures { result ≡ self.now.parts.status }
    {
        status_in(self.dbr.form, self.bytes)
    }

    /// The severity of the alarm, 0 where the form has none.
    pub fn severity(&self) -> i16
        ensures { result ≡ self.now.parts.severity }
    {
        severity_in(self.dbr.form, self.bytes)
    }

    /// The time stamp, 0 where the form has none.
    pub fn stamp(&self) -> Stamp
        ensures { result ≡ self.now.parts.stamp }
    {
        stamp_in(self.dbr.form, self.bytes)
    }

    /// The properties of the variable, where the form is CTRL: a GR form tells fewer limits.
    pub(crate) fn properties(&self) -> Option<Props<'a>>
        ensures { result ≡ self.now.parts.properties }
    {
        match self.dbr.form {
            Form::Ctrl => Some(Props::new(self.dbr.base, &self.bytes[4..])),
            Form::Plain | Form::Sts | Form::Time | Form::Gr => None,
        }
    }

    /// The bytes of the elements.
    pub fn elements(&self) -> &'a [u8]
        ensures bytes { result.now ≡ concat self.now.parts.elements }
        ensures sized { AreSized (element_size self.now.dbr.base) self.now.parts.elements }
        ensures len { length result.now ≡ length self.now.parts.elements * element_size self.now.dbr.base }
    {
        &self.bytes[self.dbr.offset() as usize..self.dbr.value_end(self.count)]
    }

    /// The elements, one by one.
    pub(crate) fn items(&self) -> Elements<'a>
        ensures size { result.size ≡ element_size self.now.dbr.base }
        ensures items { result.items ≡ self.now.parts.elements }
    {
        Elements::new(
            self.dbr.element(),
            self.count,
            &self.bytes[self.dbr.offset() as usize..],
        )
    }
}
