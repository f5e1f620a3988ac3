//! What a variable tells of itself beside its value.
ghost use Rattle.std.specs.Prelude.{◌≡◌, ◌≤◌, ◌==◌, length};
ghost use Rattle.dbr_layout.specs.Dbr.{base_number, element_size};
ghost use Rattle.dbr_layout.specs.Properties.{Fit, limit_count, precision_size, properties_of, properties_size, states_size, units_size};

use crate::dbr::Base;
use crate::sized::Elements;
use crate::view::View;
use std::marker::Model;

/// The properties of a variable, as a payload of a CTRL form tells them: the units, the limits and the
/// precision of numbers, or the texts of states (Channel Access Protocol Specification, "Payload Data
/// Types").
#[derive(Debug, Drop)]
pub struct Props<'a> {
    base: Base,
    /// What stands between the alarm and the value.
    bytes: &'a [u8],
}

impl<'a> Model for Props<'a> {
    ghost use Rattle.std.specs.Prelude.{◌≤◌, ◌+◌, length};
    ghost use Rattle.dbr_layout.specs.Properties.{Properties, properties_of, properties_size};

    ghost Value = { Properties };

    ghost view = { λ p. properties_of p.base p.bytes.now };

    ghost invariant = { λ p. properties_size p.base ≤ length p.bytes.now };
}

impl<'a> Props<'a> {
    /// The properties that a view shows: those of a CTRL form. A STRING has none beside its base.
    pub fn of(view: &View<'a>) -> Option<Props<'a>>
        ensures { result ≡ view.now.parts.properties }
    {
        view.properties()
    }

    /// The properties in the bytes behind an alarm.
    pub(crate) fn new(base: Base, bytes: &'a [u8]) -> Props<'a>
        requires { properties_size base ≤ length bytes.now }
        ensures { result ≡ properties_of base bytes.now }
    {
        Props { base, bytes }
    }

    /// The base of the variable.
    pub fn base(&self) -> Base
        ensures { result ≡ self.now.base }
    {
        self.base
    }

    /// Whether the variable is of this base.
    pub(crate) fn are_of(&self, base: Base) -> bool
        ensures value { result ≡ (base_number self.now.base == base_number base) }
        ensures fit { Fit self.now.base self.now }
    {
        self.base.number() == base.number()
    }

    /// The number of states and their texts.
    pub(crate) fn states(&self) -> &'a [u8]
        ensures { result.now ≡ self.now.states }
    {
        &self.bytes[..states_size(self.base)]
    }

    /// The precision, as it came.
    pub(crate) fn precision(&self) -> &'a [u8]
        ensures bytes { result.now ≡ self.now.precision }
        ensures len { length result.now ≤ 2 }
    {
        &self.bytes[..precision_size(self.base)]
    }

    /// The units, with what stands behind their NUL.
    pub(crate) fn units(&self) -> &'a [u8]
        ensures { result.now ≡ self.now.units }
    {
        let start = 2 * precision_size(self.base);
        &self.bytes[start..start + units_size(self.base)]
    }

    /// The eight limits.
    pub(crate) fn limits(&self) -> Elements<'a>
        ensures size { result.size ≡ element_size self.now.base }
        ensures items { result.items ≡ self.now.limits }
    {
        let start = 2 * precision_size(self.base) + units_size(self.base);
        Elements::new(
            self.base.element(),
            limit_count(self.base),
            &self.bytes[start..],
        )
    }
}

fn states_size(base: Base) -> usize
    ensures { result ≡ states_size base }
{
    [0, 0, 0, 418, 0, 0, 0][base as usize]
}

fn precision_size(base: Base) -> usize
    ensures { result ≡ precision_size base }
{
    [0, 0, 2, 0, 0, 0, 2][base as usize]
}

pub(crate) fn units_size(base: Base) -> usize
    ensures { result ≡ units_size base }
{
    [0, 8, 8, 0, 8, 8, 8][base as usize]
}

pub(crate) fn limit_count(base: Base) -> u32
    ensures { result ≡ limit_count base }
{
    [0, 8, 8, 0, 8, 8, 8][base as usize]
}
