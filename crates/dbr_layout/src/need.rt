//! What a type needs beside a value: the properties of the variable, or the texts of its states.
ghost use Rattle.std.specs.Prelude.{◌≡◌};
ghost use Rattle.dbr_layout.specs.Needs.{has_properties_by, is_state_by, is_text_by, needs};

use crate::dbr::{Base, Dbr, Form};

/// Whether what a type tells of a variable of this type needs its properties: units and limits, or
/// the texts of its states.
pub fn needs(native: Dbr, asked: Dbr) -> bool
    ensures { result ≡ needs native.base asked }
{
    matches!(asked.form, Form::Gr | Form::Ctrl) && asked.base != Base::String
        || native.base == Base::Enum && asked.base == Base::String
}

/// Whether the type with this number tells properties of the variable: those of the forms `Gr` and
/// `Ctrl` do, but of a STRING there are none.
pub fn has_properties_by(dtype: u16) -> bool
    ensures { result ≡ has_properties_by dtype }
{
    match Dbr::of(dtype) {
        Some(dbr) => matches!(dbr.form, Form::Gr | Form::Ctrl) && dbr.base != Base::String,
        None => false,
    }
}

/// Whether the elements of the type with this number are texts, in whatever form.
pub fn is_text_by(dtype: u16) -> bool
    ensures { result ≡ is_text_by dtype }
{
    match Dbr::of(dtype) {
        Some(dbr) => dbr.base == Base::String,
        None => false,
    }
}

/// Whether the elements of the type with this number are states, in whatever form.
pub fn is_state_by(dtype: u16) -> bool
    ensures { result ≡ is_state_by dtype }
{
    match Dbr::of(dtype) {
        Some(dbr) => dbr.base == Base::Enum,
        None => false,
    }
}
