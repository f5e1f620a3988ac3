//! Payloads that are laid out.
ghost use Rattle.std.specs.Prelude.{◌≡◌, ◌≤◌, length, Some, Ok, Err, IfOk, IfErr, OnOk};
ghost use Rattle.std.specs.Option.{option_copied};
ghost use Rattle.dbr_layout.specs.Conversion.{conversion_between, states_read};
ghost use Rattle.dbr_layout.specs.Converted.{converted_parts, found_in, states_in, used, written};
ghost use Rattle.dbr_layout.specs.Dbr.{payload_size};
ghost use Rattle.dbr_layout.specs.Fault.{IsFaultOf};
ghost use Rattle.dbr_layout.specs.Layout.{filled_to, layout};
ghost use Rattle.dbr_layout.specs.Properties.{FitIfThere, of_base};

use crate::conversion::{Conversion, put_elements};
use crate::dbr::{Base, Dbr};
use crate::fault::LayoutFault;
use crate::fields::put_fields;
use crate::need::needs;
use crate::props::Props;
use crate::view::View;
use bytes::Bytes;
use std::alloc::{AllocError, Global};

/// What a view shows, laid out under another type.
pub enum Converted {}

impl Converted {
    /// The payload of `count` elements of the type with the number `dtype`: the first that the view
    /// shows, and elements of zero bytes where fewer are there. A count of 0 asks for all that the
    /// view shows. `View::given` says how many elements these are. Where the type needs properties,
    /// they are those that are given, if they are of the view's base. The payload is one block,
    /// allocated at its size once that is known to be within `MAX_PAYLOAD`.
    pub fn write(
        alloc: Global,
        view: &View<'_>,
        given: Option<&Props<'_>>,
        dtype: u16,
        count: u32,
    ) -> Result<Bytes, LayoutFault>
        ensures ok { IfOk result (λ payload. written view.now (option_copied given.entry) dtype count ≡ Ok payload) }
        ensures err { IfErr result (λ fault. IsFaultOf (written view.now (option_copied given.entry) dtype count) fault) }
    {
        let asked = Dbr::of(dtype).ok_or(LayoutFault::BadType)?;
        let native = view.dbr();
        let how = Conversion::between(native.base, asked.base).ok_or(LayoutFault::BadType)?;
        let props = used(native, asked, given)?;
        let elements = view.given(count);
        let size = asked.size_of(elements).ok_or(LayoutFault::TooLarge)?;
        let payload = lay_out(alloc, view, props, asked, how, elements, size)?;
        Ok(Bytes::from_vec(payload)?)
    }
}

// The properties that the type needs, if it needs any. Those of a variable of another base are none.
fn used<'a, 'b>(
    native: Dbr,
    asked: Dbr,
    given: Option<&'a Props<'b>>,
) -> Result<Option<&'a Props<'b>>, LayoutFault>
    ensures ok { IfOk result (λ props. used native.base asked (option_copied given.entry) ≡ Ok (option_copied props)) }
    ensures fit { IfOk result (λ props. FitIfThere native.base (option_copied props)) }
    ensures err { IfErr result (λ fault. used native.base asked (option_copied given.entry) ≡ Err fault) }
{
    if needs(native, asked) {
        of_base(native.base, given)
    } else {
        Ok(None)
    }
}

fn of_base<'a, 'b>(
    base: Base,
    given: Option<&'a Props<'b>>,
) -> Result<Option<&'a Props<'b>>, LayoutFault>
    ensures ok { IfOk result (λ props. found_in (of_base base (option_copied given.entry)) ≡ Ok (option_copied props)) }
    ensures fit { IfOk result (λ props. FitIfThere base (option_copied props)) }
    ensures err { IfErr result (λ fault. found_in (of_base base (option_copied given.entry)) ≡ Err fault) }
{
    match given {
        Some(props) if props.are_of(base) => Ok(Some(props)),
        _ => Err(LayoutFault::NoProperties),
    }
}

// What isn't there of the elements is zero bytes, and so is the padding.
fn lay_out(
    alloc: Global,
    view: &View<'_>,
    props: Option<&Props<'_>>,
    asked: Dbr,
    how: Conversion,
    given: u32,
    size: u32,
) -> Result<Vec<u8>, AllocError>
    requires known { conversion_between view.now.dbr.base asked.base ≡ Some how }
    requires fit { FitIfThere view.now.dbr.base (option_copied props) }
    requires states { states_read how ≤ length (states_in (option_copied props)) }
    requires size { size ≡ payload_size asked given }
    ensures { IfOk result (λ payload. payload.items
        ≡ layout asked (converted_parts view.now asked how (option_copied props.entry) given)) }
{
    let mut payload = Vec::with_capacity(alloc, size as usize)?;
    put_fields(&mut payload, asked, how, view, props)?;
    fill_to(&mut payload, asked.offset())?;
    put_elements(&mut payload, how, states_in(props), &view.items(), given)?;
    fill_to(&mut payload, size)?;
    Ok(payload)
}

fn states_in<'b>(props: Option<&Props<'b>>) -> &'b [u8]
    ensures { result.now ≡ states_in (option_copied props.entry) }
{
    match props {
        Some(props) => props.states(),
        None => &[],
    }
}

// Zero bytes up to a length.
fn fill_to(out: &mut Vec<u8>, len: u32) -> Result<(), AllocError>
    ensures { OnOk result (out.new.items ≡ filled_to len out.old.items) }
{
    let len = out.len().max(len as usize);
    out.resize(len, 0)?;
    Ok(())
}
