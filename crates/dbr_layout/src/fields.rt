//! The fields of a form, which stand at the front of a payload.
ghost use Rattle.std.specs.Prelude.{◌≡◌, ◌≤◌, ◌<◌, ◌+◌, ◌*◌, ◌^◌, [], ◌++◌, length, map, min, replicate, OnOk};
ghost use Rattle.std.specs.Option.{option_copied, option_map};
ghost use Rattle.dbr_layout.specs.Conversion.{ReadsFrom, converted_element, converted_properties, read_size, states_read};
ghost use Rattle.dbr_layout.specs.Dbr.{element_size};
ghost use Rattle.dbr_layout.specs.Layout.{alarm_bytes, fields, stamp_bytes};
ghost use Rattle.dbr_layout.specs.Parts.{fields_len, severity_in, stamp_in, status_in};
ghost use Rattle.dbr_layout.specs.Properties.{limit_count, property_bytes, property_bytes_in, units_size};

use crate::conversion::{Conversion, Integer, put_elements};
use crate::dbr::{Base, Dbr, Form};
use crate::props::{Props, limit_count, units_size};
use crate::view::{Stamp, View};
use byteorder::{BigEndian, ByteOrder};
use std::alloc::AllocError;

pub(crate) fn status_in(form: Form, bytes: &[u8]) -> i16
    requires { fields_len form ≤ length bytes.now }
    ensures { result ≡ status_in form bytes.now }
{
    match form {
        Form::Plain => 0,
        Form::Sts | Form::Time | Form::Gr | Form::Ctrl => BigEndian::read_i16(bytes),
    }
}

pub(crate) fn severity_in(form: Form, bytes: &[u8]) -> i16
    requires { fields_len form ≤ length bytes.now }
    ensures { result ≡ severity_in form bytes.now }
{
    match form {
        Form::Plain => 0,
        Form::Sts | Form::Time | Form::Gr | Form::Ctrl => BigEndian::read_i16(&bytes[2..]),
    }
}

pub(crate) fn stamp_in(form: Form, bytes: &[u8]) -> Stamp
    requires { fields_len form ≤ length bytes.now }
    ensures { result ≡ stamp_in form bytes.now }
{
    match form {
        Form::Time => Stamp {
            seconds: BigEndian::read_u32(&bytes[4..]),
            nanoseconds: BigEndian::read_u32(&bytes[8..]),
        },
        Form::Plain | Form::Sts | Form::Gr | Form::Ctrl => Stamp {
            seconds: 0,
            nanoseconds: 0,
        },
    }
}

/// Writes the fields of the type's form at the end: what the view shows, and the properties as they
/// are told under the type.
pub(crate) fn put_fields(
    out: &mut Vec<u8>,
    asked: Dbr,
    how: Conversion,
    view: &View<'_>,
    props: Option<&Props<'_>>,
) -> Result<(), AllocError>
    requires { ReadsFrom how (option_copied props) }
    ensures { OnOk result (out.new.items ≡ out.old.items ++ fields asked.form (record view.now.parts {
      properties = option_map (converted_properties asked.base how) (option_copied props.entry);
    })) }
{
    match asked.form {
        Form::Plain => Ok(()),
        Form::Sts => put_alarm(out, view),
        Form::Time => {
            put_alarm(out, view)?;
            put_stamp(out, view.stamp())
        }
        Form::Gr => {
            put_alarm(out, view)?;
            put_properties(out, asked.base, how, props, 6)
        }
        Form::Ctrl => {
            put_alarm(out, view)?;
            put_properties(out, asked.base, how, props, 8)
        }
    }
}

fn put_alarm(out: &mut Vec<u8>, view: &View<'_>) -> Result<(), AllocError>
    ensures { OnOk result (out.new.items ≡ out.old.items ++ alarm_bytes view.now.parts) }
{
    out.extend_from_slice(&view.status().to_be_bytes())?;
    out.extend_from_slice(&view.severity().to_be_bytes())
}

fn put_stamp(out: &mut Vec<u8>, stamp: Stamp) -> Result<(), AllocError>
    ensures { OnOk result (out.new.items ≡ out.old.items ++ stamp_bytes stamp) }
{
    out.extend_from_slice(&stamp.seconds.to_be_bytes())?;
    out.extend_from_slice(&stamp.nanoseconds.to_be_bytes())
}

// The properties as they are told in a base, with the first limits.
fn put_properties(
    out: &mut Vec<u8>,
    to: Base,
    how: Conversion,
    props: Option<&Props<'_>>,
    limits: u32,
) -> Result<(), AllocError>
    requires { ReadsFrom how (option_copied props) }
    ensures { OnOk result (out.new.items ≡ out.old.items
        ++ property_bytes_in limits (option_map (converted_properties to how) (option_copied props.entry))) }
{
    match props {
        Some(props) => put_told(out, to, how, props, limits),
        None => Ok(()),
    }
}

// A state has no units and no limits as a number, and a text tells none.
fn put_told(
    out: &mut Vec<u8>,
    to: Base,
    how: Conversion,
    props: &Props<'_>,
    limits: u32,
) -> Result<(), AllocError>
    requires { read_size how ≤ element_size props.now.base }
    ensures { OnOk result (out.new.items ≡ out.old.items ++ property_bytes limits (converted_properties to how props.now)) }
{
    match how {
        Conversion::Unchanged => put_all(out, how, props, limits),
        Conversion::CharToShort => put_all(out, how, props, limits),
        Conversion::ToLong(Integer::Enum) => put_zeros(out, zeros_in(to, limits)),
        Conversion::ToLong(_) => put_all(out, how, props, limits),
        Conversion::ToText(_) | Conversion::ToState => Ok(()),
    }
}

// How many bytes the units of a base and so many limits have.
fn zeros_in(to: Base, limits: u32) -> usize
    ensures { result ≡ units_size to + min limits (limit_count to) * element_size to }
{
    units_size(to) + limits.min(limit_count(to)) as usize * to.element() as usize
}

// Behind the precision stand as many zero bytes, whatever came there.
fn put_all(
    out: &mut Vec<u8>,
    how: Conversion,
    props: &Props<'_>,
    limits: u32,
) -> Result<(), AllocError>
    requires read { read_size how ≤ element_size props.now.base }
    requires states { states_read how ≡ 0 }
    ensures { OnOk result (out.new.items ≡ out.old.items
        ++ property_bytes limits (record props.now { limits = map (converted_element [] how) props.now.limits })) }
{
    out.extend_from_slice(props.states())?;
    out.extend_from_slice(props.precision())?;
    put_zeros(out, props.precision().len())?;
    out.extend_from_slice(props.units())?;
    put_elements(out, how, &[], &props.limits(), limits)
}

fn put_zeros(out: &mut Vec<u8>, count: usize) -> Result<(), AllocError>
    requires { count < 2 ^ 40 }
    ensures { OnOk result (out.new.items ≡ out.old.items ++ replicate count 0) }
{
    let len = out.len() + count;
    out.resize(len, 0)?;
    Ok(())
}
