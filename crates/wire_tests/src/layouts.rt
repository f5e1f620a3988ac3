//! Calls on DBR types and on payloads.
//!
//! - `types`: each type with its number, where its elements begin, how long one is, and whether it is
//!   served;
//! - `type FIRST LAST`: the types with these numbers;
//! - `size TYPE COUNT`: the size of a payload with so many elements;
//! - `conversions`: for each base the bases to which it is converted;
//! - `needs TYPE`: the types that need properties of a variable of this one;
//! - `view TYPE COUNT: BYTES`: what the bytes show: the type, how many elements there are and how many
//!   a request for 0 and for 9 is given, the alarm, the stamp and the elements;
//! - `of TYPE COUNT: BYTES`: the same, but answered only if the bytes are refused;
//! - `describe TYPE: BYTES`: the properties that these bytes tell are at hand from now on; answered only
//!   if they tell none, or are refused;
//! - `as TYPE COUNT`: what was viewed last, as a payload of another type, with the properties at hand.
use crate::words::{Call, Told};
use dbr_layout::{Base, Converted, Dbr, Form, LayoutFault, Props, View, converts, needs};
use std::alloc::Global;

const FORMS: [Form; 5] = [Form::Plain, Form::Sts, Form::Time, Form::Gr, Form::Ctrl];

const BASES: [Base; 7] = [
    Base::String,
    Base::Short,
    Base::Float,
    Base::Enum,
    Base::Char,
    Base::Long,
    Base::Double,
];

/// A payload that is viewed, and one that tells properties.
#[derive(Drop)]
pub(crate) struct Viewed {
    dtype: u16,
    count: u32,
    bytes: Vec<u8>,
    told_by: u16,
    telling: Vec<u8>,
}

impl Viewed {
    pub(crate) fn nothing(alloc: Global) -> Viewed {
        Viewed {
            dtype: 0,
            count: 0,
            bytes: Vec::new(alloc),
            told_by: 0,
            telling: Vec::new(alloc),
        }
    }

    fn put(&mut self, call: &Call, told: &mut Told) {
        self.dtype = call.short(0);
        self.count = call.number(1);
        self.bytes.clear();
        if self.bytes.extend_from_slice(&call.bytes).is_err() {
            told.line(&"out of memory");
        }
    }

    fn describe(&mut self, call: &Call, told: &mut Told) {
        self.told_by = call.short(0);
        self.telling.clear();
        if self.telling.extend_from_slice(&call.bytes).is_err() {
            told.line(&"out of memory");
        }
        match View::new(self.told_by, 0, &self.telling) {
            Ok(view) => if Props::of(&view).is_none() {
                told.line(&"tells no properties");
            },
            Err(fault) => told.line(&fault),
        }
    }
}

pub(crate) fn call(viewed: &mut Viewed, verb: &str, call: &Call, told: &mut Told) {
    match verb {
        "types" => types(told),
        "type" => types_of(call.short(0), call.short(1), told),
        "size" => size(call.short(0), call.number(1), told),
        "conversions" => conversions(call.alloc, told),
        "needs" => needed(call.short(0), told),
        "describe" => viewed.describe(call, told),
        "as" => write_as(viewed, call, told),
        _ => {
            viewed.put(call, told);
            view(viewed, verb == "view", told);
        }
    }
}

fn types(told: &mut Told) {
    for form in FORMS {
        for base in BASES {
            let dbr = Dbr { base, form };
            told.word(&dbr.number());
            told.name(&form);
            told.name(&base);
            told.word(&dbr.offset());
            told.word(&dbr.element());
            let is_served = Dbr::of(dbr.number()) == Some(dbr);
            told.line(if is_served { &"served" } else { &"not served" });
        }
    }
}

fn types_of(first: u16, last: u16, told: &mut Told) {
    for number in first..=last {
        match Dbr::of(number) {
            Some(dbr) => {
                told.name(&dbr.form);
                told.name(&dbr.base);
                told.end();
            }
            None => told.line(&"none"),
        }
    }
}

fn size(dtype: u16, count: u32, told: &mut Told) {
    match Dbr::of(dtype) {
        Some(dbr) => match dbr.size_of(count) {
            Some(size) => told.line(&size),
            None => told.line(&"none"),
        },
        None => told.line(&"no such type"),
    }
}

fn needed(dtype: u16, told: &mut Told) {
    for number in 0..=34 {
        if let (Some(native), Some(asked)) = (Dbr::of(dtype), Dbr::of(number)) {
            if needs(native, asked) {
                told.word(&number);
            }
        }
    }
    told.end();
}

fn conversions(alloc: Global, told: &mut Told) {
    for base in BASES {
        told.name(&base);
        told.word(&"to");
        for to in BASES {
            conversion(alloc, base, to, told);
        }
        told.end();
    }
}

/// Tells the second base if the first is converted to it, and if it is told otherwise than done.
fn conversion(alloc: Global, from: Base, to: Base, told: &mut Told) {
    let (native, asked) = (time_of(from), time_of(to));
    let Ok(view) = View::new(native.number(), 1, &[0; 56]) else {
        return told.word(&"no view");
    };
    let Ok(telling) = View::new(ctrl_of(from).number(), 0, &[0; 422]) else {
        return told.word(&"no view");
    };
    let props = Props::of(&telling);
    match (
        converts(native, asked),
        Converted::write(alloc, &view, props.as_ref(), asked.number(), 1),
    ) {
        (true, Ok(_)) => told.name(&to),
        (false, Err(LayoutFault::BadType)) => {}
        (true, Err(LayoutFault::OutOfMemory)) => told.word(&"out of memory"),
        (_, _) => told.word(&"otherwise"),
    }
}

fn time_of(base: Base) -> Dbr {
    let form = Form::Time;
    Dbr { base, form }
}

fn ctrl_of(base: Base) -> Dbr {
    let form = Form::Ctrl;
    Dbr { base, form }
}

fn view(viewed: &Viewed, whole: bool, told: &mut Told) {
    match View::new(viewed.dtype, viewed.count, &viewed.bytes) {
        Ok(view) => if whole {
            parts(&view, told);
        },
        Err(fault) => told.line(&fault),
    }
}

fn parts(view: &View, told: &mut Told) {
    told.name(&view.dbr().form);
    told.name(&view.dbr().base);
    for count in [view.count(), view.given(0), view.given(9)] {
        told.word(&count);
    }
    told.word(&"alarm");
    told.word(&view.status());
    told.word(&view.severity());
    told.word(&"stamp");
    told.word(&view.stamp().seconds);
    told.line(&view.stamp().nanoseconds);
    told.word(&"elements");
    told.bytes(view.elements());
}

fn write_as(viewed: &Viewed, call: &Call, told: &mut Told) {
    let view = match View::new(viewed.dtype, viewed.count, &viewed.bytes) {
        Ok(view) => view,
        Err(fault) => return told.line(&fault),
    };
    let props = match View::new(viewed.told_by, 0, &viewed.telling) {
        Ok(telling) => Props::of(&telling),
        Err(_) => None,
    };
    let (dtype, count) = (call.short(0), call.number(1));
    match Converted::write(call.alloc, &view, props.as_ref(), dtype, count) {
        Ok(payload) => {
            told.word(&payload.len());
            told.word(&"bytes");
            told.bytes(payload.as_slice());
        }
        Err(fault) => told.line(&fault),
    }
}
