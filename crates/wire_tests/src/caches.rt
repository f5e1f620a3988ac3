//! Calls on what is held of a variable.
//!
//! - `hold TYPE COUNT ASKED: BYTES`: a message of so many elements, which came when `ASKED` were asked
//!   for; answered only if it is refused;
//! - `ask TYPE COUNT`: how many elements are given, and their payload; or `none`;
//! - `keep TYPE COUNT`: how many encodings are kept then;
//! - `shares TYPE COUNT`: whether the payload that is given is kept beside;
//! - `thin`: how many encodings are kept where large ones go, but one;
//! - `covers TYPE COUNT`: whether so many of the type are;
//! - `describe-held TYPE: BYTES`: a message that tells properties; answered only if it tells none;
//! - `alarm TYPE COUNT: BYTES`: whether the alarm of this message is another;
//! - `forget`: the value;
//! - `forget-properties`.
ghost use Rattle.std.specs.Prelude.{◌≡◌, true};
ghost use Rattle.value_cache.specs.Message.{TellsProperties};

use crate::words::{Call, Told};
use bytes::Bytes;
use dbr_layout::{Props, View};
use value_cache::Cached;

pub(crate) fn call(cached: &mut Cached, verb: &str, call: &Call, told: &mut Told) {
    match verb {
        "hold" => hold(cached, call, told),
        "ask" => ask(cached, call, told),
        "keep" => keep(cached, call, told),
        "shares" => shares(cached, call, told),
        "thin" => {
            cached.thin();
            told.line(&cached.kept());
        }
        "covers" => told.line(&cached.covers(call.short(0), call.number(1))),
        "alarm" => match View::new(call.short(0), call.number(1), &call.bytes) {
            Ok(view) => told.line(&cached.alarm_differs(&view)),
            Err(fault) => told.line(&fault),
        },
        "describe-held" => describe(cached, call, told),
        "forget-properties" => cached.drop_properties(),
        _ => cached.drop_value(),
    }
}

fn hold(cached: &mut Cached, call: &Call, told: &mut Told) {
    let (dtype, count, asked_with) = (call.short(0), call.number(1), call.number(2));
    match Bytes::copy_from_slice(call.alloc, &call.bytes) {
        Ok(payload) => if View::new(dtype, count, &payload).is_ok() {
            cached.put(dtype, count, payload, asked_with);
        } else {
            told.line(&"no view");
        },
        Err(_) => told.line(&"out of memory"),
    }
}

fn describe(cached: &mut Cached, call: &Call, told: &mut Told) {
    let dtype = call.short(0);
    match Bytes::copy_from_slice(call.alloc, &call.bytes) {
        Ok(payload) => if tells_properties(dtype, &payload) {
            cached.put_properties(dtype, payload);
        } else {
            told.line(&"tells no properties");
        },
        Err(_) => told.line(&"out of memory"),
    }
}

fn tells_properties(dtype: u16, payload: &[u8]) -> bool
    ensures { result ≡ true → TellsProperties dtype payload.now }
{
    match View::new(dtype, 0, payload) {
        Ok(view) => Props::of(&view).is_some(),
        Err(_) => false,
    }
}

fn ask(cached: &Cached, call: &Call, told: &mut Told) {
    match cached.answer(call.alloc, call.short(0), call.number(1)) {
        Ok(Some((count, payload))) => {
            told.word(&count);
            told.word(&"in");
            told.bytes(payload.as_slice());
        }
        Ok(None) => told.line(&"none"),
        Err(_) => told.line(&"out of memory"),
    }
}

fn keep(cached: &mut Cached, call: &Call, told: &mut Told) {
    match cached.keep(call.alloc, call.short(0), call.number(1)) {
        Ok(()) => told.line(&cached.kept()),
        Err(_) => told.line(&"out of memory"),
    }
}

fn shares(cached: &Cached, call: &Call, told: &mut Told) {
    match cached.answer(call.alloc, call.short(0), call.number(1)) {
        Ok(Some((_, payload))) => told.line(&!payload.is_unique()),
        Ok(None) => told.line(&"none"),
        Err(_) => told.line(&"out of memory"),
    }
}
