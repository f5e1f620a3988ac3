//! Hosts in lower case: two that differ at most in the case of ASCII letters are one text then.
ghost use Rattle.std.specs.Prelude.{◌≡◌, IfOk, IfSome};
ghost use Rattle.pv_name.specs.Host.{lowercase};

use pv_name::{HOST_LIMIT, Host};
use std::alloc::{AllocError, Global};
use std::str;

/// The host in lower case, written where there is room for each. It takes no memory.
pub(crate) fn folded<'a>(host: &Host, room: &'a mut [u8; HOST_LIMIT]) -> Option<&'a str>
    ensures { IfSome result (λ text. text.now ≡ lowercase host.now) }
{
    let text = host.text().as_bytes();
    let written = room.get_mut(..text.len())?;
    written.copy_from_slice(text);
    written.make_ascii_lowercase();
    str::from_utf8(written).ok()
}
