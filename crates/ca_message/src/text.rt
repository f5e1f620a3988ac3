//! Texts as they lie in payloads: up to a NUL.
ghost use Rattle.std.specs.Prelude.{◌≡◌, ◌<◌, bytes_eq, length, position, IfOk, IfErr, IfSome};
ghost use Rattle.std.specs.Cmp.{partial_equiv_from_equiv};
ghost use Rattle.std.specs.Cmp.Lexicographic.{nat_list_eq_equiv};
ghost use Rattle.pv_name.specs.Name.{IsName};
ghost use Rattle.pv_name.specs.Host.{IsHost};
ghost use Rattle.ca_message.specs.Text.{is_nul, text_in, name_in, host_in};

use crate::NoMemory;
use crate::request::RequestFault;
use pv_name::{Host, Name, is_host, is_name};
use std::alloc::{AllocError, Global};
use std::marker::Model;

/// The byte that ends a text.
pub const NUL: u8 = 0;

/// A name that is borrowed, as from the payload in which it came.
#[derive(Debug, Drop)]
pub struct NameText<'a> {
    bytes: &'a [u8],
}

impl<'a> Model for NameText<'a> {
    ghost use Rattle.std.specs.Prelude.{ℕ, List};
    ghost use Rattle.pv_name.specs.Name.{IsName};

    ghost Value = { List ℕ };

    ghost view = { λ t. t.bytes.now };

    ghost invariant = { λ t. IsName t.bytes.now };
}

impl<'a> NameText<'a> {
    /// The name that a payload holds, a slice of it. It takes no memory.
    pub fn read(payload: &'a [u8]) -> Result<Self, RequestFault>
        ensures { result ≡ name_in payload.now }
    {
        let bytes = text_in(payload)?;
        if is_name(bytes) {
            Ok(NameText { bytes })
        } else {
            Err(RequestFault::BadName)
        }
    }

    pub fn as_slice(&self) -> &'a [u8]
        ensures text { result.now ≡ self.now }
        ensures name { IsName self.now }
    {
        self.bytes
    }

    /// The same name, of its own. Nothing but want of memory stands in its way.
    pub fn to_name(&self, alloc: Global) -> Result<Name, NoMemory>
        ensures { IfOk result (λ name. name ≡ self.now) }
    {
        match Name::read(alloc, self.bytes) {
            Ok(name) => Ok(name),
            Err(_) => Err(AllocError),
        }
    }
}

impl<'a> From<&'a Name> for NameText<'a> {
    ghost from_gives = { λ name text. text ≡ name.now };

    fn from(name: &'a Name) -> NameText<'a> {
        NameText {
            bytes: name.text().as_bytes(),
        }
    }
}

impl<'a> PartialEq for NameText<'a> {
    ghost eq = { bytes_eq };

    ghost laws = { partial_equiv_from_equiv nat_list_eq_equiv };

    fn eq(&self, other: &NameText<'a>) -> bool {
        self.bytes == other.bytes
    }
}

impl<'a> Eq for NameText<'a> {
    ghost laws = { nat_list_eq_equiv };
}

/// The text of a host that is borrowed, as from the payload in which it came.
#[derive(Debug, Drop)]
pub struct HostText<'a> {
    bytes: &'a [u8],
}

impl<'a> Model for HostText<'a> {
    ghost use Rattle.std.specs.Prelude.{ℕ, List};
    ghost use Rattle.pv_name.specs.Host.{IsHost};

    ghost Value = { List ℕ };

    ghost view = { λ t. t.bytes.now };

    ghost invariant = { λ t. IsHost t.bytes.now };
}

impl<'a> HostText<'a> {
    /// The text of a host that a payload holds, a slice of it. It takes no memory.
    pub fn read(payload: &'a [u8]) -> Result<Self, RequestFault>
        ensures { result ≡ host_in payload.now }
    {
        let bytes = text_in(payload)?;
        if is_host(bytes) {
            Ok(HostText { bytes })
        } else {
            Err(RequestFault::BadName)
        }
    }

    pub fn as_slice(&self) -> &'a [u8]
        ensures text { result.now ≡ self.now }
        ensures host { IsHost self.now }
    {
        self.bytes
    }

    /// The same host, of its own. Nothing but want of memory stands in its way.
    pub fn to_host(&self, alloc: Global) -> Result<Host, NoMemory>
        ensures { IfOk result (λ host. host ≡ self.now) }
    {
        match Host::read(alloc, self.bytes) {
            Ok(host) => Ok(host),
            Err(_) => Err(AllocError),
        }
    }
}

impl<'a> PartialEq for HostText<'a> {
    ghost eq = { bytes_eq };

    ghost laws = { partial_equiv_from_equiv nat_list_eq_equiv };

    fn eq(&self, other: &HostText<'a>) -> bool {
        self.bytes == other.bytes
    }
}

impl<'a> Eq for HostText<'a> {
    ghost laws = { nat_list_eq_equiv };
}

/// The bytes of a payload before its first NUL.
fn text_in(payload: &[u8]) -> Result<&[u8], RequestFault>
    ensures ok { IfOk result (λ text. text_in payload.now ≡ Ok text.now) }
    ensures err { IfErr result (λ fault. text_in payload.now ≡ Err fault) }
{
    match nul_place(payload) {
        Some(end) => Ok(&payload[..end]),
        None => Err(RequestFault::NoNul),
    }
}

/// Where the first NUL stands.
pub(crate) fn nul_place(bytes: &[u8]) -> Option<usize>
    ensures place { result ≡ position is_nul bytes.now }
    ensures within { IfSome result (λ place. place < length bytes.now) }
{
    bytes.iter().position(|b| *b == NUL)
}
