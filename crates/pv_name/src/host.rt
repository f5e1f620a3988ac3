//! Texts of hosts.
ghost use Rattle.std.specs.Prelude.{◌≡◌, ◌↔◌, IsTrue, IfOk};
ghost use Rattle.pv_name.specs.Word.{reading, Reads};
ghost use Rattle.pv_name.specs.Host.{IsHost, is_host, IsSameHost, same_host};

use crate::NoMemory;
use crate::fault::NameFault;
use crate::word::word;
use std::alloc::Global;
use std::marker::Model;

/// The most bytes that the text of a host has.
pub const HOST_LIMIT: usize = 127;

/// The text of a host: the address of a client's peer, or what the client says it is called.
#[derive(Debug, Drop)]
pub struct Host {
    text: String,
}

impl Model for Host {
    ghost use Rattle.std.specs.Prelude.{ℕ, List, string_bytes};
    ghost use Rattle.pv_name.specs.Host.{IsHost};

    ghost Value = { List ℕ };

    ghost view = { λ h. string_bytes h.text };

    ghost invariant = { λ h. IsHost (string_bytes h.text) };
}

impl Host {
    /// Reads a host from all of the bytes. Bytes that are none are refused as such, with memory or
    /// without.
    pub fn read(alloc: Global, bytes: &[u8]) -> Result<Self, NameFault>
        ensures { Reads result (reading HOST_LIMIT bytes.now) }
    {
        let text = word(HOST_LIMIT, bytes)?;
        Ok(Host {
            text: String::from_str(alloc, text)?,
        })
    }

    /// The same host again, from the allocator that this one came from.
    pub fn copy(&self) -> Result<Self, NoMemory>
        ensures { IfOk result (λ copy. copy ≡ self.now) }
    {
        Ok(Host {
            text: self.text.clone()?,
        })
    }

    /// What was read, with letters in the case that they came in.
    pub fn text(&self) -> &str
        ensures text { result.now ≡ self.now }
        ensures host { IsHost self.now }
    {
        self.text.as_str()
    }
}

/// Whether the bytes are the text of a host.
pub fn is_host(bytes: &[u8]) -> bool
    ensures test { result ≡ is_host bytes.now }
    ensures host { IsTrue result ↔ IsHost bytes.now }
{
    word(HOST_LIMIT, bytes).is_ok()
}

/// Whether the hosts are the same but for the case of ASCII letters.
pub fn same_host(a: &Host, b: &Host) -> bool
    ensures test { result ≡ same_host a.now b.now }
    ensures same { IsTrue result ↔ IsSameHost a.now b.now }
{
    a.text.as_bytes().eq_ignore_ascii_case(b.text.as_bytes())
}
