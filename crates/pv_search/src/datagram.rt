//! The bytes of datagrams.
ghost use Rattle.std.specs.Prelude.{◌≡◌, [], OnOk, OnErr};
ghost use Rattle.pv_search.specs.Parts.{joined};

use crate::NoMemory;
use ca_header::PLAIN_LEN;
use std::alloc::Global;
use std::marker::Model;

/// The bytes of a datagram.
#[derive(Debug, Drop)]
pub struct Datagram {
    pub(crate) bytes: Vec<u8>,
}

impl Model for Datagram {
    ghost use Rattle.std.specs.Prelude.{ℕ, List};

    ghost Value = { List ℕ };

    ghost view = { λ d. d.bytes.items };
}

impl Datagram {
    /// It has no bytes.
    pub fn new(alloc: Global) -> Self
        ensures { result ≡ [] }
    {
        Datagram {
            bytes: Vec::new(alloc),
        }
    }

    /// It takes no memory.
    pub fn as_slice(&self) -> &[u8]
        ensures { result.now ≡ self.now }
    {
        self.bytes.as_slice()
    }

    /// Puts what another reply says behind what this one says. Either may be empty. Where memory is refused,
    /// this one stays as it was.
    pub fn join(&mut self, more: &Datagram) -> Result<(), NoMemory>
        ensures ok { OnOk result (self.new ≡ joined self.old more.now) }
        ensures err { OnErr result (self.new ≡ self.old) }
    {
        let more = more.as_slice();
        let said = if self.bytes.is_empty() {
            0
        } else {
            PLAIN_LEN.min(more.len())
        };
        self.bytes.extend_from_slice(&more[said..])
    }
}
