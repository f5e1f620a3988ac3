//! How several names are searched for by one datagram.
ghost use Rattle.std.specs.Prelude.{◌<◌, length, IfOk, OnOk};
ghost use Rattle.ca_header.specs.Header.{message_text};
ghost use Rattle.pv_name.specs.Name.{IsName};
ghost use Rattle.pv_search.specs.Ask.{ask};
ghost use Rattle.pv_search.specs.Asks.{IsAddedIf, IsAskDatagram};

use crate::NoMemory;
use crate::asking::add_ask;
use crate::datagram::Datagram;
use crate::message::add_version;
use pv_name::Name;
use std::alloc::Global;

/// The most bytes of a datagram that asks for names: so many go through any network in one piece.
pub const ASK_LIMIT: usize = 1_400;

/// A name that is asked for, and the CID that replies to it are for.
#[derive(Debug, Drop)]
pub struct NameAsk {
    pub name: Name,
    pub cid: u32,
}

/// A datagram that asks for names.
#[derive(Debug, Drop)]
pub struct AskDatagram {
    /// Its bytes, at most `ASK_LIMIT`.
    pub text: Datagram,
    /// How many of the asks, from the first on, are in it.
    pub asked: usize,
}

/// A datagram that asks servers for the first of these, as many as fit. One always fits.
pub fn ask_datagram(alloc: Global, asks: &[NameAsk]) -> Result<AskDatagram, NoMemory>
    ensures datagram { IfOk result (λ datagram. IsAskDatagram asks.now datagram) }
    ensures some { IfOk result (λ datagram. 0 < length asks.now → 0 < datagram.asked) }
{
    let mut text = Vec::new(alloc);
    add_version(&mut text)?;
    let mut asked = 0;
    for ask in asks {
        let fits = add_if_it_fits(alloc, &mut text, ask)?;
        if fits {
            asked += 1;
        } else {
            break;
        }
    }
    Ok(AskDatagram {
        text: Datagram { bytes: text },
        asked,
    })
}

/// Adds the search for the name, if the datagram isn't too long with it.
fn add_if_it_fits(alloc: Global, text: &mut Vec<u8>, asked: &NameAsk) -> Result<bool, NoMemory>
    ensures added { IfOk result (λ fits. IsAddedIf fits text.old.items (message_text (ask asked.now.name asked.now.cid)) text.new.items) }
    ensures name { OnOk result (IsName asked.now.name) }
{
    let before = text.len();
    let _name = asked.name.text();
    add_ask(alloc, text, &asked.name, asked.cid)?;
    let fits = text.len() <= ASK_LIMIT;
    if !fits {
        text.truncate(before);
    }
    Ok(fits)
}
