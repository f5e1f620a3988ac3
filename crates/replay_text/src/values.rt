//! What the words of a line stand for.
ghost use Rattle.std.specs.Prelude.{◌≡◌};
ghost use Rattle.decimal_text.specs.Numbers.{number_of};
ghost use Rattle.replay_text.specs.Lines.{IsRead};
ghost use Rattle.replay_text.specs.Values.{flag_of, dest_of, session_of, server_of, name_of, host_of, bytes_of};

use crate::piece::Piece;
use decimal_text::{read_u32, read_u64};
use gateway_state::Dest;
use hex::FromHexError;
use pv_name::{Host, Name, NameFault};
use std::alloc::Global;
use thiserror::Error;

/// Why a line can't be read.
#[derive(Clone, Copy, Debug, PartialEq, Eq, Error)]
pub enum LineFault {
    /// It is no line of a script.
    #[error("bad")]
    Bad,
    #[error("out of memory")]
    OutOfMemory,
}

impl From<NameFault> for LineFault {
    ghost use Rattle.std.specs.Prelude.{◌≡◌};
    ghost use Rattle.replay_text.specs.Values.{fault_of_name};

    ghost from_gives = { λ fault e. e ≡ fault_of_name fault };

    fn from(fault: NameFault) -> LineFault {
        match fault {
            NameFault::OutOfMemory => LineFault::OutOfMemory,
            _ => LineFault::Bad,
        }
    }
}

impl From<FromHexError> for LineFault {
    ghost use Rattle.std.specs.Prelude.{◌≡◌};
    ghost use Rattle.replay_text.specs.Values.{fault_of_hex};

    ghost from_gives = { λ fault e. e ≡ fault_of_hex fault };

    fn from(fault: FromHexError) -> LineFault {
        match fault {
            FromHexError::OutOfMemory => LineFault::OutOfMemory,
            _ => LineFault::Bad,
        }
    }
}

/// The connection that a word names: `s` or `u`, and its number.
pub fn dest(word: &[u8]) -> Option<Dest>
    ensures { result ≡ dest_of word.now }
{
    match word {
        [b's', digits @ ..] => Some(Dest::Session(read_u32(digits)?)),
        [b'u', digits @ ..] => Some(Dest::Upstream(read_u32(digits)?)),
        _ => None,
    }
}

/// The client's connection that a word names.
pub fn session(word: &[u8]) -> Option<u32>
    ensures { result ≡ session_of word.now }
{
    match dest(word)? {
        Dest::Session(number) => Some(number),
        Dest::Upstream(_) => None,
    }
}

/// The server's connection that a word names.
pub fn server(word: &[u8]) -> Option<u32>
    ensures { result ≡ server_of word.now }
{
    match dest(word)? {
        Dest::Upstream(number) => Some(number),
        Dest::Session(_) => None,
    }
}

/// The number of messages or of lines that a word writes.
pub fn count(word: &[u8]) -> Option<usize>
    ensures { result ≡ number_of 64 word.now }
{
    usize::try_from(read_u64(word)?).ok()
}

/// Whether something holds: `1` where it does, `0` where it doesn't.
pub fn flag(word: &[u8]) -> Option<bool>
    ensures { result ≡ flag_of word.now }
{
    match word {
        b"0" => Some(false),
        b"1" => Some(true),
        _ => None,
    }
}

/// The name of a variable that a word is.
pub fn name(alloc: Global, word: &[u8]) -> Result<Name, LineFault>
    ensures { IsRead result (name_of word.now) }
{
    Ok(Name::read(alloc, word)?)
}

/// The host that a word is.
pub fn host(alloc: Global, word: &[u8]) -> Result<Host, LineFault>
    ensures { IsRead result (host_of word.now) }
{
    Ok(Host::read(alloc, word)?)
}

/// The bytes that a word stands for: two hexadecimal digits for each, in either case, or `-` for
/// none.
pub fn bytes(alloc: Global, word: &[u8]) -> Result<Piece, LineFault>
    ensures { IsRead result (bytes_of word.now) }
{
    match word {
        b"-" => Ok(Piece::from(Vec::new(alloc))),
        b"" => Err(LineFault::Bad),
        digits => Ok(Piece::from(hex::decode(alloc, digits)?)),
    }
}
