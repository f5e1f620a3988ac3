//! The kind of text that names, hosts and groups are.
ghost use Rattle.std.specs.Prelude.{◌≡◌, ◌↔◌, position, IsOk, IfOk, IfErr};
ghost use Rattle.pv_name.specs.Word.{IsWord, is_bad, reading};

use crate::fault::NameFault;
use std::str;

/// The bytes as text, where they are a word of at most `limit` bytes. It takes no memory.
pub(crate) fn word(limit: usize, bytes: &[u8]) -> Result<&str, NameFault>
    ensures word { IsOk result ↔ IsWord limit bytes.now }
    ensures ok { IfOk result (λ text. reading limit bytes.now ≡ Ok text.now) }
    ensures err { IfErr result (λ fault. reading limit bytes.now ≡ Err fault) }
{
    if bytes.is_empty() {
        return Err(NameFault::Empty);
    }
    if bytes.len() > limit {
        return Err(NameFault::TooLong);
    }
    if let Some(place) = bad_place(bytes) {
        return Err(NameFault::BadByte(place));
    }
    Ok(str::from_utf8(bytes).unwrap())
}

/// The place of the first byte that is no printable ASCII character, or is a blank.
fn bad_place(bytes: &[u8]) -> Option<usize>
    ensures { result ≡ position is_bad bytes.now }
{
    bytes.iter().position(|b| !b.is_ascii_graphic())
}
