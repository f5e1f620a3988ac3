//! The texts of states.
ghost use Rattle.std.specs.Prelude.{◌≡◌, ◌≤◌, nat_lt, if◌then◌else◌, length, IfSome, Some, None};
ghost use Rattle.std.specs.Option.{option_copied};
ghost use Rattle.dbr_layout.specs.States.{before_nul, state_count, text_at};

use byteorder::{BigEndian, ByteOrder};

/// How many bytes the number of states and their texts have.
pub(crate) const STATES_SIZE: usize = 418;

/// How many states have texts at most.
const MOST_STATES: u16 = 16;

/// How many bytes a text has, up to a NUL or all.
const TEXT_SIZE: usize = 26;

/// The text of the state with this number, where it has one.
pub(crate) fn text_in(states: &[u8], number: u16) -> Option<&[u8]>
    requires { STATES_SIZE ≤ length states.now }
    ensures text { option_copied result
        ≡ (if nat_lt number (state_count states.now) then Some (before_nul (text_at number states.now)) else None) }
    ensures len { IfSome result (λ text. length text.now ≤ TEXT_SIZE) }
{
    if number < state_count(states) {
        let start = 2 + usize::from(number) * TEXT_SIZE;
        Some(before_nul(&states[start..start + TEXT_SIZE]))
    } else {
        None
    }
}

// How many states have texts: none where the number in front is negative.
fn state_count(states: &[u8]) -> u16
    requires { STATES_SIZE ≤ length states.now }
    ensures value { result ≡ state_count states.now }
    ensures most { result ≤ MOST_STATES }
{
    let count = BigEndian::read_u16(states);
    if count > 32_767 {
        0
    } else {
        count.min(MOST_STATES)
    }
}

fn before_nul(bytes: &[u8]) -> &[u8]
    ensures text { result.now ≡ before_nul bytes.now }
    ensures len { length result.now ≤ length bytes.now }
{
    let mut end = 0;
    while end < bytes.len() && bytes[end] != 0 {
        end += 1;
    }
    &bytes[..end]
}
