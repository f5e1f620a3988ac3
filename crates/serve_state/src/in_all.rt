//! How much may wait for all clients together.
ghost use Rattle.std.specs.Prelude.{◌≡◌, ◌≤◌, ℕ, List, length, take};
ghost use Rattle.std.specs.List.Sorted.{IsPermutation, IsSorted};
ghost use Rattle.serve_state.specs.InAll.{IsCutFor, IsFewest, bytes_in_all, by_bytes, front_over, in_all_of};
ghost use Rattle.serve_state.specs.declared.in_all.WaitingBytes.{WaitingBytes};

use decimal_text::read_u32;
use std::cmp::Reverse;

/// How many bytes a MiB has.
const MIB: u64 = 1_048_576;

/// A client, by its number, and how many bytes wait for it.
#[derive(Clone, Copy, Debug, PartialEq, Eq)]
pub struct WaitingBytes {
    pub number: u32,
    pub bytes: u64,
}

/// How many MiB may wait for all clients together.
#[derive(Clone, Copy, Debug, PartialEq, Eq)]
pub struct MostInAll {
    pub mib: u32,
}

impl MostInAll {
    /// The number that decimal digits write; `None` where it is 0, or they are none.
    pub fn read(digits: &[u8]) -> Option<MostInAll>
        ensures { result ≡ in_all_of digits.now }
    {
        match read_u32(digits) {
            Some(mib) if mib > 0 => Some(MostInAll { mib }),
            _ => None,
        }
    }

    /// How many bytes these are.
    pub fn bytes(self) -> u64
        ensures { result ≡ bytes_in_all self }
    {
        u64::from(self.mib) * MIB
    }

    /// Leaves of these clients those that are to be cut off: as few as bring the others to so many bytes at most, and
    /// first those for whom most wait. It takes no memory: it is done where that is short.
    pub fn cut(self, clients: &mut Vec<WaitingBytes>)
        ensures { IsCutFor self clients.old.items clients.new.items }
    {
        sort(clients);
        let place = place_over(self.bytes(), clients.as_slice());
        clients.truncate(place);
    }
}

// Puts those first for whom most waits.
fn sort(clients: &mut Vec<WaitingBytes>)
    ensures moved { IsPermutation clients.old.items clients.new.items }
    ensures order { IsSorted by_bytes clients.new.items }
{
    clients.sort_unstable_by_key(|client| (Reverse(client.bytes), client.number));
}

// How many from the front go. It is counted from the back, so that no sum passes what may wait.
fn place_over(most: u64, clients: &[WaitingBytes]) -> usize
    ensures within { result ≤ length clients.now }
    ensures front { take result clients.now ≡ front_over most clients.now }
{
    let mut room = most;
    for count in 0..clients.len() {
        let last = clients.len() - count - 1;
        let client = clients[last];
        if client.bytes > room {
            return last + 1;
        }
        room -= client.bytes;
    }
    0
}

/// Where those go who are cut off what is left may wait, and with one of them fewer it may not.
pub fn as_few_go_as_will_do()
    ensures { (most : ℕ) (clients : List WaitingBytes) → IsFewest most clients (front_over most clients) }
{}
