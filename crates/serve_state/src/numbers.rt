//! Which numbers clients hold.
ghost use Rattle.std.specs.Prelude.{◌≡◌, ◌<◌, not, length, OnOk, IfOk, IfSome, IsErrOf};
ghost use Rattle.std.specs.List.{position};
ghost use Rattle.serve_state.specs.Roster.{IsLeastFree, IsFull, enough, none_taken, with_taken, taken_by};

use crate::roster::{RosterRefusal, RosterRow};
use gateway_state::Dest;
use std::alloc::AllocError;

/// The least number of a client, up to this one, that no row holds. It walks the rows once and notes in `taken` which
/// numbers they hold; what stood there goes, and its memory is used again.
#[tactic(auto, using(crate::proofs::RosterLemmas::first_is_least, crate::proofs::RosterLemmas::none_is_full))]
pub fn least_free<L: Drop, P: Drop>(
    taken: &mut Vec<bool>,
    rows: &[RosterRow<L, P>],
    clients: u32,
) -> Result<u32, RosterRefusal>
    ensures ok { IfOk result (λ n. IsLeastFree clients n rows.now) }
    ensures full { IsErrOf result RosterRefusal.Full → IsFull clients rows.now }
    ensures closing { IsErrOf result RosterRefusal.Closing → ⊥ }
    ensures of_host { IsErrOf result RosterRefusal.HostFull → ⊥ }
    ensures held { IsErrOf result RosterRefusal.Held → ⊥ }
{
    if clear(taken, enough(rows.len(), clients)).is_err() {
        return Err(RosterRefusal::OutOfMemory);
    }
    note_held(taken, rows);
    match first_free(taken) {
        Some(number) => Ok(number as u32),
        None => Err(RosterRefusal::Full),
    }
}

fn enough(rows: usize, clients: u32) -> u32
    ensures { result ≡ enough rows clients }
{
    if rows < clients as usize {
        rows as u32 + 1
    } else {
        clients
    }
}

#[tactic(auto, using(crate::proofs::RosterLemmas::set_none_taken))]
fn clear(taken: &mut Vec<bool>, most: u32) -> Result<(), AllocError>
    ensures { OnOk result (taken.new.items ≡ none_taken most) }
{
    taken.clear();
    taken.resize(most as usize + 1, false)?;
    taken[0] = true;
    Ok(())
}

fn note_held<L: Drop, P: Drop>(taken: &mut [bool], rows: &[RosterRow<L, P>])
    ensures { taken.new ≡ taken_by rows.now taken.old }
{
    for row in rows {
        note(taken, row.dest());
    }
}

#[tactic(auto, using(std::proofs::lemmas::List::set_past))]
fn note(taken: &mut [bool], dest: Dest)
    ensures { taken.new ≡ with_taken dest taken.old }
{
    match dest {
        Dest::Session(number) => {
            let place = number as usize;
            if place < taken.len() {
                taken[place] = true;
            }
        }
        Dest::Upstream(_) => (),
    }
}

fn first_free(taken: &[bool]) -> Option<usize>
    ensures number { result ≡ position not taken.now }
    ensures within { IfSome result (λ n. n < length taken.now) }
{
    taken.iter().position(|is_taken| !*is_taken)
}
