//! Scripts, performed on a gateway.
//!
//! [`replay`] takes a script from a reader, performs it line by line on a gateway of its own, with
//! no network, and writes what the gateway sends to each connection. It returns the status that a
//! program ends with, one of those in [`status`]:
//!
//! ```rust
//! let script = b"open s1 10.0.0.5\n".as_slice();
//! let mut out = Vec::new(alloc);
//! let status = replay(alloc, script, &mut out);
//! ```
//!
//! Here the status is `status::GOOD`, and `out` is the line of the VERSION message that the client
//! is greeted with. [`replay_plain`] does the same on the plain gateway, to compare the two, and [`replay_from`]
//! and [`replay_plain_from`] begin with other numbers.
//! `replay_text` has the lines of scripts, and those that are printed; `player` performs them.
//!
//! A script, performed on a gateway that is there already.
//!
//! [`play`] takes a script from a reader, performs it line by line on a gateway, with no network, and
//! writes what the gateway sends to each connection. It returns the status that a program ends with, one
//! of those in [`status`]. `replay` makes the gateways that scripts begin with.
//!
//! ```rust
//! let script = b"open s1 10.0.0.5\n".as_slice();
//! let mut out = Vec::new(alloc);
//! let ended = play(alloc, gate, script, &mut out);
//! ```
#![tactic(auto)]

ghost use Rattle.std.specs.Prelude.{◌≡◌, ◌<◌, ◌≤◌, ℕ, IfSome, IsSome, Some, ◌+◌, IfOk, OnOk};
ghost use Rattle.gateway_state.specs.declared.config.TheConstants.{LAST_FIRST};
ghost use Rattle.replay.specs.Beginning.{beginning, beginning_from};
ghost use Rattle.replay.specs.Performed.{IsPlayed, IsPlayedThen, PerformsLines};
ghost use Rattle.replay.specs.Replay.{EndsIn, IsStatus, bad_line, IfBadLine, last_line, status_at};
ghost use Rattle.replay.specs.Script.{IsBadAt, IsGood};
ghost use Rattle.std.specs.Io.KnownBytes.{Appends, Keeps};
ghost use Rattle.replay.specs.Player.{playing};
ghost use Rattle.replay.specs.Reading.{lines_left, IsBadFrom, IsGoodFrom};

pub mod counted;
mod entry;
mod fault;
pub mod laws;
mod player;
mod script;
mod sizes;
pub mod status;

use fault::{PlayFault, ReplayFault};
use gateway_calls::GatewayCalls;
use gateway_core::Engine;
use gateway_state::{Config, Policy};
use plain_gate::PlainGate;
use player::Player;
use pv_name::Name;
use script::Script;
use std::alloc::Global;
use std::io;
use std::io::{Read, Write};

/// The first number that is given out, where nothing else is said.
const USUAL_FIRST: u32 = 1;

/// Performs the script that the reader gives, one line after another, and prints what the gateway
/// sends to each connection. Returns the status that the program ends with: good only where every
/// line of the script was performed, and what was written is the text of the whole script, line by
/// line; bad input only at the first line that is none of a script, of which the last line that is
/// printed has the number, behind the text of the lines before it. What a line prints is flushed
/// before more of the script is waited for, and at the end.
pub fn replay<R: Read + Drop, W: Write>(alloc: Global, reader: R, writer: &mut W) -> u8
    ensures among { IsStatus result }
    ensures good { result ≡ 0 → IsGood (R.remaining reader) }
    ensures played { result ≡ 0 → IsPlayed (R.remaining reader) (Some beginning) (W.contents writer.old) (W.contents writer.new) }
    ensures bad { result ≡ 2 → (number : ℕ) × IsBadAt (R.remaining reader) number
        × (((held : W) → IsSome (W.contents held)) → EndsIn (W.contents writer.new) (bad_line number)) }
    ensures told { result ≡ 2 → (number : ℕ) × IsBadAt (R.remaining reader) number
        × IsPlayedThen (bad_line number) (R.remaining reader) (Some beginning) (W.contents writer.old) (W.contents writer.new) }
{
    replay_from(alloc, USUAL_FIRST, reader, writer)
}

/// The same, where the numbers that the gateway gives out begin with this one.
pub fn replay_from<R: Read + Drop, W: Write>(
    alloc: Global,
    first: u32,
    reader: R,
    writer: &mut W,
) -> u8
    requires lowest { 0 < first }
    requires highest { first ≤ LAST_FIRST }
    ensures among { IsStatus result }
    ensures good { result ≡ 0 → IsGood (R.remaining reader) }
    ensures played { result ≡ 0 → IsPlayed (R.remaining reader) (Some (beginning_from first)) (W.contents writer.old) (W.contents writer.new) }
    ensures bad { result ≡ 2 → (number : ℕ) × IsBadAt (R.remaining reader) number
        × (((held : W) → IsSome (W.contents held)) → EndsIn (W.contents writer.new) (bad_line number)) }
    ensures told { result ≡ 2 → (number : ℕ) × IsBadAt (R.remaining reader) number
        × IsPlayedThen (bad_line number) (R.remaining reader) (Some (beginning_from first)) (W.contents writer.old) (W.contents writer.new) }
{
    replay_on::<Engine, R, W>(alloc, first, reader, writer)
}

/// What [`replay`] does, on the plain gateway, which is slow, and to be compared with the other.
pub fn replay_plain<R: Read + Drop, W: Write>(alloc: Global, reader: R, writer: &mut W) -> u8
    ensures among { IsStatus result }
    ensures good { result ≡ 0 → IsGood (R.remaining reader) }
    ensures played { result ≡ 0 → IsPlayed (R.remaining reader) (Some beginning) (W.contents writer.old) (W.contents writer.new) }
    ensures bad { result ≡ 2 → (number : ℕ) × IsBadAt (R.remaining reader) number
        × (((held : W) → IsSome (W.contents held)) → EndsIn (W.contents writer.new) (bad_line number)) }
    ensures told { result ≡ 2 → (number : ℕ) × IsBadAt (R.remaining reader) number
        × IsPlayedThen (bad_line number) (R.remaining reader) (Some beginning) (W.contents writer.old) (W.contents writer.new) }
{
    replay_plain_from(alloc, USUAL_FIRST, reader, writer)
}

/// The same, where the numbers that the gateway gives out begin with this one.
pub fn replay_plain_from<R: Read + Drop, W: Write>(
    alloc: Global,
    first: u32,
    reader: R,
    writer: &mut W,
) -> u8
    requires lowest { 0 < first }
    requires highest { first ≤ LAST_FIRST }
    ensures among { IsStatus result }
    ensures good { result ≡ 0 → IsGood (R.remaining reader) }
    ensures played { result ≡ 0 → IsPlayed (R.remaining reader) (Some (beginning_from first)) (W.contents writer.old) (W.contents writer.new) }
    ensures bad { result ≡ 2 → (number : ℕ) × IsBadAt (R.remaining reader) number
        × (((held : W) → IsSome (W.contents held)) → EndsIn (W.contents writer.new) (bad_line number)) }
    ensures told { result ≡ 2 → (number : ℕ) × IsBadAt (R.remaining reader) number
        × IsPlayedThen (bad_line number) (R.remaining reader) (Some (beginning_from first)) (W.contents writer.old) (W.contents writer.new) }
{
    replay_on::<PlainGate, R, W>(alloc, first, reader, writer)
}

/// The same on either gateway.
fn replay_on<G: GatewayCalls + Drop, R: Read + Drop, W: Write>(
    alloc: Global,
    first: u32,
    reader: R,
    writer: &mut W,
) -> u8
    requires lowest { 0 < first }
    requires highest { first ≤ LAST_FIRST }
    ensures among { IsStatus result }
    ensures good { result ≡ 0 → IsGood (R.remaining reader) }
    ensures played { result ≡ 0 → IsPlayed (R.remaining reader) (Some (beginning_from first)) (W.contents writer.old) (W.contents writer.new) }
    ensures bad { result ≡ 2 → (number : ℕ) × IsBadAt (R.remaining reader) number
        × (((held : W) → IsSome (W.contents held)) → EndsIn (W.contents writer.new) (bad_line number)) }
    ensures told { result ≡ 2 → (number : ℕ) × IsBadAt (R.remaining reader) number
        × IsPlayedThen (bad_line number) (R.remaining reader) (Some (beginning_from first)) (W.contents writer.old) (W.contents writer.new) }
{
    match gateway::<G>(alloc, first) {
        Some(gate) => play(alloc, gate, reader, writer),
        None => status::FAILED,
    }
}

/// The gateway that scripts are performed on. It admits every name. There is none where memory is
/// refused.
fn gateway<G: GatewayCalls>(alloc: Global, first: u32) -> Option<G>
    requires lowest { 0 < first }
    requires highest { first ≤ LAST_FIRST }
    ensures { IfSome result (λ gate. G.state gate ≡ Some (beginning_from first)) }
{
    let config = Config {
        client_name: Name::read(alloc, b"pvgate").ok()?,
        host_name: Name::read(alloc, b"gw").ok()?,
        port: 5064,
        first,
    };
    G::new(alloc, config, Policy::open_to_all(alloc)).ok()
}

/// Performs the script that the reader gives, one line after another, on the gateway, and prints what the
/// gateway sends to each connection. Returns the status that the program ends with: good only where every
/// line of the script was performed, and what was written is the text of the whole script, line by line;
/// bad input only at the first line that is none of a script, of which the last line that is printed has
/// the number, behind the text of the lines before it. What a line prints is flushed before more of the script is waited for, and at the end.
pub fn play<G: GatewayCalls + Drop, R: Read + Drop, W: Write>(
    alloc: Global,
    gate: G,
    reader: R,
    writer: &mut W,
) -> u8
    ensures among { IsStatus result }
    ensures good { result ≡ 0 → IsGood (R.remaining reader) }
    ensures played { result ≡ 0 → IsPlayed (R.remaining reader) (G.state gate) (W.contents writer.old) (W.contents writer.new) }
    ensures bad { result ≡ 2 → (number : ℕ) × IsBadAt (R.remaining reader) number
        × (((held : W) → IsSome (W.contents held)) → EndsIn (W.contents writer.new) (bad_line number)) }
    ensures told { result ≡ 2 → (number : ℕ) × IsBadAt (R.remaining reader) number
        × IsPlayedThen (bad_line number) (R.remaining reader) (G.state gate) (W.contents writer.old) (W.contents writer.new) }
{
    let ended = play_script(alloc, gate, reader, writer);
    match report(ended, writer) {
        Ok(status) => status,
        Err(_) => status::STREAM_FAILED,
    }
}

fn play_script<G: GatewayCalls + Drop, R: Read + Drop, W: Write>(
    alloc: Global,
    gate: G,
    reader: R,
    writer: &mut W,
) -> Result<(), ReplayFault>
    ensures good { OnOk result (IsGood (R.remaining reader)) }
    ensures played { OnOk result (IsPlayed (R.remaining reader) (G.state gate) (W.contents writer.old) (W.contents writer.new)) }
    ensures bad { IfBadLine result (IsBadAt (R.remaining reader)) }
    ensures told { IfBadLine result (λ n. IsPlayed (R.remaining reader) (G.state gate) (W.contents writer.old) (W.contents writer.new)) }
{
    let mut player = Player::new(alloc, gate);
    let mut script = Script::new(alloc, reader)?;
    play_entries(&mut player, &mut script, writer)
}

fn play_entries<G: GatewayCalls + Drop, R: Read + Drop, W: Write>(
    player: &mut Player<G>,
    script: &mut Script<R>,
    writer: &mut W,
) -> Result<(), ReplayFault>
    ensures good { OnOk result (IsGoodFrom (script.old.number + 1) (lines_left R.remaining script.old)) }
    ensures played { OnOk result (PerformsLines (lines_left R.remaining script.old) (playing G.state player.old) (playing G.state player.new) (W.contents writer.old) (W.contents writer.new)) }
    ensures bad { IfBadLine result (IsBadFrom (script.old.number + 1) (lines_left R.remaining script.old)) }
    ensures told { IfBadLine result (λ n. PerformsLines (lines_left R.remaining script.old) (playing G.state player.old) (playing G.state player.new) (W.contents writer.old) (W.contents writer.new)) }
{
    for _ in 0..u64::MAX {
        let Some(entry) = script.next(writer)? else {
            return Ok(());
        };
        player.play(entry, writer)?;
    }
    Err(ReplayFault::Halted(PlayFault::StreamFailed))
}

/// Prints how the script ended, where that is printed, and gives the program's status.
fn report<W: Write>(ended: Result<(), ReplayFault>, writer: &mut W) -> io::Result<u8>
    ensures ok { IfOk result (λ status. status ≡ status_at ended) }
    ensures among { IfOk result IsStatus }
    ensures printed { OnOk result (Appends (W.contents writer.old) (W.contents writer.new) (last_line ended)) }
{
    match ended {
        Ok(()) => finish(status::GOOD, writer),
        Err(fault) => {
            match fault {
                ReplayFault::BadLine(number) => writeln!(writer, "line {number}: bad")?,
                ReplayFault::Halted(PlayFault::EngineFailed) => writer.write_all(b"failed\n")?,
                ReplayFault::Halted(PlayFault::StreamFailed | PlayFault::OutOfMemory) => {}
            }
            finish(fault.status(), writer)
        }
    }
}

fn finish<W: Write>(status: u8, writer: &mut W) -> io::Result<u8>
    ensures ok { IfOk result (λ s. s ≡ status) }
    ensures same { OnOk result (Keeps (W.contents writer.old) (W.contents writer.new)) }
{
    writer.flush()?;
    Ok(status)
}
