//! Rounds in which those that are held aren't pumped.
ghost use Rattle.std.specs.Prelude.{◌≡◌, map, IsSome, Ok, OnOk};
ghost use Rattle.board_rings.specs.Attachments.{have_full};
ghost use Rattle.board_moves.specs.Answers.{board_of, KeepsRings};
ghost use Rattle.board_moves.specs.Noted.{begun, noted_of, StayNoted};
ghost use Rattle.board_moves.specs.Held.{is_weighed};
ghost use Rattle.board_moves.specs.Rounds.{dests_of, IsFreeRound, Performs, PerformsUpTo, Weighs};
ghost use Rattle.board_moves.specs.declared.news.News.{News};

use crate::fault::BoardFault;
use crate::held::{has_too_much, is_held, is_weighed};
use crate::moves::has_failed;
use crate::news::News;
use crate::rounds::{RoundCall, pump_one, send_all};
use board_rings::Attachments;
use gateway_calls::{GatewayCalls, StepFault};
use gateway_state::Dest;

/// Weighs a connection, whose attachment may stand at the guess, if it is a server or clients are weighed too.
#[tactic(auto, using(crate::proofs::WhoIsHeld::weighed_so, crate::proofs::WhoIsHeld::not_weighed))]
fn weigh<G: GatewayCalls>(
    gate: &mut G,
    attachments: &mut Attachments,
    clients: bool,
    dest: Dest,
    guess: usize,
)
    ensures weighed { Weighs (is_weighed clients dest) dest (board_of (G.state gate.old) attachments.old) (board_of (G.state gate.new) attachments.new) }
    ensures dests { dests_of attachments.new ≡ dests_of attachments.old }
    ensures rings { KeepsRings attachments.old attachments.new }
{
    if is_weighed(clients, dest) {
        let full = has_too_much(gate, dest);
        attachments.note_full(dest, guess, full);
    }
}

/// Weighs each server that is attached, and each client where that is wanted, in order. Nobody is told of it.
pub(crate) fn weigh_all<G: GatewayCalls>(gate: &mut G, attachments: &mut Attachments, clients: bool)
    ensures calls { (news : News) → PerformsUpTo (map (RoundCall.Weigh clients) (dests_of attachments.old)) (noted_of (G.state gate.old) attachments.old news) (Ok 0) (noted_of (G.state gate.new) attachments.new news) }
    ensures rings { KeepsRings attachments.old attachments.new }
{
    for n in 0..attachments.len() {
        let Some(dest) = attachments.dest(n) else {
            break;
        };
        weigh(gate, attachments, clients, dest, n);
    }
}

/// Pumps a connection unless it is held.
#[tactic(auto, using(crate::proofs::WhoIsHeld::free_pumped, crate::proofs::WhoIsHeld::held_stays))]
fn pump_unless_held<G: GatewayCalls>(
    gate: &mut G,
    attachments: &mut Attachments,
    news: &mut News,
    dest: Dest,
    guess: usize,
    some_full: bool,
) -> Result<usize, BoardFault>
    requires stands { IsSome (G.state gate.old) }
    requires full { some_full ≡ have_full attachments.old }
    ensures performed { Performs (RoundCall.PumpFree dest) (noted_of (G.state gate.old) attachments.old news.old) result (noted_of (G.state gate.new) attachments.new news.new) }
    ensures stands { OnOk result (IsSome (G.state gate.new)) }
    ensures dests { dests_of attachments.new ≡ dests_of attachments.old }
    ensures full { have_full attachments.new ≡ have_full attachments.old }
    ensures rings { KeepsRings attachments.old attachments.new }
    ensures kept { StayNoted news.old news.new }
{
    if is_held(gate, attachments, dest, guess, some_full) {
        return Ok(0);
    }
    pump_one(gate, attachments, news, dest, guess)
}

/// Pumps each attached connection that isn't held, in order, on a gateway that hasn't failed.
#[tactic(auto, using(crate::proofs::RoundCalls::next_performed))]
fn pump_free<G: GatewayCalls>(
    gate: &mut G,
    attachments: &mut Attachments,
    news: &mut News,
) -> Result<usize, BoardFault>
    requires stands { IsSome (G.state gate.old) }
    ensures calls { PerformsUpTo (map RoundCall.PumpFree (dests_of attachments.old)) (begun (noted_of (G.state gate.old) attachments.old news.old)) result (noted_of (G.state gate.new) attachments.new news.new) }
    ensures stands { OnOk result (IsSome (G.state gate.new)) }
    ensures dests { dests_of attachments.new ≡ dests_of attachments.old }
    ensures rings { KeepsRings attachments.old attachments.new }
    ensures kept { StayNoted news.old news.new }
{
    news.begin_round();
    let some_full = attachments.have_full();
    let mut moved = 0usize;
    for n in 0..attachments.len() {
        let Some(dest) = attachments.dest(n) else {
            break;
        };
        match pump_unless_held(gate, attachments, news, dest, n, some_full) {
            Ok(count) => moved = moved.saturating_add(count),
            Err(fault) => return Err(fault),
        }
    }
    Ok(moved)
}

/// Pumps each attached connection that isn't held, then sends out to each, up to the first fault. It answers how many
/// items were moved.
pub(crate) fn free_round<G: GatewayCalls>(
    gate: &mut G,
    attachments: &mut Attachments,
    news: &mut News,
) -> Result<usize, BoardFault>
    ensures round { IsFreeRound (noted_of (G.state gate.old) attachments.old news.old) result (noted_of (G.state gate.new) attachments.new news.new) }
    ensures rings { KeepsRings attachments.old attachments.new }
    ensures kept { StayNoted news.old news.new }
{
    if has_failed(gate) {
        return Err(BoardFault::Step(StepFault::Failed));
    }
    let pumped = match pump_free(gate, attachments, news) {
        Ok(pumped) => pumped,
        Err(fault) => return Err(fault),
    };
    match send_all(gate, attachments, news) {
        Ok(sent) => Ok(pumped.saturating_add(sent)),
        Err(fault) => Err(fault),
    }
}
