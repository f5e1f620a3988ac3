//! A round: a pump for each connection, and then a send-out for each.
ghost use Rattle.std.specs.Prelude.{◌≡◌, map, IsSome, OnOk};
ghost use Rattle.board_rings.specs.Attachments.{have_full};
ghost use Rattle.board_moves.specs.Answers.{KeepsRings};
ghost use Rattle.board_moves.specs.Noted.{begun, noted_of, StayNoted};
ghost use Rattle.board_moves.specs.Rounds.{dests_of, IsRound, Performs, PerformsUpTo};

use crate::fault::BoardFault;
use crate::moves::{has_failed, pump_standing, send_out};
use crate::news::News;
use board_rings::Attachments;
use gateway_calls::{GatewayCalls, StepFault};
use gateway_state::Dest;

/// One call of a round or of a batch.
#[derive(Clone, Copy)]
pub(crate) enum RoundCall {
    Pump(Dest),
    /// A pump, unless the connection is held.
    PumpFree(Dest),
    SendOut(Dest),
    /// A look whether too much waits for it, where it is a server, or clients are weighed too.
    Weigh(bool, Dest),
}

/// Pumps a connection whose attachment may stand at the guess, and answers how many items it moved.
pub(crate) fn pump_one<G: GatewayCalls>(
    gate: &mut G,
    attachments: &mut Attachments,
    news: &mut News,
    dest: Dest,
    guess: usize,
) -> Result<usize, BoardFault>
    requires stands { IsSome (G.state gate.old) }
    ensures performed { Performs (RoundCall.Pump dest) (noted_of (G.state gate.old) attachments.old news.old) result (noted_of (G.state gate.new) attachments.new news.new) }
    ensures stands { OnOk result (IsSome (G.state gate.new)) }
    ensures dests { dests_of attachments.new ≡ dests_of attachments.old }
    ensures full { have_full attachments.new ≡ have_full attachments.old }
    ensures rings { KeepsRings attachments.old attachments.new }
    ensures kept { StayNoted news.old news.new }
{
    match pump_standing(gate, attachments, news, dest, guess) {
        Ok(true) => Ok(1),
        Ok(false) => Ok(0),
        Err(fault) => Err(fault),
    }
}

/// Pumps each attached connection, in order, on a gateway that hasn't failed.
#[tactic(auto, using(crate::proofs::RoundCalls::next_performed))]
fn pump_all<G: GatewayCalls>(
    gate: &mut G,
    attachments: &mut Attachments,
    news: &mut News,
) -> Result<usize, BoardFault>
    requires stands { IsSome (G.state gate.old) }
    ensures calls { PerformsUpTo (map RoundCall.Pump (dests_of attachments.old)) (begun (noted_of (G.state gate.old) attachments.old news.old)) result (noted_of (G.state gate.new) attachments.new news.new) }
    ensures stands { OnOk result (IsSome (G.state gate.new)) }
    ensures dests { dests_of attachments.new ≡ dests_of attachments.old }
    ensures rings { KeepsRings attachments.old attachments.new }
    ensures kept { StayNoted news.old news.new }
{
    news.begin_round();
    let mut moved = 0usize;
    for n in 0..attachments.len() {
        let Some(dest) = attachments.dest(n) else {
            break;
        };
        match pump_one(gate, attachments, news, dest, n) {
            Ok(count) => moved = moved.saturating_add(count),
            Err(fault) => return Err(fault),
        }
    }
    Ok(moved)
}

/// Sends out to each attached connection, in order.
#[tactic(auto, using(crate::proofs::RoundCalls::next_performed))]
pub(crate) fn send_all<G: GatewayCalls>(
    gate: &mut G,
    attachments: &mut Attachments,
    news: &mut News,
) -> Result<usize, BoardFault>
    ensures calls { PerformsUpTo (map RoundCall.SendOut (dests_of attachments.old)) (noted_of (G.state gate.old) attachments.old news.old) result (noted_of (G.state gate.new) attachments.new news.new) }
    ensures dests { dests_of attachments.new ≡ dests_of attachments.old }
    ensures rings { KeepsRings attachments.old attachments.new }
    ensures kept { StayNoted news.old news.new }
{
    let mut moved = 0usize;
    for n in 0..attachments.len() {
        let Some(dest) = attachments.dest(n) else {
            break;
        };
        match send_out(gate, attachments, news, dest, n) {
            Ok(count) => moved = moved.saturating_add(count),
            Err(fault) => return Err(fault),
        }
    }
    Ok(moved)
}

/// Pumps each attached connection, then sends out to each, up to the first fault. It answers how many
/// items were moved. The attachments are walked in place: none is searched for.
pub(crate) fn round<G: GatewayCalls>(
    gate: &mut G,
    attachments: &mut Attachments,
    news: &mut News,
) -> Result<usize, BoardFault>
    ensures round { IsRound (noted_of (G.state gate.old) attachments.old news.old) result (noted_of (G.state gate.new) attachments.new news.new) }
    ensures rings { KeepsRings attachments.old attachments.new }
    ensures kept { StayNoted news.old news.new }
{
    if has_failed(gate) {
        return Err(BoardFault::Step(StepFault::Failed));
    }
    let received = match pump_all(gate, attachments, news) {
        Ok(received) => received,
        Err(fault) => return Err(fault),
    };
    match send_all(gate, attachments, news) {
        Ok(sent) => Ok(received.saturating_add(sent)),
        Err(fault) => Err(fault),
    }
}
