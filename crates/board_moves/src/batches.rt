//! A batch: rounds one after another.
ghost use Rattle.board_moves.specs.Answers.{KeepsRings};
ghost use Rattle.board_moves.specs.Noted.{noted_of, StayNoted};
ghost use Rattle.board_moves.specs.Rounds.{IsBatch};

use crate::fault::BoardFault;
use crate::free_rounds::{free_round, weigh_all};
use crate::held::weighs_clients;
use crate::news::News;
use board_rings::Attachments;
use gateway_calls::GatewayCalls;

/// How many rounds a batch has at most. So many messages for one client are then written at once.
const MOST_ROUNDS: usize = 32;

/// Once so many items were moved no round follows: where many connections have said something, whoever waits for
/// an answer or for the lock waits for no more than their work.
const MOST_MOVED: usize = 512;

/// Weighs what waits for servers, and for clients where that is due. Then it performs a round, but for those that are
/// held, which aren't pumped, and others behind it as long as one saw items that it left, few were moved, and too much
/// came to wait for no client. It answers how many items were moved. Each round takes one item of each connection, so
/// none is starved, and sends out before the next, so that nothing is lost that waited for a connection whose end comes
/// behind. Once for a batch is enough to weigh: it moves few items, and ends with a round by which a client is one to
/// hold.
pub(crate) fn batch<G: GatewayCalls>(
    gate: &mut G,
    attachments: &mut Attachments,
    news: &mut News,
) -> Result<usize, BoardFault>
    ensures batch { IsBatch (noted_of (G.state gate.old) attachments.old news.old) result (noted_of (G.state gate.new) attachments.new news.new) }
    ensures rings { KeepsRings attachments.old attachments.new }
    ensures kept { StayNoted news.old news.new }
{
    let clients = weighs_clients(news, attachments);
    weigh_all(gate, attachments, clients);
    let mut moved = match free_round(gate, attachments, news) {
        Ok(count) => count,
        Err(fault) => return Err(fault),
    };
    for _ in 1..MOST_ROUNDS {
        if news.has_grown() {
            return Ok(moved);
        }
        if !news.has_left() || moved >= MOST_MOVED {
            return Ok(moved);
        }
        match free_round(gate, attachments, news) {
            Ok(count) => moved = moved.saturating_add(count),
            Err(fault) => return Err(fault),
        }
    }
    Ok(moved)
}
