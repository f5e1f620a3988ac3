//! For whom too much waits, and which clients are held.
ghost use Rattle.std.specs.Prelude.{◌≡◌, IsSome, Some};
ghost use Rattle.board_rings.specs.Attachments.{have_full};
ghost use Rattle.board_moves.specs.Answers.{board_of};
ghost use Rattle.board_moves.specs.Held.{has_grown, has_too_much, is_held, is_weighed, server_for, weighs_clients};
ghost use Rattle.gateway_state.specs.declared.event.Dest.TheVariants.{Session, Upstream};

use crate::news::News;
use crate::share::{HELD_BYTES, HELD_CLIENT_BYTES, HELD_MESSAGES};
use board_rings::Attachments;
use gateway_calls::GatewayCalls;
use gateway_state::Dest;

/// Whether too much waits for a connection. A connection for which nothing waits costs one look.
pub(crate) fn has_too_much<G: GatewayCalls>(gate: &mut G, dest: Dest) -> bool
    ensures much { result ≡ has_too_much dest (G.state gate.old) }
    ensures same { G.state gate.new ≡ G.state gate.old }
{
    match dest {
        Dest::Session(number) => client_has_too_much(gate, number),
        Dest::Upstream(number) => server_has_too_much(gate, number),
    }
}

fn client_has_too_much<G: GatewayCalls>(gate: &mut G, number: u32) -> bool
    ensures much { result ≡ has_too_much (Session number) (G.state gate.old) }
    ensures same { G.state gate.new ≡ G.state gate.old }
{
    match gate.queued_bytes(Dest::Session(number)) {
        Ok(bytes) => bytes > HELD_CLIENT_BYTES,
        Err(_) => false,
    }
}

#[tactic(auto, using(crate::proofs::WhoIsHeld::none_over))]
fn server_has_too_much<G: GatewayCalls>(gate: &mut G, number: u32) -> bool
    ensures much { result ≡ has_too_much (Upstream number) (G.state gate.old) }
    ensures same { G.state gate.new ≡ G.state gate.old }
{
    let dest = Dest::Upstream(number);
    match gate.queued(dest) {
        Ok(0) | Err(_) => return false,
        Ok(count) if count > HELD_MESSAGES => return true,
        Ok(_) => (),
    }
    match gate.queued_bytes(dest) {
        Ok(bytes) => bytes > HELD_BYTES,
        Err(_) => false,
    }
}

/// Whether clients are weighed too: where too much came to wait for one in the last round, or is noted of somebody. Else
/// nobody is looked for, since there may be many who do nothing.
pub(crate) fn weighs_clients(news: &News, attachments: &Attachments) -> bool
    ensures { result ≡ weighs_clients news.now attachments.now }
{
    news.has_grown() || attachments.have_full()
}

/// Whether a connection is weighed, where clients are or aren't. Servers always are.
pub(crate) fn is_weighed(clients: bool, dest: Dest) -> bool
    ensures { result ≡ is_weighed clients dest }
{
    match dest {
        Dest::Session(_) => clients,
        Dest::Upstream(_) => true,
    }
}

/// Whether too much waits for a client of which that isn't noted. Of servers it isn't asked.
pub(crate) fn has_grown<G: GatewayCalls>(
    gate: &mut G,
    attachments: &Attachments,
    dest: Dest,
) -> bool
    ensures grown { result ≡ has_grown dest (board_of (G.state gate.old) attachments.now) }
    ensures same { G.state gate.new ≡ G.state gate.old }
{
    match dest {
        Dest::Session(number) => !attachments.is_full(dest) && client_has_too_much(gate, number),
        Dest::Upstream(_) => false,
    }
}

/// Whether a connection is held: too much waited for a client when it was weighed; or for the server that its last
/// request reached, and its end doesn't come. Where too much waits for nobody, nothing is looked for.
///
/// Behind what a client asked for and doesn't read its end isn't heard: all that would be answered first. It is once
/// the rest was taken, or dropped as it can't be written any more.
#[tactic(auto, using(crate::proofs::WhoIsHeld::none_held))]
pub(crate) fn is_held<G: GatewayCalls>(
    gate: &mut G,
    attachments: &Attachments,
    dest: Dest,
    guess: usize,
    some_full: bool,
) -> bool
    requires stands { IsSome (G.state gate.old) }
    requires full { some_full ≡ have_full attachments.now }
    ensures held { result ≡ is_held dest (board_of (G.state gate.old) attachments.now) }
    ensures same { G.state gate.new ≡ G.state gate.old }
{
    if !some_full {
        return false;
    }
    let Dest::Session(number) = dest else {
        return false;
    };
    if attachments.is_full(dest) {
        return true;
    }
    let Some(sid) = attachments.last_sid(dest, guess) else {
        return false;
    };
    match server_of(gate, number, sid) {
        Some(server) => attachments.is_full(Dest::Upstream(server)),
        None => false,
    }
}

// The server on whose link the channel stands, on a gateway that hasn't failed.
fn server_of<G: GatewayCalls>(gate: &mut G, number: u32, sid: u32) -> Option<u32>
    requires stands { IsSome (G.state gate.old) }
    ensures server { result ≡ server_for (G.state gate.old) number (Some sid) }
    ensures same { G.state gate.new ≡ G.state gate.old }
{
    match gate.server_of(number, sid) {
        Ok(server) => server,
        Err(_) => None,
    }
}
