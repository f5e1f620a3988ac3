//! The board's calls on its parts: the gateway and the attachments.
ghost use Rattle.std.specs.Prelude.{◌≡◌, ◌+◌, ◌-◌, ◌^◌, ◌<◌, ◌&&◌, ◌||◌, min, nat_lt, ◌↔◌, IfOk, IfSome, IsTrue, IsNone, IsSome, IsErrOf, OnOk, OnErr, Some, None, true, false};
ghost use Rattle.std.specs.Option.{option_map};
ghost use Rattle.gateway_state.specs.Asked.{queued, queued_bytes};
ghost use Rattle.gateway_state.specs.Step.{step};
ghost use Rattle.board_rings.specs.Attachments.{have_full};
ghost use Rattle.board_rings.specs.Calls.{uses_up};
ghost use Rattle.board_rings.specs.History.{is_for_desk, item_event};
ghost use Rattle.board_moves.specs.Answers.{board_of, IsDesk, IsPump, IsSendOut, IsWaiting, KeepsRings};
ghost use Rattle.board_moves.specs.Noted.{is_message, lost_by, IsAsLeft, IsEnding, IsNoted, PumpTells, SendTells, StayNoted, TellsPushed};
ghost use Rattle.board_moves.specs.Held.{has_grown};
ghost use Rattle.board_moves.specs.Rounds.{dests_of};
ghost use Rattle.board_moves.specs.Share.{sent_at_once};

use crate::fault::BoardFault;
use crate::held::has_grown;
use crate::news::News;
use crate::share::sent_at_once;
use board_rings::{Attachments, Inbound};
use gateway_calls::{Failed, GatewayCalls, StepFault};
use gateway_state::{Dest, Event};

/// Whether a step was refused before.
pub(crate) fn has_failed<G: GatewayCalls>(gate: &mut G) -> bool
    ensures failed { IsTrue result ↔ IsNone (G.state gate.old) }
    ensures same { G.state gate.new ≡ G.state gate.old }
{
    gate.is_open(Dest::Session(0)).is_err()
}

/// What a connection's item is as an event.
fn event_of(dest: Dest, item: Inbound) -> Event
    ensures { result ≡ item_event dest item }
{
    match (dest, item) {
        (Dest::Session(number), Inbound::Message(message)) => Event::Client(number, message),
        (Dest::Session(number), Inbound::Gone) => Event::Lost(number),
        (Dest::Upstream(number), Inbound::Message(message)) => Event::Server(number, message),
        (Dest::Upstream(number), Inbound::Gone) => Event::UpLost(number),
    }
}

/// Whether the event may be handed in at the desk.
fn is_for_desk(event: &Event) -> bool
    ensures { result ≡ is_for_desk event.now }
{
    !matches!(
        event,
        Event::Client(..) | Event::Server(..) | Event::Drain(..)
    )
}

/// Whether it is a message.
fn is_message(item: &Inbound) -> bool
    ensures { result ≡ is_message item.now }
{
    matches!(item, Inbound::Message(_))
}

/// Whether the workers of a connection are to be told: that was its end, or it must end now.
fn must_tell<G: GatewayCalls>(gate: &mut G, dest: Dest, is_gone: bool) -> bool
    ensures gone { is_gone ≡ true → result ≡ true }
    ensures ending { IsEnding dest (G.state gate.old) → result ≡ true }
    ensures same { G.state gate.new ≡ G.state gate.old }
{
    if is_gone {
        return true;
    }
    match gate.must_end(dest) {
        Ok(ends) => ends,
        Err(_) => true,
    }
}

/// Performs the event of a connection's item, and notes the connection where that was its end.
#[tactic(auto, using(crate::proofs::Told::no_message))]
fn perform_item<G: GatewayCalls>(
    gate: &mut G,
    news: &mut News,
    dest: Dest,
    item: Inbound,
) -> Result<(), StepFault>
    ensures ok { OnOk result (G.state gate.new ≡ option_map (λ w. step w (item_event dest item)) (G.state gate.old)) }
    ensures used_up { IsErrOf result StepFault.NumbersUsedUp → uses_up (item_event dest item) (G.state gate.old) ≡ Some true }
    ensures in_range { OnOk result (uses_up (item_event dest item) (G.state gate.old) ≡ Some false) }
    ensures failed { IsErrOf result StepFault.Failed ↔ IsNone (G.state gate.old) }
    ensures err { OnErr result (G.state gate.new ≡ None) }
    ensures gone { OnOk result (item ≡ Inbound.Gone → IsNoted dest news.new) }
    ensures ending { OnOk result (IsEnding dest (G.state gate.new) → IsNoted dest news.new) }
    ensures kept { StayNoted news.old news.new }
    ensures counts { (news.new.traffic ≡ news.old.traffic) × IsAsLeft news.old news.new }
{
    let is_gone = !is_message(&item);
    match gate.step(event_of(dest, item)) {
        Ok(()) => {
            if must_tell(gate, dest, is_gone) {
                news.note(dest);
            }
            Ok(())
        }
        Err(fault) => Err(fault),
    }
}

/// Receives one item of a connection and performs its event, on a gateway that hasn't failed. An item
/// whose event is refused is gone with the gateway. The guess is where the connection's attachment may stand.
#[tactic(auto, using(crate::proofs::Moved::pumped, crate::proofs::Moved::pump_refused, crate::proofs::Moved::pump_used_up, crate::proofs::Changed::received_dests, crate::proofs::Changed::received_full, crate::proofs::Changed::received_rings, crate::proofs::Changed::peeked_dests, crate::proofs::Changed::peeked_full, crate::proofs::Changed::peeked_rings, crate::proofs::Told::pump_told, crate::proofs::Told::noted_through))]
pub(crate) fn pump_standing<G: GatewayCalls>(
    gate: &mut G,
    attachments: &mut Attachments,
    news: &mut News,
    dest: Dest,
    guess: usize,
) -> Result<bool, BoardFault>
    requires stands { IsSome (G.state gate.old) }
    ensures pump { IsPump dest (board_of (G.state gate.old) attachments.old) result (board_of (G.state gate.new) attachments.new) }
    ensures stands { OnOk result (IsSome (G.state gate.new)) }
    ensures dests { dests_of attachments.new ≡ dests_of attachments.old }
    ensures full { have_full attachments.new ≡ have_full attachments.old }
    ensures rings { KeepsRings attachments.old attachments.new }
    ensures told { PumpTells dest result attachments.old attachments.new (G.state gate.new) news.old news.new }
    ensures kept { StayNoted news.old news.new }
{
    let Some((item, left)) = attachments.receive(dest, guess) else {
        return Ok(false);
    };
    news.note_received(dest, left, is_message(&item));
    match perform_item(gate, news, dest, item) {
        Ok(()) => Ok(true),
        Err(fault) => Err(BoardFault::Step(fault)),
    }
}

/// Receives one item of a connection and performs its event.
pub(crate) fn pump<G: GatewayCalls>(
    gate: &mut G,
    attachments: &mut Attachments,
    news: &mut News,
    dest: Dest,
) -> Result<bool, BoardFault>
    ensures pump { IsPump dest (board_of (G.state gate.old) attachments.old) result (board_of (G.state gate.new) attachments.new) }
    ensures rings { KeepsRings attachments.old attachments.new }
    ensures told { PumpTells dest result attachments.old attachments.new (G.state gate.new) news.old news.new }
    ensures kept { StayNoted news.old news.new }
{
    if !attachments.is_attached(dest) {
        return Ok(false);
    }
    if has_failed(gate) {
        return Err(BoardFault::Step(StepFault::Failed));
    }
    pump_standing(gate, attachments, news, dest, 0)
}

// The connection that is lost by the event.
fn lost_by(event: &Event) -> Option<Dest>
    ensures { result ≡ lost_by event.now }
{
    match event {
        Event::Lost(number) => Some(Dest::Session(*number)),
        Event::UpLost(number) => Some(Dest::Upstream(*number)),
        _ => None,
    }
}

// Notes a connection that is lost by the event.
fn note_loss(news: &mut News, event: &Event)
    ensures told { IfSome (lost_by event.now) (λ lost. IsNoted lost news.new) }
    ensures kept { StayNoted news.old news.new }
    ensures counts { news.new.traffic ≡ news.old.traffic }
{
    if let Some(lost) = lost_by(event) {
        news.note(lost);
    }
}

/// Performs an event that comes through no ring.
pub(crate) fn desk<G: GatewayCalls>(
    gate: &mut G,
    attachments: &Attachments,
    news: &mut News,
    event: Event,
) -> Result<(), BoardFault>
    ensures desk { IsDesk event (board_of (G.state gate.old) attachments.now) result (board_of (G.state gate.new) attachments.now) }
    ensures told { OnOk result (IfSome (lost_by event) (λ lost. IsNoted lost news.new)) }
    ensures kept { StayNoted news.old news.new }
{
    if !is_for_desk(&event) {
        return Err(BoardFault::NotHere);
    }
    note_loss(news, &event);
    match gate.step(event) {
        Ok(()) => Ok(()),
        Err(fault) => Err(BoardFault::Step(fault)),
    }
}

/// How many messages of a connection are sent out at once, on a gateway that hasn't failed, where so many places of
/// its ring are free, so many messages wait, and so many bytes are on their way. Of a single message the length
/// doesn't matter: it is only asked for of several.
#[tactic(auto, using(crate::proofs::Shares::one_at_once))]
fn share<G: GatewayCalls>(
    gate: &mut G,
    dest: Dest,
    places: usize,
    waiting: usize,
    on_the_way: u128,
) -> usize
    requires stands { IsSome (G.state gate.old) }
    requires waiting { Some waiting ≡ option_map (λ w. queued w dest) (G.state gate.old) }
    requires free { 0 < places }
    ensures share { option_map (λ w. sent_at_once places (queued w dest) (queued_bytes w dest) on_the_way) (G.state gate.old) ≡ Some result }
    ensures same { G.state gate.new ≡ G.state gate.old }
{
    if waiting == 1 {
        return sent_at_once(places, 1, 0, on_the_way);
    }
    match gate.queued_bytes(dest) {
        Ok(bytes) => sent_at_once(places, waiting, bytes, on_the_way),
        Err(_) => 0,
    }
}

/// Takes a connection's share of messages and pushes them, on a gateway that hasn't failed, where so many wait. The
/// guess is where its attachment may stand.
#[tactic(auto, using(crate::proofs::Changed::looked_dests, crate::proofs::Changed::looked_rings, crate::proofs::Told::none_sent, crate::proofs::Told::sent_told))]
fn send_standing<G: GatewayCalls>(
    gate: &mut G,
    attachments: &mut Attachments,
    news: &mut News,
    dest: Dest,
    guess: usize,
    waiting: usize,
) -> Result<usize, BoardFault>
    requires stands { IsSome (G.state gate.old) }
    requires waiting { Some waiting ≡ option_map (λ w. queued w dest) (G.state gate.old) }
    ensures sent { IsSendOut dest (board_of (G.state gate.old) attachments.old) result (board_of (G.state gate.new) attachments.new) }
    ensures dests { dests_of attachments.new ≡ dests_of attachments.old }
    ensures rings { KeepsRings attachments.old attachments.new }
    ensures told { IfOk result (λ count. TellsPushed dest count news.old news.new) }
    ensures kept { StayNoted news.old news.new }
{
    let found = attachments.room(dest, guess);
    if found == 0 {
        return Ok(0);
    }
    let on_the_way = attachments.on_its_way(dest, guess);
    let asked = share(gate, dest, found, waiting, on_the_way);
    if asked == 0 {
        return Ok(0);
    }
    match gate.drain(dest, asked) {
        Ok(outs) => {
            let count = outs.len();
            news.note_sent(dest, count);
            attachments.push_all(dest, guess, outs);
            Ok(count)
        }
        Err(fault) => Err(BoardFault::Step(fault)),
    }
}

/// Where so many messages waited and not all were sent, notes whether some were, and whether too much came to wait for a
/// client.
#[tactic(auto, using(crate::proofs::Told::all_sent))]
fn note_left<G: GatewayCalls>(
    gate: &mut G,
    attachments: &Attachments,
    news: &mut News,
    dest: Dest,
    waiting: usize,
    sent: usize,
)
    ensures left { news.new ≡ record news.old { unsent = news.old.unsent || (nat_lt 0 sent && nat_lt sent waiting); grown = news.old.grown || (nat_lt sent waiting && has_grown dest (board_of (G.state gate.old) attachments.now)) } }
    ensures same { G.state gate.new ≡ G.state gate.old }
{
    if sent < waiting {
        let grown = has_grown(gate, attachments, dest);
        news.note_unsent(sent > 0, grown);
    }
}

/// Takes a connection's share of messages and pushes them. The guess is where its attachment may stand. A connection
/// for which no message waits costs one look, and one that gets all that waits no more.
#[tactic(auto, using(crate::proofs::Told::none_waiting, crate::proofs::Told::told_of_left, crate::proofs::Told::noted_still))]
pub(crate) fn send_out<G: GatewayCalls>(
    gate: &mut G,
    attachments: &mut Attachments,
    news: &mut News,
    dest: Dest,
    guess: usize,
) -> Result<usize, BoardFault>
    ensures sent { IsSendOut dest (board_of (G.state gate.old) attachments.old) result (board_of (G.state gate.new) attachments.new) }
    ensures dests { dests_of attachments.new ≡ dests_of attachments.old }
    ensures rings { KeepsRings attachments.old attachments.new }
    ensures told { SendTells dest result (G.state gate.old) (board_of (G.state gate.new) attachments.new) news.old news.new }
    ensures kept { StayNoted news.old news.new }
{
    match gate.queued(dest) {
        Ok(0) => Ok(0),
        Ok(waiting) => {
            let sent = send_standing(gate, attachments, news, dest, guess, waiting);
            if let Ok(count) = &sent {
                note_left(gate, attachments, news, dest, waiting, *count);
            }
            sent
        }
        Err(_) if attachments.is_attached(dest) => Err(BoardFault::Step(StepFault::Failed)),
        Err(_) => Ok(0),
    }
}

/// How many bytes wait for a connection in its outbox, and in its ring out as far as they aren't known to be taken.
#[tactic(auto, using(crate::proofs::Moved::waits_so, crate::proofs::Moved::way_as_found))]
pub(crate) fn waiting_bytes<G: GatewayCalls>(
    gate: &mut G,
    attachments: &mut Attachments,
    dest: Dest,
) -> Result<u64, Failed>
    ensures waiting { IsWaiting dest (board_of (G.state gate.old) attachments.old) result (board_of (G.state gate.new) attachments.new) }
{
    let queued = match gate.queued_bytes(dest) {
        Ok(bytes) => bytes,
        Err(failed) => return Err(failed),
    };
    let _places = attachments.room(dest, 0);
    let on_the_way = attachments.on_its_way(dest, 0);
    Ok(told_together(queued, on_the_way))
}

// Both together, as far as the type tells it.
fn told_together(queued: u64, on_the_way: u128) -> u64
    ensures { result ≡ min (queued + on_the_way) (2 ^ 64 - 1) }
{
    let told = on_the_way.min(u128::from(u64::MAX)) as u64;
    queued.saturating_add(told)
}
