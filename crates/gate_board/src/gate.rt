//! The board under a lock, for all threads.
//!
//! Why no wake-up is lost: whoever waits remembers the count of wakes from before its last try, or
//! tries under the lock and reads the count there, and goes to sleep under the lock only while the count
//! is still that one. Each change that could make a try succeed counts a wake under the lock, and then
//! notifies whoever may wait for it:
//!
//! - **The core** waits for items and events, where a turn moved nothing, and before a batch where the last turn left
//!   nothing (`rest`). `wake` (which a reader calls after it put items), `desk`, `attach` and `close` notify it. `take`
//!   does so where messages wait that found no place before, or while too many bytes were on their way: so it does
//!   where a server's outbox comes down, and those that were held because of it are looked at again, since a batch that
//!   moved something where too much waits for somebody is followed by another. `put` does so before it offers a
//!   connection's end, and `note_end` for whoever shuts a socket: an end is heard though the connection was held.
//! - **The keeper** (`pause`) is notified by the same calls, and by each turn, a round or a batch, that moved
//!   something.
//! - **A writer** waits at its connection's seat until messages are pushed, or the connection ends. The
//!   turn that pushed, or pumped the item by which it ended, notes the seat; the loss of a connection at
//!   the desk does too. An outbox that is marked still may have messages: they are pushed first, and the writer
//!   looks at the end by itself once it took them all.
//! - **A reader** waits at the same seat until its ring has places. It is full then, and nobody else fills
//!   it: so the ring comes down through exactly half, where the turn notes the seat. It notes it at an
//!   empty ring too, for which a reader waits behind a long message (`clear`). As long as its connection is held it
//!   waits, and the peer with it.
//! - Closing and a fault of the gateway notify all.
//!
//! Connections that share a seat wake each other for nothing, and look again.
//!
//! What is said of a call is that there are states that stood under the lock before and after it, over which its answer
//! is that of the board's call. No clause can say whom it wakes, nor that it waits.
ghost use Rattle.std.specs.Prelude.{◌≡◌, ◌+◌, ◌<◌, ◌↔◌, ◌⊎◌, [], ◌∷◌, ◌++◌, OnOk, OnErr, IfOk, IfErr, IfSome, IsErrOf, IsFalse, IsNone, IsOk, IsTrue, false};
ghost use Rattle.board_rings.specs.declared.attachment.TheConstants.{RING_SIZE};
ghost use Rattle.board_rings.specs.History.{is_for_desk};
ghost use Rattle.board_moves.specs.Keeping.{IsBatchTurn, IsTurn};
ghost use Rattle.gate_board.specs.Locked.{IsAttached, IsBatched, IsDesked, IsRetired, IsTurned, IsWoken};
ghost use Rattle.gate_board.specs.Taking.{IsTaken, LooksOnly};

mod questions;

use board_moves::{BoardFault, BoardOver, KeptBoard, News, SEAT_WORDS, SEATS, Turn, seat_of};
use board_rings::{Ends, Inbound, Inlet, Outlet};
use fanout::Out;
use gateway_calls::GatewayCalls;
use gateway_state::{Dest, Event};
use std::array;
use std::sync::{Condvar, Mutex, Wait};

/// What [`GateOver::take`] got.
#[derive(Drop)]
pub enum Taken {
    /// The next message for the connection.
    Item(Out),
    /// There is none, and the connection doesn't stand or must end.
    Closed,
    /// There is none, and the gate is closed or the engine has failed.
    Stopped,
}

/// What [`GateOver::arrears`] tells.
#[derive(Clone, Copy, PartialEq, Eq, Debug)]
pub struct Arrears {
    /// As [`GateOver::must_end`].
    pub must_end: bool,
    /// As [`GateOver::waiting_bytes`].
    pub waiting: u64,
}

// What is performed under one lock.
#[derive(Clone, Copy)]
enum UnderLock {
    Round,
    Batch,
}

/// The board, a mark that the gate is closed, and a count of wakes, under a lock, and the seats to wait
/// on. No call lends the board or puts another one in its place.
#[derive(Drop)]
pub struct GateOver<G: GatewayCalls + Drop> {
    kept: Mutex<KeptBoard<G>>,
    core: Condvar,
    paused: Condvar,
    // Who waits for searches without an answer.
    unanswered: Condvar,
    seats: [Condvar; SEATS],
}

// One try at this pace.
fn try_at<G: GatewayCalls + Drop>(kept: &mut KeptBoard<G>, pace: UnderLock) -> Option<Turn>
    ensures round { pace ≡ UnderLock.Round → IsTurn kept.old result kept.new }
    ensures batch { pace ≡ UnderLock.Batch → IsBatchTurn kept.old result kept.new }
{
    match pace {
        UnderLock::Round => kept.try_turn(),
        UnderLock::Batch => kept.try_batch(),
    }
}

impl<G: GatewayCalls + Drop> GateOver<G> {
    /// A gate that is open, for a board.
    pub fn new(board: BoardOver<G>) -> GateOver<G> {
        GateOver {
            kept: Mutex::new(KeptBoard::new(board)),
            core: Condvar::new(),
            paused: Condvar::new(),
            unanswered: Condvar::new(),
            seats: array::from_fn(|_| Condvar::new()),
        }
    }

    /// Performs an event that comes through no ring, and wakes.
    #[tactic(auto, using(crate::proofs::Under::desked))]
    pub fn desk<R: Wait>(&self, rt: &R, event: Event) -> Result<(), BoardFault>
        ensures desked { IsDesked event result }
        ensures not_here { IsErrOf result BoardFault.NotHere ↔ (is_for_desk event ≡ false) }
    {
        let mut kept = self.kept.lock(rt);
        let answer = kept.desk(event);
        let news = kept.take_news();
        drop(kept);
        if matches!(answer, Err(BoardFault::Step(_))) {
            self.notify_all();
        } else {
            self.notify_core();
            self.notify_seats(&news);
        }
        answer
    }

    /// Gives a connection two rings, and wakes.
    #[tactic(auto, using(crate::proofs::Under::attached))]
    pub fn attach<R: Wait>(&self, rt: &R, dest: Dest) -> Result<(Inlet, Outlet), BoardFault>
        ensures empty { IfOk result (λ r. (r.0.offered ≡ []) × (r.0.free ≡ RING_SIZE) × (r.1.taken ≡ []) × (r.1.seen ≡ [])) }
        ensures dest { IfOk result (λ r. r.0.dest ≡ dest) }
        ensures attached { IsAttached dest result }
        ensures cause { IsErrOf result BoardFault.Attached ⊎ IsErrOf result BoardFault.OutOfMemory ⊎ IsOk result }
    {
        let mut kept = self.kept.lock(rt);
        let answer = kept.attach(dest);
        drop(kept);
        self.notify_core();
        answer
    }

    /// Takes the board's ends of a connection's rings off.
    #[tactic(auto, using(crate::proofs::Under::retired))]
    pub fn retire<R: Wait>(&self, rt: &R, dest: Dest) -> Option<Ends>
        ensures { IsRetired dest result }
    {
        self.kept.lock(rt).retire(dest)
    }

    /// Closes the gate for good, and wakes all. No clause can say so: `a_closed_gate_stops_both` of `board_tests` shows
    /// it.
    pub fn close<R: Wait>(&self, rt: &R) {
        self.kept.lock(rt).close();
        self.notify_all();
    }

    /// Wakes the core and whoever pauses. It answers false where the gate is closed or the engine has
    /// failed.
    #[tactic(auto, using(crate::proofs::Under::woken_so))]
    pub fn wake<R: Wait>(&self, rt: &R) -> bool
        ensures { IsWoken result }
    {
        let mut kept = self.kept.lock(rt);
        let goes_on = !kept.has_stopped();
        kept.wake();
        drop(kept);
        self.notify_core();
        goes_on
    }

    /// The same for a reader, whose end notes where it is false.
    #[tactic(auto, using(crate::proofs::Under::woken_so))]
    pub fn wake_for<R: Wait>(&self, rt: &R, inlet: &mut Inlet) -> bool
        ensures woken { IsWoken result }
        ensures goes_on { IsTrue result → inlet.new ≡ inlet.old }
        ensures stopped { IsFalse result → inlet.new ≡ record inlet.old { stops = inlet.old.stops + 1 } }
    {
        let mut kept = self.kept.lock(rt);
        let has_stopped = kept.has_stopped();
        if has_stopped {
            inlet.note_stop(&*kept);
        }
        kept.wake();
        drop(kept);
        self.notify_core();
        !has_stopped
    }

    /// Waits while the count of wakes is this one, and answers the count. No clause can say that it waits.
    pub fn pause<R: Wait>(&self, rt: &R, seen: u64) -> u64 {
        let kept = self.kept.lock(rt);
        let kept = self
            .paused
            .wait_while(rt, kept, |kept| kept.wakes() == seen);
        kept.wakes()
    }

    // The count of wakes.
    fn count<R: Wait>(&self, rt: &R) -> u64 {
        self.kept.lock(rt).wakes()
    }

    // The core, and whoever pauses.
    fn notify_core(&self) {
        self.core.notify_all();
        self.paused.notify_all();
    }

    fn notify_seats(&self, news: &News) {
        for n in 0..SEAT_WORDS {
            let word = news.word(n);
            if word != 0 {
                self.notify_word(n, word);
            }
        }
    }

    // Those of the n-th 64 seats whose bits are set. No clause can say so.
    fn notify_word(&self, n: usize, word: u64) {
        for bit in 0..64usize {
            if word & (1u64 << bit) != 0 {
                let place = n.saturating_mul(64).saturating_add(bit);
                if let Some(seat) = self.seats.get(place) {
                    seat.notify_all();
                }
            }
        }
    }

    fn notify_all(&self) {
        self.notify_core();
        self.unanswered.notify_all();
        for seat in &self.seats {
            seat.notify_all();
        }
    }

    // The seat of a connection.
    fn seat(&self, dest: Dest) -> &Condvar {
        match self.seats.get(seat_of(dest)) {
            Some(seat) => seat,
            None => &self.paused,
        }
    }

    /// Offers an item, and waits for a place where there is none. The item comes back where the gate is
    /// closed or the engine has failed. Before an end it says to the board that it comes.
    #[tactic(auto, using(crate::proofs::Looks::offered_once, crate::proofs::Looks::offered_again, crate::proofs::Looks::offered_on, crate::proofs::Looks::stopped_on))]
    pub fn put<R: Wait>(&self, rt: &R, inlet: &mut Inlet, item: Inbound) -> Result<(), Inbound>
        ensures ok { OnOk result (inlet.new.offered ≡ inlet.old.offered ++ item ∷ []) }
        ensures err { IfErr result (λ back. back ≡ item) }
        ensures same { OnErr result (inlet.new ≡ record inlet.old { looks = inlet.new.looks; stops = inlet.old.stops + 1 }) }
        ensures told { OnOk result (inlet.new.stops ≡ inlet.old.stops) }
        ensures looked { OnErr result (inlet.old.looks < inlet.new.looks) }
        ensures full { OnErr result (inlet.new.free ≡ 0) }
        ensures ring { inlet.new.ring ≡ inlet.old.ring }
        ensures dest { inlet.new.dest ≡ inlet.old.dest }
    {
        if matches!(item, Inbound::Gone) {
            self.note_end(rt, inlet.dest());
        }
        let mut item = match inlet.offer(item) {
            Ok(()) => return Ok(()),
            Err(back) => back,
        };
        self.wake(rt);
        for _ in rt.forever() {
            let seen = self.count(rt);
            item = match inlet.offer(item) {
                Ok(()) => return Ok(()),
                Err(back) => back,
            };
            if self.waits_in_vain(rt, inlet, seen) {
                return Err(item);
            }
        }
        unreachable!()
    }

    /// Wakes the core, and waits until all that was offered has been received. False where the gate is closed or the
    /// engine has failed.
    pub fn clear<R: Wait>(&self, rt: &R, inlet: &mut Inlet) -> bool
        ensures clear { IsTrue result → inlet.new.free ≡ RING_SIZE }
        ensures told { IsTrue result → inlet.new.stops ≡ inlet.old.stops }
        ensures stopped { IsFalse result → inlet.new.stops ≡ inlet.old.stops + 1 }
        ensures offered { inlet.new.offered ≡ inlet.old.offered }
        ensures ring { inlet.new.ring ≡ inlet.old.ring }
        ensures dest { inlet.new.dest ≡ inlet.old.dest }
    {
        self.wake(rt);
        for _ in rt.forever() {
            let seen = self.count(rt);
            if inlet.is_clear() {
                return true;
            }
            let has_stopped = self.waits_in_vain(rt, inlet, seen);
            if has_stopped {
                return false;
            }
        }
        unreachable!()
    }

    /// Notes that a connection's end comes behind what is in its ring, and wakes: where it is held for what it writes it
    /// isn't any more. So does whoever shuts a socket, since a reader that waits for places reads no end. No clause can
    /// say of which it is noted.
    pub fn note_end<R: Wait>(&self, rt: &R, dest: Dest) {
        let mut kept = self.kept.lock(rt);
        kept.note_end(dest);
        drop(kept);
        self.notify_core();
    }

    // Waits at a connection's seat while the count of wakes is this one: `a_put_waits_for_room` of `board_tests` shows
    // it. True where the gate is closed or the engine has failed, without waiting.
    fn waits_in_vain<R: Wait>(&self, rt: &R, inlet: &mut Inlet, seen: u64) -> bool
        ensures stopped { IsTrue result → inlet.new ≡ record inlet.old { stops = inlet.old.stops + 1 } }
        ensures waited { IsFalse result → inlet.new ≡ inlet.old }
    {
        let mut kept = self.kept.lock(rt);
        if kept.has_stopped() {
            inlet.note_stop(&*kept);
            return true;
        }
        let _woken = self
            .seat(inlet.dest())
            .wait_while(rt, kept, |kept| kept.wakes() == seen);
        false
    }

    /// Takes the next message for a connection, and waits for one where there is none.
    #[tactic(auto, using(crate::proofs::Looks::not_yet, crate::proofs::Looks::taken_on, crate::proofs::Looks::taken_after, crate::proofs::Looks::waited_after))]
    pub fn take<R: Wait>(&self, rt: &R, outlet: &mut Outlet, dest: Dest) -> Taken
        ensures { IsTaken dest outlet.old result outlet.new }
    {
        for _ in rt.forever() {
            if let Some(out) = outlet.next() {
                return Taken::Item(out);
            }
            match self.next_or_wait(rt, outlet, dest) {
                Some(taken) => return taken,
                None => (),
            }
        }
        unreachable!()
    }

    // The next message, or that none comes any more. Where neither is so it waits at the connection's seat
    // for a wake, and answers nothing. Messages are pushed under the lock, so none comes between the look and
    // the wait. Where some wait the core is woken: there was no place when it looked, or the bytes were too many.
    #[tactic(auto, using(crate::proofs::Looks::looks_once, crate::proofs::Looks::over_once, crate::proofs::Looks::stop_once))]
    fn next_or_wait<R: Wait>(&self, rt: &R, outlet: &mut Outlet, dest: Dest) -> Option<Taken>
        ensures some { IfSome result (λ taken. IsTaken dest outlet.old taken outlet.new) }
        ensures none { IsNone result → LooksOnly outlet.old outlet.new }
    {
        let mut kept = self.kept.lock(rt);
        if let Some(out) = outlet.next() {
            return Some(Taken::Item(out));
        }
        if kept.has_stopped() {
            outlet.note_stop(&*kept);
            return Some(Taken::Stopped);
        }
        if kept.has_waiting(dest) {
            kept.wake();
            self.core.notify_all();
        } else if kept.is_over(dest) {
            outlet.note_over(&*kept, dest);
            return Some(Taken::Closed);
        }
        let seen = kept.wakes();
        let _woken = self
            .seat(dest)
            .wait_while(rt, kept, |kept| kept.wakes() == seen);
        None
    }

    /// Performs rounds until one moves something or meets a fault, or the gate is closed, which is looked
    /// at before each. It waits between two, and notifies before it answers.
    pub fn turn<R: Wait>(&self, rt: &R) -> Turn
        ensures { IsTurned result }
    {
        self.next_turn(rt, UnderLock::Round)
    }

    /// The same by batches, each of which is one round or more under one lock. Where the last turn left nothing it
    /// waits for a wake before the first.
    pub fn batch<R: Wait>(&self, rt: &R) -> Turn
        ensures { IsBatched result }
    {
        self.rest(rt);
        self.next_turn(rt, UnderLock::Batch)
    }

    // Waits for a wake where the last turn left nothing. No clause can say that it waits.
    fn rest<R: Wait>(&self, rt: &R) {
        let kept = self.kept.lock(rt);
        let _woken = self.core.wait_while(rt, kept, |kept| kept.rests());
    }

    #[tactic(auto, using(crate::proofs::Under::turned, crate::proofs::Under::batched))]
    fn next_turn<R: Wait>(&self, rt: &R, pace: UnderLock) -> Turn
        ensures round { pace ≡ UnderLock.Round → IsTurned result }
        ensures batch { pace ≡ UnderLock.Batch → IsBatched result }
    {
        for _ in rt.forever() {
            let mut kept = self.kept.lock(rt);
            let before = kept.unanswered_count();
            match try_at(&mut *kept, pace) {
                Some(turn) => {
                    let news = kept.take_news();
                    let has_unanswered = kept.unanswered_count() != before;
                    drop(kept);
                    self.notify_of(turn, &news);
                    if has_unanswered {
                        self.unanswered.notify_all();
                    }
                    return turn;
                }
                None => {
                    let seen = kept.wakes();
                    let _woken = self.core.wait_while(rt, kept, |kept| kept.wakes() == seen);
                }
            }
        }
        unreachable!()
    }

    // Whom a turn concerns.
    fn notify_of(&self, turn: Turn, news: &News) {
        match turn {
            Turn::Moved => {
                self.paused.notify_all();
                self.notify_seats(news);
            }
            Turn::Closed | Turn::Failed => self.notify_all(),
        }
    }
}
