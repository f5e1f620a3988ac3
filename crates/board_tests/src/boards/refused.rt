//! A board of whose calls one is refused memory.
//!
//! By what the calls answer the test keeps count of what lies in a connection's rings and of what waits for
//! it, and says of each answer whether it is one that is left: a refused step fails the board for good, and a
//! refused pump takes its item along. In an ordinary run nothing is refused; `.ci/refused_tests.py` refuses
//! each allocation in turn.
ghost use Rattle.std.specs.Prelude.{◌≡◌};
ghost use Rattle.board_moves.specs.Answers.{KeepsRings};

use crate::boards::tell::board;
use crate::boards::told::Told;
use crate::workers::rings::left_between;
use crate::workers::stand::echo;
use gate_board::{Board, BoardFault, Inlet, Outlet};
use gateway_core::{Dest, Event, StepFault};
use pv_name::Host;
use std::alloc::Global;
use std::fmt::Debug;
use std::test::Fail;

const CLIENT: Dest = Dest::Session(1);

/// How much is told without taking memory.
const ROOM: usize = 4_096;

/// What must have gone through a connection's rings by what was answered, and what was told of it.
#[derive(Drop)]
struct Seen {
    told: Told,
    offered: usize,
    received: usize,
    /// Of the messages: those that wait, and those that were pushed and taken.
    waiting: usize,
    pushed: usize,
    taken: usize,
    has_failed: bool,
}

impl Seen {
    fn new(alloc: Global) -> Seen {
        Seen {
            told: Told::with_room(alloc, ROOM),
            offered: 0,
            received: 0,
            waiting: 0,
            pushed: 0,
            taken: 0,
            has_failed: false,
        }
    }

    fn tell<T: Debug>(&mut self, call: &str, is_right: bool, answer: &T) {
        self.told.put(&call);
        if is_right {
            self.told.line(&" as it must be");
        } else {
            self.told.put(&" otherwise ");
            self.told.debug(answer);
        }
    }

    // Whether a step may be refused so. If it wants memory, that is told, and the board has failed.
    fn is_refusal(&mut self, fault: BoardFault) -> bool {
        match fault {
            BoardFault::Step(StepFault::Failed) => self.has_failed,
            BoardFault::Step(StepFault::OutOfMemory) if !self.has_failed => {
                self.has_failed = true;
                self.told.line(&"refused step as it must be");
                true
            }
            _ => false,
        }
    }

    fn offer(&mut self, is_taken: bool) {
        self.tell("offer", is_taken, &is_taken);
        self.offered = self.offered.saturating_add(1);
    }

    fn open(&mut self, answer: Result<(), BoardFault>) {
        let is_right = match answer {
            Ok(()) => !self.has_failed,
            Err(fault) => self.is_refusal(fault),
        };
        if answer.is_ok() {
            self.waiting = 1;
        }
        self.tell("open", is_right, &answer);
    }

    // One item more is received, where there is one: a board that has failed leaves all where they are.
    fn receive(&mut self) -> bool {
        if self.has_failed || self.received >= self.offered {
            return false;
        }
        self.received = self.received.saturating_add(1);
        true
    }

    fn pump(&mut self, answer: Result<bool, BoardFault>) {
        let is_received = self.receive();
        let is_right = match answer {
            Ok(is_moved) => !self.has_failed && is_moved == is_received,
            Err(fault) => self.is_refusal(fault),
        };
        if answer == Ok(true) {
            self.waiting = self.waiting.saturating_add(1);
        }
        self.tell("pump", is_right, &answer);
    }

    fn send(&mut self, answer: Result<usize, BoardFault>) {
        let is_right = match answer {
            Ok(count) => !self.has_failed && count == self.waiting,
            Err(fault) => self.is_refusal(fault),
        };
        if answer.is_ok() {
            self.pushed = self.pushed.saturating_add(self.waiting);
            self.waiting = 0;
        }
        self.tell("send", is_right, &answer);
    }

    // A pump and a send-out.
    fn round(&mut self, answer: Result<usize, BoardFault>) {
        let moved = if self.receive() { 1usize } else { 0 };
        let sent = self.waiting.saturating_add(moved);
        let is_right = match answer {
            Ok(count) => !self.has_failed && count == sent.saturating_add(moved),
            Err(fault) => self.is_refusal(fault),
        };
        if answer.is_ok() {
            self.pushed = self.pushed.saturating_add(sent);
            self.waiting = 0;
        }
        self.tell("round", is_right, &answer);
    }

    fn next(&mut self, is_taken: bool) {
        self.tell("next", is_taken == (self.taken < self.pushed), &is_taken);
        if is_taken {
            self.taken = self.taken.saturating_add(1);
        }
    }

    // What lies in both rings once the connection is retired.
    fn left(&mut self, left: Option<(usize, usize)>) {
        let inside = self.offered.saturating_sub(self.received);
        let outside = self.pushed.saturating_sub(self.taken);
        self.tell("left", left == Some((inside, outside)), &left);
    }
}

// Offers three items, and makes each call that moves some of them.
fn move_them(board: &mut Board, dest: Dest, inlet: &mut Inlet, outlet: &mut Outlet, seen: &mut Seen)
    ensures rings { KeepsRings board.old.attachments board.new.attachments }
    ensures inlet { inlet.new.ring ≡ inlet.old.ring }
    ensures outlet { outlet.new.ring ≡ outlet.old.ring }
{
    seen.offer(inlet.offer(echo(1)).is_ok());
    seen.offer(inlet.offer(echo(2)).is_ok());
    seen.offer(inlet.offer(echo(3)).is_ok());
    seen.pump(board.pump(dest));
    seen.send(board.send_out(dest));
    seen.next(outlet.next().is_some());
    seen.round(board.round());
    seen.pump(board.pump(dest));
    seen.pump(board.pump(dest));
}

// Gives the connection its rings, moves items through them, and takes the board's ends back. False where the
// board was refused memory for the rings.
fn serve(board: &mut Board, dest: Dest, seen: &mut Seen) -> bool {
    let (mut inlet, mut outlet) = match board.attach(dest) {
        Ok(ends) => ends,
        Err(fault) => {
            let is_right = fault == BoardFault::OutOfMemory;
            seen.told.line(&if is_right {
                "refused attach as it must be"
            } else {
                "attach otherwise"
            });
            return false;
        }
    };
    seen.tell("attach", true, &true);
    move_them(board, dest, &mut inlet, &mut outlet, seen);
    seen.left(left_between(board, dest, &mut inlet, &mut outlet));
    true
}

// What a board answers to which no connection is attached.
fn stand_alone(board: &mut Board, seen: &mut Seen) {
    let has_failed = seen.has_failed;
    let failed = Err(BoardFault::Step(StepFault::Failed));
    let (pumped, sent, moved) = (board.pump(CLIENT), board.send_out(CLIENT), board.round());
    seen.tell("pump alone", pumped == Ok(false), &pumped);
    seen.tell("send alone", sent == Ok(0), &sent);
    seen.tell(
        "round alone",
        moved == if has_failed { failed } else { Ok(0) },
        &moved,
    );
    let is_open = board.is_open(CLIENT);
    seen.tell("stands", is_open.is_err() == has_failed, &is_open);
    let queued = board.queued(CLIENT);
    seen.tell("queued", queued.is_err() == has_failed, &queued);
}

/// Whichever allocation is refused, the board answers so, and each later call as a failed board does; the
/// rings hold what went in and wasn't received, and what was pushed and wasn't taken. Memory that is refused to
/// an `attach` changes nothing.
#[test]
fn a_refused_step_fails_the_board_alone(rt: HostRuntime) -> Result<(), Fail> {
    let host = Host::read(rt.alloc(), b"10.0.0.5")?;
    let mut board = board(rt.alloc())?;
    let mut seen = Seen::new(rt.alloc());
    seen.open(board.desk(Event::Opened(1, host)));
    if !serve(&mut board, CLIENT, &mut seen) {
        serve(&mut board, CLIENT, &mut seen);
    }
    stand_alone(&mut board, &mut seen);
    assert!(rt; seen.told.is_whole, "the test itself was refused memory");
    assert_eq!(rt;
        seen.told.text.as_str(),
        "\
open as it must be
attach as it must be
offer as it must be
offer as it must be
offer as it must be
pump as it must be
send as it must be
next as it must be
round as it must be
pump as it must be
pump as it must be
left as it must be
pump alone as it must be
send alone as it must be
round alone as it must be
stands as it must be
queued as it must be
"
    );
    Ok(())
}
