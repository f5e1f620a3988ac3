//! How a story of a board is told.
//!
//! A story is a text. Its lines are calls on a board to which nothing happened yet, and behind `> `
//! stands what they answer. A connection is `s1` or `u1`, a client's or a server's:
//!
//! - `open s1`: it is handed in at the desk as opened; `drain s1`: so is a drain, which is none of the
//!   desk's;
//! - `attach s1`: it gets its rings; `retire s1`: the board's ends are taken off;
//! - `offer s1 N`: so many ECHO messages are offered, and it is told how many found a place; `gone s1`: the
//!   end of its stream is offered;
//! - `say s1 DIGITS`: the message that stands there as hexadecimal digits is offered, and it is told whether it
//!   found a place; `found T1 u1`: it is handed in that a server has the name;
//! - `flood s1 N DIGITS`: the message is offered again and again, so many times at most, with a batch wherever it
//!   finds no place, until that moves nothing: it is told how many found a place;
//! - `pump s1`, `send s1`, `round`, `batch`: items are moved; `pumps s1 N`: so many are, and it is told how many
//!   there were; `settle`: batches are performed until one moves nothing, and nothing is told;
//! - `ending s1`: it is noted that its end comes;
//! - `take u1 N`: so many messages are taken out of its ring out, and it is told how many there were;
//! - `queued u1`, `waiting u1`: how many messages wait for it, and how many bytes do with those on their way;
//! - `next s1`: the command of the next message in its ring out, or `none`;
//! - `stands s1`, `ends s1`: whether it stands, and whether it must end.
//!
//! A call that can't be made is told as `failed`. The functions return no error: what they tell would show
//! one, and ways out of functions that own are dear to prove.
use crate::boards::told::Told;
use bytes::Bytes;
use ca_header::{Header, Intake, Message};
use gate_board::{Board, Inbound, Inlet, Outlet};
use gateway_core::{Config, Dest, Engine, Event, Policy};
use pv_name::{Host, Name};
use std::alloc::Global;
use std::process::Abort;
use std::test::Fail;

/// Asserts that a story comes out as it is told.
pub(crate) fn tells(rt: &impl Abort, alloc: Global, story: &str) -> Result<(), Fail> {
    let board = board(alloc)?;
    let mut told = Told::new(alloc);
    let mut wanted = Told::new(alloc);
    tell(alloc, board, story, &mut told, &mut wanted);
    assert_eq!(rt; told.text.as_str(), wanted.text.as_str());
    assert!(rt; told.is_whole && wanted.is_whole);
    Ok(())
}

fn tell(alloc: Global, board: Board, story: &str, told: &mut Told, wanted: &mut Told) {
    let mut table = TestedBoard {
        board,
        inlets: Vec::new(alloc),
        outlets: Vec::new(alloc),
    };
    for line in story.lines() {
        match line.strip_prefix("> ") {
            Some(answer) => wanted.line(&answer),
            None => table.call(alloc, line, told),
        }
    }
}

/// A board for a new engine that admits every name.
pub(crate) fn board(alloc: Global) -> Result<Board, Fail> {
    let config = Config {
        client_name: Name::read(alloc, b"pvgate")?,
        host_name: Name::read(alloc, b"gw")?,
        port: 5064,
        first: 1,
    };
    let engine = Engine::new(alloc, config, Policy::open_to_all(alloc))?;
    Ok(Board::new(alloc, engine))
}

/// A board, and the workers' ends of those who are attached.
#[derive(Drop)]
struct TestedBoard {
    board: Board,
    inlets: Vec<(Dest, Inlet)>,
    outlets: Vec<(Dest, Outlet)>,
}

impl TestedBoard {
    fn call(&mut self, alloc: Global, line: &str, told: &mut Told) {
        let dest = dest(word(line, 1));
        match word(line, 0) {
            "open" => self.open(alloc, dest, told),
            "drain" => told.debug(&self.board.desk(Event::Drain(dest, 1))),
            "attach" => self.attach(dest, told),
            "retire" => match self.board.retire(dest) {
                Some(_) => told.line(&"ends"),
                None => told.line(&"none"),
            },
            "offer" => offer(&mut self.inlets, dest, number(line, 2), told),
            "gone" => gone(&mut self.inlets, dest, told),
            "pumps" => pumps(&mut self.board, dest, number(line, 2), told),
            "pump" => told.debug(&self.board.pump(dest)),
            "send" => told.debug(&self.board.send_out(dest)),
            "round" => told.debug(&self.board.round()),
            _ => self.call_more(alloc, dest, line, told),
        }
    }

    fn call_more(&mut self, alloc: Global, dest: Dest, line: &str, told: &mut Told) {
        match word(line, 0) {
            "say" => match said(alloc, word(line, 2)) {
                Some(message) => say(&mut self.inlets, dest, message, told),
                None => told.line(&"failed"),
            },
            "found" => match Name::read(alloc, word(line, 1).as_bytes()) {
                Ok(name) => told.debug(
                    &self
                        .board
                        .desk(Event::Found(name, number_of(word(line, 2)))),
                ),
                Err(_) => told.line(&"failed"),
            },
            "flood" => self.flood(alloc, dest, line, told),
            "batch" => told.debug(&self.board.batch()),
            "settle" => self.settle(),
            "ending" => self.board.note_end(dest),
            "take" => take(&mut self.outlets, dest, number(line, 2), told),
            "queued" => told.debug(&self.board.queued(dest)),
            "waiting" => told.debug(&self.board.waiting_bytes(dest)),
            "next" => next(&mut self.outlets, dest, told),
            "stands" => told.debug(&self.board.is_open(dest)),
            _ => told.debug(&self.board.must_end(dest)),
        }
    }

    // Performs batches until one moves nothing.
    fn settle(&mut self) {
        for _ in 0..1_000 {
            if !matches!(self.board.batch(), Ok(1..)) {
                return;
            }
        }
    }

    // Offers a message again and again, and performs a batch where it finds no place, until that moves nothing.
    fn flood(&mut self, alloc: Global, dest: Dest, line: &str, told: &mut Told) {
        let mut taken = 0u32;
        for _ in 0..number(line, 2) {
            if say_again(alloc, &mut self.inlets, dest, word(line, 3)) {
                taken = taken.saturating_add(1);
            } else if matches!(self.board.batch(), Ok(0)) {
                break;
            }
        }
        told.line(&taken);
    }

    fn open(&mut self, alloc: Global, dest: Dest, told: &mut Told) {
        match opened(alloc, dest) {
            Some(event) => told.debug(&self.board.desk(event)),
            None => told.line(&"failed"),
        }
    }

    fn attach(&mut self, dest: Dest, told: &mut Told) {
        match self.board.attach(dest) {
            Ok((inlet, outlet)) => {
                let has_inlet = self.inlets.push((dest, inlet)).is_ok();
                let has_outlet = self.outlets.push((dest, outlet)).is_ok();
                let kept = has_inlet && has_outlet;
                told.line(&if kept { "rings" } else { "failed" });
            }
            Err(fault) => told.debug(&fault),
        }
    }
}

fn word(line: &str, place: usize) -> &str {
    line.split(' ').nth(place).unwrap_or("")
}

fn number(line: &str, place: usize) -> u32 {
    word(line, place).parse().unwrap_or(0)
}

// The number of a connection.
fn number_of(word: &str) -> u32 {
    match dest(word) {
        Dest::Session(number) => number,
        Dest::Upstream(number) => number,
    }
}

fn dest(word: &str) -> Dest {
    match word.strip_prefix("u") {
        Some(number) => Dest::Upstream(number.parse().unwrap_or(0)),
        None => Dest::Session(word.strip_prefix("s").unwrap_or("").parse().unwrap_or(0)),
    }
}

fn opened(alloc: Global, dest: Dest) -> Option<Event> {
    match dest {
        Dest::Session(number) => Some(Event::Opened(number, Host::read(alloc, b"10.0.0.5").ok()?)),
        Dest::Upstream(number) => Some(Event::UpOpened(number)),
    }
}

fn offer(inlets: &mut [(Dest, Inlet)], dest: Dest, count: u32, told: &mut Told) {
    let mut taken = 0u32;
    for (owner, inlet) in inlets.iter_mut() {
        if *owner == dest {
            taken = taken.saturating_add(offered(inlet, count));
        }
    }
    told.line(&taken);
}

/// Offers so many messages, and says how many found a place.
fn offered(inlet: &mut Inlet, count: u32) -> u32 {
    let mut taken = 0u32;
    for _ in 0..count {
        if offer_echo(inlet) {
            taken = taken.saturating_add(1);
        }
    }
    taken
}

fn offer_echo(inlet: &mut Inlet) -> bool {
    let head = Header {
        command: 23,
        dtype: 0,
        p1: 0,
        p2: 0,
        count: 0,
        size: 0,
    };
    let payload = Bytes::new();
    inlet
        .offer(Inbound::Message(Message { head, payload }))
        .is_ok()
}

fn gone(inlets: &mut [(Dest, Inlet)], dest: Dest, told: &mut Told) {
    for (owner, inlet) in inlets.iter_mut() {
        if *owner == dest {
            told.line(&inlet.offer(Inbound::Gone).is_ok());
        }
    }
}

fn pumps(board: &mut Board, dest: Dest, count: u32, told: &mut Told) {
    let mut moved = 0u32;
    for _ in 0..count {
        match board.pump(dest) {
            Ok(true) => moved = moved.saturating_add(1),
            Ok(false) => {}
            Err(fault) => told.debug(&fault),
        }
    }
    told.line(&moved);
}

fn next(outlets: &mut [(Dest, Outlet)], dest: Dest, told: &mut Told) {
    for (owner, outlet) in outlets.iter_mut() {
        if *owner == dest {
            match command_of_next(outlet) {
                Some(command) => told.debug(&Some(command)),
                None => told.line(&"none"),
            }
        }
    }
}

fn command_of_next(outlet: &mut Outlet) -> Option<u8> {
    outlet.next()?.head.as_slice().get(1).copied()
}

// The message that stands in a text as digits.
fn said(alloc: Global, digits: &str) -> Option<Message> {
    let bytes = hex::decode(alloc, digits).ok()?;
    let mut intake = Intake::new(alloc);
    intake.feed(bytes.as_slice()).ok()?;
    intake.take().ok()?
}

fn say(inlets: &mut [(Dest, Inlet)], dest: Dest, message: Message, told: &mut Told) {
    told.line(&is_said(inlets, dest, message));
}

fn say_again(alloc: Global, inlets: &mut [(Dest, Inlet)], dest: Dest, digits: &str) -> bool {
    match said(alloc, digits) {
        Some(message) => is_said(inlets, dest, message),
        None => false,
    }
}

// Whether a message found a place in the ring of a connection.
fn is_said(inlets: &mut [(Dest, Inlet)], dest: Dest, message: Message) -> bool {
    for (owner, inlet) in inlets.iter_mut() {
        if *owner == dest {
            return inlet.offer(Inbound::Message(message)).is_ok();
        }
    }
    false
}

// Takes so many messages out of the ring of a connection.
fn take(outlets: &mut [(Dest, Outlet)], dest: Dest, count: u32, told: &mut Told) {
    let mut taken = 0u32;
    for (owner, outlet) in outlets.iter_mut() {
        if *owner == dest {
            for _ in 0..count {
                if outlet.next().is_some() {
                    taken = taken.saturating_add(1);
                }
            }
        }
    }
    told.line(&taken);
}
