//! How a story is told, and what is compared where a call is refused memory.
//!
//! Before each call, as long as a story's values are small, all of them are listed. Where the call answers that memory was
//! refused, they are listed again, and the call is made once more. What is told then is `refused` and the line, and
//! whether both lists are the same; and behind that what the second call answers. So a story is told otherwise
//! where memory is refused, and by one such line for each refused call if these leave everything as before.
//! `.ci/refused_tests.py` refuses each allocation in turn.
use crate::layouts::Viewed;
use crate::words::{Call, Told, verb};
use crate::{
    caches, datagrams, headers, layouts, messages, newcomers, outboxes, schedules, searches,
    servers, streams, to_clients, to_servers,
};
use ask_schedule::{AtOnce, Newcomers, Schedule};
use ca_header::Intake;
use fanout::Outbox;
use server_book::ServerBook;
use std::alloc::Global;
use std::process::Abort;
use std::test::Fail;
use value_cache::Cached;

/// How much is told, or listed, without taking memory.
const ROOM: usize = 65_536;

/// How many bytes a story's values have that are listed, at most.
const LISTED: usize = 2_048;

/// What the calls of a story work on.
#[derive(Drop)]
struct Wire {
    intake: Intake,
    viewed: Viewed,
    cached: Cached,
    outbox: Outbox,
    schedule: Schedule,
    newcomers: Newcomers,
    at_once: AtOnce,
    servers: Option<ServerBook>,
}

impl Wire {
    fn new(alloc: Global) -> Wire {
        Wire {
            intake: Intake::new(alloc),
            viewed: Viewed::nothing(alloc),
            cached: Cached::empty(),
            outbox: Outbox::new(alloc),
            schedule: Schedule::new(alloc, schedules::LIMIT),
            newcomers: Newcomers::new(alloc, newcomers::LIMIT),
            at_once: AtOnce::new(alloc),
            servers: servers::book(alloc),
        }
    }

    fn call(&mut self, verb: &str, call: &Call, told: &mut Told) {
        match verb {
            "pad" | "write" | "read" | "reread" | "frames" => headers::call(verb, call, told),
            "feed" | "take" | "drip" | "cut" | "refusals" => {
                streams::call(&mut self.intake, verb, call, told);
            }
            "hold"
            | "ask"
            | "keep"
            | "shares"
            | "thin"
            | "covers"
            | "alarm"
            | "forget"
            | "describe-held"
            | "forget-properties" => {
                caches::call(&mut self.cached, verb, call, told);
            }
            "append" | "mark" | "length" | "bytes" | "front" | "empty" => {
                outboxes::call(&mut self.outbox, verb, call, told);
            }
            "request" | "reply" | "name" | "host" | "error-text" => {
                messages::call(verb, call, told);
            }
            "search" | "answer" | "answer-cut" | "test" | "found" | "replies" => {
                searches::call(verb, call, told);
            }
            "plan" | "look" | "unplan" | "sooner" => {
                schedules::call(&mut self.schedule, verb, call, told);
            }
            "come" | "welcome" | "waits" => {
                newcomers::call(&mut self.newcomers, verb, call, told);
            }
            "at-once" => newcomers::hear(&mut self.at_once, call, told),
            "net" => servers::net(call, told),
            "believed" => servers::believe(call, told),
            "asks" | "asks-sizes" | "parts" | "answer-parts" => datagrams::call(verb, call, told),
            _ => layouts::call(&mut self.viewed, verb, call, told),
        }
    }

    /// Makes the call of a line, and tells what it answers.
    fn tell(&mut self, line: &str, call: &Call, told: &mut Told) {
        if let Some(kind) = verb(line).strip_prefix("book-") {
            servers::call(&mut self.servers, kind, call, told);
        } else if !send(verb(line), call, told) {
            self.call(verb(line), call, told);
        }
    }

    /// Tells what is held and what waits. It takes no memory.
    fn list(&self, told: &mut Told) {
        told.text.clear();
        told.name(&self.intake);
        told.name(&self.cached);
        told.name(&self.outbox);
        told.word(&self.schedule.len());
        told.word(&self.newcomers.len());
        servers::list(&self.servers, told);
    }
}

/// Asserts that a story comes out as it is told.
pub(crate) fn tells(rt: &impl Abort, alloc: Global, story: &str) -> Result<(), Fail> {
    let mut told = Told::with_room(alloc, ROOM);
    let mut wanted = Told::with_room(alloc, ROOM);
    tell(alloc, story, &mut told, &mut wanted)?;
    assert!(rt;
        told.is_whole && wanted.is_whole,
        "the test itself was refused memory"
    );
    assert_eq!(rt; told.text.as_str(), wanted.text.as_str());
    Ok(())
}

fn tell(alloc: Global, story: &str, told: &mut Told, wanted: &mut Told) -> Result<(), Fail> {
    let mut wire = Wire::new(alloc);
    let mut call = Call::new(alloc);
    let mut seen = Seen::new(alloc);
    for line in story.lines() {
        if let Some(answer) = line.strip_prefix(">") {
            want(answer, wanted)?;
        } else if line.starts_with("# ") {
            wire = Wire::new(alloc);
            seen.bytes = 0;
        } else {
            call.read(line)?;
            seen.calls(&mut wire, line, &call, told);
        }
    }
    told.is_whole &= seen.is_whole();
    Ok(())
}

/// What is seen of a call: the lists before it and behind it, and what it answers.
#[derive(Drop)]
struct Seen {
    /// How many bytes the values got since they were empty.
    bytes: usize,
    before: Told,
    answer: Told,
    behind: Told,
}

impl Seen {
    fn new(alloc: Global) -> Seen {
        Seen {
            bytes: 0,
            before: Told::with_room(alloc, ROOM),
            answer: Told::with_room(alloc, ROOM),
            behind: Told::with_room(alloc, ROOM),
        }
    }

    fn is_whole(&self) -> bool {
        self.before.is_whole && self.answer.is_whole && self.behind.is_whole
    }

    /// Makes the call of a line, as often as it says.
    fn calls(&mut self, wire: &mut Wire, line: &str, call: &Call, told: &mut Told) {
        let times = match verb(line) {
            "append" => call.number(0),
            _ => 1,
        };
        self.bytes = self.bytes.saturating_add(call.bytes.len());
        self.bytes = self.bytes.saturating_add(times as usize);
        for _ in 0..times {
            if self.bytes < LISTED && !matches!(verb(line), "drip" | "refusals") {
                self.call(wire, line, call, told);
            } else {
                wire.tell(line, call, told);
            }
        }
    }

    fn call(&mut self, wire: &mut Wire, line: &str, call: &Call, told: &mut Told) {
        wire.list(&mut self.before);
        self.answer.text.clear();
        wire.tell(line, call, &mut self.answer);
        if self.answer.text.as_str().contains("out of memory") {
            wire.list(&mut self.behind);
            self.note(line, told);
            self.answer.text.clear();
            wire.tell(line, call, &mut self.answer);
        }
        told.add(&self.answer);
    }

    fn note(&self, line: &str, told: &mut Told) {
        told.word(&"refused");
        told.word(&line);
        if self.before.text.as_str() == self.behind.text.as_str() {
            told.line(&"as before");
        } else {
            told.line(&"otherwise");
            told.add(&self.before);
            told.line(&"behind it");
            told.add(&self.behind);
        }
    }
}

/// Makes a call on a message that is sent. False where it is none.
fn send(verb: &str, call: &Call, told: &mut Told) -> bool {
    if let Some(kind) = verb.strip_prefix("client-") {
        to_clients::call(kind, call, told);
    } else if let Some(kind) = verb.strip_prefix("server-") {
        to_servers::call(kind, call, told);
    } else if let Some(kind) = verb.strip_prefix("reread-client-") {
        to_clients::reread(kind, call, told);
    } else if let Some(kind) = verb.strip_prefix("reread-server-") {
        to_servers::reread(kind, call, told);
    } else if verb == "hand-on" {
        to_servers::hand_on(call, told);
    } else {
        return false;
    }
    true
}

/// Adds the lines of an answer, as often as is said before them, or once.
fn want(answer: &str, wanted: &mut Told) -> Result<(), Fail> {
    let (times, lines) = answer.split_once(' ').ok_or("an answer")?;
    let times: u32 = if times.is_empty() { 1 } else { times.parse()? };
    for _ in 0..times {
        for line in lines.split("; ") {
            wanted.line(&line);
        }
    }
    Ok(())
}
