//! How a story is told, and what is compared where a call is refused memory.
//!
//! Before each call what is kept is listed, as far as that can be done without taking memory. Where the call answers that memory
//! was refused, it is listed again, and the call is made once more. What is told then is `refused` and the line, and whether both
//! lists are the same; and behind that what the second call answers. So a story is told otherwise where memory is refused, and by
//! one such line for each refused call if these leave everything as before. `.ci/refused_tests.py` refuses each allocation in turn.
use crate::lines::Log;
use crate::words::{Call, REFUSED, Told};
use crate::{asks, connections, lates, lines, reports, streams};
use name_server::{StreamReplies, WaitingText};
use serve_state::{Clashes, Late, LateQueue, OrderLines, Outages, Roster, SentAsks};
use std::alloc::Global;
use std::process::Abort;

/// How much is told, or listed, without taking memory.
const ROOM: usize = 65_536;

/// What the calls of a story work on.
#[derive(Drop)]
struct Kept {
    asks: SentAsks,
    clashes: Clashes,
    late: Late<u64>,
    queue: LateQueue<u64>,
    log: Log,
    orders: OrderLines,
    roster: Roster<u32, u32>,
    outages: Outages,
    stream: StreamReplies,
    waiting: WaitingText,
}

impl Kept {
    fn new(alloc: Global) -> Kept {
        Kept {
            asks: SentAsks::new(alloc),
            clashes: Clashes::new(alloc),
            late: Late::new(alloc),
            queue: LateQueue::new(alloc),
            log: Log::new(alloc),
            orders: OrderLines::new(alloc),
            roster: Roster::new(alloc, connections::CLIENTS),
            outages: Outages::new(),
            stream: StreamReplies::new(alloc),
            waiting: WaitingText::new(alloc),
        }
    }

    fn call(&mut self, alloc: Global, call: &Call<'_>, told: &mut Told) {
        match call.verb {
            "ask" | "ask-many" | "begin" | "find" | "answer" => {
                asks::call(alloc, &mut self.asks, call, told);
            }
            "clash" | "clash-many" => asks::clash(alloc, &mut self.clashes, call, told),
            "late" | "late-many" | "late-at" | "lates" | "expire" | "answered" => {
                lates::call(alloc, &mut self.late, call, told);
            }
            "wait" | "wait-many" | "take-late" | "take-many" | "waiting" => {
                lates::queue(alloc, &mut self.queue, call, told);
            }
            "log" | "log-many" | "next" | "second" | "idle" => self.log.call(alloc, call, told),
            "hear" | "hear-long" | "end" => lines::hear(&mut self.orders, call, told),
            "fail" | "fail-ordered" | "back" => connections::fail(&mut self.outages, call, told),
            "report" | "report-short" => reports::call(alloc, call.verb, told),
            "greeting" => streams::greet(alloc, call.text, told),
            "reply" | "drip" => streams::call(alloc, &mut self.stream, call, told),
            "put" | "put-long" | "take" | "empty" => {
                streams::write(alloc, &mut self.waiting, call, told);
            }
            _ => connections::call(&mut self.roster, call, told),
        }
    }

    fn list(&self, told: &mut Told) {
        told.text.clear();
        asks::list(&self.asks, told);
        lates::list(&self.late, told);
        told.line(&self.queue.len());
        self.log.list(told);
        connections::list(&self.roster, told);
        told.name_line(&self.orders.end());
        told.name_line(&self.stream);
        told.line(&self.waiting.is_empty());
    }
}

/// Asserts that a story comes out as it is told.
pub(crate) fn tells(rt: &impl Abort, alloc: Global, story: &str) {
    let mut told = Told::with_room(alloc, ROOM);
    let mut wanted = Told::with_room(alloc, ROOM);
    tell(alloc, story, &mut told, &mut wanted);
    assert!(rt;
        told.is_whole && wanted.is_whole,
        "the test itself was refused memory"
    );
    assert_eq!(rt; told.text.as_str(), wanted.text.as_str());
}

fn tell(alloc: Global, story: &str, told: &mut Told, wanted: &mut Told) {
    let mut kept = Kept::new(alloc);
    let mut seen = Seen::new(alloc);
    for line in story.lines() {
        if let Some(answer) = line.strip_prefix(">") {
            want(answer, wanted);
        } else if line.starts_with("# ") {
            kept = Kept::new(alloc);
        } else {
            seen.call(alloc, &mut kept, line, told);
        }
    }
    told.is_whole &= seen.is_whole();
}

/// What is seen of a call: the lists before it and behind it, and what it answers.
#[derive(Drop)]
struct Seen {
    before: Told,
    answer: Told,
    behind: Told,
}

impl Seen {
    fn new(alloc: Global) -> Seen {
        Seen {
            before: Told::with_room(alloc, ROOM),
            answer: Told::with_room(alloc, ROOM),
            behind: Told::with_room(alloc, ROOM),
        }
    }

    fn is_whole(&self) -> bool {
        self.before.is_whole && self.answer.is_whole && self.behind.is_whole
    }

    fn call(&mut self, alloc: Global, kept: &mut Kept, line: &str, told: &mut Told) {
        let call = Call::read(line);
        kept.list(&mut self.before);
        self.answer.text.clear();
        kept.call(alloc, &call, &mut self.answer);
        if self.answer.text.as_str().contains(REFUSED) {
            kept.list(&mut self.behind);
            self.note(line, told);
            self.answer.text.clear();
            kept.call(alloc, &call, &mut self.answer);
        }
        told.add(&self.answer);
    }

    fn note(&self, line: &str, told: &mut Told) {
        told.word(&"refused");
        told.word(&line);
        if self.before.text.as_str() == self.behind.text.as_str() {
            told.line(&"as before");
        } else {
            told.line(&"otherwise");
            told.add(&self.before);
            told.line(&"behind it");
            told.add(&self.behind);
        }
    }
}

/// Adds the lines of an answer, as often as is said before them, or once.
fn want(answer: &str, wanted: &mut Told) {
    let (times, lines) = answer.split_once(' ').unwrap_or(("", answer));
    for _ in 0..times.parse().unwrap_or(1u32) {
        for line in lines.split("; ") {
            wanted.line(&line);
        }
    }
}
