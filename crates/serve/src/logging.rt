//! The log: who logs puts lines into a queue, and a thread that nobody waits for writes them.
use crate::machine::System;
use log::kv::Source;
use log::sink::Console;
use log::span::Spans;
use log::{Level, Line, Log, Logged, Metadata, Record, log};
use rule_desk::Note;
use serve_state::{LogLine, LogQueue, Notice, ToLog};
use std::alloc::Global;
use std::fmt::Display;
use std::sync::{Arc, Condvar, CondvarTimeouts, Mutex, Wait};
use std::time::Duration;

/// How many milliseconds the end waits at most for the last lines.
const LAST: u64 = 100;

/// The kinds of lines that are no notices.
const NOTES: u8 = 255;

/// The lines that wait, and whether one is being written.
#[derive(Drop)]
struct WaitingLines {
    queue: LogQueue,
    is_writing: bool,
}

impl WaitingLines {
    fn is_done(&self) -> bool {
        !self.is_writing && self.queue.is_idle()
    }
}

/// What those who log share with the thread that writes.
#[derive(Drop)]
pub struct LogBook {
    alloc: Global,
    level: Level,
    waiting: Mutex<WaitingLines>,
    /// There is something to write, or nothing is left.
    changed: Condvar,
}

impl LogBook {
    pub fn new(alloc: Global, level: Level) -> LogBook {
        LogBook {
            alloc,
            level,
            waiting: Mutex::new(WaitingLines {
                queue: LogQueue::new(alloc),
                is_writing: false,
            }),
            changed: Condvar::new(),
        }
    }

    /// Logs it. Whoever calls this waits for the lock of the queue at most.
    pub fn tell<R: System>(&self, rt: &R, notice: Notice<'_>) {
        let sink = Queued {
            rt: *rt,
            book: self,
            kind: notice.kind(),
        };
        let logger = Logged::new(*rt, self.level, sink);
        log!(logger; target: "pvgate", notice.level(), "{notice}");
    }

    /// Adds what is noted of a rule file.
    pub fn note<R: System>(&self, rt: &R, note: Note) {
        self.push(rt, NOTES, String::format(self.alloc, note).ok());
    }

    fn push<R: Wait>(&self, rt: &R, kind: u8, text: Option<String>) {
        {
            let mut waiting = self.waiting.lock(rt);
            match text {
                Some(text) => {
                    let _ = waiting.queue.push(kind, LogLine::new(text));
                }
                None => waiting.queue.drop_one(),
            }
        }
        self.changed.notify_all();
    }

    /// A second has passed.
    pub fn end_second<R: Wait>(&self, rt: &R) {
        self.waiting.lock(rt).queue.end_second();
        self.changed.notify_all();
    }

    /// Has the last lines written, and waits for that, but not for long: it may be that nobody reads them.
    pub fn finish<R: System>(&self, rt: &R) {
        self.end_second(rt);
        let waiting = self.waiting.lock(rt);
        let _ = self.changed.wait_timeout_while(
            rt,
            waiting,
            Duration::from_millis(LAST),
            |waiting| !waiting.is_done(),
        );
    }

    fn next<R: Wait>(&self, rt: &R) -> Option<ToLog> {
        let waiting = self.waiting.lock(rt);
        let mut waiting = self
            .changed
            .wait_while(rt, waiting, |waiting| waiting.queue.is_idle());
        waiting.is_writing = true;
        waiting.queue.next()
    }

    fn written<R: Wait>(&self, rt: &R) {
        self.waiting.lock(rt).is_writing = false;
        self.changed.notify_all();
    }
}

/// Puts the line of each record into the queue.
#[derive(Clone, Copy)]
struct Queued<'a, R> {
    rt: R,
    book: &'a LogBook,
    kind: u8,
}

impl<'a, R: System> Log for Queued<'a, R> {
    fn enabled(&self, _metadata: &Metadata<'_>) -> bool {
        true
    }

    fn log<D: Display, K: Source, S: Spans>(&self, record: &Record<'_, D, K, S>) {
        let text = String::format(self.book.alloc, Line::new(record)).ok();
        self.book.push(&self.rt, self.kind, text);
    }

    fn flush(&self) {}

    fn target(&self) -> &str {
        ""
    }
}

/// Writes the lines to standard error, in order, for as long as the program runs. It may wait for whoever reads
/// them.
pub fn write_lines<R: System>(rt: R, book: Arc<LogBook, Global>) {
    let shared: &LogBook = &book;
    for _ in rt.forever() {
        match shared.next(&rt) {
            Some(ToLog::Line(line)) => {
                let _ = rt.eprintln(line.text());
            }
            Some(ToLog::Dropped(lines)) => {
                tell(&rt, shared.level, Notice::LinesDropped(lines));
            }
            None => (),
        }
        shared.written(&rt);
    }
}

/// Logs it on standard error, where what has its level is logged.
pub fn tell<R: System>(rt: &R, log: Level, notice: Notice<'_>) {
    let logger = Logged::new(*rt, log, Console(*rt));
    log!(logger; target: "pvgate", notice.level(), "{notice}");
}

/// Where what is told of rule files goes.
#[derive(Clone, Copy)]
pub enum Teller<'a> {
    /// Before anything is served, to standard error, where what has this level is logged.
    AtStart(Level),
    /// Into the queue.
    WhileServing(&'a LogBook),
}

impl<'a> Teller<'a> {
    pub fn tell<R: System>(self, rt: &R, notice: Notice<'_>) {
        match self {
            Teller::AtStart(level) => tell(rt, level, notice),
            Teller::WhileServing(book) => book.tell(rt, notice),
        }
    }

    pub fn note<R: System>(self, rt: &R, note: Note) {
        match self {
            Teller::AtStart(_) => {
                let _ = rt.eprintln(note);
            }
            Teller::WhileServing(book) => book.note(rt, note),
        }
    }
}
