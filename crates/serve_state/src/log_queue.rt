//! The lines of the log that wait to be written.
ghost use Rattle.std.specs.Prelude.{◌≡◌, ◌↔◌, [], OnOk, OnErr, IsErrOf, false, true, replicate, length, string_bytes};
ghost use Rattle.serve_state.specs.LogQueue.{LogState, is_over, has_room, with_line, with_drop, next_told, after_next, is_idle, after_second};

use std::alloc::Global;
use std::collections::VecDeque;
use std::marker::Model;

/// The most lines that wait.
pub const LINES_LIMIT: usize = 1_024;

/// The most bytes that they have together.
pub const BYTES_LIMIT: usize = 262_144;

/// The most lines of a kind in a second.
pub const KIND_LIMIT: u32 = 50;

/// There is a place for each number of a kind.
const KINDS: usize = 256;

/// A line of the log, without its line feed.
#[derive(Drop)]
pub struct LogLine {
    text: String,
}

impl Model for LogLine {
    ghost use Rattle.std.specs.Prelude.{ℕ, List, string_bytes};

    ghost Value = { List ℕ };

    ghost view = { λ l. string_bytes l.text };
}

impl LogLine {
    pub fn new(text: String) -> LogLine
        ensures { result ≡ string_bytes text }
    {
        LogLine { text }
    }

    pub fn text(&self) -> &str
        ensures { result.now ≡ self.now }
    {
        self.text.as_str()
    }

    fn len(&self) -> usize
        ensures { result ≡ length self.now }
    {
        self.text.len()
    }
}

/// Why a line is dropped.
#[derive(Clone, Copy, Debug, PartialEq, Eq)]
pub enum Dropped {
    /// As many of its kind as may be came in this second.
    TooMany,
    /// As many lines or bytes as may wait are waiting.
    Full,
    OutOfMemory,
}

/// What is to be written next.
#[derive(Drop)]
pub enum ToLog {
    Line(LogLine),
    /// So many lines were dropped.
    Dropped(u64),
}

/// The lines that wait, in order, and how many were dropped and aren't told.
#[derive(Drop)]
pub struct LogQueue {
    lines: VecDeque<LogLine>,
    // How many bytes the lines have.
    bytes: usize,
    dropped: u64,
    // What was dropped is told next.
    is_due: bool,
    // How many lines of each kind were kept in this second.
    counts: [u32; KINDS],
}

impl Model for LogQueue {
    ghost use Rattle.std.specs.Prelude.{◌≡◌};
    ghost use Rattle.serve_state.specs.LogQueue.{LogState, total};

    ghost Value = { LogState };

    ghost view = { λ q. record {
      lines = q.lines.items;
      dropped = q.dropped;
      due = q.is_due;
      counts = q.counts;
    } };

    ghost invariant = { λ q. q.bytes ≡ total q.lines.items };
}

impl LogQueue {
    /// No lines. It takes no memory.
    pub fn new(alloc: Global) -> LogQueue
        ensures { result ≡ record { lines = []; dropped = 0; due = false; counts = replicate 256 0 } }
    {
        LogQueue {
            lines: VecDeque::new(alloc),
            bytes: 0,
            dropped: 0,
            is_due: false,
            counts: [0; KINDS],
        }
    }

    /// Adds a line of this kind behind those that wait. At an error it is dropped, and counted.
    pub fn push(&mut self, kind: u8, line: LogLine) -> Result<(), Dropped>
        ensures ok { OnOk result (self.new ≡ with_line kind line self.old) }
        ensures kept { OnOk result ((is_over kind self.old ≡ false) × (has_room line self.old ≡ true)) }
        ensures err { OnErr result (self.new ≡ with_drop self.old) }
        ensures too_many { IsErrOf result Dropped.TooMany ↔ (is_over kind self.old ≡ true) }
        ensures full { IsErrOf result Dropped.Full ↔ ((is_over kind self.old ≡ false) × (has_room line self.old ≡ false)) }
    {
        if self.is_over(kind) {
            self.drop_one();
            return Err(Dropped::TooMany);
        }
        if !self.has_room(&line) {
            self.drop_one();
            return Err(Dropped::Full);
        }
        if !self.add(kind, line) {
            self.drop_one();
            return Err(Dropped::OutOfMemory);
        }
        Ok(())
    }

    /// What is to be written next: how many lines were dropped, where that is due, and else the first line.
    pub fn next(&mut self) -> Option<ToLog>
        ensures told { result ≡ next_told self.old }
        ensures new { self.new ≡ after_next self.old }
    {
        if self.is_due {
            self.is_due = false;
            let dropped = self.dropped;
            self.dropped = 0;
            return Some(ToLog::Dropped(dropped));
        }
        let line = self.lines.pop_front()?;
        self.bytes = self.bytes.saturating_sub(line.len());
        Some(ToLog::Line(line))
    }

    /// Whether there is nothing to be written.
    pub fn is_idle(&self) -> bool
        ensures { result ≡ is_idle self.now }
    {
        !self.is_due && self.lines.is_empty()
    }

    /// A second has passed: lines of each kind may come again, and what was dropped is due.
    pub fn end_second(&mut self)
        ensures { self.new ≡ after_second self.old }
    {
        self.is_due = self.dropped > 0;
        self.counts = [0; KINDS];
    }

    fn is_over(&self, kind: u8) -> bool
        ensures { result ≡ is_over kind self.now }
    {
        self.counts[kind as usize] >= KIND_LIMIT
    }

    fn has_room(&self, line: &LogLine) -> bool
        ensures { result ≡ has_room line.now self.now }
    {
        self.lines.len() < LINES_LIMIT
            && line.len() <= BYTES_LIMIT
            && self.bytes <= BYTES_LIMIT - line.len()
    }

    // False where memory is refused.
    #[tactic(auto, using(crate::proofs::LogQueueLemmas::total_push))]
    fn add(&mut self, kind: u8, line: LogLine) -> bool
        requires over { is_over kind self.old ≡ false }
        requires room { has_room line self.old ≡ true }
        ensures added { result ≡ true → self.new ≡ with_line kind line self.old }
        ensures refused { result ≡ false → self.new ≡ self.old }
    {
        let size = line.len();
        if self.lines.push_back(line).is_err() {
            return false;
        }
        self.bytes += size;
        self.counts[kind as usize] += 1;
        true
    }

    /// Counts a line that isn't there, since no memory was left to write it down.
    pub fn drop_one(&mut self)
        ensures { self.new ≡ with_drop self.old }
    {
        self.dropped = self.dropped.saturating_add(1);
    }
}
