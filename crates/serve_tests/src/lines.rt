//! Calls on the lines of the log that wait, and on standard input.
//!
//! - `log KIND: TEXT`: the line is added, or why it is dropped;
//! - `log-many KIND LENGTH TIMES`: how many lines of so many letters are added, 50 of each kind from this one on;
//! - `next`: what is written next; `second`: a second passes; `idle`: whether there is nothing to be written;
//! - `hear: TEXT`: the lines that end in it, where `|` is their end; `hear-long LENGTH`: so many letters;
//! - `end`: the last line, where the input ends.
//!
//! Lines that were refused memory are counted as dropped, but not told, so that a story is told as without the refusal.
use crate::words::{Call, REFUSED, Told};
use serve_state::{Dropped, LogLine, LogQueue, OrderLine, OrderLines, ToLog};
use std::alloc::{AllocError, Global};

/// So many lines of a kind come in a second.
const OF_KIND: u64 = 50;

/// The lines that wait.
#[derive(Drop)]
pub(crate) struct Log {
    queue: LogQueue,
    /// How many lines were refused memory and aren't told.
    refused: u64,
}

impl Log {
    pub(crate) fn new(alloc: Global) -> Log {
        Log {
            queue: LogQueue::new(alloc),
            refused: 0,
        }
    }

    pub(crate) fn call(&mut self, alloc: Global, call: &Call<'_>, told: &mut Told) {
        match call.verb {
            "next" => self.next(told),
            "second" => self.queue.end_second(),
            "idle" => told.line(&self.queue.is_idle()),
            "log-many" => self.add_many(alloc, call, told),
            _ => self.add(alloc, call, told),
        }
    }

    fn add(&mut self, alloc: Global, call: &Call<'_>, told: &mut Told) {
        let Some(line) = line_of(alloc, call.text, 1) else {
            return told.line(&REFUSED);
        };
        match self.queue.push(kind(call.numbers[0]), line) {
            Ok(()) => {}
            Err(Dropped::OutOfMemory) => {
                self.refused = self.refused.saturating_add(1);
                told.line(&REFUSED);
            }
            Err(dropped) => told.name_line(&dropped),
        }
    }

    fn add_many(&mut self, alloc: Global, call: &Call<'_>, told: &mut Told) {
        let [first, length, times, _] = call.numbers;
        let mut count = 0u32;
        for time in 0..times {
            if self.add_long(alloc, first.saturating_add(time / OF_KIND), length) {
                count = count.saturating_add(1);
            }
        }
        told.line(&count);
    }

    fn add_long(&mut self, alloc: Global, number: u64, length: u64) -> bool {
        match line_of(alloc, "x", length) {
            Some(line) => self.queue.push(kind(number), line).is_ok(),
            None => false,
        }
    }

    fn next(&mut self, told: &mut Told) {
        match self.queue.next() {
            Some(ToLog::Dropped(lines)) => {
                let lines = lines.saturating_sub(self.refused);
                self.refused = 0;
                if lines > 0 {
                    told.word(&"dropped");
                    told.line(&lines);
                } else {
                    show(self.queue.next(), told);
                }
            }
            next => show(next, told),
        }
    }

    /// It takes no memory.
    pub(crate) fn list(&self, told: &mut Told) {
        told.line(&self.queue.is_idle());
    }
}

fn kind(number: u64) -> u8 {
    number.min(255) as u8
}

/// A text, so many times.
fn line_of(alloc: Global, text: &str, times: u64) -> Option<LogLine> {
    let mut line = String::new(alloc);
    let mut is_whole = true;
    for _ in 0..times {
        is_whole &= line.push_str(text).is_ok();
    }
    if is_whole {
        Some(LogLine::new(line))
    } else {
        None
    }
}

fn show(next: Option<ToLog>, told: &mut Told) {
    match next {
        Some(ToLog::Line(line)) => told.line(&line.text()),
        Some(ToLog::Dropped(lines)) => {
            told.word(&"dropped");
            told.line(&lines);
        }
        None => told.line(&"nothing"),
    }
}

pub(crate) fn hear(orders: &mut OrderLines, call: &Call<'_>, told: &mut Told) {
    match call.verb {
        "end" => match orders.end() {
            Some(line) => told.name_line(&line),
            None => told.line(&"none"),
        },
        "hear-long" => for _ in 0..call.numbers[0] {
            hear_byte(orders, b'x', told);
        },
        _ => for byte in call.text.as_bytes() {
            let byte = if *byte == b'|' { b'\n' } else { *byte };
            hear_byte(orders, byte, told);
        },
    }
}

/// Hears a byte, and once more where that was refused memory, since nothing was heard then.
fn hear_byte(orders: &mut OrderLines, byte: u8, told: &mut Told) {
    let heard = orders.hear(byte);
    if heard.is_err() {
        told.line(&"refused byte as it must be");
        show_line(orders.hear(byte), told);
    } else {
        show_line(heard, told);
    }
}

fn show_line(heard: Result<Option<OrderLine>, AllocError>, told: &mut Told) {
    match heard {
        Ok(Some(line)) => told.name_line(&line),
        Ok(None) => {}
        Err(_) => told.line(&REFUSED),
    }
}
