//! What is compared where a call of a story is refused memory.
//!
//! Before each call the story's value is listed. Where the call answers that memory was refused, the value is
//! listed again, and the call is made once more. What is told then is `refused` and the line, and whether
//! both lists are the same; and behind that what the second call answers. Telling and listing take no memory
//! but some at first. So a story is told otherwise where memory is refused, and by one such line for each
//! refused call if these leave everything as before. `.ci/refused_tests.py` refuses each allocation in turn.
use crate::words::Told;
use std::alloc::Global;
use std::process::Abort;

/// How much is told, or listed, without taking memory.
const ROOM: usize = 65_536;

/// How many calls of a story are compared. Those behind them fill tables up to their limits.
const COMPARED: u32 = 200;

/// A value that calls change.
pub(crate) trait KeptValue {
    /// The numbers for each of which the call of a line is made.
    fn numbers(&self, line: &str) -> (u32, u32);

    /// Makes the call of a line for one of these numbers, and tells what it answers.
    fn call(&mut self, line: &str, number: u32, told: &mut Told);

    /// Tells all of the value, and takes no memory.
    fn list(&mut self, told: &mut Told);

    /// What was done since the last call doesn't count.
    fn skip(&mut self);

    /// What was done since the last call counts.
    fn count(&mut self);
}

/// Asserts that a story comes out as it is told.
pub(crate) fn tells<K: KeptValue>(rt: &impl Abort, alloc: Global, kept: &mut K, texts: [&str; 2]) {
    let mut told = Told::with_room(alloc, ROOM);
    let mut wanted = Told::with_room(alloc, ROOM);
    tell(alloc, kept, texts, &mut told, &mut wanted);
    assert!(rt;
        told.is_whole && wanted.is_whole,
        "the test itself was refused memory"
    );
    assert_eq!(rt; told.text.as_str(), wanted.text.as_str());
}

fn tell<K: KeptValue>(
    alloc: Global,
    kept: &mut K,
    texts: [&str; 2],
    told: &mut Told,
    wanted: &mut Told,
) {
    let mut seen = Seen::new(alloc);
    let [beginning, story] = texts;
    seen.tell(kept, beginning, told, wanted);
    seen.tell(kept, story, told, wanted);
    told.is_whole &= seen.is_whole();
}

/// What is seen of a call: the lists before it and behind it, and what it answers.
#[derive(Drop)]
struct Seen {
    /// How many calls are still compared.
    left: u32,
    before: Told,
    answer: Told,
    behind: Told,
}

impl Seen {
    fn new(alloc: Global) -> Seen {
        Seen {
            left: COMPARED,
            before: Told::with_room(alloc, ROOM),
            answer: Told::with_room(alloc, ROOM),
            behind: Told::with_room(alloc, ROOM),
        }
    }

    fn is_whole(&self) -> bool {
        self.before.is_whole && self.answer.is_whole && self.behind.is_whole
    }

    fn tell<K: KeptValue>(&mut self, kept: &mut K, text: &str, told: &mut Told, wanted: &mut Told) {
        for line in text.lines() {
            match line.strip_prefix("> ") {
                Some(answer) => wanted.line(&answer),
                None => self.calls(kept, line, told),
            }
        }
    }

    /// Makes the call of a line, for each of its numbers.
    fn calls<K: KeptValue>(&mut self, kept: &mut K, line: &str, told: &mut Told) {
        let (first, last) = kept.numbers(line);
        for number in first..=last {
            if self.left > 0 {
                self.left = self.left.saturating_sub(1);
                self.call(kept, line, number, told);
            } else {
                kept.call(line, number, told);
            }
        }
    }

    /// Makes a call, and once more where it is refused memory.
    fn call<K: KeptValue>(&mut self, kept: &mut K, line: &str, number: u32, told: &mut Told) {
        self.before.text.clear();
        kept.list(&mut self.before);
        kept.skip();
        self.answer.text.clear();
        kept.call(line, number, &mut self.answer);
        if self.answer.text.as_str().contains("out of memory") {
            self.behind.text.clear();
            kept.list(&mut self.behind);
            kept.skip();
            self.note(line, told);
            self.answer.text.clear();
            kept.call(line, number, &mut self.answer);
        }
        kept.count();
        told.add(&self.answer);
    }

    fn note(&self, line: &str, told: &mut Told) {
        told.word(&"refused");
        told.word(&line);
        if self.before.text.as_str() == self.behind.text.as_str() {
            told.line(&"as before");
        } else {
            told.line(&"otherwise");
            told.add(&self.before);
            told.line(&"behind it");
            told.add(&self.behind);
        }
    }
}
