//! How a list is drawn.
ghost use Rattle.std.specs.Prelude.{◌<◌, ◌≤◌};
ghost use Rattle.gateway_state.specs.declared.config.TheConstants.{LAST_FIRST};

use crate::same_answers::events::{
    BEGINNING, CHANGES, EDITS, ODDITIES, QUESTIONS, REPLIES, REQUESTS, UPKEEP, words,
};
use gateway_state::LAST_FIRST;
use replay::replay_from;
use std::alloc::{AllocError, Global};

/// The tables, as often as they are drawn.
const TABLES: &[u8] = b"rrrrrrrrrrrraaaaaaaaaaaqqqcco";

/// How often the engine performs what there is of a list, and so many events are drawn each time.
const PARTS: usize = 25;

const EVENTS: usize = 8;

/// One list of so many may have edits of the policy, and one of so many limits that are told, ages and
/// probes.
const EDITED: u64 = 20;

const KEPT_UP: u64 = 4;

/// One list of so many begins so many numbers before the last one, and they come again.
const NEAR_THE_END: u64 = 8;

const NUMBERS: u32 = 12;

const AGAIN: &[u8] = b"limit reuses-numbers 1\n";

/// The beginning of a line of a message: its connection, and sixteen bytes as digits.
type SourceText = [u8; 35];

// The source where there is no such line.
const NOWHERE: SourceText = *b"s1 00120000000500030000000100000001";

// What is drawn as a source is mostly one of so many last ones.
const LAST: usize = 6;

/// Numbers that look like chance.
#[derive(Drop)]
struct Chance {
    state: u64,
}

impl Chance {
    fn new(seed: u64) -> Chance {
        Chance {
            state: seed.wrapping_mul(0x9e37_79b9_7f4a_7c15) | 1,
        }
    }

    /// A number below this one, and 0 below 0.
    fn below(&mut self, end: usize) -> usize {
        self.state ^= self.state << 13;
        self.state ^= self.state >> 7;
        self.state ^= self.state << 17;
        let drawn = (self.state >> 20) as usize;
        drawn.checked_rem(end).unwrap_or(0)
    }

    /// One of the parts of a text.
    fn part<'a>(&mut self, text: &'a [u8], between: u8) -> &'a [u8] {
        let count = text.split(|b| *b == between).count();
        let place = self.below(count);
        text.split(|b| *b == between).nth(place).unwrap_or(b"")
    }
}

/// Whether a line begins so, where `?` stands for any byte.
fn begins(line: &[u8], pattern: &[u8]) -> bool {
    for (place, wanted) in pattern.iter().enumerate() {
        match line.get(place) {
            Some(byte) if *wanted == b'?' || byte == wanted => {}
            _ => return false,
        }
    }
    true
}

/// How many lines of a text begin so.
pub(crate) fn count(text: &[u8], pattern: &[u8]) -> usize {
    let mut count: usize = 0;
    for line in text.split(|b| *b == b'\n') {
        if begins(line, pattern) {
            count = count.saturating_add(1);
        }
    }
    count
}

/// The source that is the n-th line that begins so.
fn nth_source(text: &[u8], pattern: &[u8], n: usize) -> SourceText {
    let mut source = NOWHERE;
    let mut left = n;
    for line in text.split(|b| *b == b'\n') {
        if begins(line, pattern) {
            if left == 0 {
                let line = line.strip_prefix(b"client ").unwrap_or(line);
                for (place, byte) in source.iter_mut().zip(line) {
                    *place = *byte;
                }
                return source;
            }
            left -= 1;
        }
    }
    source
}

/// One of the lines that begin so.
fn drawn_source(chance: &mut Chance, text: &[u8], pattern: &[u8]) -> SourceText {
    let lines = count(text, pattern);
    let first = if chance.below(3) == 0 {
        0
    } else {
        lines.saturating_sub(LAST)
    };
    let place = chance.below(lines - first);
    nth_source(text, pattern, first.saturating_add(place))
}

/// Which tables a list is drawn from beside the usual ones.
#[derive(Clone, Copy)]
struct Beside {
    edits: bool,
    upkeep: bool,
}

/// Whether numbers come again in a list.
pub(crate) fn is_near_the_end(seed: u64) -> bool {
    seed % NEAR_THE_END == 3
}

/// The first number that is given out in a list.
pub(crate) fn first_number(seed: u64) -> u32
    ensures { (0 < result) × (result ≤ LAST_FIRST) }
{
    if is_near_the_end(seed) {
        LAST_FIRST - NUMBERS + 1
    } else {
        1
    }
}

/// Draws a list, and gives it to the engine. Says with which status that ends.
pub(crate) fn draw(
    alloc: Global,
    seed: u64,
    script: &mut Vec<u8>,
    printed: &mut Vec<u8>,
) -> Result<u8, AllocError> {
    let mut chance = Chance::new(seed);
    let beside = Beside {
        edits: seed % EDITED == 0,
        upkeep: seed % KEPT_UP == 1,
    };
    let first = first_number(seed);
    if is_near_the_end(seed) {
        script.extend_from_slice(AGAIN)?;
    }
    fill(&mut chance, BEGINNING, &NOWHERE, script)?;
    for _ in 0..PARTS {
        printed.clear();
        replay_from(alloc, first, script.as_slice(), printed);
        for _ in 0..EVENTS {
            add_event(&mut chance, beside, script, printed)?;
        }
    }
    printed.clear();
    Ok(replay_from(alloc, first, script.as_slice(), printed))
}

/// Adds an event to a list, of which this was printed.
fn add_event(
    chance: &mut Chance,
    beside: Beside,
    script: &mut Vec<u8>,
    printed: &[u8],
) -> Result<(), AllocError> {
    let rows = table(chance, beside);
    let mut halves = chance.part(rows, b'\n').splitn(2, |b| *b == b'|');
    let pattern = halves.next().unwrap_or(b"");
    let text = if pattern.starts_with(b"client") {
        script.as_slice()
    } else {
        printed
    };
    let source = drawn_source(chance, text, pattern);
    fill(chance, halves.next().unwrap_or(b""), &source, script)?;
    script.extend_from_slice(b"\n")
}

fn table(chance: &mut Chance, beside: Beside) -> &'static [u8] {
    if beside.edits && chance.below(12) == 0 {
        return EDITS;
    }
    if beside.upkeep && chance.below(9) == 0 {
        return UPKEEP;
    }
    match TABLES.get(chance.below(TABLES.len())) {
        Some(b'r') => REQUESTS,
        Some(b'a') => REPLIES,
        Some(b'q') => QUESTIONS,
        Some(b'c') => CHANGES,
        _ => ODDITIES,
    }
}

/// Writes lines with their places filled.
fn fill(
    chance: &mut Chance,
    lines: &[u8],
    source: &SourceText,
    out: &mut Vec<u8>,
) -> Result<(), AllocError> {
    let mut is_place = false;
    for byte in lines {
        if is_place {
            fill_place(chance, *byte, source, out)?;
        } else if *byte != b'$' {
            out.push(*byte)?;
        }
        is_place = !is_place && *byte == b'$';
    }
    Ok(())
}

fn fill_place(
    chance: &mut Chance,
    place: u8,
    source: &SourceText,
    out: &mut Vec<u8>,
) -> Result<(), AllocError> {
    let digits = decimal(source);
    out.extend_from_slice(match place {
        b'd' => &source[1..2],
        b't' => &source[11..15],
        b'k' => &source[15..19],
        b'p' => &source[19..27],
        b'q' => &source[27..35],
        b'Q' => &digits,
        _ => chance.part(words(place), b' '),
    })
}

/// The second parameter's last byte in decimal.
fn decimal(source: &SourceText) -> [u8; 3] {
    let number = digit(source[33]) * 16 + digit(source[34]);
    [
        b'0' + number / 100,
        b'0' + number / 10 % 10,
        b'0' + number % 10,
    ]
}

/// The number that a hexadecimal digit is.
fn digit(byte: u8) -> u8
    ensures { result < 16 }
{
    match byte {
        b'0'..=b'9' => byte - b'0',
        b'a'..=b'f' => byte - b'a' + 10,
        _ => 0,
    }
}
