//! Patterns that take much time or memory to make ready.

use pvlist::{Rules, Syntax};
use regex::RegexBuilder;
use std::time::{CpuClock, Duration};

/// A pattern that takes more milliseconds of a processor is noted.
const MOST_TIME: u64 = 5;

/// So is one whose tables have more bytes. What it takes in all is some three times as much, 1 MiB.
const MOST_BYTES: usize = 360 * 1_024;

/// The number of the first line of a rule file whose pattern takes more than 5 ms or 1 MiB to make ready.
pub fn first_heavy(rt: &HostRuntime, text: &str, syntax: Syntax) -> Option<usize> {
    let mut number = 0usize;
    for line in text.lines() {
        number = number.saturating_add(1);
        if is_heavy(rt, line, syntax) {
            return Some(number);
        }
    }
    None
}

fn is_heavy(rt: &HostRuntime, line: &str, syntax: Syntax) -> bool {
    let began = rt.thread_cpu_time();
    let Ok(rules) = Rules::read_as(rt.alloc(), line, syntax) else {
        return false;
    };
    let ended = rt.thread_cpu_time();
    let Some(row) = rules.rows().first() else {
        return false;
    };
    let is_slow = match (began, ended) {
        (Ok(began), Ok(ended)) => ended.saturating_sub(began) > Duration::from_millis(MOST_TIME),
        _ => false,
    };
    is_slow || is_large(rt, row.pattern.regex().as_str())
}

fn is_large(rt: &HostRuntime, pattern: &str) -> bool {
    RegexBuilder::new(pattern)
        .size_limit(MOST_BYTES)
        .build(rt.alloc())
        .is_err()
}
