//! How long a thread goes on that hands much to the gate.
use crate::machine::System;
use std::thread;
use std::time::Duration;

/// How many microseconds it works before it rests.
const WORK: u64 = 1_000;

/// How many microseconds it rests, so that others get at the gate.
const REST: u64 = 100;

/// When a thread rested last, in microseconds of the system's clock.
#[derive(Drop)]
pub struct Pace {
    rested: u64,
}

impl Pace {
    /// It begins to work.
    pub fn begin<R: System>(rt: R) -> Pace {
        Pace {
            rested: microseconds(rt),
        }
    }

    /// A part was handed to the gate. Rests where the last rest was so long ago; a part that takes longer has a rest of its own.
    pub fn rest<R: System>(&mut self, rt: R) {
        let now = microseconds(rt);
        if now == 0 || now.saturating_sub(self.rested) >= WORK {
            thread::sleep(&rt, Duration::from_micros(REST));
            self.rested = microseconds(rt);
        }
    }
}

// 0 where the clock can't be read: then each part has a rest.
fn microseconds<R: System>(rt: R) -> u64 {
    match rt.monotonic() {
        Ok(time) => u64::try_from(time.as_micros()).unwrap_or(u64::MAX),
        Err(_) => 0,
    }
}
