//! How far others come, and whether they sleep.
use gate_board::Gate;
use std::rt::Clock;
use std::sync::Wait;
use std::sync::atomic::{AtomicU64, Ordering};
use std::thread;
use std::time::{CpuClock, Duration};

/// How often it is looked how far others came, and how long it is slept between two looks.
const LOOKS: u32 = 10_000;

const PAUSE_MILLIS: u64 = 1;

/// How long others get to fall asleep.
const REST_MILLIS: u64 = 20;

/// How long it is looked whether they sleep, and how much of a processor they take meanwhile at most.
const LOOK_MILLIS: u64 = 200;

const MOST_MILLIS: u64 = 30;

/// What the end of a worker adds to its connection's count.
pub(crate) const END: u64 = 1 << 32;

/// A count that threads share.
#[derive(Drop)]
pub(crate) struct Count {
    shared: AtomicU64,
}

impl Count {
    pub(crate) fn new() -> Count {
        Count {
            shared: AtomicU64::new(0),
        }
    }

    pub(crate) fn now(&self) -> u64 {
        self.shared.load(Ordering::SeqCst)
    }

    pub(crate) fn add(&self, more: u64) {
        self.shared.fetch_add(more, Ordering::SeqCst);
    }

    /// Waits until it is so much. False where it never came to that.
    pub(crate) fn comes_to<R: Clock>(&self, rt: &R, wanted: u64) -> bool {
        for _ in 0..LOOKS {
            if self.now() >= wanted {
                return true;
            }
            thread::sleep(rt, Duration::from_millis(PAUSE_MILLIS));
        }
        false
    }

    /// Whether it comes to so much, and stays there.
    pub(crate) fn stays_at<R: Clock>(&self, rt: &R, wanted: u64) -> bool {
        let came = self.comes_to(rt, wanted);
        rest(rt);
        came && self.now() == wanted
    }
}

/// What is counted: the steps that links wait for; 1 once the core is to begin, or who stands in its place, 2 once it did,
/// and 3 once it ended; how often who stands there came back; and of each connection how many bytes were written to it,
/// and `END` for each of its workers that ended.
#[derive(Drop)]
pub(crate) struct Signs {
    pub(crate) steps: Count,
    pub(crate) core: Count,
    pub(crate) backs: Count,
    pub(crate) one: Count,
    pub(crate) other: Count,
    pub(crate) third: Count,
}

impl Signs {
    pub(crate) fn new() -> Signs {
        Signs {
            steps: Count::new(),
            core: Count::new(),
            backs: Count::new(),
            one: Count::new(),
            other: Count::new(),
            third: Count::new(),
        }
    }
}

/// Gives others the time to fall asleep.
pub(crate) fn rest<R: Clock>(rt: &R) {
    thread::sleep(rt, Duration::from_millis(REST_MILLIS));
}

/// Whether all threads sleep: for a while they take next to no time of a processor.
pub(crate) fn all_sleep<R: Clock + CpuClock>(rt: &R) -> bool {
    let began = rt.process_cpu_time();
    thread::sleep(rt, Duration::from_millis(LOOK_MILLIS));
    match (began, rt.process_cpu_time()) {
        (Ok(began), Ok(ended)) => {
            ended.saturating_sub(began) < Duration::from_millis(MOST_MILLIS)
        }
        _ => false,
    }
}

/// Whether so many messages come to be performed at least, and so many to be handed on; then it rests.
pub(crate) fn come<R: Wait + Clock>(rt: &R, gate: &Gate, received: u64, sent: u64) -> bool {
    for _ in 0..LOOKS {
        let traffic = gate.traffic(rt);
        if traffic.received >= received && traffic.sent >= sent {
            rest(rt);
            return true;
        }
        thread::sleep(rt, Duration::from_millis(PAUSE_MILLIS));
    }
    false
}

/// Whether fewer messages are performed, also after a rest.
pub(crate) fn is_still_below<R: Wait + Clock>(rt: &R, gate: &Gate, received: u64) -> bool {
    rest(rt);
    gate.traffic(rt).received < received
}

/// The count of wakes.
pub(crate) fn wakes_of<R: Wait>(rt: &R, gate: &Gate) -> u64 {
    gate.pause(rt, u64::MAX)
}

/// Whether the count of wakes comes to so many more, and stays there.
pub(crate) fn comes_by<R: Wait + Clock>(rt: &R, gate: &Gate, start: u64, more: u64) -> bool {
    for _ in 0..LOOKS {
        if wakes_of(rt, gate).wrapping_sub(start) >= more {
            rest(rt);
            return wakes_of(rt, gate).wrapping_sub(start) == more;
        }
        thread::sleep(rt, Duration::from_millis(PAUSE_MILLIS));
    }
    false
}
