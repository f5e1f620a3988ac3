//! The core, or who waits in its place.
use crate::signs::Signs;
use gate_board::Gate;
use session_worker::{CoreEnd, serve_core};
use std::alloc::Global;
use std::rt::Clock;
use std::sync::Wait;

#[derive(Clone, Copy)]
pub(crate) enum Mover {
    Core,
    /// Who pauses, so many times, and then where there were changes already.
    Pauses(u64),
    /// Who waits for so many searches that have no answer.
    Awaits(u64),
}

impl Mover {
    /// Does its work, from when it is told to begin. It answers how a core ended.
    pub(crate) fn work<R: Wait + Clock>(
        self,
        rt: &R,
        alloc: Global,
        gate: &Gate,
        signs: &Signs,
    ) -> Option<CoreEnd> {
        let has_begun = signs.core.comes_to(rt, 1);
        let end = match self {
            Mover::Core => Some(move_all(rt, gate, signs)),
            Mover::Pauses(times) => pause(rt, gate, signs, times),
            Mover::Awaits(times) => wait_for_searches(rt, alloc, gate, signs, times),
        };
        signs.core.add(1);
        if has_begun { end } else { None }
    }
}

fn move_all<R: Wait>(rt: &R, gate: &Gate, signs: &Signs) -> CoreEnd {
    signs.core.add(1);
    serve_core(rt, gate)
}

fn pause<R: Wait>(rt: &R, gate: &Gate, signs: &Signs, times: u64) -> Option<CoreEnd> {
    let start = gate.pause(rt, u64::MAX);
    signs.core.add(1);
    let mut seen = start;
    for _ in 0..times {
        seen = gate.pause(rt, seen);
        signs.backs.add(1);
    }
    gate.pause(rt, start);
    None
}

fn wait_for_searches<R: Wait>(
    rt: &R,
    alloc: Global,
    gate: &Gate,
    signs: &Signs,
    times: u64,
) -> Option<CoreEnd> {
    signs.core.add(1);
    for seen in 0..times {
        match gate.next_unanswered(rt, alloc, seen) {
            Some(_) => signs.backs.add(1),
            None => return None,
        }
    }
    None
}
