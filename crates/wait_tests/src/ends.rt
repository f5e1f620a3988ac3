//! All that wait at a gate that stops.
use crate::calls::{Call, THIRD};
use crate::links::Piece;
use crate::messages::{CREATE, ECHO, SERVES_AT_THE_END};
use crate::movers::Mover;
use crate::signs::END;
use crate::steps::Step;
use crate::story::{First, LAST, STOPPED, Served, Story, TOLD, tells};
use gateway_core::Dest;
use session_worker::CoreEnd;
use std::test::Fail;

// A reader that has more to say than its ring has places, which nobody empties, as the board's ends are taken off; its
// writer, and a server's that has T1; and the core.
fn stopped(steps: &'static [Step], core: CoreEnd) -> Story {
    Story {
        first: First::LastButOne,
        one: Served {
            dest: Dest::Session(1),
            says: &[Piece(6, 100, ECHO)],
            reads: &[],
            writes: &[],
        },
        other: Served {
            dest: Dest::Upstream(1),
            says: SERVES_AT_THE_END,
            reads: &[(3, LAST)],
            writes: &[],
        },
        third: &[Piece(1, 2, CREATE)],
        mover: Mover::Core,
        steps,
        ends: (TOLD, STOPPED, Some(core)),
    }
}

/// How many bytes the server is written by a core: the gateway's version and names, and that T1 is wanted.
const TO_SERVER: u64 = 88;

/// The gate is closed while all sleep, a core too, or without one, which begins once the workers ended.
const CLOSED: &[Step] = &[
    Step::Do(Call::Retire(Dest::Session(1))),
    Step::Do(Call::Search(b"T1")),
    Step::Do(Call::Find(b"T1")),
    Step::Begin,
    Step::At(0, TO_SERVER),
    Step::Sleep,
    Step::Do(Call::Close),
    Step::At(END + END, TO_SERVER + END),
    Step::Ended,
];

const CLOSED_ALONE: &[Step] = &[
    Step::Do(Call::Retire(Dest::Session(1))),
    Step::Rest,
    Step::Sleep,
    Step::Do(Call::Close),
    Step::At(END + END, END),
    Step::Begin,
    Step::Ended,
];

/// A gate that is closed ends all that wait, and until then they sleep; the workers also where no core tells them.
#[test]
fn a_closed_gate_ends_all_that_wait(rt: HostRuntime) -> Result<(), Fail> {
    for steps in [CLOSED, CLOSED_ALONE] {
        tells(&rt, rt.alloc(), stopped(steps, CoreEnd::Closed))?;
    }
    Ok(())
}

/// A second name is found, for which there is no number.
const FAILED: &[Step] = &[
    Step::Do(Call::Retire(Dest::Session(1))),
    Step::Do(Call::Search(b"T1")),
    Step::Do(Call::Find(b"T1")),
    Step::Do(Call::Search(b"T2")),
    Step::Begin,
    Step::At(0, TO_SERVER),
    Step::Sleep,
    Step::Do(Call::FailToFind(b"T2")),
    Step::At(END + END, TO_SERVER + END),
    Step::Ended,
];

const FAILED_ALONE: &[Step] = &[
    Step::Do(Call::Retire(Dest::Session(1))),
    Step::Do(Call::Search(b"T1")),
    Step::Do(Call::Find(b"T1")),
    Step::Do(Call::Search(b"T2")),
    Step::Rest,
    Step::Sleep,
    Step::Do(Call::FailToFind(b"T2")),
    Step::At(END + END, END),
    Step::Begin,
    Step::Ended,
];

/// So does one that fails at the desk, for want of numbers.
#[test]
fn a_gate_that_fails_at_the_desk_ends_all(rt: HostRuntime) -> Result<(), Fail> {
    for steps in [FAILED, FAILED_ALONE] {
        tells(&rt, rt.alloc(), stopped(steps, CoreEnd::GateFailed))?;
    }
    Ok(())
}

/// A client opens a second channel, for which there is no number.
const FAILED_IN_A_BATCH: &[Step] = &[
    Step::Do(Call::Retire(Dest::Session(1))),
    Step::Do(Call::Open(THIRD)),
    Step::Do(Call::Search(b"T1")),
    Step::Do(Call::Find(b"T1")),
    Step::Begin,
    Step::At(0, TO_SERVER),
    Step::Sleep,
    Step::Say,
    Step::At(END + END, TO_SERVER + END),
    Step::Ended,
];

/// So does one that fails in a batch of the core, at a client's second channel.
#[test]
fn a_gate_that_fails_in_a_batch_ends_all(rt: HostRuntime) -> Result<(), Fail> {
    tells(
        &rt,
        rt.alloc(),
        stopped(FAILED_IN_A_BATCH, CoreEnd::GateFailed),
    )
}
