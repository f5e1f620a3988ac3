//! One that pauses, and one that waits for searches, and each change that wakes them.
use crate::calls::{Call, THIRD};
use crate::links::Piece;
use crate::messages::{ECHO, SEARCH};
use crate::movers::Mover;
use crate::seats::{OTHER_SILENT, SILENT};
use crate::steps::Step;
use crate::story::{First, STOPPED, Story, tells};
use gateway_core::Dest;
use std::test::Fail;

/// One change after the other, each once it is seen that the one before was answered, and nothing else.
const CHANGES: Story = Story {
    first: First::One,
    one: SILENT,
    other: OTHER_SILENT,
    third: &[],
    mover: Mover::Pauses(7),
    steps: &[
        Step::Rest,
        Step::Do(Call::Open(THIRD)),
        Step::Do(Call::Turn),
        Step::At(16, 16),
        Step::Begin,
        Step::Backs(0),
        Step::Do(Call::Wake),
        Step::Backs(1),
        Step::Do(Call::Open(Dest::Upstream(1))),
        Step::Backs(2),
        Step::Do(Call::Attach(Dest::Upstream(1))),
        Step::Backs(3),
        Step::Do(Call::Turn),
        Step::Backs(4),
        Step::Do(Call::PutEnd),
        Step::Backs(5),
        Step::Do(Call::Batch),
        Step::Backs(6),
        Step::Do(Call::Close),
        Step::Backs(7),
        Step::Ended,
    ],
    ends: (STOPPED, STOPPED, None),
};

/// Who pauses comes back once for each change, and never before it; and at once where there were changes already.
#[test]
fn a_pause_waits_for_each_change(rt: HostRuntime) -> Result<(), Fail> {
    tells(&rt, rt.alloc(), CHANGES)
}

/// A client says something, and then searches twice for a name that nobody has.
const SEARCHES: Story = Story {
    first: First::One,
    one: SILENT,
    other: OTHER_SILENT,
    third: &[Piece(1, 1, ECHO), Piece(1, 1, SEARCH), Piece(1, 1, SEARCH)],
    mover: Mover::Awaits(3),
    steps: &[
        Step::Do(Call::Answer),
        Step::Do(Call::Open(THIRD)),
        Step::Begin,
        Step::Backs(0),
        Step::Do(Call::Turn),
        Step::Say,
        Step::Do(Call::Turn),
        Step::Backs(0),
        Step::Do(Call::Turn),
        Step::Backs(1),
        Step::Do(Call::Batch),
        Step::Backs(2),
        Step::Do(Call::Close),
        Step::Ended,
        Step::Backs(2),
    ],
    ends: (STOPPED, STOPPED, None),
};

/// Who waits for searches without an answer goes on where one comes, and where the gate is closed.
#[test]
fn who_waits_for_searches_goes_on_at_each(rt: HostRuntime) -> Result<(), Fail> {
    tells(&rt, rt.alloc(), SEARCHES)
}
