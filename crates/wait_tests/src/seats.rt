//! Which writers a turn wakes, and what a writer has before its end.
use crate::calls::Call;
use crate::links::Piece;
use crate::messages::{ECHO, TOO_OLD};
use crate::movers::Mover;
use crate::signs::END;
use crate::steps::Step;
use crate::story::{ENDED, First, LAST, STOPPED, Served, Story, tells};
use gateway_core::Dest;
use session_worker::CoreEnd;
use std::test::Fail;

/// Two clients that say nothing.
pub(crate) const SILENT: Served = Served {
    dest: Dest::Session(1),
    says: &[],
    reads: &[(0, LAST)],
    writes: &[],
};

pub(crate) const OTHER_SILENT: Served = Served {
    dest: Dest::Session(2),
    says: &[],
    reads: &[(0, LAST)],
    writes: &[],
};

// Two that say nothing, whom the core's first turn brings what they get at their beginning.
fn greeted(one: Dest, other: Dest, steps: &'static [Step]) -> Story {
    Story {
        first: First::One,
        one: Served {
            dest: one,
            ..SILENT
        },
        other: Served {
            dest: other,
            ..SILENT
        },
        third: &[],
        mover: Mover::Core,
        steps,
        ends: (STOPPED, STOPPED, Some(CoreEnd::Closed)),
    }
}

/// A client gets 16 bytes, a server 64.
const CLIENTS: &[Step] = &[Step::Rest, Step::Begin, Step::At(16, 16)];

const SERVERS: &[Step] = &[Step::Rest, Step::Begin, Step::At(64, 64)];

/// Seats at the ends of a word of 64, the first and the last of clients and of servers, and two that are one.
const PAIRS: [(Dest, Dest, &[Step]); 4] = [
    (Dest::Session(1_024), Dest::Session(63), CLIENTS),
    (Dest::Session(64), Dest::Session(1_023), CLIENTS),
    (Dest::Upstream(64), Dest::Upstream(1_023), SERVERS),
    (Dest::Session(7), Dest::Session(1_031), CLIENTS),
];

/// The core's first turn wakes each writer for whom it has messages, wherever its seat is noted: the first seat, the last
/// of a word of 64 and the first of the next, the last of clients and those of servers. Of those that share a seat it
/// wakes both.
#[test]
fn each_seat_is_woken(rt: HostRuntime) -> Result<(), Fail> {
    for (one, other, steps) in PAIRS {
        tells(&rt, rt.alloc(), greeted(one, other, steps))?;
    }
    Ok(())
}

/// Two clients say something in turn; then the other must end, the first says more, and is lost at the desk.
const IN_TURN: Story = Story {
    first: First::One,
    one: Served {
        dest: Dest::Session(1),
        says: &[Piece(2, 1, ECHO)],
        reads: &[(0, 1), (1, 4), (2, LAST)],
        writes: &[],
    },
    other: Served {
        dest: Dest::Session(2),
        says: &[Piece(1, 1, ECHO), Piece(1, 1, TOO_OLD)],
        reads: &[(0, 2), (1, 3), (2, LAST)],
        writes: &[],
    },
    third: &[],
    mover: Mover::Core,
    steps: &[
        Step::Begin,
        Step::At(16, 16),
        Step::Go,
        Step::At(32, 16),
        Step::Go,
        Step::At(32, 32),
        Step::Go,
        Step::At(32, 32 + END),
        Step::Go,
        Step::At(48, 32 + END),
        Step::Do(Call::Lose(1)),
        Step::At(48 + END, 32 + END),
    ],
    ends: (ENDED, ENDED, Some(CoreEnd::Closed)),
};

/// The writer whose message came goes on, and another waits on, also where one must end or is lost.
#[test]
fn only_the_writer_whose_message_came_goes_on(rt: HostRuntime) -> Result<(), Fail> {
    tells(&rt, rt.alloc(), IN_TURN)
}

/// All of a client that must end is performed before it is written anything.
const WRITTEN_LATE: Story = Story {
    first: First::One,
    one: Served {
        dest: Dest::Session(1),
        says: &[Piece(6, 100, ECHO), Piece(1, 1, TOO_OLD)],
        reads: &[(7, LAST)],
        writes: &[(0, 1)],
    },
    other: OTHER_SILENT,
    third: &[],
    mover: Mover::Core,
    steps: &[
        Step::Rest,
        Step::Begin,
        Step::Come(601, 0),
        Step::Go,
        Step::At(16 * 601 + END, 16),
    ],
    ends: (ENDED, STOPPED, Some(CoreEnd::Closed)),
};

/// What found no place in a client's ring waits until its writer took what is there: then the core goes on. So a client
/// that must end has all that it was given, the greeting and its answers, before its writer is told the end.
#[test]
fn a_writer_has_all_before_the_end(rt: HostRuntime) -> Result<(), Fail> {
    tells(&rt, rt.alloc(), WRITTEN_LATE)
}
