//! The core, and each call after which it goes on; readers beside one that is held.
use crate::calls::{Call, THIRD};
use crate::links::Piece;
use crate::messages::{CREATE, ECHO, SERVES, WRITE};
use crate::movers::Mover;
use crate::seats::OTHER_SILENT;
use crate::signs::END;
use crate::steps::Step;
use crate::story::{ENDED, First, LAST, STOPPED, Served, Story, tells};
use gateway_core::Dest;
use session_worker::CoreEnd;
use std::test::Fail;

/// Once so many messages are performed a client is soon held: half of what an outbox holds, and what a ring does.
const SOON_HELD: u64 = 8_400;

/// How many bytes a server is written that was asked for T1 and given 10,000 writes: 88, and 24 for each.
const TO_SERVER: u64 = 88 + 24 * 10_000;

/// Each call while the core sleeps: a client comes whose rings are there, an item is put and the gate woken, the first
/// client's reader reads more than its ring has places, and then the end, and rings come for a server that is there.
const CALLS: Story = Story {
    first: First::One,
    one: Served {
        dest: Dest::Session(1),
        says: &[Piece(1, 1, ECHO), Piece(1, 300, ECHO)],
        reads: &[(0, 1), (1, 2), (2, 3)],
        writes: &[],
    },
    other: OTHER_SILENT,
    third: &[],
    mover: Mover::Core,
    steps: &[
        Step::Begin,
        Step::Come(0, 2),
        Step::Do(Call::Open(THIRD)),
        Step::Come(0, 3),
        Step::Do(Call::Offer),
        Step::Do(Call::Wake),
        Step::Come(1, 4),
        Step::Go,
        Step::Come(2, 5),
        Step::Go,
        Step::Come(302, 305),
        Step::Sleep,
        Step::Go,
        Step::At(16 * 302 + END + END, 16),
        Step::Do(Call::Open(Dest::Upstream(1))),
        Step::Rest,
        Step::Do(Call::Attach(Dest::Upstream(1))),
        Step::Come(302, 308),
    ],
    ends: (ENDED, STOPPED, Some(CoreEnd::Closed)),
};

/// The core sleeps while there is nothing to do, and goes on after each call that gives it something.
#[test]
fn the_core_goes_on_after_each_call(rt: HostRuntime) -> Result<(), Fail> {
    tells(&rt, rt.alloc(), CALLS)
}

/// A message comes in two pieces, and then the end, while nobody moves the board.
const IN_PIECES: Story = Story {
    first: First::One,
    one: Served {
        dest: Dest::Session(1),
        says: &[
            Piece(1, 1, b"\x00\x17\0\0\0\0\0\0"),
            Piece(1, 1, b"\0\0\0\x01\0\0\0\0"),
        ],
        reads: &[(0, 1), (1, 2), (2, 3)],
        writes: &[],
    },
    other: OTHER_SILENT,
    third: &[],
    mover: Mover::Core,
    steps: &[
        Step::Rest,
        Step::Do(Call::Turn),
        Step::At(16, 16),
        Step::Count,
        Step::Go,
        Step::Wakes(1),
        Step::Go,
        Step::Wakes(2),
        Step::Go,
        Step::At(16 + END, 16),
        Step::Wakes(4),
    ],
    ends: (STOPPED, STOPPED, Some(CoreEnd::Closed)),
};

/// A reader wakes the gate after each piece, before it hands over the end and after that.
#[test]
fn a_reader_wakes_after_each_piece_and_the_end(rt: HostRuntime) -> Result<(), Fail> {
    tells(&rt, rt.alloc(), IN_PIECES)
}

/// A client writes faster than its server reads, until its ring stays full. Meanwhile a third says more than two rings
/// have places. Then the server is written to.
const FLOODED: Story = Story {
    first: First::One,
    one: Served {
        dest: Dest::Session(1),
        says: &[Piece(1, 1, CREATE), Piece(50, 200, WRITE)],
        reads: &[(0, 1)],
        writes: &[],
    },
    other: Served {
        dest: Dest::Upstream(1),
        says: SERVES,
        reads: &[(3, LAST)],
        writes: &[(0, 2)],
    },
    third: &[],
    mover: Mover::Core,
    steps: &[
        Step::Do(Call::Open(THIRD)),
        Step::Do(Call::Search(b"T1")),
        Step::Do(Call::Find(b"T1")),
        Step::Begin,
        Step::Come(3, 6),
        Step::Go,
        Step::Come(SOON_HELD, 0),
        Step::Do(Call::Put(600)),
        Step::Below(10_004 + 600),
        Step::Go,
        Step::At(16 + 32 + END + END, TO_SERVER),
    ],
    ends: (ENDED, STOPPED, Some(CoreEnd::Closed)),
};

/// A client's reader waits only until room was made for it, beside a client that is held. Once the server's messages are
/// taken that one goes on to its end.
#[test]
fn a_reader_goes_on_beside_one_that_is_held(rt: HostRuntime) -> Result<(), Fail> {
    tells(&rt, rt.alloc(), FLOODED)
}

/// A client that is held says a little more, for which its ring has places, and then comes its end.
const HELD: Story = Story {
    first: First::One,
    one: Served {
        dest: Dest::Session(1),
        says: &[
            Piece(1, 1, CREATE),
            Piece(43, 200, WRITE),
            Piece(1, 50, WRITE),
        ],
        reads: &[(0, 1), (44, 2), (45, 3)],
        writes: &[],
    },
    other: Served {
        dest: Dest::Upstream(1),
        says: SERVES,
        reads: &[(3, LAST)],
        writes: &[(0, LAST)],
    },
    third: &[],
    mover: Mover::Core,
    steps: &[
        Step::Do(Call::Search(b"T1")),
        Step::Do(Call::Find(b"T1")),
        Step::Begin,
        Step::Come(3, 5),
        Step::Go,
        Step::Come(SOON_HELD, 0),
        Step::Rest,
        Step::Go,
        Step::Below(4 + 8_650),
        Step::Go,
        Step::At(16 + 32 + END + END, 0),
        Step::Come(4 + 8_650, 0),
    ],
    ends: (ENDED, STOPPED, Some(CoreEnd::Closed)),
};

/// Its end is heard though its server doesn't read, and all that it said before.
#[test]
fn the_end_of_one_that_is_held_is_heard(rt: HostRuntime) -> Result<(), Fail> {
    tells(&rt, rt.alloc(), HELD)
}
