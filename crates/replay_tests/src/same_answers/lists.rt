//! The lists, and what they have to come to.
use crate::same_answers::author::{count, draw, first_number, is_near_the_end};
use replay::{replay_plain_from, status};
use std::alloc::{AllocError, Global};
use std::process::Abort;
use std::str;
use std::test::Fail;

/// So many lists are compared by a test.
const LISTS: u64 = 250;

/// So many kinds of lines are counted.
const KINDS: usize = 32;

/// The beginnings of lines that have to be printed, and how often at least by the lists of a
/// test: some half of what was seen.
const LEAST: [(&[u8], usize); KINDS] = [
    (b"s? 00010008", 500),
    (b"s? 00010010", 90),
    (b"s? 00010000", 200),
    (b"s? 000f00", 1500),
    (b"s? 000f0000", 800),
    (b"s? 0013", 400),
    (b"s? 0016", 1400),
    (b"s? 0012", 1000),
    (b"s? 001a", 1200),
    (b"s? 001b", 350),
    (b"s? 000c", 80),
    (b"s? 000b", 4000),
    (b"u? 0001", 1000),
    (b"u? 0002", 600),
    (b"u? 0004", 130),
    (b"u? 0013", 400),
    (b"u? 000c", 600),
    (b"u? 0017", 20),
    (b"shut", 70),
    (b"value", 30),
    (b"rights ?", 350),
    (b"sub ? ", 80),
    (b"reply 0", 380),
    // Properties: subscriptions to them, answers and updates of types that tell them, and questions.
    (b"u? 00010010001f", 100),
    (b"u? 000100100021", 130),
    (b"u? 000100100022", 25),
    (b"u? 00020000002", 80),
    (b"s? 000f????001f????00000001", 20),
    (b"s? 000f????002?????00000001", 30),
    (b"s? 0001????001f????00000001", 35),
    (b"s? 0001????002?????00000001", 55),
    (b"props ", 370),
];

/// A list, and what the two gateways print of it.
#[derive(Drop)]
struct List {
    script: Vec<u8>,
    printed: Vec<u8>,
    plain: Vec<u8>,
}

impl List {
    fn new(alloc: Global) -> List {
        List {
            script: Vec::new(alloc),
            printed: Vec::new(alloc),
            plain: Vec::new(alloc),
        }
    }

    /// Draws the list, and says whether both print the same, and end well. Where numbers come again, there may be
    /// too few of them for all rows of a list.
    fn tell(&mut self, alloc: Global, seed: u64) -> Result<bool, AllocError> {
        let ended = draw(alloc, seed, &mut self.script, &mut self.printed)?;
        let first = first_number(seed);
        let plain_ended = replay_plain_from(alloc, first, self.script.as_slice(), &mut self.plain);
        let is_well = ended == status::GOOD || is_near_the_end(seed) && ended == status::FAILED;
        Ok(is_well && ended == plain_ended && self.printed == self.plain)
    }
}

/// Asserts that both gateways print the same of a list, and counts what that is. A list of which they
/// don't is shown, to be given to `pvgate replay` with and without `--plain`.
fn compare(
    rt: &impl Abort,
    alloc: Global,
    seed: u64,
    seen: &mut [usize; KINDS],
) -> Result<(), Fail> {
    let mut list = List::new(alloc);
    let is_same = list.tell(alloc, seed)?;
    assert!(rt; is_same, "list {seed}:\n{}", str::from_utf8(&list.script)?);
    for (sum, (pattern, _)) in seen.iter_mut().zip(LEAST) {
        *sum = sum.saturating_add(count(&list.printed, pattern));
    }
    Ok(())
}

fn is_enough(seen: &[usize; KINDS]) -> bool {
    for (sum, (_, least)) in seen.iter().zip(LEAST) {
        if *sum < least {
            return false;
        }
    }
    true
}

/// Compares the lists of a test, from this seed on, and asserts that they came to something.
fn compare_from(rt: &impl Abort, alloc: Global, first: u64) -> Result<(), Fail> {
    let mut seen = [0; KINDS];
    for place in 0..LISTS {
        compare(rt, alloc, first.saturating_add(place), &mut seen)?;
    }
    assert!(rt; is_enough(&seen), "{seen:?}");
    Ok(())
}

#[test]
fn both_print_the_same_of_lists_from_1(rt: HostRuntime) -> Result<(), Fail> {
    compare_from(&rt, rt.alloc(), 1)
}

#[test]
fn both_print_the_same_of_lists_from_251(rt: HostRuntime) -> Result<(), Fail> {
    compare_from(&rt, rt.alloc(), 251)
}

#[test]
fn both_print_the_same_of_lists_from_501(rt: HostRuntime) -> Result<(), Fail> {
    compare_from(&rt, rt.alloc(), 501)
}

#[test]
fn both_print_the_same_of_lists_from_751(rt: HostRuntime) -> Result<(), Fail> {
    compare_from(&rt, rt.alloc(), 751)
}
