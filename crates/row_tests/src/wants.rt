//! Tallies that readers join and leave.
use mask_merge::{Ask, Tally, Want};
use std::alloc::Global;
use std::process::Abort;
use std::test::Fail;

/// Those who come and those who go again, by mask and count, and what all the others want.
type Case<'a> = (&'a [(u16, u32)], &'a [(u16, u32)], Option<(u16, u32)>);

fn tells(rt: &impl Abort, alloc: Global, cases: &[Case]) -> Result<(), Fail> {
    for (come, go, merged) in cases {
        assert_eq!(rt;
            wanted(alloc, come, go)?,
            *merged,
            "of {come:?} without {go:?}"
        );
    }
    Ok(())
}

fn wanted(
    alloc: Global,
    come: &[(u16, u32)],
    go: &[(u16, u32)],
) -> Result<Option<(u16, u32)>, Fail> {
    let mut tally = Tally::new(alloc);
    join(&mut tally, come)?;
    for (mask, count) in go {
        tally.remove(*mask, *count, false);
    }
    Ok(tally.want().map(|want| (want.mask, want.count)))
}

fn join(tally: &mut Tally, come: &[(u16, u32)]) -> Result<(), Fail> {
    for (mask, count) in come {
        tally.add(*mask, *count, false)?;
    }
    Ok(())
}

#[test]
fn readers_are_merged(rt: HostRuntime) -> Result<(), Fail> {
    let cases: [Case; 8] = [
        (&[], &[], None),
        (&[(1, 3), (4, 10)], &[], Some((5, 10))),
        (&[(4, 10), (1, 3)], &[], Some((5, 10))),
        (&[(1, 7), (1, 7)], &[], Some((5, 7))),
        (&[(2, 1), (2, 0)], &[], Some((7, 1))),
        (&[(8, 0), (0xfff8, 0)], &[], Some((5, 0))),
        (
            &[(0xffff, 4_294_967_295), (0, 1)],
            &[],
            Some((7, 4_294_967_295)),
        ),
        // The example at the head of the crate.
        (&[(1, 3), (4, 10)], &[(4, 10)], Some((5, 3))),
    ];
    tells(&rt, rt.alloc(), &cases)
}

#[test]
fn what_a_reader_wanted_leaves_with_it(rt: HostRuntime) -> Result<(), Fail> {
    let readers = [(1, 3), (2, 10), (2, 10), (4, 3)].as_slice();
    let cases: [Case; 4] = [
        (readers, &[(2, 10)], Some((7, 10))),
        (readers, &[(2, 10), (2, 11)], Some((7, 10))),
        (readers, &[(2, 10), (2, 11), (2, 10)], Some((5, 3))),
        (readers, &[(2, 10), (2, 10), (1, 3), (4, 3)], None),
    ];
    tells(&rt, rt.alloc(), &cases)
}

#[test]
fn counts_come_and_go_in_any_order(rt: HostRuntime) -> Result<(), Fail> {
    let readers = [(1, 5), (1, 1), (1, 9), (1, 3), (1, 7), (1, 3)].as_slice();
    let cases: [Case; 7] = [
        (readers, &[], Some((5, 9))),
        (readers, &[(1, 9)], Some((5, 7))),
        (readers, &[(1, 3), (1, 9), (1, 1), (1, 7)], Some((5, 5))),
        (readers, &[(1, 5), (1, 7), (1, 9)], Some((5, 3))),
        (readers, &[(1, 9), (1, 3), (1, 7), (1, 5)], Some((5, 3))),
        (
            readers,
            &[(1, 3), (1, 7), (1, 3), (1, 5), (1, 9)],
            Some((5, 1)),
        ),
        (
            readers,
            &[(1, 1), (1, 3), (1, 5), (1, 3), (1, 9), (1, 7)],
            None,
        ),
    ];
    tells(&rt, rt.alloc(), &cases)
}

#[test]
fn what_is_not_counted_is_not_taken_away(rt: HostRuntime) -> Result<(), Fail> {
    let mut tally = Tally::new(rt.alloc());
    let other = Some(Ask {
        want: Want { mask: 2, count: 9 },
        props: true,
        texts: false,
    });
    tally.remove_silent();
    tally.exchange(None, other);
    tally.exchange(other, None);
    assert!(rt; tally.is_empty());
    tally.add(1, 3, false)?;
    tally.remove_silent();
    tally.exchange(None, other);
    tally.exchange(other, None);
    tally.remove(2, 3, false);
    tally.remove(1, 3, true);
    tally.remove(1, 4, false);
    assert_eq!(rt; tally.want(), Some(Want { mask: 5, count: 3 }));
    assert!(rt; !tally.props());
    tally.remove(1, 3, false);
    assert!(rt; tally.is_empty());
    Ok(())
}

#[test]
fn a_reader_that_may_not_read_wants_nothing(rt: HostRuntime) -> Result<(), Fail> {
    let mut tally = Tally::new(rt.alloc());
    let ask = Some(Ask {
        want: Want { mask: 2, count: 9 },
        props: true,
        texts: false,
    });
    tally.add_silent()?;
    tally.add(1, 3, false)?;
    assert_eq!(rt; tally.want(), Some(Want { mask: 5, count: 3 }));
    tally.exchange(None, ask);
    assert_eq!(rt; tally.want(), Some(Want { mask: 7, count: 9 }));
    assert!(rt; tally.props());
    tally.exchange(ask, None);
    assert_eq!(rt; tally.want(), Some(Want { mask: 5, count: 3 }));
    assert!(rt; !tally.props());
    tally.remove(1, 3, false);
    assert_eq!(rt; tally.want(), None);
    assert!(rt; !tally.is_empty());
    tally.remove_silent();
    assert!(rt; tally.is_empty());
    Ok(())
}

#[test]
fn a_count_of_0_stands_for_the_native_count(rt: HostRuntime) -> Result<(), Fail> {
    let mut tally = Tally::new(rt.alloc());
    tally.add(1, 3, false)?;
    assert_eq!(rt; tally.want_of(8), Some(Want { mask: 5, count: 3 }));
    tally.add(1, 0, false)?;
    assert_eq!(rt; tally.want_of(8), Some(Want { mask: 5, count: 8 }));
    assert_eq!(rt; tally.want_of(2), Some(Want { mask: 5, count: 3 }));
    Ok(())
}

#[test]
fn properties_are_wanted_while_a_reader_asks_for_them(rt: HostRuntime) -> Result<(), Fail> {
    let mut tally = Tally::new(rt.alloc());
    assert!(rt; !tally.props());
    tally.add(1, 3, false)?;
    assert!(rt; !tally.props());
    tally.add(4, 10, true)?;
    tally.add(4, 10, true)?;
    assert_eq!(rt; tally.want(), Some(Want { mask: 5, count: 10 }));
    assert!(rt; tally.props());
    tally.remove(4, 10, true);
    assert!(rt; tally.props());
    tally.remove(4, 10, true);
    assert!(rt; !tally.props());
    assert_eq!(rt; tally.want(), Some(Want { mask: 5, count: 3 }));
    Ok(())
}

#[test]
fn a_reader_leaves_as_it_came(rt: HostRuntime) -> Result<(), Fail> {
    let mut tally = Tally::new(rt.alloc());
    tally.add(8, 1, true)?;
    tally.remove(8, 1, false);
    assert_eq!(rt; tally.want(), Some(Want { mask: 5, count: 1 }));
    assert!(rt; tally.props());
    tally.remove(8, 1, true);
    assert_eq!(rt; tally.want(), None);
    assert!(rt; !tally.props());
    assert!(rt; tally.is_empty());
    Ok(())
}

#[test]
fn texts_take_the_properties_of_states(rt: HostRuntime) -> Result<(), Fail> {
    let texts = Ask {
        want: Want { mask: 1, count: 0 },
        props: false,
        texts: true,
    };
    let mut tally = Tally::new(rt.alloc());
    tally.add_ask(texts)?;
    assert!(rt; !tally.props());
    assert!(rt; !tally.props_of(false));
    assert!(rt; tally.props_of(true));
    tally.add(1, 0, true)?;
    assert!(rt; tally.props_of(false));
    assert!(rt; tally.props_of(true));
    tally.remove(1, 0, true);
    assert!(rt; !tally.props_of(false));
    assert!(rt; tally.props_of(true));
    tally.remove_ask(texts);
    assert!(rt; !tally.props_of(true));
    assert!(rt; tally.is_empty());
    Ok(())
}
