//! Many names and servers at once, where some go and others come.
use ask_schedule::{Added, AtOnce, Newcomers, Schedule};
use pv_name::Name;
use server_book::{Address, Heard, MOST_WAITING, MOST_WAITING_FOR_SERVER, ServerBook};
use std::alloc::Global;
use std::process::Abort;
use std::test::Fail;

/// More than any of the first blocks of memory holds.
const MANY: u32 = 1_000;

fn name(alloc: Global, number: u32) -> Result<Name, Fail> {
    let text = format!(in alloc; "N{number}")?;
    Ok(Name::read(alloc, text.as_bytes())?)
}

// Asserts that these are the names of such numbers, in this order.
fn are_named(rt: &impl Abort, alloc: Global, names: &[Name], first: u32) -> Result<(), Fail> {
    let mut number = first;
    for found in names {
        let wanted = name(alloc, number)?;
        assert_eq!(rt; found.text(), wanted.text());
        number = number.saturating_add(1);
    }
    Ok(())
}

fn plan(
    rt: &impl Abort,
    alloc: Global,
    schedule: &mut Schedule,
    first: u32,
    behind: u32,
) -> Result<(), Fail> {
    for number in first..behind {
        assert_eq!(rt; schedule.add(&name(alloc, number)?)?, Added::New);
    }
    Ok(())
}

#[test]
fn many_names_are_planned(rt: HostRuntime) -> Result<(), Fail> {
    let alloc = rt.alloc();
    let mut schedule = Schedule::new(alloc, MANY as usize);
    plan(&rt, alloc, &mut schedule, 0, MANY)?;
    assert_eq!(rt; schedule.add(&name(alloc, MANY)?)?, Added::Full);
    let asked = schedule.due(0, MANY as usize)?;
    assert_eq!(rt; asked.len(), MANY as usize);
    are_named(&rt, alloc, &asked, 0)?;
    for number in 0..900 {
        schedule.remove(&name(alloc, number)?);
    }
    plan(&rt, alloc, &mut schedule, MANY, MANY + 900)?;
    assert_eq!(rt; schedule.add(&name(alloc, 950)?)?, Added::Known);
    let asked = schedule.due(1, 900)?;
    assert_eq!(rt; asked.len(), 900);
    are_named(&rt, alloc, &asked, MANY)?;
    let asked = schedule.due(1, 900)?;
    assert_eq!(rt; asked.len(), 100);
    are_named(&rt, alloc, &asked, 900)
}

#[test]
fn many_newcomers_wait(rt: HostRuntime) -> Result<(), Fail> {
    let alloc = rt.alloc();
    let mut newcomers = Newcomers::new(alloc, 2 * MANY as usize);
    for number in 0..MANY {
        newcomers.add(u128::from(number % 500), name(alloc, number)?)?;
    }
    let welcome = newcomers.take(600)?;
    assert_eq!(rt; welcome.len(), 600);
    are_named(&rt, alloc, &welcome, 0)?;
    for number in MANY..MANY + 100 {
        newcomers.add(u128::from(number), name(alloc, number)?)?;
    }
    assert_eq!(rt; newcomers.len(), 500);
    let welcome = newcomers.take(usize::MAX)?;
    assert_eq!(rt; welcome.len(), 500);
    are_named(&rt, alloc, &welcome, 600)
}

#[test]
fn each_of_many_looks_is_heard_in(rt: HostRuntime) -> Result<(), Fail> {
    let mut at_once = AtOnce::new(rt.alloc());
    for look in 0..100u64 {
        for host in 0..8u32 {
            assert!(rt; at_once.hear(look, u128::from(host))?);
        }
        assert!(rt; !at_once.hear(look, 0)?);
    }
    Ok(())
}

fn address(number: u32) -> Address {
    Address {
        host: u128::from(number),
        port: 5_064,
    }
}

#[test]
fn many_servers_are_known(rt: HostRuntime) -> Result<(), Fail> {
    let alloc = rt.alloc();
    let one = name(alloc, 1)?;
    let mut book = ServerBook::new(alloc, 100, 2)?;
    for number in 1..=100 {
        let heard = if number % 2 == 0 {
            book.heard(address(number), &one, 0)? == Heard::Connect(number)
        } else {
            book.fix(address(number))? == Some(number)
        };
        assert!(rt; heard, "{number}");
    }
    assert_eq!(rt; book.heard(address(101), &one, 0)?, Heard::Full);
    assert_eq!(rt; book.fix(address(101))?, None);
    book.failed(50, 0);
    book.failed(60, 0);
    assert!(rt; book.free(60) && book.free(50));
    assert_eq!(rt; book.fix(address(102))?, Some(50));
    assert_eq!(rt; book.heard(address(103), &one, 0)?, Heard::Connect(60));
    assert_eq!(rt; book.fix(address(103))?, Some(60));
    Ok(())
}

#[test]
fn many_names_wait_for_a_server(rt: HostRuntime) -> Result<(), Fail> {
    let alloc = rt.alloc();
    let most = MOST_WAITING_FOR_SERVER as u32;
    let mut book = ServerBook::new(alloc, 1, 2)?;
    assert_eq!(rt;
        book.heard(address(1), &name(alloc, 0)?, 0)?,
        Heard::Connect(1)
    );
    for number in 1..most {
        assert_eq!(rt;
            book.heard(address(1), &name(alloc, number)?, 0)?,
            Heard::Waits(1)
        );
    }
    assert_eq!(rt;
        book.heard(address(1), &name(alloc, most)?, 0)?,
        Heard::Dropped
    );
    assert_eq!(rt;
        book.heard(address(1), &name(alloc, 7)?, 0)?,
        Heard::Waits(1)
    );
    assert_eq!(rt; book.waiting(), MOST_WAITING_FOR_SERVER);
    let names = book.connected(1);
    assert_eq!(rt; names.len(), MOST_WAITING_FOR_SERVER);
    are_named(&rt, alloc, &names, 0)?;
    book.lost(1, 0);
    assert_eq!(rt;
        book.heard(address(1), &name(alloc, most)?, 31)?,
        Heard::HeldOff
    );
    assert_eq!(rt;
        book.heard(address(1), &name(alloc, most)?, 32)?,
        Heard::Connect(1)
    );
    assert_eq!(rt;
        book.heard(address(1), &name(alloc, 0)?, 32)?,
        Heard::Waits(1)
    );
    assert_eq!(rt; book.connected(1).len(), 2);
    Ok(())
}

// Has each of these servers say that it has as many names as may wait for one.
fn fill(alloc: Global, book: &mut ServerBook, servers: u32) -> Result<(), Fail> {
    for number in 0..MOST_WAITING_FOR_SERVER as u32 {
        let name = name(alloc, number)?;
        for server in 1..=servers {
            book.heard(address(server), &name, 0)?;
        }
    }
    Ok(())
}

#[test]
fn so_many_names_wait_in_all(rt: HostRuntime) -> Result<(), Fail> {
    let alloc = rt.alloc();
    let one = name(alloc, 1)?;
    let mut book = ServerBook::new(alloc, 100, 2)?;
    fill(alloc, &mut book, 64)?;
    assert_eq!(rt; book.waiting(), MOST_WAITING);
    assert_eq!(rt; book.heard(address(65), &one, 0)?, Heard::Dropped);
    assert_eq!(rt; book.heard(address(64), &one, 0)?, Heard::Waits(64));
    assert_eq!(rt; book.connected(64).len(), MOST_WAITING_FOR_SERVER);
    assert_eq!(rt; book.heard(address(65), &one, 0)?, Heard::Connect(65));
    Ok(())
}
