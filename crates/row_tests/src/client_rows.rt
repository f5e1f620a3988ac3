//! How a story of a table of clients' rows is told.
//!
//! A story is a text. Its lines are calls on a table that is empty at first, and behind `> ` stands
//! what they answer:
//!
//! - `session N`, `channel S SID`, `sub S SID ID`, `read S SID IOID`: a row is added, but no session,
//!   channel or subscription that stands. The last number may be a range, as `0-1023`, which adds so
//!   many. An answer is given where a row is refused;
//! - `within LIMIT` before one of these, with one number at its end: the same where the limit is this;
//! - `typed S SID ID TYPE MASK`: a subscription of this type and these events; those that `sub` adds
//!   are of type 20, and ask for VALUE and ALARM;
//! - `put session N HOST`, `put user N NAME`, `put channel S SID REACH RIGHTS`, `put sub S ID`: the session counts as
//!   one of that host, which is fixed, and is paused; what it said of its user is this; behind the rights of a channel may stand
//!   `props`, where a read on it needs properties; the subscription is owed nothing;
//! - `find session N`, `find channel S SID`, `find sub S ID`: the row, or `none`;
//! - `remove` before what a row is named by; `named`, `leave`, `end` and others that `each` says;
//! - `count S`: how many channels, subscriptions and reads the session has;
//! - `reads NAME`: the reads that wait on the variable;
//! - `on NAME`: whether a channel is on the variable, how many channels, subscriptions and reads are,
//!   and these one by one. Channels 50 to 99 are on B:SP, others on A:SP;
//! - `any NAME NAME`: the channels on either of two variables, in the order of adding;
//! - `want NAME NATIVE`: the events and the count that its rows want together where its native count is
//!   this, or `none`;
//! - `props NAME`, `props NAME states`: whether its rows need properties, where its elements are no
//!   states, or are states;
//! - `of S`: the channels and subscriptions of the session, one by one;
//! - `show`: all rows, of sessions the ten of the lowest numbers, in order;
//! - `visits`: how many rows were looked at since the beginning, but by calls that were refused memory.
//!
//! Numbers and words that aren't there are 0 and empty. The functions return no error, as in `link_rows`:
//! what they tell would show one.
use crate::each::call_each;
use crate::listed::{list_name, list_sessions};
use crate::seen;
use crate::seen::KeptValue;
use crate::shown::{show_channel, show_read, show_session, show_sub};
use crate::visited::VisitedRows;
use crate::within::add_within;
use crate::words::Told;
use channel_table::{Channel, ClientSub, Reach, Session, Table, TableFault, User, WaitingRead};
use pv_name::{Host, Name};
use std::alloc::Global;
use std::process::Abort;

/// A table with its count of looks, and what it is listed by.
#[derive(Drop)]
struct TestedClients {
    alloc: Global,
    rows: VisitedRows,
    looks: LooksSoFar,
    names: TestedNames,
}

/// How many rows were looked at so far, and how many of them to list the table, or by calls that were refused.
#[derive(Clone, Copy)]
struct LooksSoFar {
    so_far: u64,
    skipped: u64,
}

/// The variables that are listed.
#[derive(Drop)]
struct TestedNames {
    first: Option<Name>,
    second: Option<Name>,
}

/// Asserts that a story comes out as it is told, behind what it begins with.
pub(crate) fn tells(rt: &impl Abort, alloc: Global, beginning: &str, story: &str) {
    let mut clients = new_clients(alloc);
    seen::tells(rt, alloc, &mut clients, [beginning, story]);
}

fn new_clients(alloc: Global) -> TestedClients {
    let looks = LooksSoFar {
        so_far: 0,
        skipped: 0,
    };
    let names = new_names(alloc);
    TestedClients {
        alloc,
        rows: VisitedRows::new(alloc),
        looks,
        names,
    }
}

fn new_names(alloc: Global) -> TestedNames {
    TestedNames {
        first: Name::read(alloc, b"A:SP").ok(),
        second: Name::read(alloc, b"B:SP").ok(),
    }
}

impl KeptValue for TestedClients {
    fn numbers(&self, line: &str) -> (u32, u32) {
        match word(line, 0) {
            "session" | "channel" | "sub" | "read" => last_numbers(line),
            "named" | "leave" | "end" | "unsub" | "unread" | "kept" => last_numbers(line),
            _ => (0, 0),
        }
    }

    fn call(&mut self, line: &str, number: u32, told: &mut Told) {
        match word(line, 0) {
            "visits" => told.line(
                &self
                    .rows
                    .visits
                    .visited()
                    .saturating_sub(self.looks.skipped),
            ),
            _ => call(self.alloc, &mut self.rows, line, number, told),
        }
    }

    fn list(&mut self, told: &mut Told) {
        list_sessions(&mut self.rows, told);
        list_name(&mut self.rows, &self.names.first, told);
        list_name(&mut self.rows, &self.names.second, told);
    }

    fn skip(&mut self) {
        let looks = self.rows.visits.visited().saturating_sub(self.looks.so_far);
        self.looks.skipped = self.looks.skipped.saturating_add(looks);
        self.looks.so_far = self.rows.visits.visited();
    }

    fn count(&mut self) {
        self.looks.so_far = self.rows.visits.visited();
    }
}

fn call(alloc: Global, rows: &mut VisitedRows, line: &str, last: u32, told: &mut Told) {
    match word(line, 0) {
        "put" => put(alloc, rows, line, told),
        "find" => find(rows, line, told),
        "remove" => remove(rows, line),
        "count" => count(&rows.table, number(line, 1), told),
        "show" => show(alloc, rows, told),
        "on" | "want" | "props" | "reads" => show_name(alloc, rows, line, told),
        "any" => show_any(alloc, rows, line, told),
        "of" => show_of(rows, number(line, 1), told),
        "within" => add_within(alloc, rows, line, told),
        "typed" => refused(add_sub(rows, typed_sub(line)), told),
        "named" | "leave" | "end" | "unsub" | "unread" | "kept" => {
            call_each(alloc, rows, line, last, told);
        }
        _ => add_one(alloc, rows, line, last, told),
    }
}

pub(crate) fn word(line: &str, place: usize) -> &str {
    line.split(' ').nth(place).unwrap_or("")
}

pub(crate) fn number(line: &str, place: usize) -> u32 {
    word(line, place).parse().unwrap_or(0)
}

/// The numbers at the end of a line: a range, or one alone.
fn last_numbers(line: &str) -> (u32, u32) {
    let (_, last) = line.rsplit_once(' ').unwrap_or(("", line));
    let (first, last) = last.split_once('-').unwrap_or((last, last));
    (first.parse().unwrap_or(0), last.parse().unwrap_or(0))
}

/// Adds the row whose last number is this.
fn add_one(alloc: Global, rows: &mut VisitedRows, line: &str, last: u32, told: &mut Told) {
    match word(line, 0) {
        "session" => match session(alloc, last) {
            Some(row) => refused(add_session(rows, row), told),
            None => told.line(&"out of memory"),
        },
        "channel" => match channel(alloc, number(line, 1), last) {
            Some(row) => refused(add_channel(rows, row), told),
            None => told.line(&"out of memory"),
        },
        "sub" => {
            let row = sub(number(line, 1), number(line, 2), last);
            refused(add_sub(rows, row), told);
        }
        "read" => {
            let row = read(number(line, 1), number(line, 2), last);
            refused(rows.table.add_read(row), told);
        }
        _ => told.line(&"no such call"),
    }
}

pub(crate) fn refused(done: Result<(), TableFault>, told: &mut Told) {
    match done {
        Ok(()) => {}
        Err(TableFault::Missing) => told.line(&"missing"),
        Err(TableFault::Full) => told.line(&"full"),
        Err(TableFault::OutOfMemory) => told.line(&"out of memory"),
    }
}

/// Adds a session, but none that stands already.
#[tactic(auto, using(named_rows::proofs::Lists::unfound_is_absent))]
fn add_session(rows: &mut VisitedRows, session: Session) -> Result<(), TableFault> {
    match rows.table.session(&mut rows.visits, session.number) {
        Some(_) => Ok(()),
        None => rows.table.add_session(session),
    }
}

/// Adds a channel, but none that stands already.
#[tactic(auto, using(named_rows::proofs::Lists::unfound_is_absent))]
pub(crate) fn add_channel(rows: &mut VisitedRows, channel: Channel) -> Result<(), TableFault> {
    match rows
        .table
        .channel(&mut rows.visits, channel.session, channel.sid)
    {
        Some(_) => Ok(()),
        None => rows.table.add_channel(channel),
    }
}

/// Adds a subscription, but none that stands already.
#[tactic(auto, using(named_rows::proofs::Lists::unfound_is_absent))]
fn add_sub(rows: &mut VisitedRows, sub: ClientSub) -> Result<(), TableFault> {
    match rows.table.sub(&mut rows.visits, sub.session, sub.id) {
        Some(_) => Ok(()),
        None => rows.table.add_sub(sub),
    }
}

pub(crate) fn session(alloc: Global, number: u32) -> Option<Session> {
    Some(Session {
        number,
        peer: Host::read(alloc, b"10.0.0.5").ok()?,
        host: Host::read(alloc, b"10.0.0.5").ok()?,
        user: User::none(alloc),
        host_fixed: false,
        paused: false,
    })
}

pub(crate) fn channel(alloc: Global, session: u32, sid: u32) -> Option<Channel> {
    let asked = Name::read(alloc, b"A:SET").ok()?;
    let real = Name::read(alloc, real_name(sid).as_bytes()).ok()?;
    Some(Channel {
        session,
        sid,
        cid: 7,
        asked,
        real,
        reach: Reach {
            count: 0,
            props: false,
        },
        rights_told: 3,
    })
}

/// The variable that a channel is on.
fn real_name(sid: u32) -> &'static str {
    if sid >= 50 && sid < 100 {
        "B:SP"
    } else {
        "A:SP"
    }
}

pub(crate) fn sub(session: u32, sid: u32, id: u32) -> ClientSub {
    ClientSub {
        session,
        id,
        sid,
        dtype: 20,
        count: 0,
        mask: 5,
        owed: true,
    }
}

/// A subscription whose type and events are told.
fn typed_sub(line: &str) -> ClientSub {
    ClientSub {
        dtype: small(line, 4),
        mask: small(line, 5),
        ..sub(number(line, 1), number(line, 2), number(line, 3))
    }
}

fn small(line: &str, place: usize) -> u16 {
    word(line, place).parse().unwrap_or(0)
}

pub(crate) fn read(session: u32, sid: u32, ioid: u32) -> WaitingRead {
    WaitingRead {
        session,
        sid,
        dtype: 5,
        count: 1,
        ioid,
    }
}

fn put(alloc: Global, rows: &mut VisitedRows, line: &str, told: &mut Told) {
    let session = number(line, 2);
    match word(line, 1) {
        "session" => match Host::read(alloc, word(line, 3).as_bytes()) {
            Ok(host) => rows
                .table
                .put_session(&mut rows.visits, session, host, true, true),
            Err(fault) => told.line(&fault),
        },
        "user" => match User::new(alloc, word(line, 3).as_bytes()) {
            Ok(user) => rows.table.put_user(&mut rows.visits, session, user),
            Err(_) => told.line(&"out of memory"),
        },
        "channel" => {
            let reach = Reach {
                count: number(line, 4),
                props: word(line, 6) == "props",
            };
            rows.table.put_channel(
                &mut rows.visits,
                session,
                number(line, 3),
                reach,
                number(line, 5),
            );
        }
        _ => rows
            .table
            .put_sub(&mut rows.visits, session, number(line, 3), false),
    }
}

fn find(rows: &mut VisitedRows, line: &str, told: &mut Told) {
    let session = number(line, 2);
    match word(line, 1) {
        "session" => match rows.table.session(&mut rows.visits, session) {
            Some(row) => show_session(row, told),
            None => told.line(&"none"),
        },
        "channel" => match rows
            .table
            .channel(&mut rows.visits, session, number(line, 3))
        {
            Some(row) => show_channel(row, told),
            None => told.line(&"none"),
        },
        _ => match rows.table.sub(&mut rows.visits, session, number(line, 3)) {
            Some(row) => show_sub(row, told),
            None => told.line(&"none"),
        },
    }
}

fn remove(rows: &mut VisitedRows, line: &str) {
    let session = number(line, 2);
    match word(line, 1) {
        "session" => rows.table.remove_session(session),
        "channel" => rows.table.remove_channel(session, number(line, 3)),
        "sub" => rows.table.remove_sub(session, number(line, 3)),
        _ => rows
            .table
            .remove_read(&read(session, number(line, 3), number(line, 4))),
    }
}

fn count(table: &Table, session: u32, told: &mut Told) {
    told.word(&table.channel_count(session));
    told.word(&table.sub_count(session));
    told.line(&table.read_count(session));
}

fn show(alloc: Global, rows: &mut VisitedRows, told: &mut Told) {
    for n in 0..10 {
        rows.show_nth_session(n, told);
    }
    match rows.table.channels(&mut rows.visits, alloc) {
        Ok(channels) => show_channels(&channels, told),
        Err(_) => told.line(&"out of memory"),
    }
    match rows.table.subs(&mut rows.visits, alloc) {
        Ok(subs) => show_subs(&subs, told),
        Err(_) => told.line(&"out of memory"),
    }
    match rows.table.reads(&mut rows.visits, alloc) {
        Ok(reads) => show_reads(&reads, told),
        Err(_) => told.line(&"out of memory"),
    }
}

fn show_channels(rows: &[&Channel], told: &mut Told) {
    for row in rows {
        show_channel(row, told);
    }
}

fn show_subs(rows: &[&ClientSub], told: &mut Told) {
    for row in rows {
        show_sub(row, told);
    }
}

fn show_subs_of_name(rows: &[ClientSub], told: &mut Told) {
    for row in rows {
        show_sub(row, told);
    }
}

fn show_reads(rows: &[WaitingRead], told: &mut Told) {
    for row in rows {
        show_read(row, told);
    }
}

/// What a call answers that names a variable.
fn show_name(alloc: Global, rows: &mut VisitedRows, line: &str, told: &mut Told) {
    match (Name::read(alloc, word(line, 1).as_bytes()), word(line, 0)) {
        (Ok(name), "on") => show_on(alloc, rows, &name, told),
        (Ok(name), "props") => told.line(&rows.table.props_on(&name, word(line, 2) == "states")),
        (Ok(name), "reads") => match rows.table.reads_for(&mut rows.visits, alloc, &name) {
            Ok(reads) => show_reads(&reads, told),
            Err(_) => told.line(&"out of memory"),
        },
        (Ok(name), _) => show_want(&rows.table, &name, number(line, 2), told),
        (Err(fault), _) => told.line(&fault),
    }
}

/// The channels on two variables.
fn show_any(alloc: Global, rows: &mut VisitedRows, line: &str, told: &mut Told) {
    let first = Name::read(alloc, word(line, 1).as_bytes());
    let second = Name::read(alloc, word(line, 2).as_bytes());
    let names = match (first, second) {
        (Ok(first), Ok(second)) => [first, second],
        _ => return told.line(&"out of memory"),
    };
    match rows.table.channels_on_any(&mut rows.visits, alloc, &names) {
        Ok(channels) => show_channels(&channels, told),
        Err(_) => told.line(&"out of memory"),
    }
}

/// The rows on a variable, one by one, and how many there are.
fn show_on(alloc: Global, rows: &mut VisitedRows, name: &Name, told: &mut Told) {
    let channels = rows.table.channels_on(name);
    let reads = rows.table.reads_on(name);
    told.word(&rows.table.is_used(name));
    told.word(&channels);
    told.word(&rows.table.subs_on(name));
    told.line(&reads);
    for n in 0..=channels {
        rows.show_channel_on(name, n, told);
    }
    match rows.table.subs_to(&mut rows.visits, alloc, name) {
        Ok(subs) => show_subs_of_name(subs.as_slice(), told),
        Err(_) => told.line(&"out of memory"),
    }
    for n in 0..=reads {
        rows.show_read_on(name, n, told);
    }
}

/// What is wanted of a variable.
pub(crate) fn show_want(table: &Table, name: &Name, native: u32, told: &mut Told) {
    match table.want_on(name, native) {
        Some(want) => {
            told.word(&"want");
            told.word(&want.mask);
            told.line(&want.count);
        }
        None => told.line(&"none"),
    }
}

/// The channels and subscriptions of a session, one by one.
pub(crate) fn show_of(rows: &mut VisitedRows, session: u32, told: &mut Told) {
    for n in 0..=rows.table.channel_count(session) {
        rows.show_channel_of(session, n, told);
    }
    for n in 0..=rows.table.sub_count(session) {
        rows.show_sub_of(session, n, told);
    }
}
