//! How a story of a table of servers, links and writes is told.
//!
//! A story is a text. Its lines are calls on a table in which server 1 stands, with link 1 for T1 and
//! link 2 for T2, and behind `> ` stands what they answer. A call that adds or puts a row is answered
//! where it is refused.
//!
//! - `empty from FIRST`: from now on the table is an empty one, whose counters begin here;
//! - `add servers FIRST LAST`, `add links SERVER FIRST LAST`, `add writes SERVER FIRST LAST SESSION SID`:
//!   rows of these numbers, of which link 3 is for T3;
//! - `put server N MINOR`, `put link SERVER CID SID TYPE COUNT RIGHTS`, `put unusable SERVER CID RIGHTS`,
//!   `put sub SERVER CID ID MASK COUNT SENT`, `put props ..` of its properties, `put none SERVER CID`,
//!   `put unlisted SERVER CID`: no subscription to its values, or to its properties; `put again SERVER CID
//!   MASK COUNT SENT`: its subscription to values, under the ID that it has;
//! - `each sub SERVER FIRST LAST`: each of these links gets a subscription to its values, whose ID is 1,000 more than its
//!   own; `each props ..`: to its properties, 5,000 more; `each none ..`, `each unlisted ..`: none of either; `each
//!   link ..`, `each write ..`: each of these goes;
//! - `remove server N`, `remove link SERVER CID`, `remove write SERVER ID`, `remove writes SESSION SID`,
//!   `remove session N`: its writes;
//! - `find cid SERVER CID`, `find name NAME`, `find place N`, `find of SERVER N`, `find sub SERVER ID`: the
//!   CID of a link, or `none`;
//! - `show server N`: its minor version; `show link SERVER CID`: its state, its rights, and its
//!   subscriptions to values and to properties;
//!   `show write SERVER ID`: the write; or `None`;
//! - `count links`, `count of SERVER`: its links, `count writes SESSION`; `all links`: how many are in the
//!   list of all;
//! - `named N M`: the CIDs of the links for two names, of which 3 is T3, in the order of adding;
//! - `give COUNTER`: its next number, for a row of server 1; `again COUNTER SERVER FIRST`: the one for a row of
//!   this server, where numbers come again from FIRST on.
use crate::seen;
use crate::seen::KeptValue;
use crate::words::{Call, Told};
use link_table::{
    Counter, LAST_NUMBER, LinkRow, LinkState, Links, Server, Subject, Subscription, TableFault,
    WaitingWrite, turned,
};
use pv_name::Name;
use std::alloc::Global;
use std::process::Abort;

const BEGINNING: &str = "add servers 1 1\nadd links 1 1 2";

#[derive(Drop)]
struct TestedLinks {
    alloc: Global,
    links: Links,
}

/// Asserts that a story comes out as it is told.
pub(crate) fn tells(rt: &impl Abort, alloc: Global, story: &str) {
    let links = Links::new(alloc, 1);
    let mut rows = TestedLinks { alloc, links };
    seen::tells(rt, alloc, &mut rows, [BEGINNING, story]);
}

impl KeptValue for TestedLinks {
    fn numbers(&self, line: &str) -> (u32, u32) {
        let call = Call::read(line);
        let [first, second, third, ..] = call.numbers;
        match (call.verb, call.what) {
            ("add", "servers") => (first, second),
            ("add" | "each", _) => (second, third),
            _ => (0, 0),
        }
    }

    fn call(&mut self, line: &str, number: u32, told: &mut Told) {
        call(self.alloc, &mut self.links, line, number, told);
    }

    fn list(&mut self, told: &mut Told) {
        list(&self.links, told);
    }

    fn skip(&mut self) {}

    fn count(&mut self) {}
}

/// How many rows there are, the first links, and what has a number. This takes no memory.
fn list(links: &Links, told: &mut Told) {
    told.word(&links.server_count());
    told.word(&links.link_count());
    told.line(&links.write_count());
    for n in 0..20 {
        list_link(links, n, told);
    }
    for number in 0..20 {
        list_by_number(links, number, told);
        list_at_server(links, 1, number, told);
        list_at_server(links, 2, number, told);
    }
}

/// A link by its place, and by its name.
fn list_link(links: &Links, n: usize, told: &mut Told) {
    if let Some(link) = links.link(n) {
        told.name(link);
        told.name(&links.by_name(&link.name).map(|named| named.cid));
        told.end();
    }
}

/// What has this number: a server with its first link, and writes of a session.
fn list_by_number(links: &Links, number: u32, told: &mut Told) {
    told.name(&links.server(number));
    told.word(&links.link_count_of(number));
    told.name(&links.link_of(number, 0).map(|link| link.cid));
    told.line(&links.writes(number));
}

/// What has this number at a server: a write, and the link that a subscription leads to.
fn list_at_server(links: &Links, server: u32, number: u32, told: &mut Told) {
    told.name(&links.write(server, number));
    told.name(&links.by_sub(server, number).map(|link| link.cid));
    told.end();
}

fn call(alloc: Global, links: &mut Links, line: &str, number: u32, told: &mut Told) {
    let call = Call::read(line);
    match call.verb {
        "empty" => *links = Links::new(alloc, call.numbers[0]),
        "add" => add(alloc, links, &call, number, told),
        "put" => put(links, &call, told),
        "each" => each(links, &call, number, told),
        "remove" => remove(links, &call),
        "find" => find(alloc, links, &call, told),
        "show" => show(links, &call, told),
        "count" => match call.what {
            "links" => told.line(&links.link_count()),
            "of" => told.line(&links.link_count_of(call.numbers[0])),
            _ => told.line(&links.writes(call.numbers[0])),
        },
        "all" => match links.links(alloc) {
            Ok(links) => told.line(&links.len()),
            Err(_) => told.line(&"out of memory"),
        },
        "named" => named(alloc, links, &call, told),
        "again" => give(links, &call, true, told),
        _ => give(links, &call, false, told),
    }
}

/// Adds the row of this number.
fn add(alloc: Global, links: &mut Links, call: &Call<'_>, number: u32, told: &mut Told) {
    let [server, _, _, session, sid, _] = call.numbers;
    match call.what {
        "servers" => refused(links.add_server(Server { number, minor: 0 }), told),
        "links" => add_link(alloc, links, server, number, told),
        _ => add_new_write(links, write(server, number, session, sid), told),
    }
}

fn refused(done: Result<(), TableFault>, told: &mut Told) {
    match done {
        Ok(()) => {}
        Err(TableFault::OutOfMemory) => told.line(&"out of memory"),
        Err(fault) => {
            told.name(&fault);
            told.end();
        }
    }
}

fn add_link(alloc: Global, links: &mut Links, server: u32, cid: u32, told: &mut Told) {
    match name_of(alloc, cid) {
        Some(name) => add_new_link(links, server, cid, name, told),
        None => told.line(&"out of memory"),
    }
}

/// Adds a link, but none whose CID or name stands already.
#[tactic(auto, using(named_rows::proofs::Lists::unfound_is_absent))]
fn add_new_link(links: &mut Links, server: u32, cid: u32, name: Name, told: &mut Told) {
    if let Some(_) = links.by_cid(server, cid) {
        return;
    }
    if let Some(_) = links.by_name(&name) {
        return;
    }
    refused(links.add_link(server, cid, name), told);
}

/// Adds a write, but none whose ID waits at its server already.
#[tactic(auto, using(named_rows::proofs::Lists::unfound_is_absent))]
fn add_new_write(links: &mut Links, write: WaitingWrite, told: &mut Told) {
    if let Some(_) = links.write(write.server, write.id) {
        return;
    }
    refused(links.add_write(write), told);
}

/// Keeps a link's subscription on a subject, but none whose ID the server has already.
#[tactic(auto, using(named_rows::proofs::Lists::unfound_is_absent, link_table::proofs::SubLemmas::none_other))]
fn set_sub(
    links: &mut Links,
    server: u32,
    cid: u32,
    subject: Subject,
    sub: Subscription,
    told: &mut Told,
) {
    if let Some(_) = links.by_sub(server, sub.id) {
        return;
    }
    refused(links.set_sub(server, cid, subject, Some(sub)), told);
}

/// Puts the subscription to a link's values, if it has one, under the ID that it has.
fn put_again(links: &mut Links, server: u32, cid: u32, asked: Subscription, told: &mut Told) {
    links.has_ids_apart();
    let Some(link) = links.by_cid(server, cid) else {
        return;
    };
    let Some(had) = link.subscriptions.at(Subject::Values) else {
        return;
    };
    let sub = Subscription {
        id: had.id,
        ..asked
    };
    refused(links.set_sub(server, cid, Subject::Values, Some(sub)), told);
}

fn name_of(alloc: Global, cid: u32) -> Option<Name> {
    let text = format!(in alloc; "T{cid}").ok()?;
    Name::read(alloc, text.as_bytes()).ok()
}

fn write(server: u32, id: u32, session: u32, sid: u32) -> WaitingWrite {
    WaitingWrite {
        server,
        id,
        session,
        sid,
        dtype: 5,
        count: 1,
        ioid: 43,
    }
}

fn put(links: &mut Links, call: &Call<'_>, told: &mut Told) {
    let [server, cid, third, fourth, fifth, sixth] = call.numbers;
    match call.what {
        "server" => links.put_server(server, cid),
        "link" => {
            let state = LinkState::Connected {
                sid: third,
                dtype: fourth.min(65_535) as u16,
                count: fifth,
            };
            links.put_link(server, cid, state, sixth);
        }
        "unusable" => links.put_link(server, cid, LinkState::Unusable, third),
        "sub" | "props" => {
            let sub = Subscription {
                id: third,
                mask: fourth.min(65_535) as u16,
                count: fifth,
                sent: sixth,
            };
            set_sub(links, server, cid, subject(call.what), sub, told);
        }
        "again" => {
            let asked = Subscription {
                id: 0,
                mask: third.min(65_535) as u16,
                count: fourth,
                sent: fifth,
            };
            put_again(links, server, cid, asked, told);
        }
        _ => refused(links.set_sub(server, cid, subject(call.what), None), told),
    }
}

/// What is done to each of several links or writes.
fn each(links: &mut Links, call: &Call<'_>, number: u32, told: &mut Told) {
    let server = call.numbers[0];
    match call.what {
        "sub" => {
            let sub = new_sub(number.saturating_add(1_000));
            set_sub(links, server, number, Subject::Values, sub, told);
        }
        "props" => {
            let sub = new_sub(number.saturating_add(5_000));
            set_sub(links, server, number, Subject::Properties, sub, told);
        }
        "link" => links.remove_link(server, number),
        "write" => links.remove_write(server, number),
        _ => refused(
            links.set_sub(server, number, subject(call.what), None),
            told,
        ),
    }
}

fn new_sub(id: u32) -> Subscription {
    Subscription {
        id,
        mask: 5,
        count: 1,
        sent: 0,
    }
}

/// Of what a subscription tells, by the word for it or for none.
fn subject(word: &str) -> Subject {
    match word {
        "props" | "unlisted" => Subject::Properties,
        _ => Subject::Values,
    }
}

fn remove(links: &mut Links, call: &Call<'_>) {
    let [first, second, ..] = call.numbers;
    match call.what {
        "server" => links.remove_server(first),
        "link" => links.remove_link(first, second),
        "write" => links.remove_write(first, second),
        "session" => links.remove_writes_of(first),
        _ => links.remove_writes(first, second),
    }
}

fn find(alloc: Global, links: &Links, call: &Call<'_>, told: &mut Told) {
    let [first, second, ..] = call.numbers;
    let found = match call.what {
        "cid" => links.by_cid(first, second),
        "place" => links.link(first as usize),
        "of" => links.link_of(first, second as usize),
        "sub" => links.by_sub(first, second),
        _ => match Name::read(alloc, call.text.as_bytes()) {
            Ok(name) => links.by_name(&name),
            Err(fault) => return told.line(&fault),
        },
    };
    match found {
        Some(link) => told.line(&link.cid),
        None => told.line(&"none"),
    }
}

fn show(links: &Links, call: &Call<'_>, told: &mut Told) {
    let [first, second, ..] = call.numbers;
    match call.what {
        "server" => told.name(&links.server(first).map(|server| server.minor)),
        "link" => {
            let link = links.by_cid(first, second);
            told.name(&link.map(|link| (
                link.state,
                link.rights,
                link.subscriptions.values,
                link.subscriptions.properties,
            )));
        }
        _ => told.name(&links.write(first, second)),
    }
    told.end();
}

fn give(links: &mut Links, call: &Call<'_>, reuses: bool, told: &mut Told) {
    let [server, first, ..] = call.numbers;
    let server = if reuses { server } else { 1 };
    let given = match call.what {
        "sid" => give_sid(links, reuses, first),
        "cid" => links.new_cid(reuses, first),
        "subscription" => links.new_sub_id(reuses, first, server),
        _ => links.new_write_id(reuses, first, server),
    };
    match given {
        Some(number) => told.line(&number),
        None => told.line(&"none"),
    }
}

/// The next number of a channel, where none stands.
fn give_sid(links: &mut Links, reuses: bool, first: u32) -> Option<u32> {
    let number = turned(reuses, first, links.next(Counter::Sid));
    if number > LAST_NUMBER {
        return None;
    }
    links.give(Counter::Sid, reuses, number);
    Some(number)
}

fn named(alloc: Global, links: &Links, call: &Call<'_>, told: &mut Told) {
    let first = call.what.parse().unwrap_or(0);
    let names = match (name_of(alloc, first), name_of(alloc, call.numbers[0])) {
        (Some(first), Some(second)) => [first, second],
        _ => return told.line(&"out of memory"),
    };
    match links.links_named(alloc, &names) {
        Ok(links) => list_cids(&links, told),
        Err(_) => told.line(&"out of memory"),
    }
}

fn list_cids(links: &[&LinkRow], told: &mut Told) {
    for link in links {
        told.line(&link.cid);
    }
}
