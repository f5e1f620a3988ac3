//! Calls of which a line makes one for each number at its end, which may be a range.
//!
//! - `named S NAME SID`: a channel on this variable, in whose name a `*` is the number;
//! - `leave S SID`, `end N`, `unsub S ID`, `unread S SID IOID`: a channel goes, a session, a subscription, a read;
//! - `kept S SID IOID`: a read past the limit too, or `not kept` where its channel doesn't stand.
use crate::client_rows::{add_channel, channel, number, read, refused, word};
use crate::visited::VisitedRows;
use crate::words::Told;
use channel_table::{Channel, WaitingRead};
use pv_name::Name;
use std::alloc::Global;

pub(crate) fn call_each(
    alloc: Global,
    rows: &mut VisitedRows,
    line: &str,
    last: u32,
    told: &mut Told,
) {
    let (session, sid) = (number(line, 1), number(line, 2));
    match word(line, 0) {
        "named" => match named(alloc, session, word(line, 2), last) {
            Some(row) => refused(add_channel(rows, row), told),
            None => told.line(&"out of memory"),
        },
        "leave" => rows.table.remove_channel(session, last),
        "end" => rows.table.remove_session(last),
        "unsub" => rows.table.remove_sub(session, last),
        "unread" => rows.table.remove_read(&read(session, sid, last)),
        _ => keep(rows, read(session, sid, last), told),
    }
}

fn keep(rows: &mut VisitedRows, read: WaitingRead, told: &mut Told) {
    let stands = rows.table.has_channel(read.session, read.sid);
    match (rows.table.keep_read(read), stands) {
        (Ok(()), true) => {}
        (Ok(()), false) => told.line(&"kept"),
        (Err(_), true) => told.line(&"out of memory"),
        (Err(_), false) => told.line(&"not kept"),
    }
}

fn named(alloc: Global, session: u32, text: &str, sid: u32) -> Option<Channel> {
    Some(Channel {
        real: name_of(alloc, text, sid)?,
        ..channel(alloc, session, sid)?
    })
}

fn name_of(alloc: Global, text: &str, number: u32) -> Option<Name> {
    match text.split_once('*') {
        Some((front, behind)) => {
            let text = format!(in alloc; "{front}{number}{behind}").ok()?;
            Name::read(alloc, text.as_bytes()).ok()
        }
        None => Name::read(alloc, text.as_bytes()).ok(),
    }
}
