//! Rows that are added where a limit is told. None is added that stands already.
use crate::client_rows::{channel, number, read, refused, session, sub, word};
use crate::visited::VisitedRows;
use crate::words::Told;
use channel_table::{Channel, ClientSub, Session, TableFault};
use std::alloc::Global;

/// Adds the row of a line `within LIMIT ..`, whose further words are those of the row.
pub(crate) fn add_within(alloc: Global, rows: &mut VisitedRows, line: &str, told: &mut Told) {
    let limit = number(line, 1) as usize;
    let (owner, id) = (number(line, 3), number(line, 4));
    match word(line, 2) {
        "session" => match session(alloc, owner) {
            Some(row) => refused(add_session(rows, limit, row), told),
            None => told.line(&"out of memory"),
        },
        "channel" => match channel(alloc, owner, id) {
            Some(row) => refused(add_channel(rows, limit, row), told),
            None => told.line(&"out of memory"),
        },
        "sub" => {
            let row = sub(owner, id, number(line, 5));
            refused(add_sub(rows, limit, row), told);
        }
        _ => {
            let row = read(owner, id, number(line, 5));
            refused(rows.table.add_read_within(limit, row), told);
        }
    }
}

#[tactic(auto, using(named_rows::proofs::Lists::unfound_is_absent))]
fn add_session(rows: &mut VisitedRows, limit: usize, session: Session) -> Result<(), TableFault> {
    match rows.table.session(&mut rows.visits, session.number) {
        Some(_) => Ok(()),
        None => rows.table.add_session_within(limit, session),
    }
}

#[tactic(auto, using(named_rows::proofs::Lists::unfound_is_absent))]
fn add_channel(rows: &mut VisitedRows, limit: usize, channel: Channel) -> Result<(), TableFault> {
    match rows
        .table
        .channel(&mut rows.visits, channel.session, channel.sid)
    {
        Some(_) => Ok(()),
        None => rows.table.add_channel_within(limit, channel),
    }
}

#[tactic(auto, using(named_rows::proofs::Lists::unfound_is_absent))]
fn add_sub(rows: &mut VisitedRows, limit: usize, sub: ClientSub) -> Result<(), TableFault> {
    match rows.table.sub(&mut rows.visits, sub.session, sub.id) {
        Some(_) => Ok(()),
        None => rows.table.add_sub_within(limit, sub),
    }
}
