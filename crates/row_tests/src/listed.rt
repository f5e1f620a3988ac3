//! Lists of a table of clients' rows, which take no memory.
use crate::client_rows::{show_of, show_want};
use crate::visited::VisitedRows;
use crate::words::Told;
use pv_name::Name;

/// How many rows there are, the first sessions, and the rows of each.
pub(crate) fn list_sessions(rows: &mut VisitedRows, told: &mut Told) {
    told.word(&rows.table.all_sessions());
    told.word(&rows.table.all_channels());
    told.word(&rows.table.all_subs());
    told.line(&rows.table.all_reads());
    for n in 0..4 {
        rows.show_nth_session(n, told);
    }
    for session in 0..4 {
        show_of(rows, session, told);
        list_reads_of(rows, session, told);
    }
}

fn list_reads_of(rows: &mut VisitedRows, session: u32, told: &mut Told) {
    for n in 0..=rows.table.read_count(session) {
        rows.show_read_of(session, n, told);
    }
}

/// The channels and reads on a variable, how many subscriptions are, and what its rows want together. The test
/// itself was refused memory where there is no name.
pub(crate) fn list_name(rows: &mut VisitedRows, name: &Option<Name>, told: &mut Told) {
    match name {
        Some(name) => {
            list_channels_on(rows, name, told);
            list_reads_on(rows, name, told);
            told.line(&rows.table.subs_on(name));
            show_want(&rows.table, name, 8, told);
            told.line(&rows.table.props_on(name, true));
        }
        None => told.is_whole = false,
    }
}

fn list_channels_on(rows: &mut VisitedRows, name: &Name, told: &mut Told) {
    for n in 0..=rows.table.channels_on(name) {
        rows.show_channel_on(name, n, told);
    }
}

fn list_reads_on(rows: &mut VisitedRows, name: &Name, told: &mut Told) {
    for n in 0..=rows.table.reads_on(name) {
        rows.show_read_on(name, n, told);
    }
}
