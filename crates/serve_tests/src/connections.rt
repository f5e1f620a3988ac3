//! Calls on a roster of at most three clients, whose sockets and peers are numbers, and on outages. A connection is `s1` or `u1`, a
//! client's or a server's.
//!
//! - `admit LINK PEER`, `admit-of HOST MOST LINK PEER`: the number that a client's connection gets, of a host with so many seats;
//! - `begin-server NUMBER PEER`: a connection to a server is begun; `made LINK: u1`: it is made;
//! - `reached`: whose workers are to be started; `left: s1`: whether it was the last worker;
//! - `cut MIB: s1`: it is to be cut off, since too much waits; `remove: s1`: its row goes;
//! - `ended PLACE`: the first connection from there on whose workers ended; `close STATUS`: the gateway closes; `rows`: all rows;
//! - `fail NUMBER`, `fail-ordered NUMBER`: whether it is news that a server can't be reached; `back NUMBER`: it is connected.
use crate::words::{Call, REFUSED, Told};
use gateway_state::Dest;
use serve_state::{Cut, Outages, Roster, RosterRefusal, RosterRow, Try};

pub(crate) const CLIENTS: u32 = 3;

pub(crate) fn call(roster: &mut Roster<u32, u32>, call: &Call<'_>, told: &mut Told) {
    let (first, second) = (call.number(0), call.number(1));
    match call.verb {
        "admit" => admitted(roster.admit_client(first, second), told),
        "admit-of" => admitted(
            roster.admit_client_of_host(
                call.number(2),
                call.number(3),
                u128::from(first),
                second as usize,
            ),
            told,
        ),
        "begin-server" => match roster.begin_server(first, second) {
            Ok(()) => {}
            Err(refusal) => refused(refusal, told),
        },
        "close" => {
            roster.close(first.min(255) as u8);
            told.name_line(&roster.status());
        }
        "reached" => told.name_line(&roster.take_reached()),
        "ended" => told.name_line(&roster.ended_from(first as usize)),
        "rows" => list(roster, told),
        _ => change(roster, dest(call.text), call, told),
    }
}

fn change(roster: &mut Roster<u32, u32>, dest: Dest, call: &Call<'_>, told: &mut Told) {
    match call.verb {
        "made" => roster.connected(dest, call.number(0)),
        "cut" => roster.cut(dest, Cut::TooMuch(call.number(0))),
        "left" => told.line(&roster.left(dest)),
        _ => match roster.remove(dest) {
            Some(row) => show(&row, told),
            None => told.line(&"none"),
        },
    }
}

fn dest(text: &str) -> Dest {
    match text.strip_prefix("u") {
        Some(digits) => Dest::Upstream(digits.parse().unwrap_or(0)),
        None => Dest::Session(text.trim_start_matches('s').parse().unwrap_or(0)),
    }
}

fn admitted(number: Result<u32, RosterRefusal>, told: &mut Told) {
    match number {
        Ok(number) => told.line(&number),
        Err(refusal) => refused(refusal, told),
    }
}

fn refused(refusal: RosterRefusal, told: &mut Told) {
    match refusal {
        RosterRefusal::OutOfMemory => told.line(&REFUSED),
        _ => told.name_line(&refusal),
    }
}

fn show(row: &RosterRow<u32, u32>, told: &mut Told) {
    told.name(&row.dest());
    told.name(&row.link());
    told.word(row.peer());
    told.name(&row.cut());
    told.end();
}

/// All rows. It takes no memory.
pub(crate) fn list(roster: &Roster<u32, u32>, told: &mut Told) {
    for row in roster.rows() {
        show(row, told);
    }
}

pub(crate) fn fail(outages: &mut Outages, call: &Call<'_>, told: &mut Told) {
    let number = call.number(0);
    match call.verb {
        "fail" => told.line(&outages.fail(number, Try::Repeated)),
        "fail-ordered" => told.line(&outages.fail(number, Try::Ordered)),
        _ => outages.end(number),
    }
}
