//! How rows of clients are told.
use crate::words::Told;
use channel_table::{Channel, ClientSub, Session, User, WaitingRead};
use std::str;

pub(crate) fn show_session(row: &Session, told: &mut Told) {
    told.word(&"session");
    told.word(&row.number);
    told.word(&row.host.text());
    show_user(&row.user, told);
    if row.host.text() != row.peer.text() {
        told.word(&"from");
        told.word(&row.peer.text());
    }
    match (row.host_fixed, row.paused) {
        (false, false) => {}
        (true, true) => told.word(&"fixed paused"),
        _ => told.word(&"otherwise"),
    }
    told.end();
}

fn show_user(user: &User, told: &mut Told) {
    if let (false, Ok(name)) = (user.as_slice().is_empty(), str::from_utf8(user.as_slice())) {
        told.word(&"user");
        told.word(&name);
    }
}

pub(crate) fn show_channel(row: &Channel, told: &mut Told) {
    told.word(&"channel");
    told.word(&row.session);
    told.word(&row.sid);
    told.word(&row.real.text());
    told.word(&"reach");
    told.word(&row.reach.count);
    if row.reach.props {
        told.word(&"with props");
    }
    told.word(&"rights");
    told.line(&row.rights_told);
}

pub(crate) fn show_read(row: &WaitingRead, told: &mut Told) {
    told.word(&"read");
    told.word(&row.session);
    told.word(&row.sid);
    told.line(&row.ioid);
}

pub(crate) fn show_sub(row: &ClientSub, told: &mut Told) {
    told.word(&"sub");
    told.word(&row.session);
    told.word(&row.sid);
    told.word(&row.id);
    if row.owed {
        told.word(&"owed");
    }
    told.end();
}
