//! The connections.
ghost use Rattle.std.specs.Prelude.{◌≡◌, ◌↔◌, ◌++◌, [], ◌∷◌, ◌<◌, ◌≤◌, None, Some, IsSome, IsNone, IsTrue, IfOk, OnOk, OnErr, IsErrOf, IfSome, IfNone, true, false, is_some, length, option_copied, get_or, ℕ};
ghost use Rattle.std.specs.List.{find, list_any, position};
ghost use Rattle.rows.specs.Rows.{change_first, remove_first};
ghost use Rattle.gateway_state.specs.declared.event.Dest.TheVariants.{Session, Upstream};
ghost use Rattle.serve_state.specs.Roster.{RowState, RosterState, is_row, holds, with_row, with_row_of, row_of, is_of_host, clients_of, IsLeastFree, IsFull, closed_with, with_cut, with_left, with_reached, with_served, changed, with_new, without, is_reached, has_ended, is_last};

use crate::cut::Cut;
use crate::numbers::least_free;
use gateway_state::Dest;
use std::alloc::{AllocError, Global};
use std::marker::Model;

/// How many workers a connection has: one reads, one writes.
const WORKERS: u8 = 2;

/// Why a connection gets no row.
#[derive(Clone, Copy, Debug, PartialEq, Eq)]
pub enum RosterRefusal {
    /// The gateway is closing.
    Closing,
    /// As many clients as can be are connected.
    Full,
    /// As many clients of its host as may be are connected.
    HostFull,
    /// The server has a row already.
    Held,
    OutOfMemory,
}

/// A connection. `L` is its socket, of which contracts say whether it is there, and `P` its peer, of which they don't speak.
#[derive(Drop)]
pub struct RosterRow<L, P> {
    dest: Dest,
    peer: P,
    // None while the connection is being made.
    link: Option<L>,
    // How many workers have not ended.
    workers: u8,
    // The connection was made, and its workers are not started.
    is_reached: bool,
    cut: Option<Cut>,
    // The number of the host, where a client was admitted as one of a host's.
    host: Option<u128>,
}

impl<L, P> Model for RosterRow<L, P> {
    ghost use Rattle.std.specs.Prelude.{is_some};
    ghost use Rattle.serve_state.specs.Roster.{RowState};

    ghost Value = { RowState };

    ghost view = { λ r. record {
      dest = r.dest;
      link = is_some r.link;
      workers = r.workers;
      reached = r.is_reached;
      cut = r.cut;
      host = r.host;
    } };
}

impl<L: Drop, P: Drop> RosterRow<L, P> {
    fn new(dest: Dest, link: Option<L>, peer: P, host: Option<u128>) -> RosterRow<L, P>
        ensures { result ≡ record (row_of host dest) { link = is_some link } }
    {
        RosterRow {
            dest,
            peer,
            link,
            workers: WORKERS,
            is_reached: false,
            cut: None,
            host,
        }
    }

    pub fn dest(&self) -> Dest
        ensures { result ≡ self.now.dest }
    {
        self.dest
    }

    pub fn peer(&self) -> &P {
        &self.peer
    }

    /// The connection's socket, once it is made.
    pub fn link(&self) -> Option<&L>
        ensures { is_some result ≡ self.now.link }
    {
        self.link.as_ref()
    }

    /// Why the gateway cut it off, where it did.
    pub fn cut(&self) -> Option<Cut>
        ensures { result ≡ self.now.cut }
    {
        self.cut
    }

    fn is_of(&self, dest: Dest) -> bool
        ensures { result ≡ is_row dest self.now }
    {
        self.dest == dest
    }

    fn is_of_host(&self, host: u128) -> bool
        ensures { result ≡ is_of_host host self.now }
    {
        match self.host {
            Some(own) => own == host,
            None => false,
        }
    }

    fn has_ended(&self) -> bool
        ensures { result ≡ has_ended self.now }
    {
        self.workers == 0
    }

    fn is_reached(&self) -> bool
        ensures { result ≡ is_reached self.now }
    {
        self.is_reached
    }

    fn set_cut(&mut self, why: Cut)
        ensures { self.new ≡ with_cut why self.old }
    {
        match self.cut {
            None | Some(Cut::TooSlow(_)) => self.cut = Some(why),
            Some(_) => (),
        }
    }

    fn leave(&mut self)
        ensures { self.new ≡ with_left self.old }
    {
        self.workers = self.workers.saturating_sub(1);
    }

    fn reach(&mut self, link: L)
        ensures { self.new ≡ with_reached self.old }
    {
        self.link = Some(link);
        self.is_reached = true;
    }

    fn serve(&mut self)
        ensures { self.new ≡ with_served self.old }
    {
        self.is_reached = false;
    }
}

/// The rows of all connections, and whether the gateway is closing.
#[derive(Drop)]
pub struct Roster<L, P> {
    // The highest number that a client's connection gets.
    clients: u32,
    // Where it is noted which numbers are taken, while one is looked for.
    taken: Vec<bool>,
    rows: Vec<RosterRow<L, P>>,
    closing: Option<u8>,
}

impl<L, P> Model for Roster<L, P> {
    ghost use Rattle.serve_state.specs.Roster.{RosterState};

    ghost Value = { RosterState };

    ghost view = { λ r. record {
      clients = r.clients;
      rows = r.rows.items;
      closing = r.closing;
    } };
}

impl<L: Drop, P: Drop> Roster<L, P> {
    /// No connections; as many clients as this may be connected at once. It takes no memory.
    pub fn new(alloc: Global, clients: u32) -> Roster<L, P>
        ensures { result ≡ record { clients = clients; rows = []; closing = None } }
    {
        Roster {
            clients,
            taken: Vec::new(alloc),
            rows: Vec::new(alloc),
            closing: None,
        }
    }

    pub fn is_closing(&self) -> bool
        ensures { IsTrue result ↔ IsSome self.now.closing }
    {
        self.closing.is_some()
    }

    /// The status that the program ends with, once it is closing.
    pub fn status(&self) -> Option<u8>
        ensures { result ≡ self.now.closing }
    {
        self.closing
    }

    /// From now on no connection gets a row. The first call's status stands.
    pub fn close(&mut self, status: u8)
        ensures { self.new ≡ closed_with status self.old }
    {
        self.closing = self.closing.or(Some(status));
    }

    /// The rows, in the order in which the connections began.
    pub fn rows(&self) -> &[RosterRow<L, P>]
        ensures { result.now ≡ self.now.rows }
    {
        self.rows.as_slice()
    }

    /// Gives a client's connection the least number that none holds.
    pub fn admit_client(&mut self, link: L, peer: P) -> Result<u32, RosterRefusal>
        ensures number { IfOk result (λ n. IsLeastFree self.old.clients n self.old.rows) }
        ensures ok { IfOk result (λ n. self.new ≡ with_row (Session n) self.old) }
        ensures open { IfOk result (λ _. self.old.closing ≡ None) }
        ensures err { OnErr result (self.new ≡ self.old) }
        ensures full { IsErrOf result RosterRefusal.Full → IsFull self.old.clients self.old.rows }
        ensures closing { IsErrOf result RosterRefusal.Closing → IsSome self.old.closing }
        ensures held { IsErrOf result RosterRefusal.Held → ⊥ }
    {
        let number = least_free(&mut self.taken, &self.rows, self.clients)?;
        self.add(RosterRow::new(Dest::Session(number), Some(link), peer, None))?;
        Ok(number)
    }

    /// The same for a client of the host that has this number, of which at most `most` clients are admitted as such.
    pub fn admit_client_of_host(
        &mut self,
        link: L,
        peer: P,
        host: u128,
        most: usize,
    ) -> Result<u32, RosterRefusal>
        ensures number { IfOk result (λ n. IsLeastFree self.old.clients n self.old.rows) }
        ensures ok { IfOk result (λ n. self.new ≡ with_row_of (Some host) (Session n) self.old) }
        ensures open { IfOk result (λ _. self.old.closing ≡ None) }
        ensures seats { IfOk result (λ n. clients_of host self.old.rows < most) }
        ensures err { OnErr result (self.new ≡ self.old) }
        ensures of_host { IsErrOf result RosterRefusal.HostFull ↔ (most ≤ clients_of host self.old.rows) }
        ensures full { IsErrOf result RosterRefusal.Full → IsFull self.old.clients self.old.rows }
        ensures closing { IsErrOf result RosterRefusal.Closing → IsSome self.old.closing }
        ensures held { IsErrOf result RosterRefusal.Held → ⊥ }
    {
        if clients_of(&self.rows, host) >= most {
            return Err(RosterRefusal::HostFull);
        }
        let number = least_free(&mut self.taken, &self.rows, self.clients)?;
        self.add(RosterRow::new(Dest::Session(number), Some(link), peer, Some(host)))?;
        Ok(number)
    }

    /// Gives the connection to a server its row, before it is made.
    pub fn begin_server(&mut self, number: u32, peer: P) -> Result<(), RosterRefusal>
        ensures ok { OnOk result (self.new ≡ with_row (Upstream number) self.old) }
        ensures open { OnOk result (self.old.closing ≡ None) }
        ensures err { OnErr result (self.new ≡ self.old) }
        ensures held { IsErrOf result RosterRefusal.Held ↔ (holds (Upstream number) self.old.rows ≡ true) }
        ensures closing { IsErrOf result RosterRefusal.Closing → IsSome self.old.closing }
        ensures full { IsErrOf result RosterRefusal.Full → ⊥ }
    {
        if holds(&self.rows, Dest::Upstream(number)) {
            return Err(RosterRefusal::Held);
        }
        self.add(RosterRow::new(Dest::Upstream(number), None, peer, None))
    }

    fn add(&mut self, row: RosterRow<L, P>) -> Result<(), RosterRefusal>
        ensures ok { OnOk result (self.new ≡ with_new row self.old) }
        ensures open { OnOk result (self.old.closing ≡ None) }
        ensures err { OnErr result (self.new ≡ self.old) }
        ensures closing { IsErrOf result RosterRefusal.Closing → IsSome self.old.closing }
        ensures full { IsErrOf result RosterRefusal.Full → ⊥ }
        ensures of_host { IsErrOf result RosterRefusal.HostFull → ⊥ }
        ensures held { IsErrOf result RosterRefusal.Held → ⊥ }
    {
        if self.closing.is_some() {
            return Err(RosterRefusal::Closing);
        }
        match self.rows.push(row) {
            Ok(()) => Ok(()),
            Err(_) => Err(RosterRefusal::OutOfMemory),
        }
    }

    /// The connection was made. Where it is too late its socket is dropped.
    pub fn connected(&mut self, dest: Dest, link: L)
        ensures late { IsSome self.old.closing → self.new ≡ self.old }
        ensures reached { self.old.closing ≡ None → self.new ≡ changed dest with_reached self.old }
    {
        if self.closing.is_none() {
            reach(&mut self.rows, dest, link);
        }
    }

    /// The connection has to be cut off. The first reason stands, but any other is told before that it is
    /// too slow: who has too old a protocol is marked in the same way.
    pub fn cut(&mut self, dest: Dest, why: Cut)
        ensures { self.new ≡ changed dest (with_cut why) self.old }
    {
        cut(&mut self.rows, dest, why);
    }

    /// A worker of the connection has ended. True exactly where there is such a connection and none is left.
    pub fn left(&mut self, dest: Dest) -> bool
        ensures new { self.new ≡ changed dest with_left self.old }
        ensures last { result ≡ is_last dest self.old.rows }
    {
        leave(&mut self.rows, dest)
    }

    /// The first connection at or after this place in `rows` whose workers have ended: its place.
    pub fn ended_from(&self, place: usize) -> Option<usize>
        ensures some { IfSome result (λ at. (place ≤ at) × (at < length self.now.rows)) }
        ensures ended { IfSome result (λ at. (d : RowState) → has_ended (get_or self.now.rows at d) ≡ true) }
        ensures none { IfNone result ((at : ℕ) (d : RowState) → place ≤ at → at < length self.now.rows → has_ended (get_or self.now.rows at d) ≡ false) }
    {
        for at in place..self.rows.len() {
            if self.rows[at].has_ended() {
                return Some(at);
            }
        }
        None
    }

    /// A server that was reached, and whose workers are to be started from now on: its place in `rows`.
    pub fn take_reached(&mut self) -> Option<usize>
        ensures place { result ≡ position is_reached self.old.rows }
        ensures new { self.new ≡ record self.old { rows = change_first is_reached with_served self.old.rows } }
    {
        take_reached(&mut self.rows)
    }

    /// Whether a server was reached whose workers are not started.
    pub fn has_reached(&self) -> bool
        ensures { result ≡ list_any is_reached self.now.rows }
    {
        self.rows.iter().any(|row| row.is_reached())
    }

    /// Takes the connection's row away.
    pub fn remove(&mut self, dest: Dest) -> Option<RosterRow<L, P>>
        ensures row { result ≡ find (is_row dest) self.old.rows }
        ensures new { self.new ≡ without dest self.old }
    {
        remove(&mut self.rows, dest)
    }
}

fn holds<L: Drop, P: Drop>(rows: &[RosterRow<L, P>], dest: Dest) -> bool
    ensures { result ≡ holds dest rows.now }
{
    rows.iter().any(|row| row.is_of(dest))
}

fn clients_of<L: Drop, P: Drop>(rows: &[RosterRow<L, P>], host: u128) -> usize
    ensures { result ≡ clients_of host rows.now }
{
    rows.iter().filter(|row| row.is_of_host(host)).count()
}

fn place_of<L: Drop, P: Drop>(rows: &[RosterRow<L, P>], dest: Dest) -> Option<usize>
    ensures { result ≡ position (is_row dest) rows.now }
{
    rows.iter().position(|row| row.is_of(dest))
}

#[tactic(auto, using(rows::proofs::RowLemmas::set_is_change_first, rows::proofs::RowLemmas::change_first_none))]
fn reach<L: Drop, P: Drop>(rows: &mut Vec<RosterRow<L, P>>, dest: Dest, link: L)
    ensures { rows.new.items ≡ change_first (is_row dest) with_reached rows.old.items }
{
    if let Some(place) = place_of(rows, dest) {
        let row = &mut rows[place];
        row.reach(link);
    }
}

#[tactic(auto, using(rows::proofs::RowLemmas::set_is_change_first, rows::proofs::RowLemmas::change_first_none))]
fn cut<L: Drop, P: Drop>(rows: &mut Vec<RosterRow<L, P>>, dest: Dest, why: Cut)
    ensures { rows.new.items ≡ change_first (is_row dest) (with_cut why) rows.old.items }
{
    if let Some(place) = place_of(rows, dest) {
        let row = &mut rows[place];
        row.set_cut(why);
    }
}

#[tactic(auto, using(rows::proofs::RowLemmas::set_is_change_first, rows::proofs::RowLemmas::change_first_none, rows::proofs::RowLemmas::find_is_there, rows::proofs::RowLemmas::find_none))]
fn leave<L: Drop, P: Drop>(rows: &mut Vec<RosterRow<L, P>>, dest: Dest) -> bool
    ensures new { rows.new.items ≡ change_first (is_row dest) with_left rows.old.items }
    ensures last { result ≡ is_last dest rows.old.items }
{
    match place_of(rows, dest) {
        Some(place) => {
            let row = &mut rows[place];
            row.leave();
            row.has_ended()
        }
        None => false,
    }
}

#[tactic(auto, using(rows::proofs::RowLemmas::set_is_change_first, rows::proofs::RowLemmas::change_first_none))]
fn take_reached<L: Drop, P: Drop>(rows: &mut Vec<RosterRow<L, P>>) -> Option<usize>
    ensures place { result ≡ position is_reached rows.old.items }
    ensures new { rows.new.items ≡ change_first is_reached with_served rows.old.items }
{
    match place_reached(rows) {
        Some(place) => {
            let row = &mut rows[place];
            row.serve();
            Some(place)
        }
        None => None,
    }
}

fn place_reached<L: Drop, P: Drop>(rows: &[RosterRow<L, P>]) -> Option<usize>
    ensures { result ≡ position is_reached rows.now }
{
    rows.iter().position(|row| row.is_reached())
}

#[tactic(auto, using(rows::proofs::RowLemmas::remove_is_remove_first, rows::proofs::RowLemmas::remove_first_none, rows::proofs::RowLemmas::find_is_there, rows::proofs::RowLemmas::find_none))]
fn remove<L: Drop, P: Drop>(rows: &mut Vec<RosterRow<L, P>>, dest: Dest) -> Option<RosterRow<L, P>>
    ensures row { result ≡ find (is_row dest) rows.old.items }
    ensures new { rows.new.items ≡ remove_first (is_row dest) rows.old.items }
{
    match place_of(rows, dest) {
        Some(place) => Some(rows.remove(place)),
        None => None,
    }
}
