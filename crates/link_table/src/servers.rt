//! Rows of servers.
ghost use Rattle.std.specs.Prelude.{◌≡◌, [], ◌∷◌, ◌++◌, not, ◌&&◌, length, slice_get, OnOk, OnErr};
ghost use Rattle.std.specs.List.{list_any, filter, find, position};
ghost use Rattle.std.specs.Option.{option_copied};
ghost use Rattle.rows.specs.Rows.{change_first};
ghost use Rattle.link_table.specs.Servers.{is_server, is_not_server, with_minor};

use crate::places::Places;
use std::alloc::{AllocError, Global};
use std::marker::Model;

/// A server's connection.
#[derive(Clone, Copy, Debug, PartialEq, Eq)]
pub struct Server {
    /// The number that the caller gave it.
    pub number: u32,
    /// The minor version that the server said, 0 until then.
    pub minor: u32,
}

/// Servers in the order of adding. One is found where it was noted, however many others stand.
#[derive(Drop)]
pub(crate) struct ServerRows {
    rows: Vec<Server>,
    places: Places,
    // No number was added that a row had: so what has a number is the first one that has.
    apart: bool,
}

impl Model for ServerRows {
    ghost use Rattle.std.specs.Prelude.{List};
    ghost use Rattle.link_table.specs.declared.servers.Server.{Server};
    ghost use Rattle.link_table.specs.Servers.{HasNumbersApart};

    ghost Value = { List Server };

    ghost view = { λ s. s.rows.items };

    ghost invariant = { λ s. HasNumbersApart s.apart s.rows.items };
}

impl ServerRows {
    /// No server. This takes no memory.
    pub(crate) fn new(alloc: Global) -> ServerRows
        ensures { result ≡ [] }
    {
        ServerRows {
            rows: Vec::new(alloc),
            places: Places::new(alloc),
            apart: true,
        }
    }

    /// The rows in the order of adding.
    pub(crate) fn as_slice(&self) -> &[Server]
        ensures { result.now ≡ self.now }
    {
        &self.rows
    }

    pub(crate) fn len(&self) -> usize
        ensures { result ≡ length self.now }
    {
        self.rows.len()
    }

    #[tactic(auto, using(crate::proofs::KeyedLemmas::is_some_found))]
    pub(crate) fn stands(&self, number: u32) -> bool
        ensures { result ≡ list_any (is_server number) self.now }
    {
        self.find(number).is_some()
    }

    /// The row of this number: the one that stands where it was noted, or else the first that a walk finds.
    pub(crate) fn find(&self, number: u32) -> Option<&Server>
        ensures { option_copied result ≡ find (is_server number) self.now }
    {
        match row_at(&self.rows, self.places.get(number)) {
            Some(row) if self.apart && row.number == number => Some(row),
            _ => walked(&self.rows, number),
        }
    }

    /// Adds a row as the last one.
    pub(crate) fn add(&mut self, server: Server) -> Result<(), AllocError>
        ensures ok { OnOk result (self.new ≡ self.old ++ server ∷ []) }
        ensures err { OnErr result (self.new ≡ self.old) }
    {
        let place = self.rows.len();
        let stands = self.stands(server.number);
        self.rows.push(server)?;
        self.apart = stay_apart(self.apart, stands);
        self.places.note(server.number, place);
        Ok(())
    }

    /// Keeps the minor version that a server said. It says it once, so this may walk.
    pub(crate) fn put(&mut self, number: u32, minor: u32)
        ensures { self.new ≡ change_first (is_server number) (with_minor minor) self.old }
    {
        put_minor(&mut self.rows, number, minor);
    }

    /// Removes a server, and notes anew where the others stand. It takes no memory.
    pub(crate) fn remove(&mut self, number: u32)
        ensures { self.new ≡ filter (is_not_server number) self.old }
    {
        remove_row(&mut self.rows, number);
        self.places.note_all(&self.rows);
    }
}

// Whether numbers are apart once one more has a row, where it had one or not.
fn stay_apart(apart: bool, stands: bool) -> bool
    ensures { result ≡ (apart && not stands) }
{
    apart && !stands
}

fn row_at(rows: &[Server], place: usize) -> Option<&Server>
    ensures { option_copied result ≡ slice_get rows.now place }
{
    rows.get(place)
}

fn walked(rows: &[Server], number: u32) -> Option<&Server>
    ensures { option_copied result ≡ find (is_server number) rows.now }
{
    rows.iter().find(|row| row.number == number)
}

fn place_of(rows: &[Server], number: u32) -> Option<usize>
    ensures { result ≡ position (is_server number) rows.now }
{
    rows.iter().position(|row| row.number == number)
}

#[tactic(auto, using(rows::proofs::RowLemmas::set_is_change_first, rows::proofs::RowLemmas::change_first_none))]
fn put_minor(rows: &mut Vec<Server>, number: u32, minor: u32)
    ensures { rows.new.items ≡ change_first (is_server number) (with_minor minor) rows.old.items }
{
    if let Some(place) = place_of(rows, number) {
        let row = &mut rows[place];
        row.minor = minor;
    }
}

fn remove_row(rows: &mut Vec<Server>, number: u32)
    ensures { rows.new.items ≡ filter (is_not_server number) rows.old.items }
{
    rows.retain(|row| row.number != number);
}
