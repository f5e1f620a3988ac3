//! A table of clients' rows beside the count of looks at them.
use crate::shown::{show_channel, show_read, show_session, show_sub};
use crate::words::Told;
use channel_table::{Table, Visits};
use pv_name::Name;
use std::alloc::Global;
use std::marker::Model;

/// A table, and its own count of looks.
#[derive(Drop)]
pub(crate) struct VisitedRows {
    pub(crate) table: Table,
    pub(crate) visits: Visits,
}

impl Model for VisitedRows {
    ghost use Rattle.std.specs.Prelude.{◌≡◌};
    ghost use Rattle.channel_table.specs.Looks.{BrandedRows};

    ghost Value = { BrandedRows };

    ghost view = { λ r. r.table };

    ghost invariant = { λ r. r.visits.brand ≡ r.table.brand };
}

impl VisitedRows {
    pub(crate) fn new(alloc: Global) -> VisitedRows {
        let (table, visits) = Table::new(alloc);
        VisitedRows { table, visits }
    }

    /// Shows the nth session by rising number, where there is one; so do those below with their rows.
    pub(crate) fn show_nth_session(&mut self, n: usize, told: &mut Told) {
        if let Some(row) = self.table.nth_session(&mut self.visits, n) {
            show_session(row, told);
        }
    }

    pub(crate) fn show_channel_of(&mut self, session: u32, n: usize, told: &mut Told) {
        if let Some(row) = self.table.nth_channel_of(&mut self.visits, session, n) {
            show_channel(row, told);
        }
    }

    pub(crate) fn show_sub_of(&mut self, session: u32, n: usize, told: &mut Told) {
        if let Some(row) = self.table.nth_sub_of(&mut self.visits, session, n) {
            show_sub(row, told);
        }
    }

    pub(crate) fn show_read_of(&mut self, session: u32, n: usize, told: &mut Told) {
        if let Some(row) = self.table.nth_read_of(&mut self.visits, session, n) {
            show_read(&row, told);
        }
    }

    pub(crate) fn show_channel_on(&mut self, name: &Name, n: usize, told: &mut Told) {
        if let Some(row) = self.table.channel_on(&mut self.visits, name, n) {
            show_channel(row, told);
        }
    }

    pub(crate) fn show_read_on(&mut self, name: &Name, n: usize, told: &mut Told) {
        if let Some(row) = self.table.read_on(&mut self.visits, name, n) {
            show_read(&row, told);
        }
    }
}
