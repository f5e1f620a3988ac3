//! How many rows were looked at.
ghost use Rattle.std.specs.Prelude.{◌≡◌};
ghost use Rattle.channel_table.specs.Looks.{IsCountedExactly};

use crate::brand::Brand;
use std::marker::Model;

/// How many rows of a table were looked at, up to the type's last value. [`Table::new`] makes one
/// beside each table, and nothing else does; whoever looks at a row hands it in. A contract sees the
/// brand beside the number: a table takes no count but its own.
///
/// [`Table::new`]: crate::Table::new
#[derive(Debug, Drop)]
pub struct Visits {
    rows: u64,
    brand: Brand,
}

impl Model for Visits {
    ghost use Rattle.channel_table.specs.Looks.{Looks};

    ghost Value = { Looks };

    ghost view = { λ v. record { looks = v.rows; brand = v.brand } };
}

impl Visits {
    /// No row was looked at.
    pub(crate) fn new(brand: Brand) -> Visits
        ensures { result ≡ record { looks = 0; brand = brand } }
    {
        Visits { rows: 0, brand }
    }

    /// So many rows were looked at.
    pub fn visited(&self) -> u64
        ensures { result ≡ self.now.looks }
    {
        self.rows
    }

    /// So many rows more are looked at.
    pub(crate) fn count(&mut self, rows: usize)
        ensures { IsCountedExactly rows self.old self.new }
    {
        self.rows = self.rows.saturating_add(rows as u64);
    }
}
