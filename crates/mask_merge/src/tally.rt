//! The tally of what readers want.
ghost use Rattle.std.specs.Prelude.{◌≡◌, false, Some, None, IsTrue, OnOk, OnErr};
ghost use Rattle.mask_merge.specs.Counts.{nothing_counted, is_nothing, ask_for, counted_with, counted_without, exchanged, wanted, wanted_of, props_wanted};

use crate::kept::{KeptCounts, count_in, count_out, is_held, make_room, wanted_by};
use crate::want::{Ask, Want};
use std::alloc::{AllocError, Global};
use std::marker::Model;

/// How many readers of a variable ask for LOG, for properties and for texts, how many want nothing
/// now, and how many elements each of the others wants. A contract sees it as these counts.
#[derive(Debug, Drop)]
pub struct Tally {
    kept: KeptCounts,
}

impl Model for Tally {
    ghost use Rattle.mask_merge.specs.Counts.{Counts};
    ghost use Rattle.mask_merge.specs.Kept.{counts_of, Fits};

    ghost Value = { Counts };

    ghost view = { λ t. counts_of t.kept };

    ghost invariant = { λ t. Fits t.kept };
}

impl Tally {
    /// Nobody is counted. This takes no memory.
    pub fn new(alloc: Global) -> Tally
        ensures { result ≡ nothing_counted }
    {
        Tally {
            kept: KeptCounts {
                logs: 0,
                silent: 0,
                props: 0,
                texts: 0,
                counts: Vec::new(alloc),
            },
        }
    }

    /// Whether nobody is counted, not even a reader that wants nothing now.
    pub fn is_empty(&self) -> bool
        ensures value { result ≡ is_nothing self.now }
        ensures nothing { IsTrue result → self.now ≡ nothing_counted }
    {
        self.kept.counts.is_empty() && self.kept.silent == 0
    }

    /// What all want together, as a server is asked for it: nothing where nobody wants anything.
    pub fn want(&self) -> Option<Want>
        ensures { result ≡ wanted self.now }
    {
        self.want_of(0)
    }

    /// What all want together of a variable with this native count, for which a count of 0 stands.
    pub fn want_of(&self, native: u32) -> Option<Want>
        ensures { result ≡ wanted_of native self.now }
    {
        wanted_by(native, self.kept.logs, &self.kept.counts)
    }

    /// Whether anybody asks for the properties, where texts don't take them.
    pub fn props(&self) -> bool
        ensures { result ≡ props_wanted false self.now }
    {
        self.props_of(false)
    }

    /// Whether anybody asks for the properties of a variable whose elements are states or aren't: of
    /// states a text takes them too.
    pub fn props_of(&self, states: bool) -> bool
        ensures { result ≡ props_wanted states self.now }
    {
        self.kept.props > 0 || states && self.kept.texts > 0
    }

    /// Counts one reader more, which wants these events and this count, and the properties or not.
    /// Equal ones may be there.
    pub fn add(&mut self, mask: u16, count: u32, props: bool) -> Result<(), AllocError>
        ensures ok { OnOk result (self.new ≡ counted_with (Some (ask_for mask count props)) self.old) }
        ensures err { OnErr result (self.new ≡ self.old) }
    {
        self.add_ask(Ask {
            want: Want { mask, count },
            props,
            texts: false,
        })
    }

    /// Counts one reader more, which asks for this. Equal ones may be there.
    pub fn add_ask(&mut self, ask: Ask) -> Result<(), AllocError>
        ensures ok { OnOk result (self.new ≡ counted_with (Some ask) self.old) }
        ensures err { OnErr result (self.new ≡ self.old) }
    {
        make_room(&mut self.kept)?;
        count_in(&mut self.kept, Some(ask));
        Ok(())
    }

    /// Counts one reader more that wants nothing now. There is room then for what it may come to want.
    pub fn add_silent(&mut self) -> Result<(), AllocError>
        ensures ok { OnOk result (self.new ≡ counted_with None self.old) }
        ensures err { OnErr result (self.new ≡ self.old) }
    {
        make_room(&mut self.kept)?;
        count_in(&mut self.kept, None);
        Ok(())
    }

    /// Counts one reader less, which wanted these events and this count, and the properties or not,
    /// where such a one is counted.
    pub fn remove(&mut self, mask: u16, count: u32, props: bool)
        ensures { self.new ≡ counted_without (Some (ask_for mask count props)) self.old }
    {
        self.remove_ask(Ask {
            want: Want { mask, count },
            props,
            texts: false,
        });
    }

    /// Counts one reader less, which asked for this, where such a one is counted.
    pub fn remove_ask(&mut self, ask: Ask)
        ensures { self.new ≡ counted_without (Some ask) self.old }
    {
        if is_held(&self.kept, Some(ask)) {
            count_out(&mut self.kept, Some(ask));
        }
    }

    /// Counts one reader less that wanted nothing, where such a one is counted.
    pub fn remove_silent(&mut self)
        ensures { self.new ≡ counted_without None self.old }
    {
        if is_held(&self.kept, None) {
            count_out(&mut self.kept, None);
        }
    }

    /// Counts a reader that asks for something else than it did, where such a one is counted; `None` is
    /// one that wants nothing. This takes no memory.
    pub fn exchange(&mut self, old: Option<Ask>, new: Option<Ask>)
        ensures { self.new ≡ exchanged old new self.old }
    {
        if is_held(&self.kept, old) {
            count_out(&mut self.kept, old);
            count_in(&mut self.kept, new);
        }
    }
}
