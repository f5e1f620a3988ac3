//! What is asked for of each real name, counted.
ghost use Rattle.std.specs.Prelude.{◌≡◌, ◌≤◌, ◌+◌, ◌*◌, ℕ, List, None, OnOk, OnErr, bytes_eq, if◌then◌else◌};
ghost use Rattle.indexmap.specs.IndexMap.{get, index_map_len};
ghost use Rattle.mask_merge.specs.Counts.{counted_with, counted_without, exchanged, nothing_counted, props_wanted, wanted_of};
ghost use Rattle.named_rows.specs.Demand.{all_exchanged, demand_of, ChangesDemand, SameDemand};

use crate::subs::Subs;
use indexmap::IndexMap;
use mask_merge::{Ask, Tally, Want};
use pv_name::Name;
use row_index::NameHints;
use std::alloc::{AllocError, Global};
use std::marker::Model;

/// What the subscriptions to each real name and the channels on it ask for. A name of which nothing
/// stands has no tally, and takes no memory.
#[derive(Drop)]
pub struct Demand {
    tallies: IndexMap<Name, Tally>,
    hints: NameHints,
    alloc: Global,
}

impl Model for Demand {
    ghost use Rattle.std.specs.Prelude.{ℕ, List};
    ghost use Rattle.mask_merge.specs.Counts.{Counts};
    ghost use Rattle.named_rows.specs.Demand.{IsKept};

    ghost Value = { List (List ℕ × Counts) };

    ghost view = { λ d. d.tallies.entries };

    ghost invariant = { λ d. IsKept d.tallies.entries d.hints };
}

impl Demand {
    pub fn new(alloc: Global) -> Demand
        ensures { (name : List ℕ) → demand_of result name ≡ nothing_counted }
    {
        Demand {
            tallies: IndexMap::new(alloc),
            hints: NameHints::new(alloc),
            alloc,
        }
    }

    /// What is asked for of a name together, where its native count is this, and whether properties are,
    /// where its elements are states or are not.
    pub fn of(&self, name: &Name, native: u32, states: bool) -> (Option<Want>, bool)
        ensures want { result.0 ≡ wanted_of native (demand_of self.now name.now) }
        ensures props { result.1 ≡ props_wanted states (demand_of self.now name.now) }
    {
        match self.hints.find(&self.tallies, name) {
            Some(tally) => (tally.want_of(native), tally.props_of(states)),
            None => (None, false),
        }
    }

    /// One more row asks for something, or for nothing yet.
    pub(crate) fn add(&mut self, name: &Name, ask: Option<Ask>) -> Result<(), AllocError>
        ensures ok { OnOk result (ChangesDemand name.now (counted_with ask) self.old self.new) }
        ensures err { OnErr result (SameDemand self.old self.new) }
    {
        match self.tallies.get_mut(name) {
            Some(tally) => add_to(tally, ask),
            None => self.add_first(name, ask),
        }
    }

    // The first row on a name.
    fn add_first(&mut self, name: &Name, ask: Option<Ask>) -> Result<(), AllocError>
        requires { demand_of self.old name.now ≡ nothing_counted }
        ensures ok { OnOk result (ChangesDemand name.now (counted_with ask) self.old self.new) }
        ensures err { OnErr result (SameDemand self.old self.new) }
    {
        let Ok(copy) = name.copy() else {
            return Err(AllocError);
        };
        let mut tally = Tally::new(self.alloc);
        add_to(&mut tally, ask)?;
        match self.tallies.insert(copy, tally) {
            Ok(_) => {
                self.hints.note_last(&self.tallies);
                Ok(())
            }
            Err(_) => Err(AllocError),
        }
    }

    /// One row less asks for this.
    pub(crate) fn remove(&mut self, name: &Name, ask: Option<Ask>)
        ensures { ChangesDemand name.now (counted_without ask) self.old self.new }
    {
        let Some(tally) = self.tallies.get_mut(name) else {
            return;
        };
        remove_from(tally, ask);
        if tally.is_empty() {
            forget(&mut self.tallies, &mut self.hints, name);
        }
    }

    /// A row asks for something else. This takes no memory.
    pub(crate) fn exchange(&mut self, name: &Name, before: Option<Ask>, after: Option<Ask>)
        ensures { ChangesDemand name.now (exchanged before after) self.old self.new }
    {
        let Some(tally) = self.tallies.get_mut(name) else {
            return;
        };
        tally.exchange(before, after);
    }

    /// The client of a channel on this name may read now, or may no longer: what the subscriptions on
    /// the channel ask for. This takes no memory.
    pub(crate) fn exchange_on(
        &mut self,
        name: &Name,
        subs: &Subs,
        session: u32,
        sid: u32,
        before: bool,
        after: bool,
    )
        ensures { ChangesDemand name.now (all_exchanged before after session sid subs.now.rows) self.old self.new }
    {
        let Some(tally) = self.tallies.get_mut(name) else {
            return;
        };
        subs.exchange_on(tally, session, sid, before, after);
    }
}

fn add_to(tally: &mut Tally, ask: Option<Ask>) -> Result<(), AllocError>
    ensures ok { OnOk result (tally.new ≡ counted_with ask tally.old) }
    ensures err { OnErr result (tally.new ≡ tally.old) }
{
    match ask {
        Some(ask) => tally.add_ask(ask),
        None => tally.add_silent(),
    }
}

fn remove_from(tally: &mut Tally, ask: Option<Ask>)
    ensures { tally.new ≡ counted_without ask tally.old }
{
    match ask {
        Some(ask) => tally.remove_ask(ask),
        None => tally.remove_silent(),
    }
}

// Takes out a tally, with its name. The last one stands in its place then.
fn forget(tallies: &mut IndexMap<Name, Tally>, hints: &mut NameHints, name: &Name)
    ensures tallies { (n : List ℕ) → get bytes_eq tallies.new n ≡ (if bytes_eq name.now n then None else get bytes_eq tallies.old n) }
    ensures hints { hints.old ≤ 4 * index_map_len tallies.old + 16 → hints.new ≤ 4 * index_map_len tallies.new + 16 }
{
    if let Some((place, _, _)) = tallies.swap_remove_full(name) {
        hints.note(tallies, place);
    }
}
