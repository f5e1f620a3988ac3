//! The policy, and the searches that are remembered.
ghost use Rattle.std.specs.Prelude.{◌≡◌, ◌<◌, [], ◌∷◌, ◌++◌, filter, filter_map, length, map, IfOk, OnOk};
ghost use Rattle.std.specs.List.{find, list_any, position, remove};
ghost use Rattle.std.specs.Option.{option_copied};
ghost use Rattle.gateway_state.specs.Resolution.{lead_of, real_in};
ghost use Rattle.gateway_state.specs.Searches.{grown_stale, is_fresh, is_from, leads_to, made_now, outworn, refreshed, same_search, searched_again, searched_first, with_search, without_search};
ghost use Rattle.gateway_state.specs.Variables.{search_name, search_names};
ghost use Rattle.plain_rows.specs.SearchRows.{is_the, itself};

use crate::lists::{Picker, any, count, find, place_of};
use gateway_state::{Limits, RememberedSearch, lead_of};
use pv_alias::Lead;
use pv_name::{Host, Name, same_host};
use rule_desk::Policy;
use std::alloc::{AllocError, Global};
use std::marker::Model;

/// A host's search for a name.
#[derive(Clone, Copy)]
struct SearchFor<'a> {
    host: &'a Host,
    name: &'a Name,
}

impl<'a> Picker<RememberedSearch> for SearchFor<'a> {
    ghost picks = { λ key. same_search key.host.now key.name.now };

    fn picks(&self, row: &RememberedSearch) -> bool {
        row.name == *self.name && same_host(&row.host, self.host)
    }
}

/// The searches of a host.
#[derive(Clone, Copy)]
struct SearchesFrom<'a> {
    host: &'a Host,
}

impl<'a> Picker<RememberedSearch> for SearchesFrom<'a> {
    ghost picks = { λ key. is_from key.host.now };

    fn picks(&self, row: &RememberedSearch) -> bool {
        same_host(&row.host, self.host)
    }
}

/// The policy that holds, and the searches that are remembered, the oldest first. What each leads to under
/// it stands beside them, so that whether a name is searched for takes no memory.
#[derive(Drop)]
pub struct PlainSearches {
    policy: Policy,
    rows: Vec<RememberedSearch>,
    /// The real name that each row leads to, in their order.
    reals: Vec<Option<Name>>,
}

impl Model for PlainSearches {
    ghost use Rattle.plain_rows.specs.SearchRows.{SearchRows};
    ghost use Rattle.gateway_state.specs.Variables.{search_name};
    ghost use Rattle.rule_desk.specs.contracts.policy.Policy as the_policy;
    ghost use Rattle.std.specs.Coded.{codes};
    ghost use Rattle.std.specs.Prelude.{◌≡◌, map};

    ghost Value = { SearchRows };

    ghost coded = { Prim.hlevel (codes, the_policy.the_row.coded) };

    ghost view = { λ s. record { policy = s.policy; rows = s.rows.items } };

    ghost invariant = { λ s. s.reals.items ≡ map (search_name s.policy) s.rows.items };
}

impl PlainSearches {
    /// Nothing is remembered under this policy.
    pub(crate) fn new(alloc: Global, policy: Policy) -> PlainSearches
        ensures { result ≡ record { policy = policy; rows = [] } }
    {
        PlainSearches {
            policy,
            rows: Vec::new(alloc),
            reals: Vec::new(alloc),
        }
    }

    /// The policy that holds.
    pub fn policy(&self) -> &Policy
        ensures { result.now ≡ self.now.policy }
    {
        &self.policy
    }

    /// How many searches are remembered.
    pub(crate) fn len(&self) -> usize
        ensures { result ≡ length self.now.rows }
    {
        self.rows.len()
    }

    /// The real name that each of them leads to, in order.
    #[tactic(auto, using(crate::proofs::LedTo::names_of_reals))]
    pub(crate) fn reals(&self) -> &[Option<Name>]
        ensures { filter_map itself result.now ≡ search_names self.now.policy self.now.rows }
    {
        self.reals.as_slice()
    }

    /// Whether one of them leads to this real name.
    #[tactic(auto, using(crate::proofs::LedTo::any_real_is_any_lead))]
    pub(crate) fn leads_to(&self, name: &Name) -> bool
        ensures { result ≡ list_any (leads_to self.now.policy name.now) self.now.rows }
    {
        is_among(&self.reals, name)
    }

    /// A host searches for a name: that is remembered, once. An old search may go for it, or it is
    /// remembered only where there is room.
    pub fn remember(
        &mut self,
        alloc: Global,
        limits: Limits,
        host: &Host,
        name: &Name,
    ) -> Result<(), AllocError>
        ensures { OnOk result (self.new ≡ record self.old { rows = with_search limits host.now name.now self.old.rows }) }
    {
        if any(&self.rows, SearchFor { host, name }) {
            self.search_again(limits, host, name)
        } else {
            self.search_first(alloc, limits, host, name)
        }
    }

    /// The search of a host for a name goes, where there is one.
    #[tactic(auto, using(crate::proofs::LedTo::place_is_within, rows::proofs::RowLemmas::remove_is_remove_first, rows::proofs::RowLemmas::remove_first_none))]
    pub fn end(&mut self, host: &Host, name: &Name)
        ensures { self.new ≡ record self.old { rows = without_search (find (same_search host.now name.now) self.old.rows) self.old.rows } }
    {
        if let Some(row) = find(&self.rows, SearchFor { host, name }) {
            if let Some(place) = place_of_same(&self.rows, row) {
                self.remove_at(place);
            }
        }
    }

    /// The searches go that weren't made since this was called last; none of those that stay was made since.
    #[tactic(auto, using(crate::proofs::LedTo::leads_of_grown))]
    pub fn forget_stale(&mut self, alloc: Global) -> Result<(), AllocError>
        ensures { OnOk result (self.new ≡ record self.old { rows = map grown_stale (filter is_fresh self.old.rows) }) }
    {
        let left = fresh_reals(&self.rows, alloc, &self.policy)?;
        keep_fresh(&mut self.rows);
        grow_stale(&mut self.rows);
        self.reals = left;
        Ok(())
    }

    /// From now on another policy holds.
    pub fn set_policy(&mut self, alloc: Global, policy: Policy) -> Result<(), AllocError>
        ensures { OnOk result (self.new ≡ record self.old { policy = policy }) }
    {
        let reals = reals(&self.rows, alloc, &policy)?;
        self.policy = policy;
        self.reals = reals;
        Ok(())
    }

    /// Forgets all of them.
    pub fn clear(&mut self)
        ensures { self.new ≡ record self.old { rows = [] } }
    {
        self.rows.clear();
        self.reals.clear();
    }

    /// A search that is remembered is made again: where old ones go, it is the latest from now on.
    #[tactic(auto, using(crate::proofs::LedTo::leads_without_place, crate::proofs::LedTo::leads_of_refreshed, crate::proofs::LedTo::lead_at, crate::proofs::LedTo::place_is_within, crate::proofs::LedTo::searched_again_none, rows::proofs::RowLemmas::set_is_change_first, rows::proofs::RowLemmas::remove_is_remove_first, rows::proofs::RowLemmas::find_is_there))]
    fn search_again(&mut self, limits: Limits, host: &Host, name: &Name) -> Result<(), AllocError>
        ensures { OnOk result (self.new ≡ record self.old { rows = searched_again limits host.now name.now self.old.rows }) }
    {
        let Some(place) = place_of(&self.rows, SearchFor { host, name }) else {
            return Ok(());
        };
        if !limits.makes_room {
            let row = &mut self.rows[place];
            row.fresh = true;
            return Ok(());
        }
        let mut row = self.rows.remove(place);
        let real = self.reals.remove(place);
        row.fresh = true;
        self.push(row, real)
    }

    /// One is made that isn't remembered: an old one goes for it, or it is remembered where there is room.
    fn search_first(
        &mut self,
        alloc: Global,
        limits: Limits,
        host: &Host,
        name: &Name,
    ) -> Result<(), AllocError>
        ensures { OnOk result (self.new ≡ record self.old { rows = searched_first limits host.now name.now self.old.rows }) }
    {
        if limits.makes_room {
            self.forget_outworn(limits, host);
            return self.add(alloc, host, name);
        }
        if self.rows.len() >= limits.searches {
            return Ok(());
        }
        self.add(alloc, host, name)
    }

    /// The search goes that does where one more of a host is remembered, if one does.
    #[tactic(auto, using(crate::proofs::LedTo::place_is_within, rows::proofs::RowLemmas::remove_is_remove_first, rows::proofs::RowLemmas::remove_first_none))]
    fn forget_outworn(&mut self, limits: Limits, host: &Host)
        ensures { self.new ≡ record self.old { rows = without_search (outworn limits host.now self.old.rows) self.old.rows } }
    {
        if let Some(row) = outworn(&self.rows, limits, host) {
            if let Some(place) = place_of_same(&self.rows, row) {
                self.remove_at(place);
            }
        }
    }

    #[tactic(auto, using(crate::proofs::LedTo::leads_without_place))]
    fn remove_at(&mut self, place: usize)
        requires { place < length self.old.rows }
        ensures { self.new ≡ record self.old { rows = remove self.old.rows place } }
    {
        self.rows.remove(place);
        self.reals.remove(place);
    }

    /// Adds a search that is made now.
    fn add(&mut self, alloc: Global, host: &Host, name: &Name) -> Result<(), AllocError>
        ensures { OnOk result (self.new ≡ record self.old { rows = self.old.rows ++ made_now host.now name.now ∷ [] }) }
    {
        let real = real_in(lead_of(alloc, &self.policy, host, name)?);
        let row = RememberedSearch {
            host: host.copy()?,
            name: name.copy()?,
            fresh: true,
        };
        self.push(row, real)
    }

    #[tactic(auto, using(crate::proofs::LedTo::leads_with_one_more))]
    fn push(&mut self, row: RememberedSearch, real: Option<Name>) -> Result<(), AllocError>
        requires { real ≡ search_name self.old.policy row }
        ensures { OnOk result (self.new ≡ record self.old { rows = self.old.rows ++ row ∷ [] }) }
    {
        self.rows.reserve(1)?;
        self.reals.push(real)?;
        self.rows.push_reserved(row);
        Ok(())
    }
}

/// The search that goes where one more of a host is remembered and room is made: its own oldest where it
/// has its share, else the oldest of all where there are as many as may be.
#[tactic(auto, using(crate::proofs::LedTo::length_is_count))]
fn outworn<'a>(
    rows: &'a [RememberedSearch],
    limits: Limits,
    host: &Host,
) -> Option<&'a RememberedSearch>
    ensures { option_copied result ≡ outworn limits host.now rows.now }
{
    let its = count(rows, SearchesFrom { host });
    if its > 0 && its >= limits.share {
        find(rows, SearchesFrom { host })
    } else if rows.len() >= limits.searches {
        rows.first()
    } else {
        None
    }
}

/// The place of the first search like this one.
fn place_of_same(rows: &[RememberedSearch], row: &RememberedSearch) -> Option<usize>
    ensures { result ≡ position (same_search row.now.host row.now.name) rows.now }
{
    let same = SearchFor {
        host: &row.host,
        name: &row.name,
    };
    place_of(rows, same)
}

/// The real name of a lead.
fn real_in(lead: Option<Lead>) -> Option<Name>
    ensures { result ≡ real_in lead }
{
    match lead {
        Some(lead) => Some(lead.real),
        None => None,
    }
}

fn is_among(reals: &[Option<Name>], name: &Name) -> bool
    ensures { result ≡ list_any (is_the name.now) reals.now }
{
    reals.iter().any(|real| is_the(real, name))
}

/// Whether it is there and this name.
fn is_the(real: &Option<Name>, name: &Name) -> bool
    ensures { result ≡ is_the name.now real.now }
{
    match real {
        Some(real) => *real == *name,
        None => false,
    }
}

/// What each of the searches leads to.
fn reals(
    rows: &[RememberedSearch],
    alloc: Global,
    policy: &Policy,
) -> Result<Vec<Option<Name>>, AllocError>
    ensures { IfOk result (λ reals. reals.items ≡ map (search_name policy.now) rows.now) }
{
    let mut reals = Vec::new(alloc);
    for row in rows {
        reals.push(real_in(lead_of(alloc, policy, &row.host, &row.name)?))?;
    }
    Ok(reals)
}

/// What each of the searches leads to that was made since the last age.
fn fresh_reals(
    rows: &[RememberedSearch],
    alloc: Global,
    policy: &Policy,
) -> Result<Vec<Option<Name>>, AllocError>
    ensures { IfOk result (λ reals. reals.items ≡ map (search_name policy.now) (filter is_fresh rows.now)) }
{
    let mut reals = Vec::new(alloc);
    for row in rows {
        if row.fresh {
            reals.push(real_in(lead_of(alloc, policy, &row.host, &row.name)?))?;
        }
    }
    Ok(reals)
}

fn keep_fresh(rows: &mut Vec<RememberedSearch>)
    ensures { rows.new.items ≡ filter is_fresh rows.old.items }
{
    rows.retain(|row| row.fresh);
}

fn grow_stale(rows: &mut Vec<RememberedSearch>)
    ensures { rows.new.items ≡ map grown_stale rows.old.items }
{
    for row in rows.iter_mut() {
        row.fresh = false;
    }
}
