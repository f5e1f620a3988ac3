//! Searches that are remembered.
ghost use Rattle.std.specs.Prelude.{◌≡◌, [], ◌∷◌, ◌++◌, false, length, map, filter, option_map, IfOk, OnOk, OnErr};
ghost use Rattle.std.specs.List.{find, list_any};
ghost use Rattle.named_rows.specs.Indexes.{is_at, is_not_at};
ghost use Rattle.gateway_state.specs.Resolution.{lead_of};
ghost use Rattle.gateway_state.specs.Searches.{grown_stale, is_fresh, is_stale, leads_to, left_by_search, made_now, same_search, searched_first, with_search, without_search};
ghost use Rattle.gateway_state.specs.Variables.{search_names};
ghost use Rattle.state_tables.specs.Kept.{again_found, is_stale_row, kept_as, kept_key, key_in, made_again_under, outworn_row, reals_of, rows_again, rows_after, search_in, search_of, searches_of, serial_key, LedByOneMore, Stand};
ghost use Rattle.state_tables.specs.Leads.{AreLeads};

use crate::kept::{KeptSearch, copied, kept_row, made_now};
use crate::leads::{AskedName, Leads};
use crate::search_table::SearchTable;
use gateway_state::{Limits, RememberedSearch, lead_of};
use pv_alias::{Lead, Resolver};
use pv_name::{Host, Name};
use row_index::Key;
use rule_desk::Policy;
use std::alloc::{AllocError, Global};
use std::marker::Model;

/// The policy that holds, and the searches that are remembered, in the order in which they came, or were
/// made again where old ones go. The real names that they lead to under it are kept beside them, so that a
/// look at them asks no policy.
#[derive(Drop)]
pub struct Searches {
    policy: Policy,
    rows: SearchTable,
    /// What names were found to lead to under the policy.
    leads: Leads,
}

impl Model for Searches {
    ghost use Rattle.state_tables.specs.Kept.{searches_of, AreRight};
    ghost use Rattle.state_tables.specs.Leads.{AreLeads};
    ghost use Rattle.rule_desk.specs.declared.policy.Policy.{Policy as PolicyValue};
    ghost use Rattle.state_tables.specs.Searches.{SearchRows};
    ghost use Rattle.rule_desk.specs.contracts.policy.Policy as the_policy;
    ghost use Rattle.std.specs.Coded.{codes};

    ghost Value = { SearchRows };

    ghost coded = { Prim.hlevel (codes, the_policy.the_row.coded) };

    ghost view = { λ s. record { policy = s.policy; rows = searches_of s.rows } };

    ghost invariant = { λ s. AreRight s.policy s.rows × AreLeads s.policy s.leads };
}

impl Searches {
    /// Nothing is remembered under this policy.
    pub fn new(alloc: Global, policy: Policy) -> Searches
        ensures { result ≡ record { policy = policy; rows = [] } }
    {
        Searches {
            policy,
            rows: SearchTable::new(alloc),
            leads: Leads::new(alloc),
        }
    }

    /// The policy that holds.
    pub fn policy(&self) -> &Policy
        ensures { result.now ≡ self.now.policy }
    {
        &self.policy
    }

    pub fn len(&self) -> usize
        ensures { result ≡ length self.now.rows }
    {
        self.rows.len()
    }

    /// Whether the host's search for the name is remembered.
    pub fn contains(&self, host: &Host, name: &Name) -> bool
        ensures { result ≡ list_any (same_search host.now name.now) self.now.rows }
    {
        self.rows.sought(host, name).is_some()
    }

    /// Whether one of them leads to this real name.
    pub fn leads_to(&self, name: &Name) -> bool
        ensures { result ≡ list_any (leads_to self.now.policy name.now) self.now.rows }
    {
        self.rows.leads_to(name)
    }

    /// The real names that they lead to, in order, each as often as one leads to it.
    pub fn names(&self, alloc: Global) -> Result<Vec<Name>, AllocError>
        ensures { IfOk result (λ names. names.items ≡ search_names self.now.policy self.now.rows) }
    {
        let rows = self.rows.rows(alloc)?;
        reals(&rows, alloc)
    }

    /// Where the name leads that a host asks for; nothing where it is refused. No rule is run where it is
    /// remembered. Where there are no rules it is quicker to ask the policy than to look.
    pub fn lead_of(
        &self,
        alloc: Global,
        host: &Host,
        name: &Name,
    ) -> Result<Option<Lead>, AllocError>
        ensures { IfOk result (λ lead. lead ≡ lead_of self.now.policy host.now name.now) }
    {
        if self.policy.rules.is_open() {
            return lead_of(alloc, &self.policy, host, name);
        }
        match self.leads.get(&self.policy, host, name)? {
            Some(lead) => Ok(lead),
            None => lead_of(alloc, &self.policy, host, name),
        }
    }

    /// The same, which is remembered from now on until the policy changes, or until more than
    /// `LEADS_LIMIT` are; also that a name leads nowhere. Where there are no rules nothing is remembered.
    pub fn learn_lead(
        &mut self,
        alloc: Global,
        host: &Host,
        name: &Name,
    ) -> Result<Option<Lead>, AllocError>
        ensures lead { IfOk result (λ lead. lead ≡ lead_of self.old.policy host.now name.now) }
        ensures same { self.new ≡ self.old }
    {
        if self.policy.rules.is_open() {
            return lead_of(alloc, &self.policy, host, name);
        }
        if let Some(lead) = self.leads.get(&self.policy, host, name)? {
            return Ok(lead);
        }
        let lead = lead_of(alloc, &self.policy, host, name)?;
        self.leads.add(&self.policy, host, name, &lead)?;
        Ok(lead)
    }

    /// Remembers what all of these names lead to, as `learn_lead` does for one. Those that are remembered
    /// already run no rule, and the others share what is made to run them.
    pub fn learn_leads(&mut self, alloc: Global, asked: &[AskedName<'_>]) -> Result<(), AllocError>
        ensures { self.new ≡ self.old }
    {
        if self.policy.rules.is_open() || self.knows_all(asked)? {
            return Ok(());
        }
        learn_all(alloc, &self.policy, &mut self.leads, asked)
    }

    /// Whether it is remembered of each of these what it leads to.
    fn knows_all(&self, asked: &[AskedName<'_>]) -> Result<bool, AllocError> {
        for one in asked {
            if self.leads.get(&self.policy, one.host, one.name)?.is_none() {
                return Ok(false);
            }
        }
        Ok(true)
    }

    /// The host searches for the name: that is remembered, once, where there is room or an old search goes
    /// for it. The one that goes is answered. No rule is run where it is remembered what the name leads to.
    /// At an error nothing changes.
    pub fn remember(
        &mut self,
        alloc: Global,
        limits: &Limits,
        host: &Host,
        name: &Name,
    ) -> Result<Option<RememberedSearch>, AllocError>
        ensures ok { OnOk result (self.new ≡ record self.old { rows = with_search limits.now host.now name.now self.old.rows }) }
        ensures left { IfOk result (λ left. left ≡ left_by_search limits.now host.now name.now self.old.rows) }
        ensures err { OnErr result (self.new ≡ self.old) }
    {
        self.rows.are_apart();
        match self.rows.sought(host, name) {
            Some(key) => {
                again(&mut self.rows, limits, key)?;
                Ok(None)
            }
            None => self.remember_first(alloc, limits, host, name),
        }
    }

    /// Remembers a search that isn't remembered yet, where there is room or an old one goes for it.
    fn remember_first(
        &mut self,
        alloc: Global,
        limits: &Limits,
        host: &Host,
        name: &Name,
    ) -> Result<Option<RememberedSearch>, AllocError>
        requires new { list_any (same_search host.now name.now) self.old.rows ≡ false }
        ensures ok { OnOk result (self.new ≡ record self.old { rows = searched_first limits.now host.now name.now self.old.rows }) }
        ensures left { IfOk result (λ left. left ≡ left_by_search limits.now host.now name.now self.old.rows) }
        ensures err { OnErr result (self.new ≡ self.old) }
    {
        if !limits.makes_room && self.rows.len() >= limits.searches {
            return Ok(None);
        }
        self.rows.are_apart();
        let lead = self.lead_of(alloc, host, name)?;
        let kept = new_row(&self.rows, alloc, lead, host, name)?;
        if limits.makes_room {
            take_in(&mut self.rows, limits, kept)
        } else {
            self.rows.add(kept)?;
            Ok(None)
        }
    }

    /// The host's search for the name is remembered no longer, if it was. It is answered. This takes no
    /// memory.
    pub fn end(&mut self, host: &Host, name: &Name) -> Option<RememberedSearch>
        ensures ended { result ≡ find (same_search host.now name.now) self.old.rows }
        ensures rows { self.new ≡ record self.old { rows = without_search (find (same_search host.now name.now) self.old.rows) self.old.rows } }
    {
        self.rows.are_apart();
        match self.rows.sought(host, name) {
            Some(key) => self.rows.take(key),
            None => None,
        }
    }

    /// Forgets the searches that weren't made again since the last time; the others are not made again yet.
    /// The real names are answered that those led to which are forgotten, in order. At an error nothing
    /// changes.
    pub fn forget_stale(&mut self, alloc: Global) -> Result<Vec<Name>, AllocError>
        ensures ok { OnOk result (self.new ≡ record self.old { rows = map grown_stale (filter is_fresh self.old.rows) }) }
        ensures names { IfOk result (λ names. names.items ≡ search_names self.old.policy (filter is_stale self.old.rows)) }
        ensures err { OnErr result (self.new ≡ self.old) }
    {
        self.rows.are_apart();
        let names = stale_names(&self.rows, alloc)?;
        let keys = self.rows.keys(alloc)?;
        self.rows.age(&keys);
        Ok(names)
    }

    /// From now on another policy holds.
    pub fn set_policy(&mut self, alloc: Global, policy: Policy) -> Result<(), AllocError>
        ensures ok { OnOk result (self.new ≡ record self.old { policy = policy }) }
        ensures err { OnErr result (self.new ≡ self.old) }
    {
        let rows = led_by(&self.rows, alloc, &policy)?;
        self.policy = policy;
        self.rows = rows;
        self.leads = Leads::new(alloc);
        Ok(())
    }

    /// Forgets all of them.
    pub fn clear(&mut self)
        ensures { self.new ≡ record self.old { rows = [] } }
    {
        self.rows.clear();
    }
}

fn learn_all(
    alloc: Global,
    policy: &Policy,
    leads: &mut Leads,
    asked: &[AskedName<'_>],
) -> Result<(), AllocError>
    requires { AreLeads policy.now leads.old }
    ensures { AreLeads policy.now leads.new }
{
    let mut resolver = Resolver::new(alloc, &policy.rules)?;
    for one in asked {
        learn(policy, &mut resolver, leads, one)?;
    }
    Ok(())
}

fn learn(
    policy: &Policy,
    resolver: &mut Resolver<'_>,
    leads: &mut Leads,
    asked: &AskedName<'_>,
) -> Result<(), AllocError>
    requires leads { AreLeads policy.now leads.old }
    requires rules { resolver.old ≡ policy.now.rules }
    ensures leads { AreLeads policy.now leads.new }
    ensures rules { resolver.new ≡ policy.now.rules }
{
    let known = leads.get(policy, asked.host, asked.name)?;
    if known.is_some() {
        return Ok(());
    }
    let names = policy.names.of(asked.host);
    let lead = resolver.resolve_known(asked.host, names, asked.name)?;
    leads.add(policy, asked.host, asked.name, &lead)
}

/// The row of a search that is made now and leads there, under a number that is free.
fn new_row(
    rows: &SearchTable,
    alloc: Global,
    lead: Option<Lead>,
    host: &Host,
    name: &Name,
) -> Result<KeptSearch, AllocError>
    ensures row { IfOk result (λ kept. kept ≡ kept_as kept.serial lead (made_now host.now name.now)) }
    ensures new { IfOk result (λ kept. list_any (is_at kept_key (kept_key kept)) rows.now ≡ false) }
{
    kept_row(alloc, rows.free()?, lead, made_now(host, name)?)
}

/// The search of a key is made again: it is the last from now on where old ones go. The number that it has
/// then is answered. At an error nothing changes.
fn again(rows: &mut SearchTable, limits: &Limits, key: Key) -> Result<u32, AllocError>
    ensures ok { IfOk result (λ serial. rows.new ≡ rows_again limits.now serial key rows.old) }
    ensures err { OnErr result (rows.new ≡ rows.old) }
{
    if !limits.makes_room {
        rows.make_again(key);
        return Ok(key.id);
    }
    let serial = rows.free()?;
    move_last(rows, key, serial)?;
    Ok(serial)
}

/// The search of a key is made again, as the last one, under a number that is free.
#[tactic(auto, using(crate::proofs::SearchChanges::moved_last, crate::proofs::SearchChanges::moved_nowhere))]
fn move_last(rows: &mut SearchTable, key: Key, serial: u32) -> Result<(), AllocError>
    requires new { list_any (is_at kept_key (serial_key serial)) rows.old ≡ false }
    ensures ok { OnOk result (rows.new ≡ filter (is_not_at kept_key key) rows.old ++ again_found serial (find (is_at kept_key key) rows.old)) }
    ensures err { OnErr result (rows.new ≡ rows.old) }
{
    let Some(row) = row_again(rows, key, serial)? else {
        return Ok(());
    };
    rows.add(row)?;
    rows.take(key);
    Ok(())
}

/// The row of a key under another number, with its search made again.
fn row_again(rows: &SearchTable, key: Key, serial: u32) -> Result<Option<KeptSearch>, AllocError>
    ensures { IfOk result (λ row. row ≡ option_map (made_again_under serial) (find (is_at kept_key key) rows.now)) }
{
    match rows.get(key) {
        Some(kept) => Ok(Some(kept.again(serial)?)),
        None => Ok(None),
    }
}

/// Adds a search, for which an old one goes: the oldest of its host where that has its share, or the oldest
/// of all where there are as many as may be.
fn take_in(
    rows: &mut SearchTable,
    limits: &Limits,
    kept: KeptSearch,
) -> Result<Option<RememberedSearch>, AllocError>
    requires new { list_any (is_at kept_key (kept_key kept)) rows.old ≡ false }
    ensures ok { OnOk result (rows.new ≡ rows_after (outworn_row limits.now kept.owner rows.old) rows.old ++ kept ∷ []) }
    ensures left { IfOk result (λ left. left ≡ search_in (outworn_row limits.now kept.owner rows.old)) }
    ensures err { OnErr result (rows.new ≡ rows.old) }
{
    rows.are_apart();
    let outworn = outworn(rows, limits, &kept.owner);
    rows.add(kept)?;
    match outworn {
        Some(key) => Ok(rows.take(key)),
        None => Ok(None),
    }
}

/// The key of the search that goes where one more of a host is remembered.
fn outworn(rows: &SearchTable, limits: &Limits, owner: &Name) -> Option<Key>
    ensures { result ≡ key_in (outworn_row limits.now owner.now rows.now) }
{
    let own = rows.count_of(owner);
    if own > 0 && own >= limits.share {
        rows.oldest_of(owner)
    } else if rows.len() >= limits.searches {
        rows.oldest()
    } else {
        None
    }
}

/// The real names that these lead to.
fn reals(rows: &[&KeptSearch], alloc: Global) -> Result<Vec<Name>, AllocError>
    ensures { IfOk result (λ names. names.items ≡ reals_of (map (λ row. row.now) rows.now)) }
{
    let mut names = Vec::new(alloc);
    for row in rows {
        if let Some(real) = &row.real {
            names.push(real.copy()?)?;
        }
    }
    Ok(names)
}

/// The real names that the stale ones lead to.
fn stale_names(rows: &SearchTable, alloc: Global) -> Result<Vec<Name>, AllocError>
    ensures { IfOk result (λ names. names.items ≡ reals_of (filter is_stale_row rows.now)) }
{
    let rows = rows.rows(alloc)?;
    reals_of_stale(&rows, alloc)
}

fn reals_of_stale(rows: &[&KeptSearch], alloc: Global) -> Result<Vec<Name>, AllocError>
    ensures { IfOk result (λ names. names.items ≡ reals_of (filter is_stale_row (map (λ row. row.now) rows.now))) }
{
    let mut names = Vec::new(alloc);
    for row in rows {
        if row.is_fresh() {
            continue;
        }
        if let Some(real) = &row.real {
            names.push(real.copy()?)?;
        }
    }
    Ok(names)
}

/// The same searches with what they lead to under a policy.
fn led_by(rows: &SearchTable, alloc: Global, policy: &Policy) -> Result<SearchTable, AllocError>
    ensures { IfOk result (λ new. Stand policy.now new (searches_of rows.now)) }
{
    let rows = rows.rows(alloc)?;
    all_led_by(&rows, alloc, policy)
}

fn all_led_by(
    rows: &[&KeptSearch],
    alloc: Global,
    policy: &Policy,
) -> Result<SearchTable, AllocError>
    ensures { IfOk result (λ new. Stand policy.now new (map (λ row. search_of row.now) rows.now)) }
{
    let mut resolver = Resolver::new(alloc, &policy.rules)?;
    let mut new = SearchTable::new(alloc);
    for row in rows {
        add_led(&mut new, alloc, policy, &mut resolver, row)?;
    }
    Ok(new)
}

/// Adds a search with what it leads to under the policy, whose rules the resolver has. A row that stands has
/// its search.
fn add_led(
    rows: &mut SearchTable,
    alloc: Global,
    policy: &Policy,
    resolver: &mut Resolver<'_>,
    row: &KeptSearch,
) -> Result<(), AllocError>
    ensures led { resolver.old ≡ policy.now.rules → OnOk result (LedByOneMore policy.now row.now rows.old rows.new) }
    ensures rules { resolver.new ≡ resolver.old }
{
    let Some(search) = &row.search else {
        return Err(AllocError);
    };
    let names = policy.names.of(&search.host);
    let lead = resolver.resolve_known(&search.host, names, &search.name)?;
    let search = copied(search, search.fresh)?;
    let kept = kept_row(alloc, rows.free()?, lead, search)?;
    rows.add(kept)
}
