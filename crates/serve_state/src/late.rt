//! Searches that couldn't be answered when they were made.
ghost use Rattle.std.specs.Prelude.{◌≡◌, ◌==◌, [], OnOk, OnErr, filter, length, slice_get};
ghost use Rattle.std.specs.List.{list_any, position};
ghost use Rattle.std.specs.Option.{option_copied};
ghost use Rattle.rows.specs.Rows.{remove_first};
ghost use Rattle.serve_state.specs.Late.{is_of_host, is_search, is_unanswered, is_young, late_of, still_young, unanswered, with_late, within, without_older};

use pv_name::{Name, NoMemory};
use std::alloc::{AllocError, Global};
use std::collections::VecDeque;
use std::marker::Model;

/// So many are kept of one host.
pub const LATE_OF_HOST: usize = 1_024;

/// So many are kept in all.
pub const LATE_LIMIT: usize = 4_096;

/// So many milliseconds each is kept.
const LATE_FOR: u64 = 5_000;

/// A search that couldn't be answered. `A` is the address that its reply goes to, of which contracts don't speak: they
/// know it by the numbers of its host and its port.
#[derive(Drop)]
pub struct LateSearch<A> {
    pub from: A,
    pub host: u128,
    pub port: u16,
    pub cid: u32,
    pub name: Name,
    /// When it was made, in milliseconds of any clock.
    pub since: u64,
}

impl<A> Model for LateSearch<A> {
    ghost use Rattle.serve_state.specs.Late.{LateState};

    ghost Value = { LateState };

    ghost view = { λ s. record { host = s.host; port = s.port; cid = s.cid; name = s.name; since = s.since } };
}

impl<A: Drop> LateSearch<A> {
    fn is_of_host(&self, host: u128) -> bool
        ensures { result ≡ is_of_host host self.now }
    {
        self.host == host
    }

    fn is_search(&self, host: u128, port: u16, cid: u32) -> bool
        ensures { result ≡ is_search host port cid self.now }
    {
        self.host == host && self.port == port && self.cid == cid
    }

    fn is_young(&self, now: u64) -> bool
        ensures { result ≡ is_young now self.now }
    {
        now.saturating_sub(self.since) < LATE_FOR
    }

    fn is_unanswered(&self, host: u128, port: u16, cids: &[u32]) -> bool
        ensures { result ≡ is_unanswered host port cids.now self.now }
    {
        self.host != host || self.port != port || !has_cid(cids, self.cid)
    }
}

fn has_cid(cids: &[u32], own: u32) -> bool
    ensures { result ≡ list_any (λ cid. cid == own) cids.now }
{
    cids.iter().any(|cid| *cid == own)
}

/// The searches that are kept until they can be answered, the latest last.
#[derive(Drop)]
pub struct Late<A> {
    rows: VecDeque<LateSearch<A>>,
}

impl<A> Model for Late<A> {
    ghost use Rattle.std.specs.Prelude.{List};
    ghost use Rattle.serve_state.specs.Late.{LateState};

    ghost Value = { List LateState };

    ghost view = { λ l. l.rows.items };
}

impl<A: Drop> Late<A> {
    /// None. It takes no memory.
    pub fn new(alloc: Global) -> Late<A>
        ensures { result ≡ [] }
    {
        Late {
            rows: VecDeque::new(alloc),
        }
    }

    /// How many searches are kept.
    pub fn len(&self) -> usize
        ensures { result ≡ length self.now }
    {
        self.rows.len()
    }

    /// The search of this place in the order in which they were made, counted from 0.
    pub fn get(&self, place: usize) -> Option<&LateSearch<A>>
        ensures { option_copied result ≡ slice_get self.now place }
    {
        self.rows.get(place)
    }

    /// Keeps one more. Where it was made before, from the same address under the same CID, that one goes; and else, where
    /// 1,024 of its host or 4,096 in all are kept, the oldest of these. At an error nothing changes.
    pub fn add(&mut self, search: LateSearch<A>) -> Result<(), NoMemory>
        ensures ok { OnOk result (self.new ≡ with_late search self.old) }
        ensures err { OnErr result (self.new ≡ self.old) }
    {
        let (host, port, cid) = (search.host, search.port, search.cid);
        if self.rows.push_back(search).is_err() {
            return Err(AllocError);
        }
        drop_older(&mut self.rows, host, port, cid);
        make_room(&mut self.rows, host);
        Ok(())
    }

    /// Those that were made 5,000 milliseconds ago or more go.
    pub fn expire(&mut self, now: u64)
        ensures { self.new ≡ still_young now self.old }
    {
        drop_old(&mut self.rows, now);
    }

    /// A reply to this address was sent, which answers what was asked for under these CIDs: that goes.
    pub fn answered(&mut self, host: u128, port: u16, cids: &[u32])
        ensures { self.new ≡ unanswered host port cids.now self.old }
    {
        drop_answered(&mut self.rows, host, port, cids);
    }
}

// Of a search that was made twice the later one stays.
fn drop_older<A: Drop>(rows: &mut VecDeque<LateSearch<A>>, host: u128, port: u16, cid: u32)
    ensures { rows.new.items ≡ without_older host port cid rows.old.items }
{
    if count_of(rows, host, port, cid) > 1 {
        remove_search(rows, host, port, cid);
    }
}

#[tactic(auto, using(rows::proofs::RowLemmas::remove_is_remove_first, rows::proofs::RowLemmas::remove_first_none))]
fn remove_search<A: Drop>(rows: &mut VecDeque<LateSearch<A>>, host: u128, port: u16, cid: u32)
    ensures { rows.new.items ≡ remove_first (is_search host port cid) rows.old.items }
{
    if let Some(place) = place_of(rows, host, port, cid) {
        rows.remove(place);
    }
}

fn count_of<A: Drop>(rows: &VecDeque<LateSearch<A>>, host: u128, port: u16, cid: u32) -> usize
    ensures { result ≡ length (filter (is_search host port cid) rows.now.items) }
{
    rows.iter()
        .filter(|row| row.is_search(host, port, cid))
        .count()
}

fn place_of<A: Drop>(
    rows: &VecDeque<LateSearch<A>>,
    host: u128,
    port: u16,
    cid: u32,
) -> Option<usize>
    ensures { result ≡ position (is_search host port cid) rows.now.items }
{
    rows.iter().position(|row| row.is_search(host, port, cid))
}

// Where there is one more than may be, the oldest goes.
fn make_room<A: Drop>(rows: &mut VecDeque<LateSearch<A>>, host: u128)
    ensures { rows.new.items ≡ within host rows.old.items }
{
    if late_of(rows, host) > LATE_OF_HOST {
        remove_of_host(rows, host);
    } else if rows.len() > LATE_LIMIT {
        rows.pop_front();
    }
}

#[tactic(auto, using(rows::proofs::RowLemmas::remove_is_remove_first, rows::proofs::RowLemmas::remove_first_none))]
fn remove_of_host<A: Drop>(rows: &mut VecDeque<LateSearch<A>>, host: u128)
    ensures { rows.new.items ≡ remove_first (is_of_host host) rows.old.items }
{
    if let Some(place) = place_of_host(rows, host) {
        rows.remove(place);
    }
}

fn late_of<A: Drop>(rows: &VecDeque<LateSearch<A>>, host: u128) -> usize
    ensures { result ≡ late_of host rows.now.items }
{
    rows.iter().filter(|row| row.is_of_host(host)).count()
}

fn place_of_host<A: Drop>(rows: &VecDeque<LateSearch<A>>, host: u128) -> Option<usize>
    ensures { result ≡ position (is_of_host host) rows.now.items }
{
    rows.iter().position(|row| row.is_of_host(host))
}

fn drop_old<A: Drop>(rows: &mut VecDeque<LateSearch<A>>, now: u64)
    ensures { rows.new.items ≡ still_young now rows.old.items }
{
    rows.retain(|row| row.is_young(now));
}

fn drop_answered<A: Drop>(rows: &mut VecDeque<LateSearch<A>>, host: u128, port: u16, cids: &[u32])
    ensures { rows.new.items ≡ unanswered host port cids.now rows.old.items }
{
    rows.retain(|row| row.is_unanswered(host, port, cids));
}
