//! Names that wait to be asked for the first time, by hosts in turn.
ghost use Rattle.std.specs.Prelude.{◌≡◌, ℕ, ◌+◌, ◌≤◌, ◌&&◌, [], length, map, nat_eq, take, Some, IfOk, OnOk, OnErr, is_ok, is_some, if◌then◌else◌};
ghost use Rattle.std.specs.List.{count_by};
ghost use Rattle.std.specs.HashMap.{get};
ghost use Rattle.std.specs.Option.{option_map, unwrap_or};
ghost use Rattle.ask_schedule.specs.Queue.{is_by, last_lap, lined_up, newcomer_name, with_newcomer, without_first};
ghost use Rattle.ask_schedule.specs.Turns.{AreNewcomers, InLapsFrom, unless};

use crate::NoMemory;
use crate::row::Newcomer;
use pv_name::Name;
use std::alloc::{AllocError, Global};
use std::collections::{HashMap, VecDeque};
use std::marker::Model;

/// Names that were never asked for, each under the host that looks for it. They are taken in laps, of which each has one name
/// of each host. So a host that looks for many names keeps no other host waiting.
#[derive(Drop)]
pub struct Newcomers {
    limit: usize,
    // The lap of the name that was taken last.
    lap: u64,
    rows: VecDeque<Newcomer>,
    // The lap of the last name of each host. So it is found without a walk.
    laps: HashMap<u128, u64>,
    alloc: Global,
}

impl Model for Newcomers {
    ghost use Rattle.std.specs.Prelude.{◌≡◌, ℕ, nat_eq};
    ghost use Rattle.std.specs.HashMap.{get};
    ghost use Rattle.ask_schedule.specs.Queue.{Queue, last_lap};
    ghost use Rattle.ask_schedule.specs.Turns.{AreNewcomers};

    ghost Value = { Queue };

    ghost view = { λ s. record { limit = s.limit; lap = s.lap; rows = s.rows.items } };

    ghost invariant = { λ s. AreNewcomers s.limit s.lap s.rows.items × ((host : ℕ) → get nat_eq s.laps host ≡ last_lap host s.rows.items) };
}

impl Newcomers {
    /// None, and at most `limit`. This takes no memory.
    pub fn new(alloc: Global, limit: usize) -> Newcomers
        ensures { result ≡ record { limit = limit; lap = 0; rows = [] } }
    {
        Newcomers {
            limit,
            lap: 0,
            rows: VecDeque::new(alloc),
            laps: HashMap::new(alloc),
            alloc,
        }
    }

    /// How many names wait.
    pub fn len(&self) -> usize
        ensures { result ≡ length self.now.rows }
    {
        self.rows.len()
    }

    /// Whether a name of this host waits.
    pub fn has_of(&self, host: u128) -> bool
        ensures { result ≡ is_some (last_lap host self.now.rows) }
    {
        self.laps.contains_key(&host)
    }

    /// Does nothing. Its contract is a law: the rows stand in the order of their laps, no two of a host are of the same lap,
    /// and there are no more than the limit.
    pub fn has_rows_in_turn(&self)
        ensures { AreNewcomers self.now.limit self.now.lap self.now.rows }
    {
        let _ = &self.limit;
    }

    /// Adds a name that this host looks for. Where there is one too many then, the last one goes, which may be this one. At
    /// an error nothing changes.
    pub fn add(&mut self, host: u128, name: Name) -> Result<(), NoMemory>
        ensures ok { OnOk result (self.new ≡ with_newcomer host name self.old) }
        ensures err { OnErr result (self.new ≡ self.old) }
    {
        let last = last_of(&self.laps, host, self.lap);
        let Some(lap) = last.checked_add(1) else {
            return Ok(());
        };
        let row = Newcomer { host, name, lap };
        line_up(&mut self.rows, &mut self.laps, row)?;
        shorten(&mut self.rows, &mut self.laps, self.limit);
        Ok(())
    }

    /// Takes the first names, in order, at most `most`. At an error nothing changes.
    pub fn take(&mut self, most: usize) -> Result<Vec<Name>, NoMemory>
        ensures names { IfOk result (λ names. names.items ≡ map newcomer_name (take most self.old.rows)) }
        ensures ok { OnOk result (self.new ≡ without_first most self.old) }
        ensures err { OnErr result (self.new ≡ self.old) }
    {
        let count = self.rows.len().min(most);
        let names = first_names(self.alloc, &self.rows, count)?;
        for _ in 0..count {
            self.drop_first();
        }
        Ok(names)
    }

    // The first name was taken.
    fn drop_first(&mut self)
        ensures { self.new ≡ without_first 1 self.old }
    {
        let Some(row) = self.rows.pop_front() else {
            return;
        };
        self.lap = row.lap;
        forget_lap(&mut self.laps, row.host, row.lap);
    }
}

/// The lap of the host's last name, or else this one.
fn last_of(laps: &HashMap<u128, u64>, host: u128, lap: u64) -> u64
    ensures { result ≡ unwrap_or (get nat_eq laps.now host) lap }
{
    match laps.get(&host) {
        Some(last) => *last,
        None => lap,
    }
}

/// How many rows are of this lap, or of one before it.
fn by_lap(rows: &VecDeque<Newcomer>, lap: u64) -> usize
    requires { InLapsFrom 0 rows.now.items }
    ensures count { result ≡ count_by (is_by lap) rows.now.items }
    ensures within { result ≤ length rows.now.items }
{
    rows.partition_point(|row| row.lap <= lap)
}

/// Puts a row behind those of no later lap, and notes its lap as its host's last. At an error nothing changes.
fn line_up(
    rows: &mut VecDeque<Newcomer>,
    laps: &mut HashMap<u128, u64>,
    row: Newcomer,
) -> Result<(), NoMemory>
    requires { InLapsFrom 0 rows.old.items }
    ensures rows { rows.new.items ≡ (if is_ok result then lined_up row rows.old.items else rows.old.items) }
    ensures laps { (host : ℕ) → get nat_eq laps.new host
        ≡ (if is_ok result && nat_eq row.host host then Some row.lap else get nat_eq laps.old host) }
{
    let place = by_lap(rows, row.lap);
    if let Err(_) = rows.reserve(1) {
        return Err(AllocError);
    }
    if let Err(_) = laps.insert(row.host, row.lap) {
        return Err(AllocError);
    }
    // There is room.
    if let Err(_) = rows.insert(place, row) {
        unreachable!();
    }
    Ok(())
}

/// Where there is a row too many, the last one goes.
fn shorten(rows: &mut VecDeque<Newcomer>, laps: &mut HashMap<u128, u64>, limit: usize)
    requires one { length rows.old.items ≤ limit + 1 }
    requires told { (host : ℕ) → get nat_eq laps.old host ≡ last_lap host rows.old.items }
    ensures rows { rows.new.items ≡ take limit rows.old.items }
    ensures laps { (host : ℕ) → get nat_eq laps.new host ≡ last_lap host rows.new.items }
{
    if rows.len() <= limit {
        return;
    }
    let Some(row) = rows.pop_back() else {
        return;
    };
    match last_among(rows, row.host) {
        Some(lap) => set_lap(laps, row.host, lap),
        None => {
            laps.remove(&row.host);
        }
    }
}

/// The lap of the last row of this host.
fn last_among(rows: &VecDeque<Newcomer>, host: u128) -> Option<u64>
    ensures { result ≡ last_lap host rows.now.items }
{
    let mut end = rows.len();
    while end > 0 {
        end -= 1;
        let row = &rows[end];
        if row.host == host {
            return Some(row.lap);
        }
    }
    None
}

fn set_lap(laps: &mut HashMap<u128, u64>, host: u128, lap: u64)
    ensures { (h : ℕ) → get nat_eq laps.new h ≡ (if nat_eq host h then option_map (λ old. lap) (get nat_eq laps.old h) else get nat_eq laps.old h) }
{
    if let Some(old) = laps.get_mut(&host) {
        *old = lap;
    }
}

/// The host has no last name any more, if this is the lap of it.
fn forget_lap(laps: &mut HashMap<u128, u64>, host: u128, lap: u64)
    ensures { (h : ℕ) → get nat_eq laps.new h ≡ (if nat_eq host h then unless lap (get nat_eq laps.old h) else get nat_eq laps.old h) }
{
    let is_last = match laps.get(&host) {
        Some(last) => *last == lap,
        None => false,
    };
    if is_last {
        laps.remove(&host);
    }
}

/// The names of the first rows.
fn first_names(
    alloc: Global,
    rows: &VecDeque<Newcomer>,
    count: usize,
) -> Result<Vec<Name>, NoMemory>
    requires { count ≤ length rows.now.items }
    ensures { IfOk result (λ names. names.items ≡ map newcomer_name (take count rows.now.items)) }
{
    let mut names = Vec::with_capacity(alloc, count)?;
    for place in 0..count {
        names.push(rows[place].name.copy()?)?;
    }
    Ok(names)
}
