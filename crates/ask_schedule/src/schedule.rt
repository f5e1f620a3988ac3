//! The schedule: rows in the order in which they are due, and when each name is due.
ghost use Rattle.std.specs.Prelude.{◌≡◌, ℕ, ◌<◌, ◌≤◌, List, [], bytes_eq, length, map, min, take, slice_index_or, if◌then◌else◌, Some, IfOk, OnOk, OnErr};
ghost use Rattle.std.specs.List.{count_by, filter, list_any};
ghost use Rattle.std.specs.HashMap.{get};
ghost use Rattle.std.specs.Option.{option_map};
ghost use Rattle.ask_schedule.specs.declared.row.ScheduleRow.{ScheduleRow as RowValue};
ghost use Rattle.ask_schedule.specs.Plan.{answer_to, asked, due_after, has_name, is_due, left, lacks_name, name_of, rows_after, sooner};
ghost use Rattle.ask_schedule.specs.Places.{AreApart, AreRows, IfSomeThere, InOrder, due_of, first_asked};

use crate::NoMemory;
use crate::row::{MOST_TRIES, ScheduleRow};
use pv_name::Name;
use std::alloc::{AllocError, Global};
use std::collections::{HashMap, VecDeque};
use std::marker::Model;

/// What came of a name that was to be added.
#[derive(Clone, Copy, Debug, PartialEq, Eq)]
pub enum Added {
    /// It was added.
    New,
    /// It was there already. Nothing changed.
    Known,
    /// There are as many names as may be. Nothing changed.
    Full,
}

/// Names that are asked for, each once, and when.
#[derive(Drop)]
pub struct Schedule {
    limit: usize,
    rows: VecDeque<ScheduleRow>,
    // When each is due. So a name is found among the rows without a walk.
    dues: HashMap<Name, u64>,
    alloc: Global,
}

impl Model for Schedule {
    ghost use Rattle.std.specs.Prelude.{◌≡◌, ℕ, List, bytes_eq};
    ghost use Rattle.std.specs.HashMap.{get};
    ghost use Rattle.ask_schedule.specs.Plan.{Plan};
    ghost use Rattle.ask_schedule.specs.Places.{AreRows, due_of};

    ghost Value = { Plan };

    ghost view = { λ s. record { limit = s.limit; rows = s.rows.items } };

    ghost invariant = { λ s. AreRows s.limit s.rows.items × ((name : List ℕ) → get bytes_eq s.dues name ≡ due_of name s.rows.items) };
}

impl Schedule {
    /// Of no names, and of at most `limit`. This takes no memory.
    pub fn new(alloc: Global, limit: usize) -> Schedule
        ensures { result ≡ record { limit = limit; rows = [] } }
    {
        Schedule {
            limit,
            rows: VecDeque::new(alloc),
            dues: HashMap::new(alloc),
            alloc,
        }
    }

    /// How many names there are.
    pub fn len(&self) -> usize
        ensures { result ≡ length self.now.rows }
    {
        self.rows.len()
    }

    /// Whether the name is there.
    pub fn has(&self, name: &Name) -> bool
        ensures { result ≡ list_any (has_name name.now) self.now.rows }
    {
        self.dues.contains_key(name)
    }

    /// Does nothing. Its contract is a law: the rows stand in the order in which they are due, no two are of
    /// the same name, and there are no more than the limit.
    pub fn has_rows_in_order(&self)
        ensures { AreRows self.now.limit self.now.rows }
    {
        let _ = &self.limit;
    }

    /// Adds a name that isn't there yet, where there is room. It is due at once, before those that were
    /// asked for. At an error nothing changes.
    pub fn add(&mut self, name: &Name) -> Result<Added, NoMemory>
        ensures answer { IfOk result (λ answer. answer ≡ answer_to name.now self.old) }
        ensures ok { IfOk result (λ answer. self.new ≡ record self.old { rows = rows_after answer name.now self.old.rows }) }
        ensures err { OnErr result (self.new ≡ self.old) }
    {
        if self.dues.contains_key(name) {
            return Ok(Added::Known);
        }
        if self.rows.len() >= self.limit {
            return Ok(Added::Full);
        }
        let row = ScheduleRow {
            name: name.copy()?,
            tries: 0,
            due: 0,
        };
        let place = due_by(&self.rows, 0);
        if let Err(_) = self.dues.insert(name.copy()?, 0) {
            return Err(AllocError);
        }
        if let Err(_) = self.rows.insert(place, row) {
            self.dues.remove(name);
            return Err(AllocError);
        }
        Ok(Added::New)
    }

    /// Lets a name go, if it is there. This takes no memory.
    pub fn remove(&mut self, name: &Name)
        ensures { self.new ≡ record self.old { rows = filter (lacks_name name.now) self.old.rows } }
    {
        let Some(due) = self.dues.remove(name) else {
            return;
        };
        if let Some(place) = place_of(&self.rows, name, due) {
            self.rows.remove(place);
        }
    }

    /// The names to ask for at this look, in order, at most `most`. Each is then planned anew. At an error
    /// nothing changes.
    pub fn due(&mut self, now: u64, most: usize) -> Result<Vec<Name>, NoMemory>
        ensures names { IfOk result (λ names. names.items ≡ map name_of (asked now most self.old.rows)) }
        ensures ok { OnOk result (self.new ≡ record self.old { rows = left now most self.old.rows }) }
        ensures err { OnErr result (self.new ≡ self.old) }
    {
        let count = due_by(&self.rows, now).min(most);
        let names = first_names(self.alloc, &self.rows, count)?;
        for _ in 0..count {
            self.ask_first(now);
        }
        Ok(names)
    }

    /// Has each name asked for as soon as if it was asked for now, after `tries` tries. None is asked for
    /// later, and none is taken to have had more tries. This takes no memory.
    pub fn soon(&mut self, now: u64, tries: u32)
        ensures { self.new ≡ record self.old { rows = map (sooner now tries) self.old.rows } }
    {
        let latest = due_after(now, tries);
        make_rows_sooner(&mut self.rows, now, tries);
        make_dues_sooner(&mut self.dues, latest);
    }

    // Plans the first row anew, as its name is asked for now.
    fn ask_first(&mut self, now: u64)
        ensures { self.new ≡ record self.old { rows = first_asked now self.old.rows } }
    {
        let Some(row) = self.rows.pop_front() else {
            return;
        };
        let due = due_after(now, row.tries);
        set_due(&mut self.dues, &row.name, due);
        let again = ScheduleRow {
            name: row.name,
            tries: row.tries.saturating_add(1).min(MOST_TRIES),
            due,
        };
        let place = due_by(&self.rows, due);
        // There is room, as a row was taken out.
        if let Err(_) = self.rows.insert(place, again) {
            unreachable!();
        }
    }
}

/// When a name is due that is asked for now, after so many tries.
fn due_after(now: u64, tries: u32) -> u64
    ensures { result ≡ due_after now tries }
{
    let gap = 1u64 << tries.min(MOST_TRIES);
    now.saturating_add(gap)
}

/// How many rows are due by this look.
fn due_by(rows: &VecDeque<ScheduleRow>, look: u64) -> usize
    requires { InOrder rows.now.items }
    ensures count { result ≡ count_by (is_due look) rows.now.items }
    ensures within { result ≤ length rows.now.items }
{
    rows.partition_point(|row| row.due <= look)
}

/// A place before which all rows are due before this look. The first row that is due at it stands there.
fn due_before(rows: &VecDeque<ScheduleRow>, look: u64) -> usize
    requires { InOrder rows.now.items }
    ensures before { (k : ℕ) (d : RowValue) → k < result → (slice_index_or rows.now.items k d).due < look }
    ensures within { result ≤ length rows.now.items }
{
    match look.checked_sub(1) {
        Some(last) => due_by(rows, last),
        None => 0,
    }
}

/// Where the row of this name stands, which is due at this look.
fn place_of(rows: &VecDeque<ScheduleRow>, name: &Name, due: u64) -> Option<usize>
    requires ordered { InOrder rows.now.items }
    requires apart { AreApart rows.now.items }
    requires there { due_of name.now rows.now.items ≡ Some due }
    ensures { IfSomeThere name.now rows.now.items result }
{
    let mut place = due_before(rows, due);
    while place < rows.len() {
        if *name == rows[place].name {
            return Some(place);
        }
        place += 1;
    }
    None
}

/// The names of the first rows.
fn first_names(
    alloc: Global,
    rows: &VecDeque<ScheduleRow>,
    count: usize,
) -> Result<Vec<Name>, NoMemory>
    requires { count ≤ length rows.now.items }
    ensures { IfOk result (λ names. names.items ≡ map name_of (take count rows.now.items)) }
{
    let mut names = Vec::with_capacity(alloc, count)?;
    for place in 0..count {
        names.push(rows[place].name.copy()?)?;
    }
    Ok(names)
}

fn set_due(dues: &mut HashMap<Name, u64>, name: &Name, due: u64)
    ensures { (n : List ℕ) → get bytes_eq dues.new n
        ≡ (if bytes_eq name.now n then option_map (λ old. due) (get bytes_eq dues.old n) else get bytes_eq dues.old n) }
{
    if let Some(old) = dues.get_mut(name) {
        *old = due;
    }
}

// Each row is taken off the front and put behind the others, and so none is moved among them.
fn make_rows_sooner(rows: &mut VecDeque<ScheduleRow>, now: u64, tries: u32)
    ensures { rows.new.items ≡ map (sooner now tries) rows.old.items }
{
    let latest = due_after(now, tries);
    for _ in 0..rows.len() {
        let Some(row) = rows.pop_front() else {
            return;
        };
        let sooner = ScheduleRow {
            name: row.name,
            tries: row.tries.min(tries),
            due: row.due.min(latest),
        };
        // There is room, as a row was taken out.
        if let Err(_) = rows.push_back(sooner) {
            unreachable!();
        }
    }
}

fn make_dues_sooner(dues: &mut HashMap<Name, u64>, latest: u64)
    ensures { (n : List ℕ) → get bytes_eq dues.new n ≡ option_map (λ due. min due latest) (get bytes_eq dues.old n) }
{
    dues.retain(|_, due| {
        *due = (*due).min(latest);
        true
    });
}
