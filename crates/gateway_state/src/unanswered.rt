//! Searches on clients' connections that had no answer when they came.

use pv_name::{Name, NoMemory};
use std::alloc::Global;
use std::collections::VecDeque;

/// So many are known at most, the latest.
const LATEST: usize = 4_096;

/// A client's search on its connection.
#[derive(Drop)]
pub struct SearchOn {
    /// The client's number.
    pub session: u32,
    /// What the client calls the search.
    pub cid: u32,
    /// The name that it searches for.
    pub name: Name,
}

/// The latest searches that had no answer when they came. They are for whoever makes them again, and nothing that a
/// gateway does depends on them.
#[derive(Drop)]
pub struct Unanswered {
    latest: VecDeque<SearchOn>,
    // How many came so far.
    count: u64,
}

/// Those that came since somebody asked last, and how many came so far.
#[derive(Drop)]
pub struct UnansweredSince {
    pub searches: Vec<SearchOn>,
    pub count: u64,
}

impl UnansweredSince {
    /// None.
    pub fn none(alloc: Global) -> UnansweredSince {
        UnansweredSince {
            searches: Vec::new(alloc),
            count: 0,
        }
    }
}

impl Unanswered {
    /// None. It takes no memory.
    pub fn new(alloc: Global) -> Unanswered {
        Unanswered {
            latest: VecDeque::new(alloc),
            count: 0,
        }
    }

    /// One more came. Where memory for it is refused it isn't kept.
    pub fn note(&mut self, session: u32, cid: u32, name: &Name) {
        if self.latest.len() >= LATEST {
            self.latest.pop_front();
        }
        let Ok(name) = name.copy() else {
            return;
        };
        if self
            .latest
            .push_back(SearchOn { session, cid, name })
            .is_ok()
        {
            self.count = self.count.saturating_add(1);
        }
    }

    /// How many came so far.
    pub fn count(&self) -> u64 {
        self.count
    }

    /// Those that came behind the first so many, as far as they are known.
    pub fn since(&self, alloc: Global, seen: u64) -> Result<UnansweredSince, NoMemory> {
        let mut searches = Vec::new(alloc);
        let new = self.count.saturating_sub(seen);
        let skipped = (self.latest.len() as u64).saturating_sub(new);
        for search in self.latest.iter().skip(skipped as usize) {
            searches.push(SearchOn {
                session: search.session,
                cid: search.cid,
                name: search.name.copy()?,
            })?;
        }
        Ok(UnansweredSince {
            searches,
            count: self.count,
        })
    }
}
