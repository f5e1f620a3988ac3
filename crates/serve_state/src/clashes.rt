//! Names that two servers answered.
ghost use Rattle.std.specs.Prelude.{◌≡◌, [], IfOk, OnOk, OnErr};
ghost use Rattle.gateway_state.specs.Variables.{is_among};
ghost use Rattle.serve_state.specs.Clashes.{after_clash, is_news, told_in};

use pv_name::{Name, NoMemory};
use std::alloc::{AllocError, Global};
use std::collections::VecDeque;
use std::marker::Model;

/// How many names are told of in an hour.
const MOST_TOLD: u32 = 64;

/// Of how many names it is kept that they were told of, the last ones.
const KEPT_LIMIT: usize = 4_096;

/// Of which names it was told that two servers answered them: of a name once, as long as 4,096 others weren't told of
/// since, and of at most 64 in an hour.
#[derive(Drop)]
pub struct Clashes {
    told: VecDeque<Name>,
    // The last hour in which one was told, and how many were in it.
    hour: u64,
    count: u32,
}

impl Model for Clashes {
    ghost use Rattle.serve_state.specs.Clashes.{ClashesState};

    ghost Value = { ClashesState };

    ghost view = { λ c. record { told = c.told.items; hour = c.hour; count = c.count } };
}

impl Clashes {
    /// Nothing was told. It takes no memory.
    pub fn new(alloc: Global) -> Clashes
        ensures { result ≡ record { told = []; hour = 0; count = 0 } }
    {
        Clashes {
            told: VecDeque::new(alloc),
            hour: 0,
            count: 0,
        }
    }

    /// Whether it is to be told that two servers answered this name, in the hour of this number. It counts as told
    /// then.
    pub fn tell(&mut self, name: Name, hour: u64) -> Result<bool, NoMemory>
        ensures news { IfOk result (λ told. told ≡ is_news name hour self.old) }
        ensures ok { OnOk result (self.new ≡ after_clash name hour self.old) }
        ensures err { OnErr result (self.new ≡ self.old) }
    {
        let count = self.told_in(hour);
        if count >= MOST_TOLD || self.told.contains(&name) {
            return Ok(false);
        }
        if self.told.push_back(name).is_err() {
            return Err(AllocError);
        }
        if self.told.len() > KEPT_LIMIT {
            self.told.pop_front();
        }
        self.hour = hour;
        self.count = count + 1;
        Ok(true)
    }

    fn told_in(&self, hour: u64) -> u32
        ensures { result ≡ told_in hour self.now }
    {
        if self.hour == hour { self.count } else { 0 }
    }
}
