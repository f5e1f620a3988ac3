//! What is heard at once, so that hosts that send much keep nobody waiting.
ghost use Rattle.std.specs.Prelude.{◌≡◌, ℕ, ◌+◌, ◌&&◌, nat_eq, nat_lt, [], IfOk, OnOk, OnErr, if◌then◌else◌};
ghost use Rattle.std.specs.Map.{lookup};
ghost use Rattle.std.specs.Option.{unwrap_or};
ghost use Rattle.ask_schedule.specs.AtOnce.{all_heard_in, heard_in, may_hear};

use crate::NoMemory;
use std::alloc::{AllocError, Global};
use std::collections::HashMap;
use std::marker::Model;

/// So many parts of datagrams are heard in each look.
const MOST_PARTS: u32 = 8;

/// So many of each host.
const MOST_OF_HOST: u32 = 4;

/// How many parts of datagrams were heard at once in the last look in which one was, and how many of each host.
#[derive(Drop)]
pub struct AtOnce {
    look: u64,
    all: u32,
    parts: HashMap<u128, u32>,
}

impl Model for AtOnce {
    ghost use Rattle.ask_schedule.specs.AtOnce.{AtOnceState};

    ghost Value = { AtOnceState };

    ghost view = { λ s. record { look = s.look; all = s.all; parts = s.parts.entries } };
}

impl AtOnce {
    /// None was. This takes no memory.
    pub fn new(alloc: Global) -> AtOnce
        ensures { result ≡ record { look = 0; all = 0; parts = [] } }
    {
        AtOnce {
            look: 0,
            all: 0,
            parts: HashMap::new(alloc),
        }
    }

    /// Whether one more part of this host's is heard in this look, which is counted then. An error counts nothing.
    pub fn hear(&mut self, look: u64, host: u128) -> Result<bool, NoMemory>
        ensures may { IfOk result (λ may. may ≡ may_hear look host self.old) }
        ensures counted { (other : ℕ) → OnOk result (heard_in look other self.new
            ≡ (if may_hear look host self.old && nat_eq host other then heard_in look other self.old + 1 else heard_in look other self.old)) }
        ensures all { OnOk result (all_heard_in look self.new
            ≡ (if may_hear look host self.old then all_heard_in look self.old + 1 else all_heard_in look self.old)) }
        ensures err { (other : ℕ) → OnErr result (heard_in look other self.new ≡ heard_in look other self.old) }
        ensures all_err { OnErr result (all_heard_in look self.new ≡ all_heard_in look self.old) }
    {
        self.begin(look);
        if self.all >= MOST_PARTS || !count(&mut self.parts, host)? {
            return Ok(false);
        }
        self.all += 1;
        Ok(true)
    }

    // Forgets what was heard in another look.
    fn begin(&mut self, look: u64)
        ensures look { self.new.look ≡ look }
        ensures same { (host : ℕ) → heard_in look host self.new ≡ heard_in look host self.old }
        ensures all { all_heard_in look self.new ≡ all_heard_in look self.old }
    {
        if self.look != look {
            self.look = look;
            self.all = 0;
            self.parts.clear();
        }
    }
}

// Whether one more of the host's may be, which is counted then. An error counts nothing.
fn count(parts: &mut HashMap<u128, u32>, host: u128) -> Result<bool, NoMemory>
    ensures may { IfOk result (λ may. may ≡ nat_lt (unwrap_or (lookup (nat_eq host) parts.old.entries) 0) 4) }
    ensures counted { (other : ℕ) → OnOk result (unwrap_or (lookup (nat_eq other) parts.new.entries) 0
        ≡ (if nat_lt (unwrap_or (lookup (nat_eq host) parts.old.entries) 0) 4 && nat_eq host other
        then unwrap_or (lookup (nat_eq other) parts.old.entries) 0 + 1 else unwrap_or (lookup (nat_eq other) parts.old.entries) 0)) }
    ensures err { (other : ℕ) → OnErr result (lookup (nat_eq other) parts.new.entries ≡ lookup (nat_eq other) parts.old.entries) }
{
    if let Some(parts) = parts.get_mut(&host) {
        return Ok(raise(parts));
    }
    match parts.insert(host, 1) {
        Ok(_) => Ok(true),
        Err(_) => Err(AllocError),
    }
}

// One more, where it may be.
fn raise(parts: &mut u32) -> bool
    ensures may { result ≡ nat_lt parts.old 4 }
    ensures counted { parts.new ≡ (if nat_lt parts.old 4 then parts.old + 1 else parts.old) }
{
    if *parts >= MOST_OF_HOST {
        return false;
    }
    *parts += 1;
    true
}
