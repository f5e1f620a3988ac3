//! Rules of access security groups.
ghost use Rattle.std.specs.Prelude.{◌≡◌, ◌∷◌, ◌++◌, [], nat_lt, OnOk};
ghost use Rattle.access_file.specs.Groups.{no_grant, covers, right_bits};
ghost use Rattle.access_file.specs.Keywords.{level_of};

use crate::names::ListedNames;
use std::alloc::{AllocError, Global};
use std::marker::Model;

/// The access security level of a variable's field, or the highest that a rule speaks of.
#[derive(Clone, Copy, Debug, PartialEq, Eq)]
pub enum Level {
    Zero,
    One,
}

impl Level {
    /// The level that a word is: `0` or `1`.
    pub fn read(word: &[u8]) -> Option<Level>
        ensures { result ≡ level_of word.now }
    {
        if word == b"0".as_slice() {
            return Some(Level::Zero);
        }
        if word == b"1".as_slice() {
            return Some(Level::One);
        }
        None
    }

    /// Whether a rule of this level speaks of fields of the other.
    pub(crate) fn covers(self, other: Level) -> bool
        ensures { result ≡ covers self other }
    {
        match self {
            Level::One => true,
            Level::Zero => match other {
                Level::Zero => true,
                Level::One => false,
            },
        }
    }
}

/// What may be done with a variable.
#[derive(Clone, Copy, Debug, PartialEq, Eq)]
pub enum Right {
    None,
    Read,
    /// To write and to read.
    Write,
}

impl Right {
    /// The right as Channel Access tells it: bit 0 is to read, bit 1 to write. Greater rights are greater
    /// numbers.
    pub fn bits(self) -> u32
        ensures { result ≡ right_bits self }
    {
        match self {
            Right::None => 0,
            Right::Read => 1,
            Right::Write => 3,
        }
    }
}

/// What is granted: the right, and whether writes are to be recorded.
#[derive(Clone, Copy, Debug, PartialEq, Eq)]
pub struct Grant {
    pub right: Right,
    pub recorded: bool,
}

impl Grant {
    /// Nothing may be done.
    pub(crate) fn none() -> Grant
        ensures { result ≡ no_grant }
    {
        Grant {
            right: Right::None,
            recorded: false,
        }
    }

    /// Whether the right of the other one is greater.
    pub(crate) fn is_below(self, other: Grant) -> bool
        ensures { result ≡ nat_lt (right_bits self.right) (right_bits other.right) }
    {
        self.right.bits() < other.right.bits()
    }
}

/// A rule: what it grants, up to which level, and to whom. Where it names no groups of users it
/// speaks to every user, where it names no groups of hosts, to every host.
#[derive(Drop)]
pub(crate) struct Rule {
    pub(crate) level: Level,
    pub(crate) grant: Grant,
    pub(crate) users: ListedNames,
    pub(crate) hosts: ListedNames,
}

/// The rules of a group, in the order of the file. A contract sees the list.
#[derive(Drop)]
pub(crate) struct GroupRules {
    rules: Vec<Rule>,
}

impl Model for GroupRules {
    ghost use Rattle.std.specs.Prelude.{List};
    ghost use Rattle.access_file.specs.declared.rule.Rule.{Rule};

    ghost Value = { List Rule };

    ghost view = { λ r. r.rules.items };
}

impl GroupRules {
    /// No rule. This takes no memory.
    pub(crate) fn new(alloc: Global) -> GroupRules
        ensures { result ≡ [] }
    {
        GroupRules {
            rules: Vec::new(alloc),
        }
    }

    pub(crate) fn as_slice(&self) -> &[Rule]
        ensures { result.now ≡ self.now }
    {
        self.rules.as_slice()
    }

    pub(crate) fn push(&mut self, rule: Rule) -> Result<(), AllocError>
        ensures { OnOk result (self.new ≡ self.old ++ rule ∷ []) }
    {
        self.rules.push(rule)?;
        Ok(())
    }
}
