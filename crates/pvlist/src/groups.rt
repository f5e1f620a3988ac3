//! Rights of groups.
ghost use Rattle.std.specs.Prelude.{◌≡◌, [], IfOk, IfErr, OnOk};
ghost use Rattle.std.specs.Str.Lines.{lines};
ghost use Rattle.pvlist.specs.Groups.{rights_of, right_bits};
ghost use Rattle.pvlist.specs.GroupFile.{group_entry, is_full, AreGroupsOf, IsGroupFault, IsFaultOf, TakesLine};

use crate::fault::{RuleFault, RuleLineFault};
use crate::group_line::read_group_line;
use crate::line::ROW_LIMIT;
use pv_name::Group;
use std::alloc::Global;
use std::marker::Model;

/// What a group may do.
#[derive(Clone, Copy, Debug, PartialEq, Eq)]
pub enum GroupRight {
    None,
    Read,
    Write,
}

impl GroupRight {
    /// The right as Channel Access tells it: bit 0 is to read, bit 1 to write.
    pub fn bits(self) -> u32
        ensures { result ≡ right_bits self }
    {
        match self {
            GroupRight::None => 0,
            GroupRight::Read => 1,
            GroupRight::Write => 3,
        }
    }
}

/// A line of a group file.
#[derive(Drop)]
pub struct GroupLine {
    pub group: Group,
    pub right: GroupRight,
}

/// The lines of a group file. A contract sees them as a list.
#[derive(Drop)]
pub struct Groups {
    lines: Vec<GroupLine>,
}

impl Model for Groups {
    ghost use Rattle.std.specs.Prelude.{List};
    ghost use Rattle.pvlist.specs.declared.groups.GroupLine.{GroupLine};

    ghost Value = { List GroupLine };

    ghost view = { λ g. g.lines.items };
}

impl Groups {
    /// Reads a group file. Of a file with faults the first faulty line is told.
    pub fn read(alloc: Global, text: &str) -> Result<Groups, RuleFault>
        ensures ok { IfOk result (AreGroupsOf (lines text.now)) }
        ensures err { IfErr result (IsGroupFault text.now) }
    {
        let mut groups = Groups::none(alloc);
        let mut number = 0;
        for line in text.lines() {
            number += 1;
            if let Err(fault) = groups.take_line(alloc, line) {
                return Err(fault.at(number));
            }
        }
        Ok(groups)
    }

    // Takes up what the next line of a file says.
    fn take_line(&mut self, alloc: Global, line: &str) -> Result<(), RuleLineFault>
        ensures ok { OnOk result (TakesLine line.now self.old self.new) }
        ensures err { IfErr result (IsFaultOf (group_entry (is_full self.old) line.now)) }
    {
        if let Some(line) = read_group_line(alloc, line, self.lines.len() >= ROW_LIMIT)? {
            self.lines.push(line)?;
        }
        Ok(())
    }

    /// No group has a line. It takes no memory.
    pub fn none(alloc: Global) -> Groups
        ensures { result ≡ [] }
    {
        Groups {
            lines: Vec::new(alloc),
        }
    }

    /// The rights that the last line of the group gives, as `GroupRight::bits`. It takes no memory.
    pub fn rights(&self, group: &Group) -> Option<u32>
        ensures { result ≡ rights_of self.now group.now }
    {
        let mut rights = None;
        for line in &self.lines {
            if line.group == *group {
                rights = Some(line.right.bits());
            }
        }
        rights
    }
}
