//! Rules, which say what names lead to.
ghost use Rattle.std.specs.Prelude.{◌≡◌, [], true, IfOk, IfErr, OnOk};
ghost use Rattle.std.specs.Str.Lines.{lines};
ghost use Rattle.pvlist.specs.declared.rules.Order.TheVariants.{AllowDeny};
ghost use Rattle.pvlist.specs.RuleFile.{IsRulingOf, IsRuleFault, TakesLine, IsLineFault};

use crate::fault::{RuleFault, RuleLineFault};
use crate::line::{Item, ROW_LIMIT, read_line};
use crate::row::Row;
use crate::syntax::Syntax;
use std::alloc::Global;
use std::fmt;
use std::marker::Model;

/// What decides between rows that allow a name and a row that denies it to all.
#[derive(Clone, Copy, Debug, PartialEq, Eq)]
pub enum Order {
    /// A row that denies a name to all refuses it.
    AllowDeny,
    /// Such a row has no effect on names that a row allows.
    DenyAllow,
}

impl fmt::Display for Order {
    ghost use Rattle.std.specs.Prelude.{Some};
    ghost use Rattle.pvlist.specs.Order.{order_text};

    ghost output = { λ order. Some (order_text order) };

    fn fmt<W: fmt::Write>(&self, f: &mut fmt::Formatter<W>) -> fmt::Result {
        match self {
            Order::AllowDeny => f.write_str("ALLOW, DENY"),
            Order::DenyAllow => f.write_str("DENY, ALLOW"),
        }
    }
}

/// The rules of a file, or those that leave all names open. A contract sees them as a `Ruling`.
#[derive(Drop)]
pub struct Rules {
    order: Order,
    rows: Vec<Row>,
    is_open: bool,
}

impl Model for Rules {
    ghost use Rattle.pvlist.specs.Ruling.{Ruling};
    ghost use Rattle.pvlist.specs.contracts.row.Row as row;
    ghost use Rattle.std.specs.Coded.{codes};

    ghost Value = { Ruling };

    ghost coded = { Prim.hlevel (codes, row.the_row.coded) };

    ghost view = { λ r. record { order = r.order; rows = r.rows.items; is_open = r.is_open } };
}

impl Rules {
    /// Reads a rule file whose patterns are of the escaped syntax. Of a file with faults the first
    /// faulty line is told.
    pub fn read(alloc: Global, text: &str) -> Result<Rules, RuleFault>
        ensures ok { IfOk result (IsRulingOf Syntax.Escaped (lines text.now)) }
        ensures err { IfErr result (IsRuleFault Syntax.Escaped text.now) }
    {
        Rules::read_as(alloc, text, Syntax::Escaped)
    }

    /// The same where the patterns are of the syntax.
    pub fn read_as(alloc: Global, text: &str, syntax: Syntax) -> Result<Rules, RuleFault>
        ensures ok { IfOk result (IsRulingOf syntax (lines text.now)) }
        ensures err { IfErr result (IsRuleFault syntax text.now) }
    {
        let mut rules = Rules {
            order: Order::AllowDeny,
            rows: Vec::new(alloc),
            is_open: false,
        };
        let mut number = 0;
        for line in text.lines() {
            number += 1;
            if let Err(fault) = rules.take_line(alloc, line, syntax) {
                return Err(fault.at(number));
            }
        }
        Ok(rules)
    }

    // Takes up what the next line of a file says.
    fn take_line(&mut self, alloc: Global, line: &str, syntax: Syntax) -> Result<(), RuleLineFault>
        ensures ok { OnOk result (TakesLine syntax line.now self.old self.new) }
        ensures err { IfErr result (IsLineFault syntax self.old line.now) }
    {
        match read_line(alloc, line, syntax, self.rows.len() >= ROW_LIMIT)? {
            Item::Nothing => {}
            Item::Order(order) => self.order = order,
            Item::Row(row) => self.rows.push(row)?,
        }
        Ok(())
    }

    /// The rules where there is no file: each name leads to itself. It takes no memory.
    pub fn open_to_all(alloc: Global) -> Rules
        ensures { result ≡ record { order = AllowDeny; rows = []; is_open = true } }
    {
        Rules {
            order: Order::AllowDeny,
            rows: Vec::new(alloc),
            is_open: true,
        }
    }

    /// Whether these are the rules where there is no file.
    pub fn is_open(&self) -> bool
        ensures { result ≡ self.now.is_open }
    {
        self.is_open
    }

    /// The order that the last order line gives.
    pub fn order(&self) -> Order
        ensures { result ≡ self.now.order }
    {
        self.order
    }

    /// The rows, in the order of the file.
    pub fn rows(&self) -> &[Row]
        ensures { result.now ≡ self.now.rows }
    {
        self.rows.as_slice()
    }
}
