//! Standard input, cut into lines.
ghost use Rattle.std.specs.Prelude.{◌≡◌, [], IfOk, OnOk, OnErr, false};
ghost use Rattle.serve_state.specs.OrderLines.{after_byte, line_at, line_of, last_line};

use crate::order::{OperatorOrder, read_order};
use std::alloc::{AllocError, Global};
use std::marker::Model;

/// A line with more bytes is none of the orders, and isn't kept.
pub const LINE_LIMIT: usize = 1_024;

const LINE_FEED: u8 = b'\n';

/// A line that ended.
#[derive(Clone, Copy, Debug, PartialEq, Eq)]
pub enum OrderLine {
    Order(OperatorOrder),
    /// It is none of the orders.
    NoOrder,
}

/// What came of the line that has not ended.
#[derive(Drop)]
pub struct OrderLines {
    held: Vec<u8>,
    // It has more bytes than a line may have.
    is_long: bool,
}

impl Model for OrderLines {
    ghost use Rattle.serve_state.specs.OrderLines.{HeardState};

    ghost Value = { HeardState };

    ghost view = { λ l. record { held = l.held.items; is_long = l.is_long } };
}

impl OrderLines {
    /// Nothing came. It takes no memory.
    pub fn new(alloc: Global) -> OrderLines
        ensures { result ≡ record { held = []; is_long = false } }
    {
        OrderLines {
            held: Vec::new(alloc),
            is_long: false,
        }
    }

    /// The next byte came. The line that it ends, where it ends one. At an error nothing was heard.
    pub fn hear(&mut self, byte: u8) -> Result<Option<OrderLine>, AllocError>
        ensures line { IfOk result (λ line. line ≡ line_at byte self.old) }
        ensures ok { OnOk result (self.new ≡ after_byte byte self.old) }
        ensures err { OnErr result (self.new ≡ self.old) }
    {
        if byte == LINE_FEED {
            let line = self.line();
            self.held.clear();
            self.is_long = false;
            return Ok(Some(line));
        }
        if self.is_long {
            return Ok(None);
        }
        if self.held.len() >= LINE_LIMIT {
            self.is_long = true;
            return Ok(None);
        }
        self.held.push(byte)?;
        Ok(None)
    }

    /// The input ended: its last line, where that has no line feed.
    pub fn end(&self) -> Option<OrderLine>
        ensures { result ≡ last_line self.now }
    {
        if self.held.is_empty() {
            return None;
        }
        Some(self.line())
    }

    fn line(&self) -> OrderLine
        ensures { result ≡ line_of self.now }
    {
        if self.is_long {
            return OrderLine::NoOrder;
        }
        match read_order(self.held.as_slice()) {
            Some(order) => OrderLine::Order(order),
            None => OrderLine::NoOrder,
        }
    }
}
