//! The messages that wait for one connection.
ghost use Rattle.std.specs.Prelude.{◌≡◌, ◌^◌, ◌≤◌, [], length, drop, take, false, true, OnOk, OnErr, IfOk, IfErr};
ghost use Rattle.std.specs.VecDeque.{deque_len};
ghost use Rattle.fanout.specs.Waiting.{out_len, waiting_bytes};
ghost use Rattle.fanout.specs.declared.outbox.TheConstants.{OUTBOX_LIMIT};
ghost use Rattle.fanout.specs.Outbox.{refuses, appended, without_first, front, IsRefusalOf};

use bytes::Bytes;
use ca_header::HeadBytes;
use std::alloc::{AllocError, Global};
use std::collections::VecDeque;
use std::marker::Model;

/// How many messages an outbox holds at most, unless it is said otherwise.
pub const OUTBOX_LIMIT: usize = 16_384;

/// A message as it goes out: its canonical header, and its payload with the padding.
#[derive(Debug, Drop)]
pub struct Out {
    pub head: HeadBytes,
    pub payload: Bytes,
}

impl Out {
    // how many bytes it has as it goes out
    fn len(&self) -> u128
        ensures len { result ≡ out_len self.now }
        ensures short { result ≤ 2 ^ 65 }
    {
        self.head.as_slice().len() as u128 + self.payload.len() as u128
    }
}

/// Why an outbox took no message. The message comes back.
#[derive(Debug, Drop)]
pub enum AppendFault {
    /// Memory was refused, and the outbox is as before.
    OutOfMemory(Out),
    /// The outbox is marked: it was, or it was full.
    Marked(Out),
}

/// The messages that wait for a connection, oldest first, and the mark that it must end.
#[derive(Debug, Drop)]
pub struct Outbox {
    messages: VecDeque<Out>,
    /// How many bytes those messages have.
    bytes: u128,
    marked: bool,
}

impl Model for Outbox {
    ghost use Rattle.fanout.specs.Waiting.{Waiting, CountsBytes};

    ghost Value = { Waiting };

    ghost view = { λ o. record { messages = o.messages.items; marked = o.marked } };

    ghost invariant = { λ o. CountsBytes o.messages.items o.bytes };
}

impl Outbox {
    /// Nothing waits, and nothing is marked.
    pub fn new(alloc: Global) -> Outbox
        ensures { result ≡ record { messages = []; marked = false } }
    {
        Outbox {
            messages: VecDeque::new(alloc),
            bytes: 0,
            marked: false,
        }
    }

    /// How many messages wait.
    pub fn len(&self) -> usize
        ensures { result ≡ length self.now.messages }
    {
        self.messages.len()
    }

    /// How many bytes wait, headers and payloads, as far as the type tells it.
    pub fn bytes(&self) -> u64
        ensures { result ≡ waiting_bytes self.now }
    {
        self.bytes.min(u128::from(u64::MAX)) as u64
    }

    /// Whether the connection must end.
    pub fn marked(&self) -> bool
        ensures { result ≡ self.now.marked }
    {
        self.marked
    }

    /// Marks the connection to end.
    pub fn mark(&mut self)
        ensures { self.new ≡ record self.old { marked = true } }
    {
        self.marked = true;
    }

    /// Puts a message last. A marked outbox takes none, and a full one is marked instead.
    pub fn append(&mut self, out: Out) -> Result<(), AppendFault>
        ensures ok { OnOk result (self.new ≡ appended OUTBOX_LIMIT self.old out) }
        ensures taken { OnOk result (refuses OUTBOX_LIMIT self.old ≡ false) }
        ensures err { IfErr result (IsRefusalOf OUTBOX_LIMIT self.old out self.new) }
    {
        self.append_within(OUTBOX_LIMIT as u32, out)
    }

    /// Puts a message last, where at most so many may wait. A marked outbox takes none, and a full one is marked instead.
    pub fn append_within(&mut self, most: u32, out: Out) -> Result<(), AppendFault>
        ensures ok { OnOk result (self.new ≡ appended most self.old out) }
        ensures taken { OnOk result (refuses most self.old ≡ false) }
        ensures err { IfErr result (IsRefusalOf most self.old out self.new) }
    {
        if self.marked || self.messages.len() >= most as usize {
            self.marked = true;
            return Err(AppendFault::Marked(out));
        }
        let len = out.len();
        match self.messages.push_back(out) {
            Ok(()) => {
                self.bytes += len;
                Ok(())
            }
            Err(refused) => Err(AppendFault::OutOfMemory(refused.value)),
        }
    }

    /// Takes the oldest message.
    pub fn take_front(&mut self) -> Option<Out>
        ensures found { result ≡ front self.old }
        ensures rest { self.new ≡ without_first 1 self.old }
    {
        let out = self.messages.pop_front()?;
        self.bytes -= out.len();
        Some(out)
    }

    /// Takes the oldest `count` messages in order, or all where there are fewer.
    pub fn take(&mut self, alloc: Global, count: usize) -> Result<Vec<Out>, AllocError>
        ensures ok { OnOk result (self.new ≡ without_first count self.old) }
        ensures found { IfOk result (λ outs. outs.items ≡ take count self.old.messages) }
        ensures err { OnErr result (self.new ≡ self.old) }
    {
        let found = count.min(self.messages.len());
        let mut outs = Vec::with_capacity(alloc, found)?;
        for _ in 0..found {
            let out = self.take_front().unwrap();
            outs.push_reserved(out);
        }
        Ok(outs)
    }
}
