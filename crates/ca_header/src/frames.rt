//! The messages of bytes that are there as a whole, as a datagram is.
ghost use Rattle.std.specs.Prelude.{◌≡◌};

use crate::header::Header;
use crate::reading::{FrameFault, Front, read_front};
use std::marker::Model;

/// What [`Frames::next`] finds.
#[derive(Clone, Copy)]
pub enum Frame<'a> {
    /// A message: its header and its payload.
    Message(Header, &'a [u8]),
    /// What is left is less than a message.
    Rest(&'a [u8]),
    Fault(FrameFault),
}

/// The messages at the front of some bytes, one after the other. Nothing is copied.
#[derive(Debug, Drop)]
pub struct Frames<'a> {
    rest: &'a [u8],
}

impl<'a> Model for Frames<'a> {
    ghost use Rattle.std.specs.Prelude.{ℕ, List};

    ghost Value = { List ℕ };

    ghost view = { λ f. f.rest.now };
}

impl<'a> Frames<'a> {
    ghost use Rattle.ca_header.specs.Frames.{IsNext};
    ghost use Rattle.ca_header.specs.Reading.{front_at};

    pub fn new(bytes: &'a [u8]) -> Self
        ensures { result ≡ bytes.now }
    {
        Frames { rest: bytes }
    }

    /// The next message. From the rest or the fault on, every call gives the same.
    pub fn next(&mut self) -> Frame<'a>
        ensures { IsNext self.old (front_at self.old) result self.new }
    {
        let bytes = self.rest;
        match read_front(bytes) {
            Front::Whole(head, len) => {
                let end = len + head.size as usize;
                self.rest = &bytes[end..];
                Frame::Message(head, &bytes[len..end])
            }
            Front::Partial => Frame::Rest(bytes),
            Front::Fault(fault) => Frame::Fault(fault),
        }
    }
}
