//! What can happen to the gateway.
use crate::limits::Limits;
use ca_header::Message;
use pv_name::{Host, Name};
use rule_desk::Policy;
use std::fmt;

/// A connection, by the number that the caller gave it.
#[derive(Clone, Copy, Debug, PartialEq, Eq, PartialOrd, Ord)]
pub enum Dest {
    /// A client's.
    Session(u32),
    /// A server's.
    Upstream(u32),
}

/// One thing that happens, and so one step of the gateway.
#[derive(Drop)]
pub enum Event {
    /// A client connected; its peer has this address text.
    Opened(u32, Host),
    /// A client's connection is gone.
    Lost(u32),
    /// A client sent a message.
    Client(u32, Message),
    /// A server is connected.
    UpOpened(u32),
    /// A server's connection is gone.
    UpLost(u32),
    /// A server sent a message.
    Server(u32, Message),
    /// A server has the variable of this real name.
    Found(Name, u32),
    /// Somebody at this host looks for a name.
    Search(Host, Name),
    /// All remembered searches are forgotten.
    Sweep,
    /// From now on this policy holds.
    Edit(Policy),
    /// The oldest messages of an outbox are taken: so many, or all where there are fewer.
    Drain(Dest, usize),
    /// From now on these limits hold.
    Limit(Limits),
    /// Time passed: what wasn't searched for since the last time is forgotten, and what servers owe since
    /// before the last time is given up.
    Age,
    /// A server is asked whether it is there.
    Probe(u32),
    /// A client's search on its connection, which it calls by this ID, is made again for it: there was no answer
    /// when it came.
    Seek(u32, u32, Name),
}

/// Prints the variant's name alone.
impl fmt::Debug for Event {
    fn fmt<W: fmt::Write>(&self, f: &mut fmt::Formatter<W>) -> fmt::Result {
        f.write_str(match self {
            Event::Opened(..) => "Opened",
            Event::Lost(..) => "Lost",
            Event::Client(..) => "Client",
            Event::UpOpened(..) => "UpOpened",
            Event::UpLost(..) => "UpLost",
            Event::Server(..) => "Server",
            Event::Found(..) => "Found",
            Event::Search(..) => "Search",
            Event::Sweep => "Sweep",
            Event::Edit(..) => "Edit",
            Event::Drain(..) => "Drain",
            Event::Limit(..) => "Limit",
            Event::Age => "Age",
            Event::Probe(..) => "Probe",
            Event::Seek(..) => "Seek",
        })
    }
}
