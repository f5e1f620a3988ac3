//! What is logged.
ghost use Rattle.std.specs.Prelude.{◌≡◌};
ghost use Rattle.serve_state.specs.Levels.{cut_level, kind_of, level_of};
ghost use Rattle.serve_state.specs.NoticeText.{file_cause_text};

use crate::cut::Cut;
use crate::limits::Bound;
use access_file::AccessCause;
use log::Level;
use pvlist::RuleCause;
use std::fmt;
use std::net::SocketAddr;

/// Why a rule file isn't taken.
#[derive(Clone, Copy, Debug, PartialEq, Eq)]
pub enum FileCause {
    /// It is a folder, a FIFO or a device.
    NoFile,
    TooLarge,
    Empty,
    /// No two readings one after the other agreed.
    Unsteady,
}

impl FileCause {
    /// What is said of the file.
    pub fn words(&self) -> &'static str
        ensures { result.now ≡ file_cause_text self.now }
    {
        match self {
            FileCause::NoFile => "is no regular file",
            FileCause::TooLarge => "has more than 16777216 bytes",
            FileCause::Empty => "is empty",
            FileCause::Unsteady => "changes while it is read",
        }
    }
}

impl fmt::Display for FileCause {
    ghost use Rattle.std.specs.Prelude.{Some};
    ghost use Rattle.serve_state.specs.NoticeText.{file_cause_text};

    ghost output = { λ cause. Some (file_cause_text cause) };

    fn fmt<W: fmt::Write>(&self, f: &mut fmt::Formatter<W>) -> fmt::Result {
        f.write_str(self.words())
    }
}

/// What is logged, one line each. Connections are told by number and address.
#[derive(Clone, Copy)]
pub enum Notice<'a> {
    RulesRead(usize),
    OpenToAll,
    RulesRefused(usize, RuleCause),
    GroupsRefused(usize, RuleCause),
    AccessRead,
    AccessRefused(usize, AccessCause),
    /// A file names this host, and the system has no address of it.
    HostUnknown(&'a str),
    /// The same, where it had one before.
    HostKept(&'a str),
    /// For so many hosts that files name the system gave no answer in time.
    HostsUnanswered(usize),
    FileUnread(&'a str),
    /// The file at this path isn't taken, for this reason.
    FileRefused(&'a str, FileCause),
    Reloaded,
    /// Whoever connects to this address is told of the gateway.
    ReportsAt(SocketAddr),
    ServerConnected(u32, SocketAddr),
    ServerUnreached(u32, SocketAddr),
    /// It was told already that it can't be reached, and nobody ordered this try.
    ServerStillUnreached(u32, SocketAddr),
    ServerLost(u32, SocketAddr),
    ServerCut(u32, SocketAddr, Cut),
    /// The same of a server that was found by search.
    FoundUnreached(u32, SocketAddr),
    FoundLost(u32, SocketAddr),
    FoundCut(u32, SocketAddr, Cut),
    /// What is told of name servers, by number and address, is told once an outage.
    NameServerConnected(u32, SocketAddr),
    NameServerUnreached(u32, SocketAddr),
    NameServerLost(u32, SocketAddr),
    NameServerCut(u32, SocketAddr, Cut),
    /// As many servers are known as may be, and one more was found.
    ServersFull(u32),
    /// The servers at both addresses say that they have the name.
    NameAtTwo(&'a str, SocketAddr, SocketAddr),
    ClientConnected(u32, SocketAddr),
    ClientGone(u32, SocketAddr),
    ClientCut(u32, SocketAddr, Cut),
    ClientRefused(SocketAddr, &'a str),
    /// A limit was met so often since that was last told.
    LimitMet(Bound, u64),
    /// So many lines of the log were dropped.
    LinesDropped(u64),
    /// So many names are remembered and not found, of as many as may be.
    NamesNearLimit(usize, usize),
    /// So many names are missing that aren't looked for, since too many are.
    NamesDropped(u64),
    /// So many names were asked for.
    NamesAsked(usize),
    /// A datagram that asks for names couldn't be sent there. It is told once, until one is.
    Unsent(SocketAddr),
    SentAgain(SocketAddr),
    /// Two servers answered for this name, the first of which answered first.
    NameOfTwo(&'a str, u32, u32),
    /// It was forgotten which names clients looked for.
    Swept,
    /// What wasn't searched for since the last time is forgotten.
    Aged,
    /// Connections are watched: a server that says nothing for so many seconds is asked whether it is there.
    Watching(u32),
    /// They aren't.
    NotWatching,
    /// A server said nothing for a while, and is asked whether it is there.
    ServerProbed(u32, SocketAddr),
    /// A line of standard input is none of the orders.
    NoOrder,
    OutOfMemory,
    Failed,
    Closing,
}

impl<'a> Notice<'a> {
    /// The level at which it is logged.
    pub fn level(&self) -> Level
        ensures { result ≡ level_of self.now }
    {
        match self {
            Notice::OutOfMemory | Notice::Failed => Level::Error,
            Notice::RulesRefused(_, _)
            | Notice::GroupsRefused(_, _)
            | Notice::AccessRefused(_, _)
            | Notice::HostUnknown(_)
            | Notice::HostKept(_)
            | Notice::HostsUnanswered(_)
            | Notice::FileUnread(_)
            | Notice::FileRefused(_, _)
            | Notice::LimitMet(_, _)
            | Notice::LinesDropped(_)
            | Notice::ServerUnreached(_, _)
            | Notice::ServerLost(_, _)
            | Notice::ServerCut(_, _, _)
            | Notice::FoundUnreached(_, _)
            | Notice::FoundLost(_, _)
            | Notice::NameServerUnreached(_, _)
            | Notice::NameServerLost(_, _)
            | Notice::NameServerCut(_, _, _)
            | Notice::ServersFull(_)
            | Notice::NameAtTwo(_, _, _)
            | Notice::ClientCut(_, _, _)
            | Notice::ClientRefused(_, _)
            | Notice::NamesNearLimit(_, _)
            | Notice::NamesDropped(_)
            | Notice::Unsent(_)
            | Notice::NameOfTwo(_, _, _) => Level::Warn,
            Notice::FoundCut(_, _, why) => cut_level(*why),
            Notice::RulesRead(_)
            | Notice::OpenToAll
            | Notice::AccessRead
            | Notice::Reloaded
            | Notice::ReportsAt(_)
            | Notice::ServerConnected(_, _)
            | Notice::NameServerConnected(_, _)
            | Notice::ClientConnected(_, _)
            | Notice::ClientGone(_, _)
            | Notice::Watching(_)
            | Notice::NotWatching
            | Notice::SentAgain(_)
            | Notice::Closing => Level::Info,
            Notice::ServerStillUnreached(_, _)
            | Notice::NamesAsked(_)
            | Notice::Swept
            | Notice::Aged
            | Notice::ServerProbed(_, _)
            | Notice::NoOrder => Level::Debug,
        }
    }
}

/// At which level it is logged that the connection to a server is cut off that was found by search.
fn cut_level(why: Cut) -> Level
    ensures { result ≡ cut_level why }
{
    match why {
        Cut::Idle(_) => Level::Info,
        _ => Level::Warn,
    }
}

impl<'a> Notice<'a> {
    /// The number of its kind. Lines of one kind are counted together.
    pub fn kind(&self) -> u8
        ensures { result ≡ kind_of self.now }
    {
        match self {
            Notice::RulesRead(_) => 0,
            Notice::OpenToAll => 1,
            Notice::RulesRefused(_, _) => 2,
            Notice::GroupsRefused(_, _) => 3,
            Notice::FileUnread(_) => 4,
            Notice::FileRefused(_, _) => 5,
            Notice::Reloaded => 6,
            Notice::ReportsAt(_) => 7,
            Notice::ServerConnected(_, _) => 8,
            Notice::ServerUnreached(_, _) => 9,
            Notice::ServerStillUnreached(_, _) => 10,
            Notice::ServerLost(_, _) => 11,
            Notice::ServerCut(_, _, _) => 12,
            Notice::ClientConnected(_, _) => 13,
            Notice::ClientGone(_, _) => 14,
            Notice::ClientCut(_, _, _) => 15,
            Notice::ClientRefused(_, _) => 16,
            Notice::NamesNearLimit(_, _) => 17,
            Notice::NamesAsked(_) => 18,
            Notice::Swept => 19,
            Notice::NoOrder => 20,
            Notice::OutOfMemory => 21,
            Notice::Failed => 22,
            Notice::Closing => 23,
            Notice::LimitMet(_, _) => 24,
            Notice::LinesDropped(_) => 25,
            Notice::NameOfTwo(_, _, _) => 26,
            Notice::Aged => 27,
            Notice::Watching(_) => 28,
            Notice::NotWatching => 29,
            Notice::ServerProbed(_, _) => 30,
            Notice::FoundUnreached(_, _) => 31,
            Notice::FoundLost(_, _) => 32,
            Notice::FoundCut(_, _, _) => 33,
            Notice::ServersFull(_) => 34,
            Notice::NameAtTwo(_, _, _) => 35,
            Notice::NameServerConnected(_, _) => 36,
            Notice::NameServerUnreached(_, _) => 37,
            Notice::NameServerLost(_, _) => 38,
            Notice::NameServerCut(_, _, _) => 39,
            Notice::AccessRead => 40,
            Notice::AccessRefused(_, _) => 41,
            Notice::HostUnknown(_) => 42,
            Notice::HostKept(_) => 43,
            Notice::HostsUnanswered(_) => 44,
            Notice::Unsent(_) => 45,
            Notice::SentAgain(_) => 46,
            Notice::NamesDropped(_) => 47,
        }
    }
}

impl<'a> fmt::Display for Notice<'a> {
    ghost use Rattle.std.specs.Prelude.{Some};
    ghost use Rattle.serve_state.specs.NoticeText.{notice_text};

    ghost output = { λ notice. Some (notice_text notice) };

    fn fmt<W: fmt::Write>(&self, f: &mut fmt::Formatter<W>) -> fmt::Result {
        match self {
            Notice::RulesRead(rows) => write!(f, "rules read: {rows} rows"),
            Notice::OpenToAll => f.write_str("no rule file: every name is served"),
            Notice::RulesRefused(line, cause) => write!(f, "rules refused: line {line}: {cause}"),
            Notice::GroupsRefused(line, cause) => write!(
                f,
                "rules refused: groups line {line}: {cause}"
            ),
            Notice::AccessRead => f.write_str("access file read: rights go by user and host"),
            Notice::AccessRefused(line, cause) => write!(
                f,
                "rules refused: access line {line}: {cause}"
            ),
            Notice::HostUnknown(host) => {
                write!(f, "host {host} has no address: no client counts as it")
            }
            Notice::HostKept(host) => write!(
                f,
                "host {host} has no address now: it keeps those that it had"
            ),
            Notice::HostsUnanswered(hosts) => write!(
                f,
                "{hosts} of the hosts got no answer in time: each keeps the addresses that it had"
            ),
            Notice::FileUnread(path) => write!(f, "rules refused: {path} can't be read"),
            Notice::FileRefused(path, cause) => write!(f, "rules refused: {path} {cause}"),
            Notice::LimitMet(limit, times) => {
                let met = MetTimes {
                    limit: *limit,
                    times: *times,
                };
                write!(f, "{met}")
            }
            Notice::LinesDropped(lines) => write!(f, "{lines} lines dropped"),
            Notice::Reloaded => f.write_str("reload: the new rules hold"),
            Notice::ReportsAt(address) => write!(f, "status at {address}"),
            Notice::ServerConnected(number, peer) => write!(
                f,
                "upstream {number} ({peer}) connected"
            ),
            Notice::ServerUnreached(number, peer) => {
                write!(
                    f,
                    "upstream {number} ({peer}) can't be reached: write `connect {number}`, and then `ask`, to try again"
                )
            }
            Notice::ServerStillUnreached(number, peer) => write!(
                f,
                "upstream {number} ({peer}) still can't be reached"
            ),
            Notice::ServerLost(number, peer) => {
                write!(
                    f,
                    "upstream {number} ({peer}) lost: write `connect {number}`, and then `ask`, to try again"
                )
            }
            Notice::ServerCut(number, peer, why) => {
                write!(
                    f,
                    "upstream {number} ({peer}) cut off: {why}; write `connect {number}`, and then `ask`, to try again"
                )
            }
            Notice::FoundUnreached(number, peer) => {
                write!(
                    f,
                    "upstream {number} ({peer}), found by search, can't be reached"
                )
            }
            Notice::FoundLost(number, peer) => {
                write!(
                    f,
                    "upstream {number} ({peer}), found by search, lost: its names are searched for"
                )
            }
            Notice::FoundCut(number, peer, why) => {
                write!(
                    f,
                    "upstream {number} ({peer}), found by search, cut off: {why}; its names are searched for"
                )
            }
            Notice::NameServerConnected(number, peer) => write!(
                f,
                "name server {number} ({peer}) connected"
            ),
            Notice::NameServerUnreached(number, peer) => {
                write!(
                    f,
                    "name server {number} ({peer}) can't be reached, and is tried again"
                )
            }
            Notice::NameServerLost(number, peer) => {
                write!(
                    f,
                    "name server {number} ({peer}) lost: its connection ended; it is tried again"
                )
            }
            Notice::NameServerCut(number, peer, why) => {
                write!(
                    f,
                    "name server {number} ({peer}) cut off: {why}; it is tried again"
                )
            }
            Notice::ServersFull(most) => {
                write!(
                    f,
                    "one server more than {most} was found: it isn't connected to"
                )
            }
            Notice::NameAtTwo(name, first, other) => write!(
                f,
                "{first} and {other} both have {name}: the first that answers serves it"
            ),
            Notice::ClientConnected(number, peer) => write!(
                f,
                "client {number} ({peer}) connected"
            ),
            Notice::ClientGone(number, peer) => write!(f, "client {number} ({peer}) gone"),
            Notice::ClientCut(number, peer, why) => write!(
                f,
                "client {number} ({peer}) cut off: {why}"
            ),
            Notice::ClientRefused(peer, why) => write!(f, "a client ({peer}) refused: {why}"),
            Notice::NamesNearLimit(names, most) => {
                write!(
                    f,
                    "{names} of {most} searched names are remembered and not found: write `sweep` to forget them"
                )
            }
            Notice::NamesDropped(names) => write!(
                f,
                "{names} names aren't looked for: too many are missing"
            ),
            Notice::NamesAsked(names) => write!(f, "names asked for: {names}"),
            Notice::Unsent(place) => write!(f, "searches can't be sent to {place}"),
            Notice::SentAgain(place) => write!(f, "searches are sent to {place} again"),
            Notice::NameOfTwo(name, first, other) => write!(
                f,
                "upstreams {first} and {other} both have {name}: the first that answers serves it"
            ),
            Notice::Swept => f.write_str("swept: searched names are forgotten"),
            Notice::Aged => {
                f.write_str("aged: names that nobody looked for since the last time are forgotten")
            }
            Notice::Watching(seconds) => {
                write!(
                    f,
                    "connections are watched: an upstream that says nothing for {seconds} s is asked whether it is there"
                )
            }
            Notice::NotWatching => f.write_str(
                "connections are not watched: one that is gone without a word stays until the system notices",
            ),
            Notice::ServerProbed(number, peer) => {
                write!(f, "upstream {number} ({peer}) is asked whether it is there")
            }
            Notice::NoOrder => f.write_str("a line that is no order"),
            Notice::OutOfMemory => f.write_str("out of memory"),
            Notice::Failed => f.write_str("the gateway ran out of memory or numbers, and ends"),
            Notice::Closing => f.write_str("closing"),
        }
    }
}

/// A limit was met so often.
#[derive(Clone, Copy)]
struct MetTimes {
    limit: Bound,
    times: u64,
}

impl fmt::Display for MetTimes {
    ghost use Rattle.std.specs.Prelude.{Some};
    ghost use Rattle.serve_state.specs.NoticeText.{met_times};

    ghost output = { λ met. Some (met_times met.limit met.times) };

    fn fmt<W: fmt::Write>(&self, f: &mut fmt::Formatter<W>) -> fmt::Result {
        let MetTimes { limit, times } = *self;
        if times == 1 {
            write!(f, "limit met: {limit}")
        } else {
            write!(f, "limit met {times} times: {limit}")
        }
    }
}
