//! The limits that a script can change.
ghost use Rattle.std.specs.Prelude.{◌≡◌};
ghost use Rattle.replay_text.specs.Limits.{flag_limit, limit_named, session_limit, with_limit};
ghost use Rattle.replay_text.specs.Values.{flag_of};

use crate::values::{count, flag};
use decimal_text::{read_u32, read_u64};
use gateway_state::Limits;

/// A limit, and what it is from now on.
#[derive(Clone, Copy, Debug, PartialEq, Eq)]
pub enum NewLimit {
    Sessions(usize),
    Servers(usize),
    Links(usize),
    Searches(usize),
    Share(usize),
    Channels(usize),
    Subscriptions(usize),
    Reads(usize),
    Writes(usize),
    Messages(u32),
    UpdateBytes(u64),
    MakesRoom(bool),
    ReusesNumbers(bool),
    PassesOverGone(bool),
    TellsUnreadable(bool),
    AnswersSearches(bool),
    ChecksHosts(bool),
}

impl NewLimit {
    /// The limits that held, with this one changed.
    pub fn in_place_of(self, mut limits: Limits) -> Limits
        ensures { result ≡ with_limit self limits }
    {
        match self {
            NewLimit::Sessions(most) => limits.sessions = most,
            NewLimit::Servers(most) => limits.servers = most,
            NewLimit::Links(most) => limits.links = most,
            NewLimit::Searches(most) => limits.searches = most,
            NewLimit::Share(most) => limits.share = most,
            NewLimit::Channels(most) => limits.channels = most,
            NewLimit::Subscriptions(most) => limits.subs = most,
            NewLimit::Reads(most) => limits.reads = most,
            NewLimit::Writes(most) => limits.writes = most,
            NewLimit::Messages(most) => limits.messages = most,
            NewLimit::UpdateBytes(most) => limits.update_bytes = most,
            NewLimit::MakesRoom(holds) => limits.makes_room = holds,
            NewLimit::ReusesNumbers(holds) => limits.reuses_numbers = holds,
            NewLimit::PassesOverGone(holds) => limits.passes_over_gone = holds,
            NewLimit::TellsUnreadable(holds) => limits.tells_unreadable = holds,
            NewLimit::AnswersSearches(holds) => limits.answers_searches = holds,
            NewLimit::ChecksHosts(holds) => limits.checks_hosts = holds,
        }
        limits
    }
}

/// The limit of this name, with what a word writes of it.
pub(crate) fn new_limit(name: &[u8], value: &[u8]) -> Option<NewLimit>
    ensures { result ≡ limit_named name.now value.now }
{
    if name == b"sessions".as_slice() {
        Some(NewLimit::Sessions(count(value)?))
    } else if name == b"servers".as_slice() {
        Some(NewLimit::Servers(count(value)?))
    } else if name == b"links".as_slice() {
        Some(NewLimit::Links(count(value)?))
    } else if name == b"searches".as_slice() {
        Some(NewLimit::Searches(count(value)?))
    } else if name == b"share".as_slice() {
        Some(NewLimit::Share(count(value)?))
    } else {
        session_limit(name, value)
    }
}

/// The same of a limit of each session, or one that holds or doesn't.
fn session_limit(name: &[u8], value: &[u8]) -> Option<NewLimit>
    ensures { result ≡ session_limit name.now value.now }
{
    if name == b"channels".as_slice() {
        Some(NewLimit::Channels(count(value)?))
    } else if name == b"subscriptions".as_slice() {
        Some(NewLimit::Subscriptions(count(value)?))
    } else if name == b"reads".as_slice() {
        Some(NewLimit::Reads(count(value)?))
    } else if name == b"writes".as_slice() {
        Some(NewLimit::Writes(count(value)?))
    } else if name == b"messages".as_slice() {
        Some(NewLimit::Messages(read_u32(value)?))
    } else if name == b"update-bytes".as_slice() {
        Some(NewLimit::UpdateBytes(read_u64(value)?))
    } else {
        new_flag(name, flag(value)?)
    }
}

/// The same of a limit that holds or doesn't.
fn new_flag(name: &[u8], holds: bool) -> Option<NewLimit>
    ensures { result ≡ flag_limit name.now holds }
{
    if name == b"makes-room".as_slice() {
        Some(NewLimit::MakesRoom(holds))
    } else if name == b"reuses-numbers".as_slice() {
        Some(NewLimit::ReusesNumbers(holds))
    } else if name == b"passes-over-gone".as_slice() {
        Some(NewLimit::PassesOverGone(holds))
    } else if name == b"tells-unreadable".as_slice() {
        Some(NewLimit::TellsUnreadable(holds))
    } else if name == b"answers-searches".as_slice() {
        Some(NewLimit::AnswersSearches(holds))
    } else if name == b"checks-hosts".as_slice() {
        Some(NewLimit::ChecksHosts(holds))
    } else {
        None
    }
}
