//! Which limits were met, and when that is told.
ghost use Rattle.std.specs.Prelude.{◌≡◌, ◌+◌, ◌≤◌, ℕ, List, length};
ghost use Rattle.serve_state.specs.LimitText.{key_of};
ghost use Rattle.serve_state.specs.Limits.{WatchState, told_now, after_look, after_looks, told_in, IsSilentFor, IsToldOnce, met_of, most_under, unwatched, used_of};

use gateway_state::{Fullest, Limits, LimitsMet, RowCounts};
use std::fmt;
use std::marker::Model;

/// How many looks pass, of which there are four a second, until the same limit is told again.
const REST: u32 = 240;

/// So many limits are watched.
pub const LIMITS: usize = 9;

/// A limit of what clients may have, or of what the gateway keeps.
#[derive(Clone, Copy, Debug, PartialEq, Eq)]
pub enum Limit {
    /// Searched names that are remembered.
    Names,
    /// Channels of a client.
    Channels,
    /// Subscriptions of a client.
    Subscriptions,
    /// Reads of a client that wait.
    Reads,
    /// Writes of a client that wait.
    Writes,
    /// Variables that are open upstream.
    Links,
    /// Clients.
    Clients,
    /// Messages that wait for a client, above which updates are held back.
    Held,
    /// Messages that wait for a connection, at which it is cut off.
    Full,
}

impl Limit {
    /// All limits, in the order in which they are told.
    pub const ALL: [Limit; LIMITS] = [
        Limit::Names,
        Limit::Channels,
        Limit::Subscriptions,
        Limit::Reads,
        Limit::Writes,
        Limit::Links,
        Limit::Clients,
        Limit::Held,
        Limit::Full,
    ];

    /// How much there may be, where these limits hold.
    pub fn most(self, limits: &Limits) -> u64
        ensures { result ≡ most_under self limits.now }
    {
        match self {
            Limit::Names => limits.searches as u64,
            Limit::Channels => limits.channels as u64,
            Limit::Subscriptions => limits.subs as u64,
            Limit::Reads => limits.reads as u64,
            Limit::Writes => limits.writes as u64,
            Limit::Links => limits.links as u64,
            Limit::Clients => limits.sessions as u64,
            Limit::Held => 4_096,
            Limit::Full => 16_384,
        }
    }

    /// How often it was met since the start, where clients were refused so often beside what the gateway counts.
    pub fn met(self, met: &LimitsMet, refused: u64) -> u64
        ensures { result ≡ met_of self met.now refused }
    {
        match self {
            Limit::Names => met.names,
            Limit::Channels => met.channels,
            Limit::Subscriptions => met.subs,
            Limit::Reads => met.reads,
            Limit::Writes => met.writes,
            Limit::Links => met.links,
            Limit::Clients => met.sessions.saturating_add(refused),
            Limit::Held => met.held,
            Limit::Full => met.full,
        }
    }

    /// How much there is now: in all, or of the client or connection that has most.
    pub fn used(self, rows: &RowCounts, fullest: &Fullest) -> u64
        ensures { result ≡ used_of self rows.now fullest.now }
    {
        match self {
            Limit::Names => rows.searches as u64,
            Limit::Channels => fullest.channels,
            Limit::Subscriptions => fullest.subs,
            Limit::Reads => fullest.reads,
            Limit::Writes => fullest.writes,
            Limit::Links => rows.links as u64,
            Limit::Clients => rows.sessions as u64,
            Limit::Held | Limit::Full => fullest.messages,
        }
    }

    /// What it is called in what the gateway tells of itself.
    pub fn key(self) -> &'static str
        ensures { result.now ≡ key_of self }
    {
        match self {
            Limit::Names => "names_remembered",
            Limit::Channels => "channels_of_a_client",
            Limit::Subscriptions => "subscriptions_of_a_client",
            Limit::Reads => "reads_of_a_client",
            Limit::Writes => "writes_of_a_client",
            Limit::Links => "links",
            Limit::Clients => "clients",
            Limit::Held => "messages_before_updates_are_held",
            Limit::Full => "messages_of_a_connection",
        }
    }
}

/// A limit, and how much there may be.
#[derive(Clone, Copy, Debug, PartialEq, Eq)]
pub struct Bound {
    pub limit: Limit,
    pub most: u64,
}

impl fmt::Display for Bound {
    ghost use Rattle.std.specs.Prelude.{Some};
    ghost use Rattle.serve_state.specs.LimitText.{bound_text};

    ghost output = { λ bound. Some (bound_text bound) };

    fn fmt<W: fmt::Write>(&self, f: &mut fmt::Formatter<W>) -> fmt::Result {
        let most = self.most;
        match self.limit {
            Limit::Names => write!(
                f,
                "{most} searched names are remembered: others aren't looked for"
            ),
            Limit::Channels => write!(f, "a client has {most} channels: others aren't made"),
            Limit::Subscriptions => write!(
                f,
                "a client has {most} subscriptions: others are refused"
            ),
            Limit::Reads => write!(f, "{most} reads of a client wait: others are refused"),
            Limit::Writes => write!(f, "{most} writes of a client wait: others are refused"),
            Limit::Links => write!(
                f,
                "{most} variables are open upstream: others aren't opened"
            ),
            Limit::Clients => write!(f, "{most} clients are connected: others are refused"),
            Limit::Held => write!(
                f,
                "{most} messages wait for a client: its updates are held back"
            ),
            Limit::Full => write!(f, "{most} messages wait for a connection: it is cut off"),
        }
    }
}

/// When it is told how often a limit was met. It is shown the count at each look, of which there are four a second.
#[derive(Drop)]
pub struct LimitWatch {
    // How often it was met when that was last told.
    told: u64,
    // At so many looks nothing is told.
    rest: u32,
}

impl Model for LimitWatch {
    ghost use Rattle.serve_state.specs.LimitText.{key_of};
    ghost use Rattle.serve_state.specs.Limits.{WatchState};

    ghost Value = { WatchState };

    ghost view = { λ w. record { told = w.told; rest = w.rest } };
}

impl LimitWatch {
    /// Nothing was told.
    pub fn new() -> LimitWatch
        ensures { result ≡ unwatched }
    {
        LimitWatch { told: 0, rest: 0 }
    }

    /// Takes the next look: since the start the limit was met so often. How often it was met since that was last
    /// told, where it is to be told now.
    pub fn look(&mut self, met: u64) -> Option<u64>
        ensures told { result ≡ told_now met self.old }
        ensures new { self.new ≡ after_look met self.old }
    {
        if self.rest > 0 {
            self.rest -= 1;
            return None;
        }
        if met <= self.told {
            return None;
        }
        let since = met - self.told;
        self.told = met;
        self.rest = REST;
        Some(since)
    }
}

/// What was told isn't told again at the next 240 looks, whatever is met meanwhile.
pub fn told_limits_rest()
    ensures { (met : ℕ) (watch : WatchState) (counts : List ℕ) → IsSilentFor met watch counts }
{}

/// What is told at any looks is, all together, what was met between the first and the last that told of it: nothing
/// is told twice, and nothing that was met meanwhile is left out.
pub fn limits_are_told_once()
    ensures { (counts : List ℕ) (watch : WatchState) → IsToldOnce counts watch }
{}
