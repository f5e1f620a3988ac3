//! Whether who is connected is still there.
ghost use Rattle.std.specs.Prelude.{◌≡◌, true, false};
ghost use Rattle.serve_state.specs.Vigil.{IsAskedFirst, IsBySilence, IsSpared, after_look, beginning, cut_at, is_probed, is_same, one_more, patience_of, probe_at, verdict_of};

use decimal_text::read_u32;
use std::marker::Model;

/// How many looks are taken in a second.
const LOOKS: u64 = 4;

/// So many looks after it was asked whether it is there a server is cut off: 5 seconds.
const GRACE: u64 = 20;

/// So many looks for each second a client may be silent: four times as long as a server is until it is asked.
const CLIENT_LOOKS: u64 = 16;

/// The most seconds that may pass: an hour.
const MOST_SECONDS: u32 = 3_600;

/// How many seconds a server may say nothing until it is asked whether it is there.
#[derive(Clone, Copy, Debug, PartialEq, Eq)]
pub struct Patience {
    pub seconds: u32,
}

impl Patience {
    /// The number that decimal digits write; `None` where it isn't from 1 to 3,600, or they are none.
    pub fn read(digits: &[u8]) -> Option<Patience>
        ensures { result ≡ patience_of digits.now }
    {
        match read_u32(digits) {
            Some(seconds) if seconds >= 1 && seconds <= MOST_SECONDS => Some(Patience { seconds }),
            _ => None,
        }
    }
}

/// What the workers of a connection have read and written so far: numbers that rise with each piece.
#[derive(Clone, Copy, Debug, PartialEq, Eq)]
pub struct Counts {
    pub read: u64,
    pub written: u64,
}

/// What is to be done about a connection.
#[derive(Clone, Copy, Debug, PartialEq, Eq)]
pub enum Verdict {
    Nothing,
    /// It is a server, and is to be asked whether it is there.
    Probe,
    /// It isn't there any more, and is to be cut off.
    Cut,
}

/// Watches a connection. It is shown the counts of its workers at each look, of which there are four a second, and
/// knows no clock.
///
/// A server from which nothing came for so many seconds is probed, and cut off where nothing came for 5 more. A client
/// is cut off where for four times the seconds nothing came and nothing was written.
#[derive(Drop)]
pub struct Vigil {
    is_server: bool,
    seconds: u32,
    // Those of the last look.
    counts: Counts,
    // How many looks in a row showed nothing new, up to as many as it is cut off at.
    quiet: u64,
}

impl Model for Vigil {
    ghost use Rattle.serve_state.specs.Vigil.{VigilState};

    ghost Value = { VigilState };

    ghost view = { λ v. record { server = v.is_server; seconds = v.seconds; counts = v.counts; quiet = v.quiet } };
}

impl Vigil {
    /// Of a connection to a server, whose counts are these now.
    pub fn of_server(patience: Patience, counts: Counts) -> Vigil
        ensures { result ≡ beginning true patience.seconds counts }
    {
        Vigil {
            is_server: true,
            seconds: patience.seconds,
            counts,
            quiet: 0,
        }
    }

    /// Of a client's connection.
    pub fn of_client(patience: Patience, counts: Counts) -> Vigil
        ensures { result ≡ beginning false patience.seconds counts }
    {
        Vigil {
            is_server: false,
            seconds: patience.seconds,
            counts,
            quiet: 0,
        }
    }

    /// Takes the next look, at which the counts are these: what is to be done.
    pub fn look(&mut self, counts: Counts) -> Verdict
        ensures verdict { result ≡ verdict_of self.new }
        ensures new { self.new ≡ after_look counts self.old }
    {
        self.quiet = if self.is_same(counts) {
            self.one_more()
        } else {
            0
        };
        self.counts = counts;
        self.verdict()
    }

    /// Whether it is a server that was asked whether it is there, and nothing came since.
    pub fn is_probed(&self) -> bool
        ensures { result ≡ is_probed self.now }
    {
        self.is_server && self.quiet >= self.probe_at()
    }

    fn is_same(&self, counts: Counts) -> bool
        ensures { result ≡ is_same self.now.server self.now.counts counts }
    {
        self.counts.read == counts.read && (self.is_server || self.counts.written == counts.written)
    }

    fn one_more(&self) -> u64
        ensures { result ≡ one_more (cut_at self.now.server self.now.seconds) self.now.quiet }
    {
        if self.quiet < self.cut_at() {
            self.quiet + 1
        } else {
            self.quiet
        }
    }

    fn verdict(&self) -> Verdict
        ensures { result ≡ verdict_of self.now }
    {
        if self.quiet >= self.cut_at() {
            return Verdict::Cut;
        }
        if self.is_server && self.quiet == self.probe_at() {
            return Verdict::Probe;
        }
        Verdict::Nothing
    }

    fn probe_at(&self) -> u64
        ensures { result ≡ probe_at self.now.seconds }
    {
        LOOKS * u64::from(self.seconds)
    }

    fn cut_at(&self) -> u64
        ensures { result ≡ cut_at self.now.server self.now.seconds }
    {
        if self.is_server {
            LOOKS * u64::from(self.seconds) + GRACE
        } else {
            CLIENT_LOOKS * u64::from(self.seconds)
        }
    }
}

/// What is done at a look is said by how many looks in a row showed nothing new.
pub fn vigils_go_by_silence()
    ensures { IsBySilence }
{}

/// A server that says something once in the seconds is never asked, and so never cut off; a client that says or is
/// given something once in four times the seconds is never cut off.
pub fn vigils_spare_who_speaks()
    ensures { IsSpared }
{}

/// No server is cut off that wasn't asked 20 looks before or more, or from which something came since.
pub fn vigils_ask_before_they_cut()
    ensures { IsAskedFirst }
{}
