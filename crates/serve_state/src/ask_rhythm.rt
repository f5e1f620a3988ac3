//! When it is found out which names are asked for, and how many datagrams ask for them.
ghost use Rattle.std.specs.Prelude.{◌≡◌, false, true, None};
ghost use Rattle.serve_state.specs.AskRhythm.{AreApart, AtMostFour, IsHeard, after_look, after_send, is_due, left_of, may_send, pause_of, sent_in, wait_of, wanting};

use std::marker::Model;

/// How many milliseconds pass between two times at least.
const LEAST_PAUSE: u64 = 100;

/// How many pass at most where it is done again and again though nobody wants it.
const MOST_PAUSE: u64 = 1_000;

/// How many datagrams may be sent to each server in a look.
const MOST_DATAGRAMS: u32 = 4;

/// When it is found out which names are to be asked for: where somebody wants it, but not twice within 100
/// milliseconds; and each second where it is to be done though nobody wants it. What is wanted within the 100
/// milliseconds is done once, after them. It knows no clock: times are milliseconds since any moment, and later ones
/// are not less.
#[derive(Drop)]
pub struct AskRhythm {
    wanted: bool,
    last: Option<u64>,
    repeats: bool,
}

impl Model for AskRhythm {
    ghost use Rattle.serve_state.specs.AskRhythm.{AskRhythmState};

    ghost Value = { AskRhythmState };

    ghost view = { λ r. record { wanted = r.wanted; last = r.last; repeats = r.repeats } };
}

impl AskRhythm {
    /// Nobody wants it yet, and it never was done.
    pub fn new(repeats: bool) -> AskRhythm
        ensures { result ≡ record { wanted = false; last = None; repeats = repeats } }
    {
        AskRhythm {
            wanted: false,
            last: None,
            repeats,
        }
    }

    /// Somebody wants it.
    pub fn want(&mut self)
        ensures { self.new ≡ wanting self.old }
    {
        self.wanted = true;
    }

    /// How many milliseconds from now on it isn't due yet; `None` where it is due only once somebody wants it.
    pub fn wait(&self, now: u64) -> Option<u64>
        ensures { result ≡ wait_of now self.now }
    {
        let pause = self.pause()?;
        Some(self.left(now, pause))
    }

    /// Whether it is due now. It counts as done then.
    pub fn look(&mut self, now: u64) -> bool
        ensures due { result ≡ is_due now self.old }
        ensures new { self.new ≡ after_look now self.old }
    {
        if self.wait(now) == Some(0) {
            self.wanted = false;
            self.last = Some(now);
            return true;
        }
        false
    }

    fn pause(&self) -> Option<u64>
        ensures { result ≡ pause_of self.now }
    {
        if self.wanted {
            return Some(LEAST_PAUSE);
        }
        if self.repeats { Some(MOST_PAUSE) } else { None }
    }

    fn left(&self, now: u64, pause: u64) -> u64
        ensures { result ≡ left_of now self.now.last pause }
    {
        match self.last {
            Some(last) => pause.saturating_sub(now.saturating_sub(last)),
            None => 0,
        }
    }
}

/// How many datagrams were sent to each server in a look, of which 4 may be sent.
#[derive(Drop)]
pub struct AskBudget {
    look: u64,
    sent: u32,
}

impl Model for AskBudget {
    ghost use Rattle.serve_state.specs.AskRhythm.{BudgetState};

    ghost Value = { BudgetState };

    ghost view = { λ b. record { look = b.look; sent = b.sent } };
}

impl AskBudget {
    /// Nothing was sent yet.
    pub fn new() -> AskBudget
        ensures { result ≡ record { look = 0; sent = 0 } }
    {
        AskBudget { look: 0, sent: 0 }
    }

    /// Whether one more datagram may be sent in this look.
    pub fn may_send(&self, look: u64) -> bool
        ensures { result ≡ may_send look self.now }
    {
        self.sent_in(look) < MOST_DATAGRAMS
    }

    /// One more datagram is sent in this look, where it may be.
    pub fn send(&mut self, look: u64)
        ensures { self.new ≡ after_send look self.old }
    {
        if self.may_send(look) {
            self.sent = self.sent_in(look) + 1;
            self.look = look;
        }
    }

    fn sent_in(&self, look: u64) -> u32
        ensures { result ≡ sent_in look self.now }
    {
        if self.look == look { self.sent } else { 0 }
    }
}

/// What is wanted is done at the first look that is 100 milliseconds after the last time, and at none before.
pub fn askings_are_apart()
    ensures heard { IsHeard }
    ensures apart { AreApart }
{}

/// Of datagrams that are to be sent in one look at most four are.
pub fn looks_have_four_datagrams()
    ensures { AtMostFour }
{}
