//! How often an order is performed that nobody writes.
ghost use Rattle.std.specs.Prelude.{◌≡◌, ◌≤◌, ℕ};
ghost use Rattle.serve_state.specs.Rhythm.{IsDueEachPeriod, after_look, beginning, is_due, seconds_of};

use decimal_text::read_u32;
use std::marker::Model;

/// How many looks are taken in a second.
const LOOKS: u64 = 4;

/// The most seconds that may pass between two times: a day.
const MOST_SECONDS: u32 = 86_400;

/// How many seconds pass between two times that an order is performed.
#[derive(Clone, Copy, Debug, PartialEq, Eq)]
pub struct Seconds {
    number: u32,
}

impl Seconds {
    /// The number that decimal digits write; `None` where it isn't from 1 to 86,400, or they are none.
    pub fn read(digits: &[u8]) -> Option<Seconds>
        ensures { result ≡ seconds_of digits.now }
    {
        match read_u32(digits) {
            Some(number) if number >= 1 && number <= MOST_SECONDS => Some(Seconds { number }),
            _ => None,
        }
    }
}

/// When an order is due that is performed every so many seconds. It knows no clock: it counts the looks of
/// whoever takes four a second.
#[derive(Drop)]
pub struct Rhythm {
    // How many looks a period has.
    period: u64,
    // How many are left of it; the last of these is due.
    left: u64,
}

impl Model for Rhythm {
    ghost use Rattle.serve_state.specs.Rhythm.{RhythmState};

    ghost Value = { RhythmState };

    ghost view = { λ r. record { period = r.period; left = r.left } };
}

impl Rhythm {
    /// No look was taken yet.
    pub fn every(seconds: Seconds) -> Rhythm
        ensures { result ≡ beginning seconds.number }
    {
        let period = LOOKS * u64::from(seconds.number);
        Rhythm {
            period,
            left: period,
        }
    }

    /// The same of what is due each second.
    pub fn each_second() -> Rhythm
        ensures { result ≡ beginning 1 }
    {
        Rhythm {
            period: LOOKS,
            left: LOOKS,
        }
    }

    /// Takes the next look: whether the order is due.
    pub fn look(&mut self) -> bool
        ensures due { result ≡ is_due self.old }
        ensures new { self.new ≡ after_look self.old }
    {
        let is_due = self.left <= 1;
        self.left = if is_due { self.period } else { self.left - 1 };
        is_due
    }
}

/// Counted from 1, the looks at which an order is due are those whose numbers are multiples of the period's looks,
/// four for each second.
pub fn rhythms_are_due_each_period()
    ensures { (seconds : ℕ) → 1 ≤ seconds → IsDueEachPeriod seconds }
{}
