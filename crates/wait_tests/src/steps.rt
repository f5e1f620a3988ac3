//! What is done beside those that are served, and what is seen of them.
use crate::calls::{Call, THIRD};
use crate::links::{PacedLink, Piece};
use crate::signs::{Signs, all_sleep, come, comes_by, is_still_below, rest, wakes_of};
use gate_board::{Gate, Inlet};
use session_worker::serve_in;
use std::alloc::Global;
use std::rt::Clock;
use std::sync::Wait;
use std::time::CpuClock;

/// One step.
#[derive(Clone, Copy)]
pub(crate) enum Step {
    /// A call is made.
    Do(Call),
    /// The core begins, or who stands in its place. It ended.
    Begin,
    Ended,
    /// Links that wait for the next step go on.
    Go,
    /// What the third client says is read to its end.
    Say,
    /// All get the time to fall asleep. They sleep.
    Rest,
    Sleep,
    /// So much is seen of the one connection and the other, and stays so.
    At(u64, u64),
    /// So many messages are performed at least, and so many handed on.
    Come(u64, u64),
    /// Fewer messages are performed, and it stays so.
    Below(u64),
    /// Who stands in the core's place came back so often, and no more.
    Backs(u64),
    /// Wakes are counted from here on. So many came since.
    Count,
    Wakes(u64),
}

/// Who takes the steps.
#[derive(Drop)]
pub(crate) struct Walker<'a, R> {
    pub(crate) rt: &'a R,
    pub(crate) alloc: Global,
    pub(crate) gate: &'a Gate,
    pub(crate) signs: &'a Signs,
    pub(crate) third: &'static [Piece],
}

impl<'a, R: Wait + Clock + CpuClock> Walker<'a, R> {
    /// Takes the steps. It answers the number of the first that didn't come as it must.
    pub(crate) fn take_all(&self, steps: &'static [Step], inlet: &mut Inlet) -> Option<usize> {
        let mut wakes = 0u64;
        for (number, step) in steps.iter().enumerate() {
            if !self.take(*step, inlet, &mut wakes) {
                return Some(number);
            }
        }
        None
    }

    fn take(&self, step: Step, inlet: &mut Inlet, wakes: &mut u64) -> bool {
        match step {
            Step::Do(call) => call.make(self.rt, self.alloc, self.gate, inlet),
            Step::Begin => self.begin(),
            Step::Ended => self.signs.core.comes_to(self.rt, 3),
            Step::Go => self.go(),
            Step::Say => self.say(inlet),
            Step::Count => {
                *wakes = wakes_of(self.rt, self.gate);
                true
            }
            Step::Wakes(more) => comes_by(self.rt, self.gate, *wakes, more),
            _ => self.sees(step),
        }
    }

    // Whether others come to what is to be seen.
    fn sees(&self, step: Step) -> bool {
        match step {
            Step::Rest => {
                rest(self.rt);
                true
            }
            Step::Sleep => all_sleep(self.rt),
            Step::At(one, other) => {
                self.signs.one.stays_at(self.rt, one) && self.signs.other.stays_at(self.rt, other)
            }
            Step::Come(received, sent) => come(self.rt, self.gate, received, sent),
            Step::Below(received) => is_still_below(self.rt, self.gate, received),
            Step::Backs(times) => self.signs.backs.stays_at(self.rt, times),
            _ => false,
        }
    }

    fn begin(&self) -> bool {
        self.signs.core.add(1);
        self.signs.core.comes_to(self.rt, 2)
    }

    fn go(&self) -> bool {
        self.signs.steps.add(1);
        true
    }

    fn say(&self, inlet: &mut Inlet) -> bool {
        let mut link = PacedLink::new(self.rt, self.signs, &self.signs.third, self.third, &[]);
        let _end = serve_in(self.rt, self.alloc, &mut link, inlet, self.gate, THIRD);
        true
    }
}
