//! Links in memory that wait for one another.
ghost use Rattle.std.specs.Prelude.{◌≡◌};

use session_worker::{Link, LinkFault, MemoryLink};
use std::alloc::{AllocError, Global};
use std::rt::Clock;
use std::sync::Arc;
use std::sync::atomic::{AtomicU64, Ordering};
use std::thread;
use std::time::Duration;

/// How often a link looks whether it may go on, and how long it sleeps between two looks.
const LOOKS: u32 = 10_000;

const PAUSE_MILLIS: u64 = 1;

/// A count that threads share: how many bytes a link was written, or what else a test counts.
#[derive(Drop)]
pub(crate) struct Count {
    shared: Arc<AtomicU64, Global>,
}

impl Count {
    pub(crate) fn new(alloc: Global) -> Result<Count, AllocError> {
        Ok(Count {
            shared: Arc::new(alloc, AtomicU64::new(0))?,
        })
    }

    pub(crate) fn again(&self) -> Result<Count, AllocError> {
        Ok(Count {
            shared: Arc::try_clone(&self.shared)?,
        })
    }

    pub(crate) fn add(&self, more: u64) {
        self.shared.fetch_add(more, Ordering::SeqCst);
    }

    /// Waits until it is so much. False where it never came to that.
    pub(crate) fn comes_to<R: Clock>(&self, rt: &R, wanted: u64) -> bool {
        for _ in 0..LOOKS {
            if self.shared.load(Ordering::SeqCst) >= wanted {
                return true;
            }
            thread::sleep(rt, Duration::from_millis(PAUSE_MILLIS));
        }
        false
    }
}

/// What the call of a link with this number, counted from 0, waits for: that a count has come to so much.
#[derive(Drop)]
pub(crate) struct Until {
    pub(crate) call: usize,
    pub(crate) count: Count,
    pub(crate) wanted: u64,
}

/// A link in memory of whose calls some wait until a count has come to something. It counts the bytes that
/// it was written.
#[derive(Drop)]
pub(crate) struct PacedLink<R> {
    rt: R,
    bytes: MemoryLink,
    calls: usize,
    waits: Vec<Until>,
    written: Count,
    faults: u64,
}

impl<R> PacedLink<R> {
    pub(crate) fn new(rt: R, bytes: MemoryLink, waits: Vec<Until>, written: Count) -> PacedLink<R> {
        PacedLink {
            rt,
            bytes,
            calls: 0,
            waits,
            written,
            faults: 0,
        }
    }

    /// What was written to it.
    pub(crate) fn output(&self) -> &[u8] {
        self.bytes.output()
    }
}

impl<R: Clock> PacedLink<R> {
    // Waits for what this call waits for. False where that never came.
    fn may_go_on(&mut self) -> bool
        ensures { self.new.faults ≡ self.old.faults }
    {
        let call = self.calls;
        self.calls = call.saturating_add(1);
        for until in self.waits.iter() {
            if until.call == call && !until.count.comes_to(&self.rt, until.wanted) {
                return false;
            }
        }
        true
    }
}

impl<R: Clock> Link for PacedLink<R> {
    ghost failed = { λ link. link.faults };

    fn read_piece(&mut self, buffer: &mut [u8]) -> Result<usize, LinkFault> {
        if self.may_go_on() {
            if let Ok(count) = self.bytes.read_piece(buffer) {
                return Ok(count);
            }
        }
        self.faults = self.faults.saturating_add(1);
        Err(LinkFault)
    }

    fn write_piece(&mut self, bytes: &[u8]) -> Result<usize, LinkFault> {
        if self.may_go_on() {
            if let Ok(count) = self.bytes.write_piece(bytes) {
                self.written.add(count as u64);
                return Ok(count);
            }
        }
        self.faults = self.faults.saturating_add(1);
        Err(LinkFault)
    }

    fn faults(&self) -> u64 {
        self.faults
    }
}
