//! A connection as its row keeps it.
use crate::hub::Stream;
use crate::machine::System;
use gateway_core::Dest;
use serve_state::{Counts, Patience, Verdict, Vigil};
use std::alloc::{AllocError, Global};
use std::net::TcpStream;
use std::sync::atomic::{AtomicU64, Ordering};
use std::sync::{Arc, Mutex};

/// What is known of whether somebody is at the other end. Workers count without a lock.
#[derive(Drop)]
pub struct Watched {
    /// How many bytes were read.
    read: AtomicU64,
    /// How many were written.
    written: AtomicU64,
    // None before the first look.
    vigil: Mutex<Option<Vigil>>,
}

impl Watched {
    fn new() -> Watched {
        Watched {
            read: AtomicU64::new(0),
            written: AtomicU64::new(0),
            vigil: Mutex::new(None),
        }
    }

    pub fn count_read(&self, bytes: usize) {
        self.read.fetch_add(bytes as u64, Ordering::SeqCst);
    }

    pub fn count_written(&self, bytes: usize) {
        self.written.fetch_add(bytes as u64, Ordering::SeqCst);
    }

    fn counts(&self) -> Counts {
        Counts {
            read: self.read.load(Ordering::SeqCst),
            written: self.written.load(Ordering::SeqCst),
        }
    }

    /// Takes the next look at the connection, of which there are four a second: what is to be done about it.
    pub fn look<R: System>(&self, rt: R, dest: Dest, patience: Patience) -> Verdict {
        let counts = self.counts();
        let mut kept = self.vigil.lock(&rt);
        if let Some(vigil) = kept.as_mut() {
            return vigil.look(counts);
        }
        *kept = Some(match dest {
            Dest::Session(_) => Vigil::of_client(patience, counts),
            Dest::Upstream(_) => Vigil::of_server(patience, counts),
        });
        Verdict::Nothing
    }

    /// Whether it is a server that was asked whether it is there, and hadn't said anything by the last look.
    pub fn is_probed<R: System>(&self, rt: R) -> bool {
        let kept = self.vigil.lock(&rt);
        match kept.as_ref() {
            Some(vigil) => vigil.is_probed(),
            None => false,
        }
    }
}

/// A connection's socket, and what is known of its other end.
#[derive(Drop)]
pub struct WatchedStream {
    pub stream: Stream,
    pub watched: Arc<Watched, Global>,
}

impl WatchedStream {
    pub fn new(alloc: Global, stream: TcpStream) -> Result<WatchedStream, AllocError> {
        let Ok(stream) = Arc::new(alloc, stream) else {
            return Err(AllocError);
        };
        let Ok(watched) = Arc::new(alloc, Watched::new()) else {
            return Err(AllocError);
        };
        Ok(WatchedStream { stream, watched })
    }

    /// The same connection, for somebody else.
    pub fn share(&self) -> Result<WatchedStream, AllocError> {
        let stream: Result<Stream, _> = Arc::try_clone(&self.stream);
        let watched: Result<Arc<Watched, Global>, _> = Arc::try_clone(&self.watched);
        match (stream, watched) {
            (Ok(stream), Ok(watched)) => Ok(WatchedStream { stream, watched }),
            _ => Err(AllocError),
        }
    }
}
