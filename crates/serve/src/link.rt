//! A socket as a worker sees it.
ghost use Rattle.std.specs.Prelude.{◌≡◌, ◌≤◌, IfOk, length};

use crate::line::{Watched, WatchedStream};
use serve_state::Versions;
use session_worker::{Link, LinkFault};
use std::alloc::Global;
use std::io;
use std::io::{ErrorKind, Read, Write};
use std::net::TcpStream;
use std::sync::Arc;

/// A connection's socket, which its two workers share.
#[derive(Drop)]
pub struct SocketLink {
    stream: Arc<TcpStream, Global>,
    watched: Arc<Watched, Global>,
    faults: u64,
    versions: Versions,
}

impl SocketLink {
    pub fn new(line: WatchedStream) -> SocketLink {
        SocketLink {
            stream: line.stream,
            watched: line.watched,
            faults: 0,
            versions: Versions::new(),
        }
    }

    /// What the bytes that were read say of the peer's version.
    pub fn versions(&self) -> &Versions {
        &self.versions
    }

    pub fn stream(&self) -> &TcpStream {
        &self.stream
    }
}

/// Reads once, however often the call is interrupted.
pub fn read_once(stream: &TcpStream, buffer: &mut [u8]) -> io::Result<usize>
    ensures bound { IfOk result (λ n. n ≤ length buffer.new) }
    ensures length { length buffer.new ≡ length buffer.old }
{
    for _ in 0..u64::MAX {
        let mut stream: &TcpStream = stream;
        match stream.read(buffer) {
            Err(fault) if fault.kind() == ErrorKind::Interrupted => (),
            answer => return answer,
        }
    }
    Err(io::Error::from(ErrorKind::Interrupted))
}

// Writes once, however often the call is interrupted.
fn write_once(stream: &TcpStream, bytes: &[u8]) -> io::Result<usize>
    ensures bound { IfOk result (λ n. n ≤ length bytes.now) }
{
    for _ in 0..u64::MAX {
        let mut stream: &TcpStream = stream;
        match stream.write(bytes) {
            Err(fault) if fault.kind() == ErrorKind::Interrupted => (),
            answer => return answer,
        }
    }
    Err(io::Error::from(ErrorKind::Interrupted))
}

impl Link for SocketLink {
    ghost failed = { λ link. link.faults };

    fn read_piece(&mut self, buffer: &mut [u8]) -> Result<usize, LinkFault> {
        match read_once(&self.stream, buffer) {
            Ok(count) => {
                self.watched.count_read(count);
                self.versions.hear(&buffer[..count]);
                Ok(count)
            }
            Err(_) => {
                self.faults = self.faults.saturating_add(1);
                Err(LinkFault)
            }
        }
    }

    fn write_piece(&mut self, bytes: &[u8]) -> Result<usize, LinkFault> {
        match write_once(&self.stream, bytes) {
            Ok(count) if count > 0 || bytes.is_empty() => {
                self.watched.count_written(count);
                Ok(count)
            }
            _ => {
                self.faults = self.faults.saturating_add(1);
                Err(LinkFault)
            }
        }
    }

    fn faults(&self) -> u64 {
        self.faults
    }
}
