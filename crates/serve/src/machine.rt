//! What the machine does for the gateway, besides threads and sockets.
use libc::net::{SO_RCVBUF, SO_SNDBUF, SOL_SOCKET, setsockopt};
use libc::types::rlimit;
use libc::{RLIMIT_NOFILE, getrlimit};
use serve_state::FileText;
use std::alloc::Global;
use std::fs::{File, Metadata, metadata};
use std::io;
use std::io::Read;
use std::net::{TcpListener, UdpSocket};
use std::os::fd::AsRawFd;
use std::rt::Clock;
use std::sync::Wait;
use std::time::UNIX_EPOCH;

/// What each thread may do: wait, sleep and log.
pub trait System: Wait + Clock + Eprint + Copy + Send + Sync + Drop {}

impl<R: Wait + Clock + Eprint + Copy + Send + Sync + Drop> System for R {}

/// The most bytes that a rule file has.
const MOST_BYTES: u64 = 16 * 1_024 * 1_024;

/// On a site the system is to keep so many bytes for a client, or as many as it lets a program say, where that is less.
const SEND_BYTES: i32 = 0x4_0000;

/// On a site the system is to keep so many bytes of datagrams until they are received, with some 800 bytes of its own for
/// each, or as many as it lets a program say.
const RECEIVE_BYTES: i32 = 0x40_0000;

/// Bounds what the system keeps for each client that the listener accepts. What it has of an update can't give way to a
/// newer value, so where it has megabytes, a slow client sees old ones.
pub fn bound_sends(listener: &TcpListener) {
    let value = size_of_buffer(SEND_BYTES);
    // Where the system refuses that, it keeps what is usual.
    let _ = unsafe { setsockopt(listener.as_raw_fd(), SOL_SOCKET, SO_SNDBUF, &value, 4) };
}

/// Has the system keep a burst of searches: hundreds of hosts may search at once.
pub fn widen_receives(datagrams: &UdpSocket) {
    let value = size_of_buffer(RECEIVE_BYTES);
    // Where the system refuses that, it keeps what is usual.
    let _ = unsafe { setsockopt(datagrams.as_raw_fd(), SOL_SOCKET, SO_RCVBUF, &value, 4) };
}

fn size_of_buffer(bytes: i32) -> [u8; 16] {
    let mut value = [0u8; 16];
    value[..4].copy_from_slice(&bytes.to_ne_bytes());
    value
}

/// Why a file isn't read.
#[derive(Drop)]
pub enum TextFault {
    /// It is a folder, a FIFO or a device.
    NoFile,
    /// It has more than 16 MiB.
    TooLarge,
    Stream(io::Error),
}

impl From<io::Error> for TextFault {
    fn from(fault: io::Error) -> TextFault {
        TextFault::Stream(fault)
    }
}

/// Files, standard streams and limits.
pub trait Machine {
    /// What a regular file of at most 16 MiB has. No other is opened.
    fn read_text(&self, alloc: Global, path: &str) -> Result<FileText, TextFault>;

    /// Reads what has come on standard input, and answers how many bytes: 0 at its end.
    fn read_input(&self, piece: &mut [u8]) -> io::Result<usize>;

    /// Writes a line to standard output.
    fn print_line(&self, line: &str) -> io::Result<()>;

    /// A number that nobody foresees, where the system has one.
    fn draw(&self) -> Option<u32>;

    /// How many descriptors the process may have.
    fn most_files(&self) -> u64;
}

// When it was last written, 0 where that isn't known.
fn stamp(about: &Metadata) -> u128 {
    let Ok(moment) = about.modified() else {
        return 0;
    };
    match moment.duration_since(UNIX_EPOCH) {
        Ok(since) => since.as_nanos(),
        Err(_) => 0,
    }
}

impl Machine for HostRuntime {
    fn read_text(&self, alloc: Global, path: &str) -> Result<FileText, TextFault> {
        let about = metadata(self, path)?;
        if !about.is_file() {
            return Err(TextFault::NoFile);
        }
        if about.len() > MOST_BYTES {
            return Err(TextFault::TooLarge);
        }
        let mut text = String::new(alloc);
        let mut file = File::open(self, path)?.take(MOST_BYTES + 1);
        let count = file.read_to_string(&mut text)?;
        // It may have grown.
        if count as u64 > MOST_BYTES {
            return Err(TextFault::TooLarge);
        }
        Ok(FileText::new(text, stamp(&about)))
    }

    fn read_input(&self, piece: &mut [u8]) -> io::Result<usize> {
        let mut reader = self.reader();
        reader.read(piece)
    }

    fn print_line(&self, line: &str) -> io::Result<()> {
        self.println(line)
    }

    fn draw(&self) -> Option<u32> {
        let mut file = File::open(self, "/dev/urandom").ok()?;
        let mut bytes = [0u8; 4];
        file.read_exact(&mut bytes[..]).ok()?;
        Some(u32::from_ne_bytes(bytes))
    }

    fn most_files(&self) -> u64 {
        let mut limit = rlimit {
            rlim_cur: 0,
            rlim_max: 0,
        };
        if getrlimit(RLIMIT_NOFILE, &mut limit) == 0 {
            limit.rlim_cur
        } else {
            u64::MAX
        }
    }
}
