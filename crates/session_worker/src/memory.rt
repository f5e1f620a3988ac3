//! A link over bytes in memory, for tests.
ghost use Rattle.std.specs.Prelude.{◌≡◌, ◌≤◌, ◌<◌, ◌+◌, ◌==◌, ◌↔◌, ◌⊎◌, ℕ, List, Option, [], Some, true, false, drop, length, max, min, vec_len, IfOk, OnOk, OnErr, IsErr, IsTrue};
ghost use Rattle.std.specs.Io.KnownBytes.{Keeps, ReadConsumes, WriteAppends};
ghost use Rattle.session_worker.specs.Links.{HasRisen};

use crate::link::{Link, LinkFault};
use std::alloc::Global;

/// A link over given bytes, which it gives in pieces of a given length, and which keeps what is written to
/// it in such pieces. One of its calls may fail, once; so does a write for which memory is refused.
#[derive(Drop)]
pub struct MemoryLink {
    input: Vec<u8>,
    at: usize,
    output: Vec<u8>,
    piece: usize,
    // How many calls go well before one fails.
    calls_left: Option<u64>,
    faults: u64,
    ghost within: { at ≤ vec_len input },
    ghost some: { 0 < piece },
}

impl MemoryLink {
    ghost use Rattle.session_worker.specs.Memory.{bytes_left, bytes_kept, calls_failed, fails_at, piece_length};

    /// A link that gives these bytes, in pieces of so many, one at least.
    pub fn new(alloc: Global, input: Vec<u8>, piece: usize) -> MemoryLink
        ensures left { bytes_left result ≡ input.items }
        ensures kept { bytes_kept result ≡ [] }
        ensures failed { calls_failed result ≡ 0 }
        ensures piece { piece_length result ≡ max piece 1 }
        ensures fails { (k : ℕ) → fails_at result k ≡ false }
    {
        MemoryLink {
            input,
            at: 0,
            output: Vec::new(alloc),
            piece: piece.max(1),
            calls_left: None,
            faults: 0,
        }
    }

    /// The same, of whose calls from here on that with the number `n`, counted from 0, fails, and no other.
    pub fn failing_at(mut self, n: u64) -> MemoryLink
        ensures left { bytes_left result ≡ bytes_left self }
        ensures kept { bytes_kept result ≡ bytes_kept self }
        ensures failed { calls_failed result ≡ calls_failed self }
        ensures piece { piece_length result ≡ piece_length self }
        ensures fails { (k : ℕ) → fails_at result k ≡ (n == k) }
    {
        self.calls_left = Some(n);
        self
    }

    /// What was written to it.
    pub fn output(&self) -> &[u8]
        ensures { result.now ≡ bytes_kept self.now }
    {
        self.output.as_slice()
    }

    // Whether this call is to fail.
    fn is_to_fail(&mut self) -> bool
        ensures input { self.new.input ≡ self.old.input }
        ensures at { self.new.at ≡ self.old.at }
        ensures output { self.new.output ≡ self.old.output }
        ensures piece { self.new.piece ≡ self.old.piece }
        ensures faults { self.new.faults ≡ self.old.faults }
        ensures now { result ≡ fails_at self.old 0 }
        ensures later { (k : ℕ) → fails_at self.new k ≡ fails_at self.old (k + 1) }
    {
        match self.calls_left {
            Some(0) => {
                self.calls_left = None;
                true
            }
            Some(n) => {
                self.calls_left = Some(n - 1);
                false
            }
            None => false,
        }
    }
}

impl Link for MemoryLink {
    ghost use Rattle.session_worker.specs.Memory.{bytes_left, bytes_kept, calls_failed, fails_at, piece_length, AsksForMemory};

    ghost unread = { λ link. Some (bytes_left link) };

    ghost written = { λ link. Some (bytes_kept link) };

    ghost failed = { λ link. calls_failed link };

    fn read_piece(&mut self, buffer: &mut [u8]) -> Result<usize, LinkFault>
        ensures bound { IfOk result (λ n. n ≤ length buffer.new) }
        ensures length { length buffer.new ≡ length buffer.old }
        ensures bytes { ReadConsumes (Some (bytes_left self.old)) (Some (bytes_left self.new)) result buffer.new }
        ensures kept { Keeps (Some (bytes_kept self.old)) (Some (bytes_kept self.new)) }
        ensures ok { OnOk result (calls_failed self.new ≡ calls_failed self.old) }
        ensures err { OnErr result (HasRisen (calls_failed self.old) (calls_failed self.new)) }
        ensures count { IfOk result (λ n. n ≡ min (min (piece_length self.old) (length buffer.old)) (length (bytes_left self.old))) }
        ensures piece { piece_length self.new ≡ piece_length self.old }
        ensures fails { IsErr result ↔ (fails_at self.old 0 ≡ true) }
        ensures later { (k : ℕ) → fails_at self.new k ≡ fails_at self.old (k + 1) }
    {
        if self.is_to_fail() {
            self.faults = self.faults.saturating_add(1);
            return Err(LinkFault);
        }
        let left = &self.input[self.at..];
        let count = self.piece.min(buffer.len()).min(left.len());
        buffer[..count].copy_from_slice(&left[..count]);
        self.at += count;
        Ok(count)
    }

    fn write_piece(&mut self, bytes: &[u8]) -> Result<usize, LinkFault>
        ensures bound { IfOk result (λ n. n ≤ length bytes.now) }
        ensures some { IfOk result (λ n. 0 < length bytes.now → 0 < n) }
        ensures bytes { WriteAppends (Some (bytes_kept self.old)) (Some (bytes_kept self.new)) result bytes.now }
        ensures kept { Keeps (Some (bytes_left self.old)) (Some (bytes_left self.new)) }
        ensures ok { OnOk result (calls_failed self.new ≡ calls_failed self.old) }
        ensures err { OnErr result (HasRisen (calls_failed self.old) (calls_failed self.new)) }
        ensures count { IfOk result (λ n. n ≡ min (piece_length self.old) (length bytes.now)) }
        ensures piece { piece_length self.new ≡ piece_length self.old }
        ensures fails { fails_at self.old 0 ≡ true → IsErr result }
        ensures fine { OnErr result ((fails_at self.old 0 ≡ true) ⊎ AsksForMemory self.old bytes.now) }
        ensures later { (k : ℕ) → fails_at self.new k ≡ fails_at self.old (k + 1) }
    {
        let count = self.piece.min(bytes.len());
        if self.is_to_fail() || self.output.extend_from_slice(&bytes[..count]).is_err() {
            self.faults = self.faults.saturating_add(1);
            return Err(LinkFault);
        }
        Ok(count)
    }

    fn faults(&self) -> u64 {
        self.faults
    }
}
