//! Links that wait for steps of a story, and own nothing.
ghost use Rattle.std.specs.Prelude.{◌≡◌, ◌≤◌, length};

use crate::signs::{Count, Signs};
use session_worker::{Link, LinkFault};
use std::rt::Clock;

/// What is read: at each of so many reads so many times these bytes.
#[derive(Clone, Copy)]
pub(crate) struct Piece(pub(crate) usize, pub(crate) usize, pub(crate) &'static [u8]);

/// One side of a link: the pieces that are read, then the end; and which of its calls, counted from 0, waits until which
/// step. It counts the bytes that it was written.
#[derive(Drop)]
pub(crate) struct PacedLink<'a, R> {
    rt: &'a R,
    signs: &'a Signs,
    heard: &'a Count,
    pieces: &'static [Piece],
    waits: &'static [(usize, u64)],
    calls: usize,
    faults: u64,
}

impl<'a, R> PacedLink<'a, R> {
    pub(crate) fn new(
        rt: &'a R,
        signs: &'a Signs,
        heard: &'a Count,
        pieces: &'static [Piece],
        waits: &'static [(usize, u64)],
    ) -> PacedLink<'a, R> {
        PacedLink {
            rt,
            signs,
            heard,
            pieces,
            waits,
            calls: 0,
            faults: 0,
        }
    }
}

// What the read with this number reads.
fn nth_piece(pieces: &'static [Piece], number: usize) -> Option<&'static Piece> {
    let mut left = number;
    for piece in pieces.iter() {
        if left < piece.0 {
            return Some(piece);
        }
        left -= piece.0;
    }
    None
}

// The byte at this place of a piece.
fn byte_at(piece: &Piece, place: usize) -> u8 {
    let within = place.checked_rem(piece.2.len()).unwrap_or(0);
    piece.2.get(within).copied().unwrap_or(0)
}

// Fills the buffer with a piece, and answers how many bytes of it there are.
fn fill(buffer: &mut [u8], piece: &Piece) -> usize
    ensures bound { result ≤ length buffer.new }
    ensures length { length buffer.new ≡ length buffer.old }
{
    let count = piece.1.saturating_mul(piece.2.len()).min(buffer.len());
    for (place, byte) in buffer.iter_mut().enumerate().take(count) {
        *byte = byte_at(piece, place);
    }
    count
}

impl<'a, R: Clock> PacedLink<'a, R> {
    // Waits for what this call waits for, and answers its number. Nothing where that never came.
    fn next_call(&mut self) -> Option<usize>
        ensures { self.new.faults ≡ self.old.faults }
    {
        let number = self.calls;
        self.calls = number.saturating_add(1);
        for (call, step) in self.waits.iter() {
            if *call == number && !self.signs.steps.comes_to(self.rt, *step) {
                return None;
            }
        }
        Some(number)
    }
}

impl<'a, R: Clock> Link for PacedLink<'a, R> {
    ghost failed = { λ link. link.faults };

    fn read_piece(&mut self, buffer: &mut [u8]) -> Result<usize, LinkFault> {
        match self.next_call() {
            Some(number) => match nth_piece(self.pieces, number) {
                Some(piece) => Ok(fill(buffer, piece)),
                None => Ok(0),
            },
            None => {
                self.faults = self.faults.saturating_add(1);
                Err(LinkFault)
            }
        }
    }

    fn write_piece(&mut self, bytes: &[u8]) -> Result<usize, LinkFault> {
        match self.next_call() {
            Some(_) => {
                self.heard.add(bytes.len() as u64);
                Ok(bytes.len())
            }
            None => {
                self.faults = self.faults.saturating_add(1);
                Err(LinkFault)
            }
        }
    }

    fn faults(&self) -> u64 {
        self.faults
    }
}
