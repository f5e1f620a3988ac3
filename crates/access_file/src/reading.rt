//! A text, byte by byte.
ghost use Rattle.std.specs.Prelude.{◌≡◌, Ok, IfOk, IfErr, OnOk};
ghost use Rattle.access_file.specs.Fault.{IsCauseOf};
ghost use Rattle.access_file.specs.Grammar.{start, all_taken, ended};
ghost use Rattle.access_file.specs.Tokens.{scan_after, ended_by, begun_by, itself, ended_last, Between, InWord, InQuotes, InComment};
ghost use Rattle.access_file.specs.Scanning.{scan_of};

use crate::bytes::{is_blank, is_sign, is_word_byte};
use crate::fault::{AccessCause, TokenFault};
use crate::reader::Reader;
use std::alloc::Global;

/// What the next byte goes on with.
#[derive(Clone, Copy)]
pub(crate) enum Mode {
    Between,
    Word,
    Quotes,
    Comment,
}

/// A text as far as it is read: what its tokens say, and the token that is begun.
#[derive(Drop)]
pub(crate) struct TextReading {
    reader: Reader,
    mode: Mode,
    // The bytes of the word or of what stands in quotes.
    begun: Vec<u8>,
}

impl TextReading {
    pub(crate) fn new(alloc: Global) -> TextReading
        ensures reader { result.reader ≡ start }
        ensures scan { scan_of result ≡ Between }
    {
        TextReading {
            reader: Reader::new(alloc),
            mode: Mode::Between,
            begun: Vec::new(alloc),
        }
    }

    /// Takes the next byte.
    pub(crate) fn take(&mut self, alloc: Global, byte: u8) -> Result<(), TokenFault>
        ensures ok { OnOk result (all_taken (Ok self.old.reader) (ended_by (scan_of self.old) byte) ≡ Ok self.new.reader) }
        ensures scan { OnOk result (scan_of self.new ≡ scan_after (scan_of self.old) byte) }
        ensures err { IfErr result (IsCauseOf (all_taken (Ok self.old.reader) (ended_by (scan_of self.old) byte))) }
    {
        match self.mode {
            Mode::Between => self.begin(alloc, byte),
            Mode::Word => self.go_on(alloc, byte),
            Mode::Quotes => self.quote(alloc, byte),
            Mode::Comment => {
                self.comment(byte);
                Ok(())
            }
        }
    }

    // Takes a byte that stands between tokens.
    fn begin(&mut self, alloc: Global, byte: u8) -> Result<(), TokenFault>
        ensures ok { OnOk result (all_taken (Ok self.old.reader) (itself byte) ≡ Ok self.new.reader) }
        ensures scan { OnOk result (scan_of self.new ≡ begun_by byte) }
        ensures err { IfErr result (IsCauseOf (all_taken (Ok self.old.reader) (itself byte))) }
    {
        self.begun.clear();
        self.mode = Mode::Between;
        if is_word_byte(byte) {
            self.mode = Mode::Word;
            self.begun.push(byte)?;
            return Ok(());
        }
        if byte == b'"' {
            self.mode = Mode::Quotes;
            return Ok(());
        }
        if byte == b'#' {
            self.mode = Mode::Comment;
            return Ok(());
        }
        if is_sign(byte) {
            return self.reader.sign(alloc, byte);
        }
        if is_blank(byte) {
            return Ok(());
        }
        Err(TokenFault::Cause(AccessCause::BadByte))
    }

    // Takes a byte in a word, or behind it.
    #[tactic(auto, using(crate::proofs::ReadingLemmas::all_taken_stays))]
    fn go_on(&mut self, alloc: Global, byte: u8) -> Result<(), TokenFault>
        ensures ok { OnOk result (all_taken (Ok self.old.reader) (ended_by (InWord self.old.begun.items) byte) ≡ Ok self.new.reader) }
        ensures scan { OnOk result (scan_of self.new ≡ scan_after (InWord self.old.begun.items) byte) }
        ensures err { IfErr result (IsCauseOf (all_taken (Ok self.old.reader) (ended_by (InWord self.old.begun.items) byte))) }
    {
        if is_word_byte(byte) {
            self.mode = Mode::Word;
            self.begun.push(byte)?;
            return Ok(());
        }
        self.reader.word(alloc, self.begun.as_slice())?;
        self.begin(alloc, byte)
    }

    // Takes a byte in quotes.
    fn quote(&mut self, alloc: Global, byte: u8) -> Result<(), TokenFault>
        ensures ok { OnOk result (all_taken (Ok self.old.reader) (ended_by (InQuotes self.old.begun.items) byte) ≡ Ok self.new.reader) }
        ensures scan { OnOk result (scan_of self.new ≡ scan_after (InQuotes self.old.begun.items) byte) }
        ensures err { IfErr result (IsCauseOf (all_taken (Ok self.old.reader) (ended_by (InQuotes self.old.begun.items) byte))) }
    {
        if byte == b'"' {
            self.mode = Mode::Between;
            return self.reader.quoted(alloc, self.begun.as_slice());
        }
        if byte == b'\n' {
            return Err(TokenFault::Cause(AccessCause::Unclosed));
        }
        self.mode = Mode::Quotes;
        self.begun.push(byte)?;
        Ok(())
    }

    // Takes a byte in a comment.
    fn comment(&mut self, byte: u8)
        ensures reader { self.new.reader ≡ self.old.reader }
        ensures scan { scan_of self.new ≡ scan_after InComment byte }
    {
        self.mode = if byte == b'\n' {
            Mode::Between
        } else {
            Mode::Comment
        };
    }

    /// Takes the end of the text.
    #[tactic(auto, using(crate::proofs::ReadingLemmas::all_taken_stays))]
    pub(crate) fn end(self, alloc: Global) -> Result<Reader, TokenFault>
        ensures ok { IfOk result (λ reader. all_taken (Ok self.reader) (ended_last (scan_of self)) ≡ Ok reader) }
        ensures err { IfErr result (IsCauseOf (all_taken (Ok self.reader) (ended_last (scan_of self)))) }
    {
        match self.mode {
            Mode::Between => finish(alloc, self.reader),
            Mode::Word => finish_word(alloc, self.reader, self.begun.as_slice()),
            Mode::Quotes => Err(TokenFault::Cause(AccessCause::Unclosed)),
            Mode::Comment => finish(alloc, self.reader),
        }
    }
}

// The end behind a word.
#[tactic(auto, using(crate::proofs::ReadingLemmas::all_taken_stays))]
fn finish_word(alloc: Global, mut reader: Reader, word: &[u8]) -> Result<Reader, TokenFault>
    ensures ok { IfOk result (λ all. all_taken (Ok reader) (ended_last (InWord word.now)) ≡ Ok all) }
    ensures err { IfErr result (IsCauseOf (all_taken (Ok reader) (ended_last (InWord word.now)))) }
{
    match reader.word(alloc, word) {
        Ok(()) => finish(alloc, reader),
        Err(fault) => Err(fault),
    }
}

fn finish(alloc: Global, mut reader: Reader) -> Result<Reader, TokenFault>
    ensures ok { IfOk result (λ all. ended reader ≡ Ok all) }
    ensures err { IfErr result (IsCauseOf (ended reader)) }
{
    match reader.end(alloc) {
        Ok(()) => Ok(reader),
        Err(fault) => Err(fault),
    }
}
