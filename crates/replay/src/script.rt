//! A script, read entry by entry.
ghost use Rattle.std.specs.Prelude.{◌≡◌, ◌+◌, ◌++◌, if◌then◌else◌, IfOk, IsSome, MatchOption, OnOk};
ghost use Rattle.std.specs.Io.Buffered.{reader_inner, reader_remaining};
ghost use Rattle.std.specs.Io.BufRead.{strip_last};
ghost use Rattle.std.specs.Io.KnownBytes.{Keeps};
ghost use Rattle.replay.specs.Reading.{bytes_left, lines_left, lines_with, AreMissing, IsNextBad, Takes, TakesBytes, TakesEntry, TakesLine, TakesText};
ghost use Rattle.replay.specs.Replay.{IfBadLine};
ghost use Rattle.replay.specs.declared.script.TheConstants.{MOST_READS};
ghost use Rattle.replay.specs.Script.{all_lines, file_in, files_in, with_end};

use crate::counted::Counted;
use crate::entry::{EditFiles, File, ScriptEntry};
use crate::fault::{PlayFault, ReplayFault};
use crate::sizes::{Sizes, own_files};
use replay_text::{LineFault, read_line};
use std::alloc::Global;
use std::io::{BufRead, BufReader, Read, Write};

// How many bytes of a script are read at a time.
const PIECE: usize = 65_536;

// How many times a script is read from at most, so that a replay ends whatever its reader does.
const MOST_READS: u64 = 1_099_511_627_775;

/// A script. What its lines print is flushed before more of it is waited for.
#[derive(Drop)]
pub struct Script<R> {
    alloc: Global,
    reader: BufReader<Counted<R>>,
    /// The line that was read last, without its end.
    line: Vec<u8>,
    /// How many lines were read.
    number: u64,
}

impl<R: Read + Drop> Script<R> {
    /// The script that the reader gives. It is read a bounded number of times.
    pub fn new(alloc: Global, reader: R) -> Result<Script<R>, PlayFault>
        ensures left { IfOk result (λ script. bytes_left R.remaining script ≡ R.remaining reader) }
        ensures start { IfOk result (λ script. script.number ≡ 0) }
        ensures reads { IfOk result (λ script. (reader_inner script.reader).left ≡ MOST_READS) }
    {
        let counted = Counted::new(reader, MOST_READS);
        Ok(Script {
            alloc,
            reader: BufReader::with_capacity(alloc, PIECE, counted)?,
            line: Vec::new(alloc),
            number: 0,
        })
    }

    /// Takes the next line, and with an edit the lines of its files. Nothing at the script's end.
    pub fn next<W: Write>(&mut self, writer: &mut W) -> Result<Option<ScriptEntry>, ReplayFault>
        ensures taken { IfOk result (TakesEntry (lines_left R.remaining self.old) (lines_left R.remaining self.new)) }
        ensures counted { IfOk result (λ next. self.new.number ≡ self.old.number + lines_with next) }
        ensures bad { IfBadLine result (λ n. (n ≡ self.old.number + 1) × IsNextBad (lines_left R.remaining self.old)) }
        ensures same_bad { IfBadLine result (λ n. Keeps (W.contents writer.old) (W.contents writer.new)) }
        ensures same { OnOk result (Keeps (W.contents writer.old) (W.contents writer.new)) }
    {
        if !self.next_line(writer)? {
            return Ok(None);
        }
        let number = self.number;
        let line = match read_line(self.alloc, &self.line) {
            Ok(line) => line,
            Err(LineFault::Bad) => return Err(ReplayFault::BadLine(number)),
            Err(LineFault::OutOfMemory) => return Err(ReplayFault::Halted(PlayFault::OutOfMemory)),
        };
        match self.files(own_files(&line), writer)? {
            Some(files) => Ok(Some(ScriptEntry { line, files })),
            None => Err(ReplayFault::BadLine(number)),
        }
    }

    /// Takes files of such sizes. Nothing where lines of them are missing or are no text.
    fn files<W: Write>(
        &mut self,
        sizes: Sizes,
        writer: &mut W,
    ) -> Result<Option<EditFiles>, PlayFault>
        ensures taken { IfOk result (Takes (files_in sizes) (lines_left R.remaining self.old) (all_lines sizes) (lines_left R.remaining self.new)) }
        ensures counted { IfOk result (λ files. IsSome files → self.new.number ≡ self.old.number + all_lines sizes) }
        ensures same { OnOk result (Keeps (W.contents writer.old) (W.contents writer.new)) }
    {
        let Some(rules) = self.file(sizes.rules, writer)? else {
            return Ok(None);
        };
        let Some(groups) = self.file(sizes.groups, writer)? else {
            return Ok(None);
        };
        let Some(access) = self.file(sizes.access, writer)? else {
            return Ok(None);
        };
        Ok(Some(EditFiles {
            rules,
            groups,
            access,
        }))
    }

    /// Takes a file of so many lines, none of no lines. Nothing where lines are missing or are no text.
    fn file<W: Write>(&mut self, count: usize, writer: &mut W) -> Result<Option<File>, PlayFault>
        ensures taken { IfOk result (Takes (file_in count) (lines_left R.remaining self.old) count (lines_left R.remaining self.new)) }
        ensures counted { IfOk result (λ file. IsSome file → self.new.number ≡ self.old.number + count) }
        ensures same { OnOk result (Keeps (W.contents writer.old) (W.contents writer.new)) }
    {
        if count == 0 {
            return Ok(Some(File::none()));
        }
        match self.text(count, writer)? {
            Some(text) => Ok(File::read(text)),
            None => Ok(None),
        }
    }

    /// Takes so many lines as a text, each with an LF. Nothing where there are fewer.
    fn text<W: Write>(&mut self, count: usize, writer: &mut W) -> Result<Option<Vec<u8>>, PlayFault>
        ensures taken { IfOk result (λ text. MatchOption text (AreMissing (lines_left R.remaining self.old) count)
            (λ text. TakesText (lines_left R.remaining self.old) count (lines_left R.remaining self.new) text.items)) }
        ensures counted { IfOk result (λ text. IsSome text → self.new.number ≡ self.old.number + count) }
        ensures same { OnOk result (Keeps (W.contents writer.old) (W.contents writer.new)) }
    {
        let mut text = Vec::new(self.alloc);
        for _ in 0..count {
            if !self.next_line(writer)? {
                return Ok(None);
            }
            add_line(&mut text, &self.line)?;
        }
        Ok(Some(text))
    }

    /// Takes the next line. False where there is none.
    fn next_line<W: Write>(&mut self, writer: &mut W) -> Result<bool, PlayFault>
        ensures taken { IfOk result (TakesLine (lines_left R.remaining self.old) (lines_left R.remaining self.new) self.new.line.items) }
        ensures counted { IfOk result (λ more. self.new.number ≡ self.old.number + (if more then 1 else 0)) }
        ensures same { OnOk result (Keeps (W.contents writer.old) (W.contents writer.new)) }
    {
        flush_before_wait(&self.reader, writer)?;
        if !read_whole(&mut self.reader, &mut self.line)? {
            return Ok(false);
        }
        drop_end(&mut self.line);
        self.number = self.number.checked_add(1).ok_or(PlayFault::StreamFailed)?;
        Ok(true)
    }
}

/// Flushes what was printed where no whole line is at hand: the read that is to come may wait.
fn flush_before_wait<R: Read + Drop, W: Write>(
    script: &BufReader<Counted<R>>,
    writer: &mut W,
) -> Result<(), PlayFault>
    ensures same { OnOk result (Keeps (W.contents writer.old) (W.contents writer.new)) }
{
    if !script.buffer().contains(&b'\n') {
        writer.flush()?;
    }
    Ok(())
}

/// Reads a script's next line in place of the one before, its end too. False where there is none.
fn read_whole<R: Read + Drop>(
    script: &mut BufReader<Counted<R>>,
    line: &mut Vec<u8>,
) -> Result<bool, PlayFault>
    ensures { IfOk result (TakesBytes (reader_remaining (λ c. R.remaining c.reader) script.old)
        (reader_remaining (λ c. R.remaining c.reader) script.new) line.new.items) }
{
    line.clear();
    let len = script.read_until(b'\n', line)?;
    Ok(len != 0)
}

/// Adds a line and its LF to a text.
fn add_line(text: &mut Vec<u8>, line: &[u8]) -> Result<(), PlayFault>
    ensures { OnOk result (text.new.items ≡ text.old.items ++ with_end line.now) }
{
    text.extend_from_slice(line)?;
    text.push(b'\n')?;
    Ok(())
}

/// Drops the LF at the end of a line, if it has one.
fn drop_end(line: &mut Vec<u8>)
    ensures { line.new.items ≡ strip_last 10 line.old.items }
{
    if line.ends_with(b"\n") {
        line.truncate(line.len() - 1);
    }
}
