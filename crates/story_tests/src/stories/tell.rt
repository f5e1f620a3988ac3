//! How a story is told. Whether memory was refused, or a line can't be read, is noted in the texts: ways
//! out of functions that own are dear to prove.
use crate::stories::beginnings::beginning;
use crate::stories::text::Text;
use replay::{replay, replay_plain};
use std::alloc::Global;
use std::process::Abort;
use std::str;
use std::test::Fail;

// The length of `client s1 ` and `server u1 `.
const COMMAND: usize = 10;

/// Asserts that a story comes out as it is told.
pub(crate) fn tells(rt: &impl Abort, alloc: Global, text: &[u8]) -> Result<(), Fail> {
    let mut story = Story::new(alloc);
    story.read_text(alloc, text);
    if !(story.script.is_whole && story.output.is_whole) {
        return Err("the story can't be read".into());
    }
    story.check(rt, alloc, story.script.bytes.as_slice());
    if story.cut {
        story.check_plain(rt, alloc);
        story.check_cuts(rt, alloc);
    }
    Ok(())
}

/// A script, all that it has to print, and its status.
#[derive(Drop)]
struct Story {
    script: Text,
    output: Text,
    status: u8,
    cut: bool,
}

impl Story {
    fn new(alloc: Global) -> Story {
        Story {
            script: Text::new(alloc),
            output: Text::new(alloc),
            status: 0,
            cut: true,
        }
    }

    fn read_text(&mut self, alloc: Global, text: &[u8]) {
        let mut written = Text::new(alloc);
        written.write_out(text);
        self.script.is_whole &= written.is_whole;
        for line in written.bytes.split(|b| *b == b'\n') {
            self.read(line);
        }
    }

    fn read(&mut self, line: &[u8]) {
        if line == b"! uncut".as_slice() {
            self.cut = false;
        } else if let Some(status) = line.strip_prefix(b"! status ") {
            self.read_status(status);
        } else if let Some(name) = line.strip_prefix(b"@") {
            match beginning(name) {
                Some(parts) => self.read_parts(parts),
                None => self.script.is_whole = false,
            }
        } else {
            self.read_line(line);
        }
    }

    fn read_status(&mut self, digits: &[u8]) {
        match str::from_utf8(digits).unwrap_or("").parse() {
            Ok(status) => self.status = status,
            Err(_) => self.script.is_whole = false,
        }
    }

    fn read_parts(&mut self, parts: &[&[u8]]) {
        for part in parts {
            for line in part.split(|b| *b == b'\n') {
                self.read_line(line);
            }
        }
    }

    /// A line of the script, or one that is printed.
    fn read_line(&mut self, line: &[u8]) {
        match line.strip_prefix(b"> ") {
            Some(printed) => {
                self.output.add(printed);
                self.output.add(b"\n");
            }
            None => self.script.add_line(line),
        }
    }

    /// Asserts that a script comes to this.
    fn check(&self, rt: &impl Abort, alloc: Global, script: &[u8]) {
        let mut out = Vec::new(alloc);
        let status = replay(alloc, script, &mut out);
        self.compare(rt, script, &out, status);
    }

    /// The same of the story's own script on the plain gateway.
    fn check_plain(&self, rt: &impl Abort, alloc: Global) {
        let mut out = Vec::new(alloc);
        let status = replay_plain(alloc, self.script.bytes.as_slice(), &mut out);
        self.compare(rt, &self.script.bytes, &out, status);
    }

    fn check_cuts(&self, rt: &impl Abort, alloc: Global) {
        for place in 1..48 {
            self.check_cut(rt, alloc, place);
        }
    }

    fn check_cut(&self, rt: &impl Abort, alloc: Global, place: u8) {
        let mut script = Text::new(alloc);
        cut(&self.script.bytes, place, &mut script);
        assert!(rt; script.is_whole);
        self.check(rt, alloc, script.bytes.as_slice());
    }

    fn compare(&self, rt: &impl Abort, script: &[u8], out: &[u8], status: u8) {
        assert_eq!(rt; out, self.output.bytes.as_slice(), "of {script:?}");
        assert_eq!(rt; status, self.status, "of {script:?}");
    }
}

/// The script with the bytes of each message cut after so many, in two lines.
fn cut(script: &[u8], place: u8, text: &mut Text) {
    let end = COMMAND + 2 * usize::from(place);
    for line in script.split(|b| *b == b'\n') {
        if (line.starts_with(b"client ") || line.starts_with(b"server ")) && line.len() > end {
            let (first, rest) = line.split_at(end);
            text.add_line(first);
            text.add_line(&first[..COMMAND]);
            text.add(rest);
        } else {
            text.add_line(line);
        }
    }
}
