//! What a faulty line said.
ghost use Rattle.std.specs.Prelude.{◌≡◌, ◌<◌, ◌++◌, Some, IfOk, IfSome, OnOk, flat_map, option_copied, take};
ghost use Rattle.rule_desk.specs.Said.{IsSaid, digit, line_at, said_in, said_of, shown, told};
ghost use Rattle.rule_desk.specs.Texts.{without_access};

use crate::{Desk, DeskFault, PolicyTexts};
use pv_alias::NoMemory;
use pvlist::Syntax;
use std::alloc::Global;
use std::marker::Model;
use std::{fmt, str};

/// How many characters are told of a line.
const MOST: usize = 200;

/// Of which file a line is.
#[derive(Clone, Copy, Debug)]
enum SaidFile {
    InRules,
    InGroups,
    InAccess,
}

/// What a faulty line said. It is printed as `line 3: says: B GRANT`, or as `groups line 1: says: ..` or
/// `access line 1: says: ..` where it is a line of the group file or of the access security file.
#[derive(Debug, Drop)]
pub struct Said {
    file: SaidFile,
    // Counted from 1.
    line: usize,
    // Printable ASCII.
    text: Vec<u8>,
}

impl Model for Said {
    ghost use Rattle.rule_desk.specs.Said.{SaidLine};

    ghost Value = { SaidLine };

    ghost view = { λ s. record { file = s.file; line = s.line; text = s.text.items } };
}

impl Said {
    /// What the first faulty line of the texts of a rule file, whose patterns are of the syntax, and of a group
    /// file said; `None` where there is none, or memory is refused.
    pub fn of<'t>(
        alloc: Global,
        rules: &'t str,
        groups: Option<&'t str>,
        syntax: Syntax,
    ) -> Option<Said>
        ensures { IfSome result (IsSaid syntax (without_access (Some rules.now) (option_copied groups.entry))) }
    {
        let texts = PolicyTexts {
            rules: Some(rules),
            groups,
            access: None,
        };
        Said::of_texts(alloc, &texts, syntax)
    }

    /// The same of all files.
    pub fn of_texts(alloc: Global, texts: &PolicyTexts<'_>, syntax: Syntax) -> Option<Said>
        ensures { IfSome result (IsSaid syntax texts.now) }
    {
        let mut desk = Desk::with_syntax(alloc, syntax);
        match desk.read(texts) {
            Ok(_) => None,
            Err(fault) => match said_of(alloc, texts, fault) {
                Ok(Some(said)) => Some(said),
                Ok(None) | Err(_) => None,
            },
        }
    }
}

/// What the line said that the fault is of.
#[tactic(auto, unfolding(crate::specs::Said::said_of))]
fn said_of(
    alloc: Global,
    texts: &PolicyTexts<'_>,
    fault: DeskFault,
) -> Result<Option<Said>, NoMemory>
    ensures { IfOk result (λ said. said ≡ said_of texts.now fault) }
{
    match fault {
        DeskFault::Rules(line, _) => said_in(alloc, texts.rules, SaidFile::InRules, line),
        DeskFault::Groups(line, _) => said_in(alloc, texts.groups, SaidFile::InGroups, line),
        DeskFault::Access(line, _) => said_in(alloc, texts.access, SaidFile::InAccess, line),
        DeskFault::OutOfMemory => Ok(None),
    }
}

/// A line of a file that has a text.
fn said_in(
    alloc: Global,
    text: Option<&str>,
    file: SaidFile,
    line: usize,
) -> Result<Option<Said>, NoMemory>
    ensures { IfOk result (λ said. said ≡ said_in (option_copied text.entry) file line) }
{
    let Some(text) = text else {
        return Ok(None);
    };
    let text = told(alloc, line_at(text, line))?;
    Ok(Some(Said { file, line, text }))
}

/// The line of a text that has this number, counted from 1.
fn line_at(text: &str, number: usize) -> &str
    ensures { result.now ≡ line_at number text.now }
{
    let place = number.saturating_sub(1);
    let mut passed = 0;
    for line in text.lines() {
        if passed == place {
            return line;
        }
        passed += 1;
    }
    ""
}

/// A line as it is told: no more than so many characters of it.
#[tactic(auto, unfolding(crate::specs::Said::told))]
fn told(alloc: Global, line: &str) -> Result<Vec<u8>, NoMemory>
    ensures { IfOk result (λ text. text.items ≡ told line.now) }
{
    let mut text = Vec::new(alloc);
    show(&mut text, front(line.as_bytes()))?;
    text.truncate(MOST);
    Ok(text)
}

/// The first bytes of a line, of which enough are told.
fn front(line: &[u8]) -> &[u8]
    ensures { result.now ≡ take MOST line.now }
{
    if line.len() <= MOST {
        line
    } else {
        &line[..MOST]
    }
}

fn show(text: &mut Vec<u8>, bytes: &[u8]) -> Result<(), NoMemory>
    ensures { OnOk result (text.new.items ≡ text.old.items ++ flat_map shown bytes.now) }
{
    for byte in bytes {
        show_byte(text, *byte)?;
    }
    Ok(())
}

fn show_byte(text: &mut Vec<u8>, byte: u8) -> Result<(), NoMemory>
    ensures { OnOk result (text.new.items ≡ text.old.items ++ shown byte) }
{
    if byte >= b' ' && byte <= b'~' {
        text.extend_from_slice(&[byte])?;
    } else {
        text.extend_from_slice(&[b'\\', b'x', digit(byte / 16), digit(byte % 16)])?;
    }
    Ok(())
}

/// The hexadecimal digit of a number.
fn digit(n: u8) -> u8
    requires { n < 16 }
    ensures { result ≡ digit n }
{
    if n < 10 { b'0' + n } else { b'a' + (n - 10) }
}

impl fmt::Display for Said {
    fn fmt<W: fmt::Write>(&self, f: &mut fmt::Formatter<W>) -> fmt::Result {
        let text = str::from_utf8(self.text.as_slice()).unwrap_or("");
        let file = match self.file {
            SaidFile::InRules => "",
            SaidFile::InGroups => "groups ",
            SaidFile::InAccess => "access ",
        };
        write!(f, "{file}line {}: says: {text}", self.line)
    }
}
