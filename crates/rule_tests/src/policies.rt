//! Calls on the texts of a rule file, a group file and an access security file, and on the desk and the check that read them.
//!
//! - `rules TEXT`, `groups TEXT`, `access-file TEXT`: the text of a file; `no-texts`: there are none;
//! - `edit`: the desk reads the texts, and their policy holds from then on; answered only by a fault;
//! - `shown`: whether the policy is open, its rows, its order, and how many edits the desk counts;
//! - `said`: what the first faulty line of the texts said, `-` where none is faulty;
//! - `note`: the note on the text of the rule file, `-` where there is none;
//! - `check`, `check HOST NAME`, `check HOST NAME USER`: what the check writes of the texts, and its status;
//! - `rooms FIRST LAST`, `rooms FIRST LAST HOST NAME`: the status for each writer that takes so many
//!   bytes and then fails;
//! - `refusals`: what is told where memory is refused, of a name, a pattern, a file and an edit.
use crate::words::{Told, two_words};
use pv_name::{Host, Name, NameFault};
use pvlist::{RuleFault, Rules, Syntax, TranslateFault};
use rule_desk::status::FAILED;
use rule_desk::{Desk, DeskFault, Note, Policy, PolicyTexts, Question, Said, check, check_texts};
use std::alloc::Global;
use std::fmt::Write;
use std::{io, str};

/// How much is printed of a check, at most.
const PRINTED: usize = 4_096;

/// The texts of a rule file, a group file and an access security file, where there are any.
#[derive(Drop)]
pub(crate) struct GivenTexts {
    rules: Option<String>,
    groups: Option<String>,
    access: Option<String>,
}

impl GivenTexts {
    pub(crate) fn none() -> GivenTexts {
        GivenTexts {
            rules: None,
            groups: None,
            access: None,
        }
    }

    fn rules(&self) -> Option<&str> {
        text_of(&self.rules)
    }

    fn groups(&self) -> Option<&str> {
        text_of(&self.groups)
    }

    /// All three, as the desk reads them.
    fn all(&self) -> PolicyTexts<'_> {
        PolicyTexts {
            rules: self.rules(),
            groups: self.groups(),
            access: text_of(&self.access),
        }
    }

    /// The same for a check, which is of a rule file.
    fn checked(&self) -> PolicyTexts<'_> {
        PolicyTexts {
            rules: Some(self.rules().unwrap_or("")),
            ..self.all()
        }
    }
}

fn text_of(text: &Option<String>) -> Option<&str> {
    match text {
        Some(text) => Some(text.as_str()),
        None => None,
    }
}

pub(crate) fn call(
    alloc: Global,
    syntax: Syntax,
    texts: &mut GivenTexts,
    verb: &str,
    text: &str,
    told: &mut Told,
) {
    match verb {
        "rules" => texts.rules = copied(alloc, text, told),
        "groups" => texts.groups = copied(alloc, text, told),
        "access-file" => texts.access = copied(alloc, text, told),
        "no-texts" => *texts = GivenTexts::none(),
        "said" => said(alloc, syntax, texts, told),
        "note" => match Note::of(texts.rules().unwrap_or(""), syntax) {
            Some(note) => told.line(&note),
            None => told.line(&'-'),
        },
        "check" => check_asked_in(alloc, syntax, texts, text, told),
        "rooms" => rooms(alloc, syntax, texts, text, told),
        _ => refusals(told),
    }
}

fn copied(alloc: Global, text: &str, told: &mut Told) -> Option<String> {
    let copied = String::from_str(alloc, text).ok();
    told.is_whole &= copied.is_some();
    copied
}

pub(crate) fn edit(desk: &mut Desk, policy: &mut Policy, texts: &GivenTexts, told: &mut Told) {
    let edited = match texts.access {
        Some(_) => desk.read(&texts.all()),
        None => desk.edit(texts.rules(), texts.groups()),
    };
    match edited {
        Ok(edited) => *policy = edited,
        Err(fault) => told.line(&fault),
    }
}

pub(crate) fn show(desk: &Desk, rules: &Rules, told: &mut Told) {
    let open = if rules.is_open() { "open" } else { "closed" };
    let (rows, order, edits) = (rules.rows().len(), rules.order(), desk.edits());
    let written = writeln!(told.text, "{open}, {rows} rows, {order}, {edits} edits");
    told.keep(written);
}

fn said(alloc: Global, syntax: Syntax, texts: &GivenTexts, told: &mut Told) {
    let (rules, groups) = (texts.rules().unwrap_or(""), texts.groups());
    let said = match texts.access {
        Some(_) => Said::of_texts(alloc, &texts.checked(), syntax),
        None => Said::of(alloc, rules, groups, syntax),
    };
    match said {
        Some(said) => told.line(&said),
        None => unsaid(Desk::with_syntax(alloc, syntax), &texts.checked(), told),
    }
}

/// Nothing is said of texts that are good, and of others where memory was refused.
fn unsaid(mut desk: Desk, texts: &PolicyTexts<'_>, told: &mut Told) {
    match desk.read(texts) {
        Ok(_) => told.line(&'-'),
        Err(_) => told.line(&"out of memory"),
    }
}

/// Who asks for what, nothing where that isn't said.
fn asked(alloc: Global, text: &str) -> Result<Option<Question>, NameFault> {
    let Some((host, behind)) = text.split_once(' ') else {
        return Ok(None);
    };
    let (name, user) = two_words(behind);
    let host = Host::read(alloc, host.as_bytes())?;
    let name = Name::read(alloc, name.as_bytes())?;
    let Ok(user) = Vec::from_slice(alloc, user.as_bytes()) else {
        return Err(NameFault::OutOfMemory);
    };
    Ok(Some(Question { name, host, user }))
}

fn check_asked_in(alloc: Global, syntax: Syntax, texts: &GivenTexts, text: &str, told: &mut Told) {
    match (asked(alloc, text), Vec::with_capacity(alloc, PRINTED)) {
        (Ok(asked), Ok(out)) => check_asked(alloc, syntax, texts, asked.as_ref(), out, told),
        _ => told.line(&"out of memory"),
    }
}

fn check_asked(
    alloc: Global,
    syntax: Syntax,
    texts: &GivenTexts,
    asked: Option<&Question>,
    mut out: Vec<u8>,
    told: &mut Told,
) {
    let status = status_of(alloc, syntax, texts, asked, &mut out);
    if status == FAILED && out.is_empty() {
        return told.line(&"out of memory");
    }
    match str::from_utf8(&out) {
        Ok(printed) => told.put(&printed),
        Err(_) => told.line(&"no text"),
    }
    let written = writeln!(told.text, "status {status}");
    told.keep(written);
}

fn status_of<W: io::Write>(
    alloc: Global,
    syntax: Syntax,
    texts: &GivenTexts,
    asked: Option<&Question>,
    out: &mut W,
) -> u8 {
    match texts.access {
        Some(_) => check_texts(alloc, &texts.checked(), asked, out, syntax),
        None => {
            let rules = texts.rules().unwrap_or("");
            check(alloc, rules, texts.groups(), asked, out, syntax)
        }
    }
}

fn rooms(alloc: Global, syntax: Syntax, texts: &GivenTexts, text: &str, told: &mut Told) {
    let (first, text) = two_words(text);
    let (last, text) = two_words(text);
    let Ok(asked) = asked(alloc, text) else {
        return told.line(&"out of memory");
    };
    for room in first.parse().unwrap_or(0)..=last.parse().unwrap_or(0) {
        check_in(alloc, syntax, texts, asked.as_ref(), room, told);
    }
    told.put(&'\n');
}

fn check_in(
    alloc: Global,
    syntax: Syntax,
    texts: &GivenTexts,
    asked: Option<&Question>,
    room: usize,
    told: &mut Told,
) {
    let mut out = Narrow(room);
    let status = status_of(alloc, syntax, texts, asked, &mut out);
    if status == FAILED && out.0 == room {
        told.put(&"out of memory");
    } else {
        told.put(&status);
    }
}

/// Takes so many bytes, and then fails; at last the flush.
#[derive(Drop)]
struct Narrow(usize);

impl io::Write for Narrow {
    fn write(&mut self, buf: &[u8]) -> io::Result<usize> {
        if self.0 == 0 {
            return Err(io::Error::from(io::ErrorKind::BrokenPipe));
        }
        let taken = self.0.min(buf.len());
        self.0 -= taken;
        Ok(taken)
    }

    fn flush(&mut self) -> io::Result<()> {
        if self.0 == 0 {
            return Err(io::Error::from(io::ErrorKind::BrokenPipe));
        }
        Ok(())
    }
}

fn refusals(told: &mut Told) {
    told.line(&NameFault::OutOfMemory);
    told.line(&TranslateFault::OutOfMemory);
    told.line(&RuleFault::OutOfMemory);
    told.line(&DeskFault::OutOfMemory);
}
