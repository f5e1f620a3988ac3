//! The rule files.
use crate::fault::ServeFault;
use crate::host_names::{KnownHosts, know_hosts};
use crate::logging::Teller;
use crate::machine::{Machine, System, TextFault};
use gateway_core::Policy;
use pvlist::Syntax;
use rule_desk::{Desk, DeskFault, Note, PolicyTexts};
use serve_state::{FileCause, FileReading, FileText, Notice, READINGS, Steady};
use std::alloc::Global;
use std::fmt::Write;
use std::net::{Net, TcpListener, TcpStream};
use std::thread::Threads;
use std::time::Duration;
use std::{io, thread};

/// How many milliseconds pass between two readings of a file.
const PAUSE: u64 = 20;

/// The paths of the rule files, and the syntax of their patterns.
#[derive(Drop)]
pub struct RulePaths {
    pub rules: Option<String>,
    pub groups: Option<String>,
    pub access: Option<String>,
    pub syntax: Syntax,
}

/// The texts of the rule files.
#[derive(Drop)]
pub struct RuleTexts {
    rules: Option<String>,
    groups: Option<String>,
    access: Option<String>,
}

impl RuleTexts {
    fn seen(&self) -> PolicyTexts<'_> {
        PolicyTexts {
            rules: self.rules.as_ref().map(|text| text.as_str()),
            groups: self.groups.as_ref().map(|text| text.as_str()),
            access: self.access.as_ref().map(|text| text.as_str()),
        }
    }
}

/// The desk that reads the texts, and what was last known of the hosts that they name.
#[derive(Drop)]
pub struct PolicyDesk {
    desk: Desk,
    hosts: KnownHosts,
}

impl PolicyDesk {
    pub fn new(alloc: Global, syntax: Syntax) -> PolicyDesk {
        PolicyDesk {
            desk: Desk::with_syntax(alloc, syntax),
            hosts: KnownHosts::new(alloc),
        }
    }
}

/// When files are read, and so how.
#[derive(Clone, Copy)]
pub enum When {
    /// Each once.
    AtStart,
    /// Each until two readings agree. One without a byte is refused, or isn't.
    AtReload { refuse_empty: bool },
}

/// Reads the files, the rule file first.
pub fn read_texts<R: Machine + System>(
    rt: &R,
    alloc: Global,
    files: &RulePaths,
    when: When,
    teller: Teller<'_>,
) -> Result<RuleTexts, ServeFault> {
    let rules = read_text(rt, alloc, &files.rules, when, teller)?;
    let groups = read_text(rt, alloc, &files.groups, when, teller)?;
    let access = read_text(rt, alloc, &files.access, when, teller)?;
    Ok(RuleTexts {
        rules,
        groups,
        access,
    })
}

fn read_text<R: Machine + System>(
    rt: &R,
    alloc: Global,
    path: &Option<String>,
    when: When,
    teller: Teller<'_>,
) -> Result<Option<String>, ServeFault> {
    let Some(path) = path else {
        return Ok(None);
    };
    match when {
        When::AtStart => Ok(Some(read_once(rt, alloc, path, teller)?.into_text())),
        When::AtReload { refuse_empty } => {
            let text = read_steady(rt, alloc, path, teller)?;
            if refuse_empty && text.is_empty() {
                return Err(refuse_file(rt, path, FileCause::Empty, teller));
            }
            Ok(Some(text))
        }
    }
}

// Somebody may be writing it.
fn read_steady<R: Machine + System>(
    rt: &R,
    alloc: Global,
    path: &String,
    teller: Teller<'_>,
) -> Result<String, ServeFault> {
    let mut steady = Steady::new();
    for _ in 0..READINGS {
        let text = read_once(rt, alloc, path, teller)?;
        match steady.read(text) {
            FileReading::Steady(text) => return Ok(text.into_text()),
            FileReading::Again => thread::sleep(rt, Duration::from_millis(PAUSE)),
            FileReading::Unsteady => break,
        }
    }
    Err(refuse_file(rt, path, FileCause::Unsteady, teller))
}

fn read_once<R: Machine + System>(
    rt: &R,
    alloc: Global,
    path: &String,
    teller: Teller<'_>,
) -> Result<FileText, ServeFault> {
    match rt.read_text(alloc, path.as_str()) {
        Ok(text) => Ok(text),
        Err(TextFault::NoFile) => Err(refuse_file(rt, path, FileCause::NoFile, teller)),
        Err(TextFault::TooLarge) => Err(refuse_file(rt, path, FileCause::TooLarge, teller)),
        Err(TextFault::Stream(fault)) if fault.kind() == io::ErrorKind::OutOfMemory => {
            Err(ServeFault::OutOfMemory)
        }
        Err(TextFault::Stream(fault)) => {
            teller.tell(rt, Notice::FileUnread(path.as_str()));
            Err(ServeFault::File(path.clone()?, fault))
        }
    }
}

fn refuse_file<R: System>(
    rt: &R,
    path: &String,
    cause: FileCause,
    teller: Teller<'_>,
) -> ServeFault {
    teller.tell(rt, Notice::FileRefused(path.as_str(), cause));
    match path.clone() {
        Ok(path) => ServeFault::File(path, io::Error::other(cause.words())),
        Err(_) => ServeFault::OutOfMemory,
    }
}

/// The policy that the texts say, which knows the hosts that they name where hosts are checked. Where they are refused the
/// line that says so is printed. What is noted of the rule file is told too.
pub fn read_policy<
    R: Machine + System + Threads + Net<Listener = TcpListener, Stream = TcpStream> + 'static,
>(
    rt: &R,
    alloc: Global,
    desk: &mut PolicyDesk,
    texts: &RuleTexts,
    checks_hosts: bool,
    teller: Teller<'_>,
) -> Result<Policy, ServeFault> {
    let seen = texts.seen();
    if let Some(note) = seen
        .rules
        .and_then(|text| Note::of(text, desk.desk.syntax()))
    {
        teller.note(rt, note);
    }
    match desk.desk.read(&seen) {
        Ok(mut policy) => {
            if checks_hosts
                && know_hosts(*rt, alloc, &mut policy, &mut desk.hosts, teller).is_err()
            {
                teller.tell(rt, Notice::OutOfMemory);
                return Err(ServeFault::OutOfMemory);
            }
            tell_read(rt, &policy, teller);
            Ok(policy)
        }
        Err(DeskFault::OutOfMemory) => {
            teller.tell(rt, Notice::OutOfMemory);
            Err(ServeFault::OutOfMemory)
        }
        Err(fault) => Err(print_refusal(rt, alloc, fault, teller)),
    }
}

// What was read.
fn tell_read<R: Machine + System>(rt: &R, policy: &Policy, teller: Teller<'_>) {
    if policy.rules.is_open() {
        teller.tell(rt, Notice::OpenToAll);
    } else {
        teller.tell(rt, Notice::RulesRead(policy.rules.rows().len()));
    }
    if policy.access.is_some() {
        teller.tell(rt, Notice::AccessRead);
    }
}

fn print_refusal<R: Machine + System>(
    rt: &R,
    alloc: Global,
    fault: DeskFault,
    teller: Teller<'_>,
) -> ServeFault {
    match fault {
        DeskFault::Rules(line, cause) => teller.tell(rt, Notice::RulesRefused(line, cause)),
        DeskFault::Groups(line, cause) => teller.tell(rt, Notice::GroupsRefused(line, cause)),
        DeskFault::Access(line, cause) => teller.tell(rt, Notice::AccessRefused(line, cause)),
        DeskFault::OutOfMemory => (),
    }
    let mut line = String::new(alloc);
    if write!(line, "{fault}").is_err() {
        return ServeFault::OutOfMemory;
    }
    match rt.print_line(line.as_str()) {
        Ok(()) => ServeFault::Refused(fault),
        Err(_) => ServeFault::Output,
    }
}
