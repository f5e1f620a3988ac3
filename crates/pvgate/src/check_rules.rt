//! The program `check-rules`.

use crate::arguments::CheckRules;
use crate::fault::ProgramFault;
use crate::heavy::first_heavy;
use pv_name::{Host, Name};
use pvlist::Syntax;
use rule_desk::{Note, PolicyTexts, Question, Said, check_texts, status};
use std::alloc::Global;
use std::io::BufWriter;
use std::{fs, io};

/// The texts of the files that the command line names.
#[derive(Drop)]
struct FileTexts {
    rules: String,
    groups: Option<String>,
    access: Option<String>,
}

impl FileTexts {
    fn seen(&self) -> PolicyTexts<'_> {
        PolicyTexts {
            rules: Some(self.rules.as_str()),
            groups: self.groups.as_ref().map(|text| text.as_str()),
            access: self.access.as_ref().map(|text| text.as_str()),
        }
    }
}

/// Checks the files that the command line names, and prints what is wrong or what they answer. What is
/// noted of the rule file goes to standard error, and what a faulty line said. Returns the status that the program ends with.
pub fn check_rules(rt: &HostRuntime, arguments: &CheckRules<'_>) -> Result<u8, ProgramFault> {
    let alloc = rt.alloc();
    let asked = read_asked(alloc, arguments)?;
    let texts = read_texts(rt, arguments)?;
    let syntax = arguments.syntax;
    note_rules(rt, texts.rules.as_str(), syntax);
    let mut out = BufWriter::new(alloc, io::writer(rt))?;
    let ended = check_texts(alloc, &texts.seen(), asked.as_ref(), &mut out, syntax);
    if ended == status::REFUSED {
        if let Some(said) = Said::of_texts(alloc, &texts.seen(), syntax) {
            let _ = eprintln!(rt; "{said}");
        }
    }
    if ended == status::STREAM_FAILED {
        return Err(ProgramFault::Output);
    }
    if ended == status::FAILED {
        return Err(ProgramFault::OutOfMemory);
    }
    Ok(ended)
}

fn read_texts(rt: &HostRuntime, arguments: &CheckRules<'_>) -> Result<FileTexts, ProgramFault> {
    Ok(FileTexts {
        rules: read_file(rt, arguments.rules)?,
        groups: read_if_named(rt, arguments.groups)?,
        access: read_if_named(rt, arguments.access)?,
    })
}

// What may be amiss though the file is good.
fn note_rules(rt: &HostRuntime, rules: &str, syntax: Syntax) {
    if let Some(note) = Note::of(rules, syntax) {
        let _ = eprintln!(rt; "{note}");
    }
    if let Some(line) = first_heavy(rt, rules, syntax) {
        let _ = eprintln!(rt;
            "note: line {line}: its pattern takes more than 1 MiB or 5 ms to make ready"
        );
    }
}

/// The host is tested even where no name is asked for.
fn read_asked(alloc: Global, arguments: &CheckRules<'_>) -> Result<Option<Question>, ProgramFault> {
    let host = Host::read(alloc, arguments.host.as_bytes()).map_err(ProgramFault::host)?;
    match arguments.name {
        Some(text) => {
            let name = Name::read(alloc, text.as_bytes()).map_err(ProgramFault::name)?;
            let mut user = Vec::new(alloc);
            user.extend_from_slice(arguments.user.unwrap_or("").as_bytes())?;
            Ok(Some(Question { name, host, user }))
        }
        None => Ok(None),
    }
}

fn read_if_named(rt: &HostRuntime, path: Option<&str>) -> Result<Option<String>, ProgramFault> {
    match path {
        Some(path) => Ok(Some(read_file(rt, path)?)),
        None => Ok(None),
    }
}

fn read_file(rt: &HostRuntime, path: &str) -> Result<String, ProgramFault> {
    match fs::read_to_string(rt, path) {
        Ok(text) => Ok(text),
        Err(fault) => Err(ProgramFault::file(rt.alloc(), path, fault)),
    }
}
