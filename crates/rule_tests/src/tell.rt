//! How a story is told, and what is compared where a call is refused memory.
//!
//! Before each call the desk and the policy are listed. Where the call answers that memory was refused, they are
//! listed again, and the call is made once more. What is told then is `refused` and the call, and whether both
//! lists are the same; and behind that what the second call answers. So a story is told otherwise where memory is
//! refused, and by one such line for each refused call if these leave everything as before.
//! `.ci/refused_tests.py` refuses each allocation in turn.
use crate::policies::GivenTexts;
use crate::words::Told;
use crate::{access, files, leads, names, policies};
use access_file::Access;
use pv_name::Group;
use pvlist::Syntax;
use rule_desk::{Desk, Policy};
use std::alloc::Global;
use std::process::Abort;

/// How much is told, or listed, without taking memory.
const ROOM: usize = 65_536;

/// What the calls of a story work on.
#[derive(Drop)]
struct Office {
    /// The text of the next call.
    text: Told,
    texts: GivenTexts,
    desk: Desk,
    policy: Policy,
    /// The one whose rights are listed.
    group: Option<Group>,
    access: Option<Access>,
}

/// Asserts that a story comes out as it is told.
pub(crate) fn tells(rt: &impl Abort, alloc: Global, story: &str) {
    let mut told = Told::with_room(alloc, ROOM);
    let mut wanted = Told::with_room(alloc, ROOM);
    tell(alloc, story, &mut told, &mut wanted);
    assert!(rt;
        told.is_whole && wanted.is_whole,
        "the test itself was refused memory"
    );
    assert_eq!(rt; told.text.as_str(), wanted.text.as_str());
}

fn tell(alloc: Global, story: &str, told: &mut Told, wanted: &mut Told) {
    let mut office = new_office(alloc);
    let mut seen = Seen::new(alloc);
    for line in story.lines() {
        match line.split_once(' ').unwrap_or((line, "")) {
            ("#", _) => office = new_office(alloc),
            (">", answer) => wanted.write_line(answer),
            ("|", text) => office.text.write_line(text),
            (verb, text) => {
                office.text.write_out(text);
                seen.call(alloc, &mut office, verb, told);
                told.is_whole &= office.text.is_whole;
                office.text.text.clear();
            }
        }
    }
    told.is_whole &= seen.is_whole();
}

/// What is seen of a call: the lists before it and behind it, and what it answers.
#[derive(Drop)]
struct Seen {
    before: Told,
    answer: Told,
    behind: Told,
}

impl Seen {
    fn new(alloc: Global) -> Seen {
        Seen {
            before: Told::with_room(alloc, ROOM),
            answer: Told::with_room(alloc, ROOM),
            behind: Told::with_room(alloc, ROOM),
        }
    }

    fn is_whole(&self) -> bool {
        self.before.is_whole && self.answer.is_whole && self.behind.is_whole
    }

    fn call(&mut self, alloc: Global, office: &mut Office, verb: &str, told: &mut Told) {
        list(office, &mut self.before);
        self.answer.text.clear();
        call(alloc, office, verb, &mut self.answer);
        if verb != "refusals" && self.answer.text.as_str().contains("out of memory") {
            list(office, &mut self.behind);
            self.note(verb, told);
            self.answer.text.clear();
            call(alloc, office, verb, &mut self.answer);
        }
        told.add(&self.answer);
    }

    fn note(&self, verb: &str, told: &mut Told) {
        told.put(&"refused ");
        told.put(&verb);
        if self.before.text.as_str() == self.behind.text.as_str() {
            told.line(&" as before");
        } else {
            told.line(&" otherwise");
            told.add(&self.before);
            told.line(&"behind it");
            told.add(&self.behind);
        }
    }
}

/// What the desk and the policy are, each row of it and the rights of a group. This takes no memory.
fn list(office: &Office, told: &mut Told) {
    told.text.clear();
    policies::show(&office.desk, &office.policy.rules, told);
    files::rows(office.policy.rules.rows(), told);
    if let Some(group) = &office.group {
        leads::rights(&office.policy.groups, group, told);
    }
}

fn new_office(alloc: Global) -> Office {
    Office {
        text: Told::with_room(alloc, ROOM),
        texts: GivenTexts::none(),
        desk: Desk::new(alloc),
        policy: Policy::open_to_all(alloc),
        group: Group::read(alloc, b"ops").ok(),
        access: None,
    }
}

fn call(alloc: Global, office: &mut Office, verb: &str, told: &mut Told) {
    let text = office.text.text.as_str();
    let syntax = office.desk.syntax();
    match verb {
        "plain" => office.desk = Desk::with_syntax(alloc, Syntax::Plain),
        "name" | "same" | "listed" => names::call(alloc, verb, text, told),
        "translate" | "read" | "bare" | "groups-read" | "rows" | "tried" | "bits" => {
            files::call(alloc, syntax, &mut office.policy, verb, text, told);
        }
        "lead" | "rights" => leads::call(alloc, &office.policy, verb, text, told),
        "named" => access::name_host(alloc, &mut office.policy.names, text, told),
        "access" | "grant" => {
            access::call(
                alloc,
                &mut office.access,
                &office.policy.names,
                verb,
                text,
                told,
            );
        }
        "edit" => policies::edit(&mut office.desk, &mut office.policy, &office.texts, told),
        "shown" => policies::show(&office.desk, &office.policy.rules, told),
        _ => policies::call(alloc, syntax, &mut office.texts, verb, text, told),
    }
}
