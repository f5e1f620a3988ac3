//! Names and settings in a file.
ghost use Rattle.std.specs.Prelude.{◌≡◌, Ok, IfOk, IfErr, OnOk};
ghost use Rattle.access_file.specs.Fault.{IsCauseOf};
ghost use Rattle.access_file.specs.Grammar.{is_defined, is_full, named, group_named, member_named, spoken_named, speaking_of, undefined, set, level_set, right_set, recording_set};
ghost use Rattle.access_file.specs.Keywords.{level_of, right_of, recording_of};
ghost use Rattle.access_file.specs.Naming.{name_of};

use crate::fault::{AccessCause, TokenFault};
use crate::keyword::{recording_of, right_of};
use crate::place::{Behind, Expected, Kind, Naming, Party, Setting};
use crate::reader::{GROUPS_LIMIT, NAMES_LIMIT, Reader};
use crate::rule::{Grant, Level};
use pv_name::{Group, NameFault};
use std::alloc::{AllocError, Global};

impl Reader {
    pub(crate) fn named(
        &mut self,
        alloc: Global,
        naming: Naming,
        word: &[u8],
    ) -> Result<(), TokenFault>
        ensures ok { OnOk result (named self.old naming word.now ≡ Ok self.new) }
        ensures err { IfErr result (IsCauseOf (named self.old naming word.now)) }
    {
        match naming {
            Naming::Group(kind) => self.group_named(alloc, kind, word),
            Naming::First(party) => self.member_named(alloc, party, word),
            Naming::Member(party) => self.member_named(alloc, party, word),
            Naming::Spoken(party) => self.spoken_named(alloc, party, word),
        }
    }

    #[tactic(auto, using(crate::proofs::ReadingLemmas::defined_as_stays))]
    fn group_named(&mut self, alloc: Global, kind: Kind, word: &[u8]) -> Result<(), TokenFault>
        ensures ok { OnOk result (group_named self.old kind word.now ≡ Ok self.new) }
        ensures err { IfErr result (IsCauseOf (group_named self.old kind word.now)) }
    {
        let name = read_name(alloc, word)?;
        if self.is_defined(kind, name.text()) {
            return Err(TokenFault::Cause(AccessCause::Twice));
        }
        if self.is_full(kind) {
            return Err(TokenFault::Cause(AccessCause::TooMany));
        }
        self.name = Some(name);
        self.place = Expected::Sign(Behind::Group(kind));
        Ok(())
    }

    #[tactic(auto, using(crate::proofs::ReadingLemmas::listed_as_stays))]
    fn member_named(&mut self, alloc: Global, party: Party, word: &[u8]) -> Result<(), TokenFault>
        ensures ok { OnOk result (member_named self.old party word.now ≡ Ok self.new) }
        ensures err { IfErr result (IsCauseOf (member_named self.old party word.now)) }
    {
        let name = read_name(alloc, word)?;
        if self.name_count >= NAMES_LIMIT {
            return Err(TokenFault::Cause(AccessCause::TooMany));
        }
        self.name_count += 1;
        self.members.push(alloc, name)?;
        self.place = Expected::Sign(Behind::Member(party));
        Ok(())
    }

    #[tactic(auto, using(crate::proofs::ReadingLemmas::spoken_as_stays))]
    fn spoken_named(&mut self, alloc: Global, party: Party, word: &[u8]) -> Result<(), TokenFault>
        ensures ok { OnOk result (spoken_named self.old party word.now ≡ Ok self.new) }
        ensures err { IfErr result (IsCauseOf (spoken_named self.old party word.now)) }
    {
        let name = read_name(alloc, word)?;
        if !self.is_defined(Kind::List(party), name.text()) {
            return Err(TokenFault::Cause(undefined(party)));
        }
        if self.name_count >= NAMES_LIMIT {
            return Err(TokenFault::Cause(AccessCause::TooMany));
        }
        self.name_count += 1;
        self.place = Expected::Sign(Behind::Spoken(party));
        self.speak_of(alloc, party, name)?;
        Ok(())
    }

    fn speak_of(&mut self, alloc: Global, party: Party, name: Group) -> Result<(), AllocError>
        ensures { OnOk result (self.new ≡ speaking_of party name self.old) }
    {
        match party {
            Party::Users => self.spoken_users.push(alloc, name),
            Party::Hosts => self.spoken_hosts.push(alloc, name),
        }
    }

    fn is_defined(&self, kind: Kind, name: &str) -> bool
        ensures { result ≡ is_defined self.now kind name.now }
    {
        match kind {
            Kind::List(Party::Users) => self.users.contains(name),
            Kind::List(Party::Hosts) => self.hosts.contains(name),
            Kind::Rules => self.groups.contains(name),
        }
    }

    fn is_full(&self, kind: Kind) -> bool
        ensures { result ≡ is_full self.now kind }
    {
        match kind {
            Kind::List(Party::Users) => self.users.len() >= GROUPS_LIMIT,
            Kind::List(Party::Hosts) => self.hosts.len() >= GROUPS_LIMIT,
            Kind::Rules => self.groups.len() >= GROUPS_LIMIT,
        }
    }

    /// Takes a word of a rule's head.
    pub(crate) fn set(&mut self, setting: Setting, word: &[u8]) -> Result<(), TokenFault>
        ensures ok { OnOk result (set self.old setting word.now ≡ Ok self.new) }
        ensures err { IfErr result (IsCauseOf (set self.old setting word.now)) }
    {
        match setting {
            Setting::Level => self.set_level(word),
            Setting::Right => self.set_right(word),
            Setting::Recording => self.set_recording(word),
        }
    }

    fn set_level(&mut self, word: &[u8]) -> Result<(), TokenFault>
        ensures ok { OnOk result (level_set self.old (level_of word.now) ≡ Ok self.new) }
        ensures err { IfErr result (IsCauseOf (level_set self.old (level_of word.now))) }
    {
        self.level = Level::read(word).ok_or(AccessCause::BadLevel)?;
        self.place = Expected::Sign(Behind::Level);
        Ok(())
    }

    fn set_right(&mut self, word: &[u8]) -> Result<(), TokenFault>
        ensures ok { OnOk result (right_set self.old (right_of word.now) ≡ Ok self.new) }
        ensures err { IfErr result (IsCauseOf (right_set self.old (right_of word.now))) }
    {
        let right = right_of(word).ok_or(AccessCause::BadRight)?;
        self.grant = Grant {
            right,
            recorded: false,
        };
        self.place = Expected::Sign(Behind::Right);
        Ok(())
    }

    fn set_recording(&mut self, word: &[u8]) -> Result<(), TokenFault>
        ensures ok { OnOk result (recording_set self.old (recording_of word.now) ≡ Ok self.new) }
        ensures err { IfErr result (IsCauseOf (recording_set self.old (recording_of word.now))) }
    {
        self.grant.recorded = recording_of(word).ok_or(AccessCause::BadRight)?;
        self.place = Expected::Sign(Behind::Recording);
        Ok(())
    }
}

fn undefined(party: Party) -> AccessCause
    ensures { result ≡ undefined party }
{
    match party {
        Party::Users => AccessCause::NoUsers,
        Party::Hosts => AccessCause::NoHosts,
    }
}

fn read_name(alloc: Global, word: &[u8]) -> Result<Group, TokenFault>
    ensures ok { IfOk result (λ name. name_of word.now ≡ Ok name) }
    ensures err { IfErr result (IsCauseOf (name_of word.now)) }
{
    match Group::read(alloc, word) {
        Ok(name) => Ok(name),
        Err(NameFault::OutOfMemory) => Err(TokenFault::OutOfMemory),
        Err(_) => Err(TokenFault::Cause(AccessCause::BadName)),
    }
}
