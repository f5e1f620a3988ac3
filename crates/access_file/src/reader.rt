//! A file as far as it is read.
ghost use Rattle.std.specs.Prelude.{◌≡◌, Ok, Err, IfErr, OnOk};
ghost use Rattle.access_file.specs.Fault.{IsCauseOf};
ghost use Rattle.access_file.specs.Grammar.{start, closed, with_group, with_list, ruled, keyword, top_word, rule_word, party_word, word_taken, quoted_taken, sign_taken, scope_ended, ended};

use crate::by_name::ByName;
use crate::fault::{AccessCause, TokenFault};
use crate::keyword::{is_rule, kind_of, no_keyword, party_of};
use crate::names::ListedNames;
use crate::place::{Behind, Expected, Kind, Party, Scope};
use crate::rule::{Grant, GroupRules, Level, Rule};
use pv_name::Group;
use std::alloc::{AllocError, Global};
use std::mem;

/// How many groups of users a file has at most, how many of hosts, and how many security groups.
pub const GROUPS_LIMIT: usize = 4_096;

/// How many rules a file has at most.
pub const RULES_LIMIT: usize = 4_096;

/// How many names a file has at most in its lists and rules.
pub const NAMES_LIMIT: usize = 65_536;

const TOP: Expected = Expected::Keyword(Scope::Top);

/// What was read so far: the groups that are defined, then what is being defined, and which token
/// must stand next.
#[derive(Drop)]
pub(crate) struct Reader {
    pub(crate) users: ByName<ListedNames>,
    pub(crate) hosts: ByName<ListedNames>,
    pub(crate) groups: ByName<GroupRules>,
    pub(crate) place: Expected,
    // The group that is being defined, and its members or rules.
    pub(crate) name: Option<Group>,
    pub(crate) members: ListedNames,
    rules: GroupRules,
    // The rule that is being read.
    pub(crate) level: Level,
    pub(crate) grant: Grant,
    pub(crate) spoken_users: ListedNames,
    pub(crate) spoken_hosts: ListedNames,
    // How many there are in all.
    pub(crate) rule_count: usize,
    pub(crate) name_count: usize,
}

impl Reader {
    pub(crate) fn new(alloc: Global) -> Reader
        ensures { result ≡ start }
    {
        Reader {
            users: ByName::new(alloc),
            hosts: ByName::new(alloc),
            groups: ByName::new(alloc),
            place: TOP,
            name: None,
            members: ListedNames::new(alloc),
            rules: GroupRules::new(alloc),
            level: Level::Zero,
            grant: Grant::none(),
            spoken_users: ListedNames::new(alloc),
            spoken_hosts: ListedNames::new(alloc),
            rule_count: 0,
            name_count: 0,
        }
    }

    /// Takes a word that stands without quotes.
    pub(crate) fn word(&mut self, alloc: Global, word: &[u8]) -> Result<(), TokenFault>
        ensures ok { OnOk result (word_taken self.old word.now ≡ Ok self.new) }
        ensures err { IfErr result (IsCauseOf (word_taken self.old word.now)) }
    {
        match self.place {
            Expected::Keyword(scope) => self.keyword(alloc, scope, word),
            Expected::Name(naming) => self.named(alloc, naming, word),
            Expected::Setting(setting) => self.set(setting, word),
            Expected::Sign(_) => unexpected(),
        }
    }

    /// Takes what stands between quotes.
    pub(crate) fn quoted(&mut self, alloc: Global, text: &[u8]) -> Result<(), TokenFault>
        ensures ok { OnOk result (quoted_taken self.old text.now ≡ Ok self.new) }
        ensures err { IfErr result (IsCauseOf (quoted_taken self.old text.now)) }
    {
        match self.place {
            Expected::Keyword(_) => unexpected(),
            Expected::Name(naming) => self.named(alloc, naming, text),
            Expected::Setting(_) => unexpected(),
            Expected::Sign(_) => unexpected(),
        }
    }

    /// Takes a sign.
    pub(crate) fn sign(&mut self, alloc: Global, sign: u8) -> Result<(), TokenFault>
        ensures ok { OnOk result (sign_taken self.old sign ≡ Ok self.new) }
        ensures err { IfErr result (IsCauseOf (sign_taken self.old sign)) }
    {
        match self.place {
            Expected::Keyword(scope) => self.scope_signed(alloc, scope, sign),
            Expected::Name(naming) => self.name_signed(alloc, naming, sign),
            Expected::Setting(_) => unexpected(),
            Expected::Sign(behind) => self.signed_behind(alloc, behind, sign),
        }
    }

    /// Takes the end of the text.
    pub(crate) fn end(&mut self, alloc: Global) -> Result<(), TokenFault>
        ensures ok { OnOk result (ended self.old ≡ Ok self.new) }
        ensures err { IfErr result (IsCauseOf (ended self.old)) }
    {
        match self.place {
            Expected::Keyword(scope) => self.scope_ended(alloc, scope),
            Expected::Name(_) => unfinished(),
            Expected::Setting(_) => unfinished(),
            Expected::Sign(_) => unfinished(),
        }
    }

    fn scope_ended(&mut self, alloc: Global, scope: Scope) -> Result<(), TokenFault>
        ensures ok { OnOk result (scope_ended self.old scope ≡ Ok self.new) }
        ensures err { IfErr result (IsCauseOf (scope_ended self.old scope)) }
    {
        match scope {
            Scope::Top => Ok(()),
            Scope::Headed(kind) => {
                self.close(alloc, kind)?;
                Ok(())
            }
            Scope::Rules => unfinished(),
            Scope::Ruled => unfinished(),
            Scope::Parties => unfinished(),
        }
    }

    // ---- what was being defined

    // Puts the group that was being defined among the others.
    pub(crate) fn close(&mut self, alloc: Global, kind: Kind) -> Result<(), AllocError>
        ensures { OnOk result (self.new ≡ closed kind self.old) }
    {
        self.place = TOP;
        match self.name.take() {
            Some(name) => self.put(alloc, kind, &name),
            None => Ok(()),
        }
    }

    fn put(&mut self, alloc: Global, kind: Kind, name: &Group) -> Result<(), AllocError>
        ensures { OnOk result (self.new ≡ with_group kind name.now self.old) }
    {
        match kind {
            Kind::List(party) => {
                let members = mem::replace(&mut self.members, ListedNames::new(alloc));
                self.put_list(alloc, party, name, members)
            }
            Kind::Rules => {
                let rules = mem::replace(&mut self.rules, GroupRules::new(alloc));
                self.groups.put(alloc, name.text(), rules)
            }
        }
    }

    fn put_list(
        &mut self,
        alloc: Global,
        party: Party,
        name: &Group,
        members: ListedNames,
    ) -> Result<(), AllocError>
        ensures { OnOk result (self.new ≡ with_list party name.now members self.old) }
    {
        match party {
            Party::Users => self.users.put(alloc, name.text(), members),
            Party::Hosts => self.hosts.put(alloc, name.text(), members),
        }
    }

    // Puts the rule that was being read behind the others of its group.
    pub(crate) fn end_rule(&mut self, alloc: Global) -> Result<(), AllocError>
        ensures { OnOk result (self.new ≡ ruled self.old) }
    {
        let users = mem::replace(&mut self.spoken_users, ListedNames::new(alloc));
        let hosts = mem::replace(&mut self.spoken_hosts, ListedNames::new(alloc));
        self.rules.push(Rule {
            level: self.level,
            grant: self.grant,
            users,
            hosts,
        })
    }

    // ---- keywords

    fn keyword(&mut self, alloc: Global, scope: Scope, word: &[u8]) -> Result<(), TokenFault>
        ensures ok { OnOk result (keyword self.old scope word.now ≡ Ok self.new) }
        ensures err { IfErr result (IsCauseOf (keyword self.old scope word.now)) }
    {
        match scope {
            Scope::Top => self.top_word(word),
            Scope::Headed(kind) => {
                self.close(alloc, kind)?;
                self.top_word(word)
            }
            Scope::Rules => self.rule_word(word),
            Scope::Ruled => {
                self.end_rule(alloc)?;
                self.rule_word(word)
            }
            Scope::Parties => self.party_word(word),
        }
    }

    fn top_word(&mut self, word: &[u8]) -> Result<(), TokenFault>
        ensures ok { OnOk result (top_word self.old word.now ≡ Ok self.new) }
        ensures err { IfErr result (IsCauseOf (top_word self.old word.now)) }
    {
        match kind_of(word) {
            Some(kind) => {
                self.place = Expected::Sign(Behind::Keyword(kind));
                Ok(())
            }
            None => Err(TokenFault::Cause(no_keyword(word))),
        }
    }

    fn rule_word(&mut self, word: &[u8]) -> Result<(), TokenFault>
        ensures ok { OnOk result (rule_word self.old word.now ≡ Ok self.new) }
        ensures err { IfErr result (IsCauseOf (rule_word self.old word.now)) }
    {
        if !is_rule(word) {
            return Err(TokenFault::Cause(no_keyword(word)));
        }
        if self.rule_count >= RULES_LIMIT {
            return Err(TokenFault::Cause(AccessCause::TooMany));
        }
        self.rule_count += 1;
        self.place = Expected::Sign(Behind::Rule);
        Ok(())
    }

    fn party_word(&mut self, word: &[u8]) -> Result<(), TokenFault>
        ensures ok { OnOk result (party_word self.old word.now ≡ Ok self.new) }
        ensures err { IfErr result (IsCauseOf (party_word self.old word.now)) }
    {
        match party_of(word) {
            Some(party) => {
                self.place = Expected::Sign(Behind::Speaking(party));
                Ok(())
            }
            None => Err(TokenFault::Cause(no_keyword(word))),
        }
    }
}

pub(crate) fn unexpected() -> Result<(), TokenFault>
    ensures { result ≡ Err (TokenFault.Cause AccessCause.Unexpected) }
{
    Err(TokenFault::Cause(AccessCause::Unexpected))
}

fn unfinished() -> Result<(), TokenFault>
    ensures { result ≡ Err (TokenFault.Cause AccessCause.Unfinished) }
{
    Err(TokenFault::Cause(AccessCause::Unfinished))
}
