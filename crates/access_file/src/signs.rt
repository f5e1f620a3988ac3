//! Signs in a file.
ghost use Rattle.std.specs.Prelude.{◌≡◌, Ok, IfErr, OnOk};
ghost use Rattle.access_file.specs.Fault.{IsCauseOf};
ghost use Rattle.access_file.specs.Grammar.{expected, inside, scope_signed, name_signed, list_signed, member_signed, right_signed, spoken_signed, signed_behind};

use crate::fault::TokenFault;
use crate::place::{Behind, Expected, Kind, Naming, Party, Scope, Setting};
use crate::reader::{Reader, unexpected};
use std::alloc::Global;

impl Reader {
    pub(crate) fn scope_signed(
        &mut self,
        alloc: Global,
        scope: Scope,
        sign: u8,
    ) -> Result<(), TokenFault>
        ensures ok { OnOk result (scope_signed self.old scope sign ≡ Ok self.new) }
        ensures err { IfErr result (IsCauseOf (scope_signed self.old scope sign)) }
    {
        match scope {
            Scope::Top => unexpected(),
            Scope::Headed(kind) => self.expect(sign, b'{', inside(kind)),
            Scope::Rules => self.end_rules(alloc, sign),
            Scope::Ruled => self.go_on_or_end(alloc, sign),
            Scope::Parties => self.end_parties(alloc, sign),
        }
    }

    fn end_rules(&mut self, alloc: Global, sign: u8) -> Result<(), TokenFault>
        ensures ok { OnOk result (scope_signed self.old Scope.Rules sign ≡ Ok self.new) }
        ensures err { IfErr result (IsCauseOf (scope_signed self.old Scope.Rules sign)) }
    {
        if sign != b'}' {
            return unexpected();
        }
        self.close(alloc, Kind::Rules)?;
        Ok(())
    }

    fn go_on_or_end(&mut self, alloc: Global, sign: u8) -> Result<(), TokenFault>
        ensures ok { OnOk result (scope_signed self.old Scope.Ruled sign ≡ Ok self.new) }
        ensures err { IfErr result (IsCauseOf (scope_signed self.old Scope.Ruled sign)) }
    {
        if sign == b'{' {
            self.place = Expected::Keyword(Scope::Parties);
            return Ok(());
        }
        if sign != b'}' {
            return unexpected();
        }
        self.end_rule(alloc)?;
        self.close(alloc, Kind::Rules)?;
        Ok(())
    }

    fn end_parties(&mut self, alloc: Global, sign: u8) -> Result<(), TokenFault>
        ensures ok { OnOk result (scope_signed self.old Scope.Parties sign ≡ Ok self.new) }
        ensures err { IfErr result (IsCauseOf (scope_signed self.old Scope.Parties sign)) }
    {
        if sign != b'}' {
            return unexpected();
        }
        self.end_rule(alloc)?;
        self.place = Expected::Keyword(Scope::Rules);
        Ok(())
    }

    pub(crate) fn name_signed(
        &mut self,
        alloc: Global,
        naming: Naming,
        sign: u8,
    ) -> Result<(), TokenFault>
        ensures ok { OnOk result (name_signed self.old naming sign ≡ Ok self.new) }
        ensures err { IfErr result (IsCauseOf (name_signed self.old naming sign)) }
    {
        match naming {
            Naming::Group(_) => unexpected(),
            Naming::First(party) => self.end_list(alloc, party, sign),
            Naming::Member(_) => unexpected(),
            Naming::Spoken(_) => unexpected(),
        }
    }

    fn end_list(&mut self, alloc: Global, party: Party, sign: u8) -> Result<(), TokenFault>
        ensures ok { OnOk result (list_signed self.old party sign ≡ Ok self.new) }
        ensures err { IfErr result (IsCauseOf (list_signed self.old party sign)) }
    {
        if sign != b'}' {
            return unexpected();
        }
        self.close(alloc, Kind::List(party))?;
        Ok(())
    }

    fn member_signed(&mut self, alloc: Global, party: Party, sign: u8) -> Result<(), TokenFault>
        ensures ok { OnOk result (member_signed self.old party sign ≡ Ok self.new) }
        ensures err { IfErr result (IsCauseOf (member_signed self.old party sign)) }
    {
        if sign == b',' {
            self.place = Expected::Name(Naming::Member(party));
            return Ok(());
        }
        self.end_list(alloc, party, sign)
    }

    pub(crate) fn signed_behind(
        &mut self,
        alloc: Global,
        behind: Behind,
        sign: u8,
    ) -> Result<(), TokenFault>
        ensures ok { OnOk result (signed_behind self.old behind sign ≡ Ok self.new) }
        ensures err { IfErr result (IsCauseOf (signed_behind self.old behind sign)) }
    {
        match behind {
            Behind::Keyword(kind) => self.expect(sign, b'(', Expected::Name(Naming::Group(kind))),
            Behind::Group(kind) => self.expect(sign, b')', Expected::Keyword(Scope::Headed(kind))),
            Behind::Member(party) => self.member_signed(alloc, party, sign),
            Behind::Rule => self.expect(sign, b'(', Expected::Setting(Setting::Level)),
            Behind::Level => self.expect(sign, b',', Expected::Setting(Setting::Right)),
            Behind::Right => self.right_signed(sign),
            Behind::Recording => self.expect(sign, b')', Expected::Keyword(Scope::Ruled)),
            Behind::Speaking(party) => self.expect(
                sign,
                b'(',
                Expected::Name(Naming::Spoken(party)),
            ),
            Behind::Spoken(party) => self.spoken_signed(party, sign),
        }
    }

    fn right_signed(&mut self, sign: u8) -> Result<(), TokenFault>
        ensures ok { OnOk result (right_signed self.old sign ≡ Ok self.new) }
        ensures err { IfErr result (IsCauseOf (right_signed self.old sign)) }
    {
        if sign == b',' {
            self.place = Expected::Setting(Setting::Recording);
            return Ok(());
        }
        self.expect(sign, b')', Expected::Keyword(Scope::Ruled))
    }

    fn spoken_signed(&mut self, party: Party, sign: u8) -> Result<(), TokenFault>
        ensures ok { OnOk result (spoken_signed self.old party sign ≡ Ok self.new) }
        ensures err { IfErr result (IsCauseOf (spoken_signed self.old party sign)) }
    {
        if sign == b',' {
            self.place = Expected::Name(Naming::Spoken(party));
            return Ok(());
        }
        self.expect(sign, b')', Expected::Keyword(Scope::Parties))
    }

    // This sign must stand here.
    fn expect(&mut self, sign: u8, wanted: u8, next: Expected) -> Result<(), TokenFault>
        ensures ok { OnOk result (expected self.old sign wanted next ≡ Ok self.new) }
        ensures err { IfErr result (IsCauseOf (expected self.old sign wanted next)) }
    {
        if sign != wanted {
            return unexpected();
        }
        self.place = next;
        Ok(())
    }
}

// Behind `{` after the head of a definition.
fn inside(kind: Kind) -> Expected
    ensures { result ≡ inside kind }
{
    match kind {
        Kind::List(party) => Expected::Name(Naming::First(party)),
        Kind::Rules => Expected::Keyword(Scope::Rules),
    }
}
