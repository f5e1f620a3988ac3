//! Laws: each is the contract of a call that does nothing.
ghost use Rattle.std.specs.Prelude.{◌≡◌};
ghost use Rattle.state_tables.specs.declared.leads.TheConstants.{LEADS_LIMIT};

/// The number that documents name: of so many names it is remembered what they lead to.
pub fn numbers_are_as_documented()
    ensures leads { LEADS_LIMIT ≡ 262144 }
{}
