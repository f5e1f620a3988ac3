//! Laws of the table of servers, links and waiting writes. Each is a call that does nothing, and its contract is
//! the law.
ghost use Rattle.std.specs.Prelude.{◌≡◌, ℕ, List, slice_get};
ghost use Rattle.link_table.specs.declared.links.LinkRow.{LinkRow};
ghost use Rattle.link_table.specs.Links.{nth_by_cid, CidsRiseFrom};
ghost use Rattle.link_table.specs.declared.counter.TheConstants.{LAST_NUMBER};
ghost use Rattle.link_table.specs.declared.table.TheConstants.{SERVER_LIMIT, LINK_LIMIT, WRITE_LIMIT};

/// Where CIDs rise, the n-th link by CID is the n-th in the order of adding.
pub fn links_stand_by_cid()
    ensures { (links : List LinkRow) (low n : ℕ) → CidsRiseFrom low links → nth_by_cid n links ≡ slice_get links n }
{}

/// The limits of servers, of links and of a session's waiting writes, and the last number that is
/// given out.
pub fn numbers_are_these()
    ensures servers { SERVER_LIMIT ≡ 16 }
    ensures links { LINK_LIMIT ≡ 65_536 }
    ensures writes { WRITE_LIMIT ≡ 256 }
    ensures last { LAST_NUMBER ≡ 0xFFFF_FFFE }
{}
