//! Laws of access security files. Each is a call that does nothing, and its contract is the law.
ghost use Rattle.std.specs.Prelude.{◌≡◌, ℕ, List, [], ◌∷◌, bytes_eq, Ok};
ghost use Rattle.std.specs.Map.{lookup};
ghost use Rattle.access_file.specs.Grammar.{reads};
ghost use Rattle.access_file.specs.Groups.{AccessGroups, is_host_in};
ghost use Rattle.access_file.specs.HostNames.{hosts_of};
ghost use Rattle.access_file.specs.WithoutNames.{is_listed_in};
ghost use Rattle.access_file.specs.Writing.{written, IsWritable};
ghost use Rattle.access_file.specs.declared.reader.TheConstants.{GROUPS_LIMIT, RULES_LIMIT, NAMES_LIMIT};

/// The limits of files: how many groups of users, groups of hosts and security groups there are at
/// most, each for itself, how many rules, and how many names in lists and rules.
pub fn numbers_are_these()
    ensures groups { GROUPS_LIMIT ≡ 4096 }
    ensures rules { RULES_LIMIT ≡ 4096 }
    ensures names { NAMES_LIMIT ≡ 65536 }
{}

/// What files say can be written, and is read again as it was, where groups are apart from those
/// before them, rules speak of groups that are defined, and there are no more than a file may have.
#[tactic(auto, using(crate::proofs::WriterLemmas::written_reads))]
pub fn what_is_written_is_read()
    ensures { (file : AccessGroups) → IsWritable file → reads (written file) ≡ Ok file }
{}

/// A host that has no name counts as itself alone, and is in a group of hosts where that lists it.
#[tactic(auto, using(crate::proofs::WithoutNames::itself_alone, crate::proofs::WithoutNames::listed_alone))]
pub fn a_host_without_names_is_itself()
    ensures itself { (host : List ℕ) → hosts_of [] host ≡ host ∷ [] }
    ensures listed { (file : AccessGroups) (host group : List ℕ) → is_host_in file (host ∷ []) group ≡ is_listed_in (lookup (bytes_eq group) file.hosts) host }
{}
