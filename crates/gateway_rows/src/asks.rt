//! The names to ask servers for.
ghost use Rattle.std.specs.Prelude.{◌≡◌, filter, IfOk};
ghost use Rattle.std.specs.Cmp.Lexicographic.{slice_cmp};
ghost use Rattle.std.specs.List.{All};
ghost use Rattle.std.specs.List.Sorted.{IsPermutation, IsSorted};
ghost use Rattle.std.specs.Ordering.{nat_cmp};
ghost use Rattle.gateway_state.specs.Settled.{IsUpToDate};
ghost use Rattle.gateway_state.specs.Variables.{asks, is_unlinked, search_names};

use crate::state::Known;
use pv_name::Name;
use std::alloc::AllocError;
use std::cmp::Ordering;

impl Known {
    /// The names that searches lead to and that have no link, each as often as searches lead to it.
    fn unlinked_names(&self) -> Result<Vec<Name>, AllocError>
        ensures { IfOk result (λ names. names.items ≡ filter (is_unlinked self.now.state) (search_names self.now.state.policy self.now.state.searches)) }
    {
        let mut names = Vec::new(self.alloc);
        for name in self.searches.names(self.alloc)? {
            if !self.is_linked(&name) {
                names.push(name)?;
            }
        }
        Ok(names)
    }

    /// The names to ask servers for: wanted, without a link, by rising bytes, each once. Where each
    /// channel is served, no name of a channel is among them. They are put in order all at once.
    pub fn asks(&self) -> Result<Vec<Name>, AllocError>
        requires served { All (IsUpToDate self.now.state) self.now.state.clients.channels }
        ensures { IfOk result (λ names. names.items ≡ asks self.now.state) }
    {
        let mut names = self.unlinked_names()?;
        sort(&mut names);
        names.dedup();
        Ok(names)
    }
}

/// Puts names in the order of their bytes.
fn sort(names: &mut Vec<Name>)
    ensures moved { IsPermutation names.old.items names.new.items }
    ensures sorted { IsSorted (slice_cmp nat_cmp) names.new.items }
{
    names.sort_unstable_by(|a, b| by_bytes(a, b));
}

fn by_bytes(a: &Name, b: &Name) -> Ordering
    ensures { result ≡ slice_cmp nat_cmp a.now b.now }
{
    a.text().as_bytes().cmp(b.text().as_bytes())
}
