//! Searches that are remembered, and go.
ghost use Rattle.std.specs.Prelude.{◌≡◌, filter, OnOk, IfOk};
ghost use Rattle.std.specs.List.{find};
ghost use Rattle.channel_table.specs.Sessions.{is_numbered};
ghost use Rattle.gateway_rows.specs.BrandedState.{Becomes};
ghost use Rattle.gateway_rows.specs.Looked.{Looked};
ghost use Rattle.gateway_state.specs.Aged.{searches_forgotten};
ghost use Rattle.gateway_state.specs.Clients.{remembered, search_left_by, without_search_for};
ghost use Rattle.gateway_state.specs.Direct.{swept};
ghost use Rattle.gateway_state.specs.Searches.{is_stale, left_by_search};
ghost use Rattle.gateway_state.specs.Variables.{search_names};

use crate::counted_rows::CountedRows;
use crate::state::Known;
use gateway_state::{RememberedSearch, RowLimit};
use pv_name::{Host, Name};
use std::alloc::AllocError;

impl Known {
    /// Whether a search is remembered that isn't yet: where old ones go for it always, else where there
    /// is room.
    fn takes_search(&self, host: &Host, name: &Name) -> bool {
        self.limits.makes_room
            || self.searches.contains(host, name)
            || self.searches.len() < self.limits.searches
    }

    /// Somebody at a host looks for a name: that is remembered, once, where there is room or room is made.
    /// It gives the other search that goes for it.
    pub fn remember(
        &mut self,
        host: &Host,
        name: &Name,
    ) -> Result<Option<RememberedSearch>, AllocError>
        ensures ok { OnOk result (self.new.state ≡ remembered host.now name.now self.old.state) }
        ensures left { IfOk result (λ left. left ≡ left_by_search self.old.state.limits host.now name.now self.old.state.searches) }
        ensures brand { self.new.brand ≡ self.old.brand }
    {
        if !self.takes_search(host, name) {
            self.meet(RowLimit::Names);
        }
        let left = self
            .searches
            .remember(self.alloc, &self.limits, host, name)?;
        if left.is_some() {
            self.meet(RowLimit::Names);
        }
        Ok(left)
    }

    /// Forgets the searches that weren't made again since the last age, and gives the real names that they
    /// led to.
    pub fn forget_searches(&mut self) -> Result<Vec<Name>, AllocError>
        ensures ok { OnOk result (self.new.state ≡ searches_forgotten self.old.state) }
        ensures names { IfOk result (λ names. names.items ≡ search_names self.old.state.policy (filter is_stale self.old.state.searches)) }
        ensures brand { self.new.brand ≡ self.old.brand }
    {
        self.searches.forget_stale(self.alloc)
    }

    /// Forgets all searches.
    pub fn sweep(&mut self)
        ensures state { Becomes (swept self.old.state) self.old self.new }
    {
        self.searches.clear();
    }
}

impl CountedRows {
    /// A session has a channel on a name: where room is made for searches, the search for it by the address
    /// that the session comes from goes. It gives that search.
    pub fn end_search(&mut self, number: u32, name: &Name) -> Option<RememberedSearch>
        ensures state { self.new.state ≡ without_search_for number name.now self.old.state }
        ensures left { result ≡ search_left_by (find (is_numbered number) self.old.state.clients.sessions) name.now self.old.state }
        ensures looked { Looked 1 self.old self.new }
    {
        let known = &mut self.known;
        let session = known.clients.session(&mut self.visits, number)?;
        if known.limits.makes_room {
            known.searches.end(&session.peer, name)
        } else {
            None
        }
    }
}
