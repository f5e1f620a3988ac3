//! What is given up as time passes.
ghost use Rattle.std.specs.Prelude.{◌≡◌, filter, fold, map, OnOk, IfOk};
ghost use Rattle.gateway_rows.specs.BrandedState.{Becomes};
ghost use Rattle.gateway_rows.specs.LinkIds.{link_id, without_link_of};
ghost use Rattle.gateway_state.specs.Aged.{age_told, is_link_overdue, links_given_up};

use crate::state::Known;
use gateway_state::LastAge;
use gateway_values::{is_creating, is_older};
use link_table::{Counter, LinkRow};
use std::alloc::AllocError;

/// Which link it is.
#[derive(Clone, Copy, Debug, PartialEq, Eq)]
pub(crate) struct LinkId {
    server: u32,
    cid: u32,
}

impl Known {
    /// Whether the server was asked for the link's channel before the last age, and hasn't answered.
    fn is_link_overdue(&self, link: &LinkRow) -> bool
        ensures { result ≡ is_link_overdue self.now.state link.now }
    {
        let next = self.upstream.next(Counter::Cid);
        is_creating(link.state) && is_older(self.last_age.cid, next, link.cid)
    }

    /// Which links are so.
    fn overdue_links(&self) -> Result<Vec<LinkId>, AllocError>
        ensures { IfOk result (λ ids. ids.items ≡ map link_id (filter (is_link_overdue self.now.state) self.now.state.upstream.links)) }
    {
        let mut ids = Vec::new(self.alloc);
        for link in self.upstream.links(self.alloc)? {
            if self.is_link_overdue(link) {
                ids.push(LinkId {
                    server: link.server,
                    cid: link.cid,
                })?;
            }
        }
        Ok(ids)
    }

    /// Gives up the channels that servers were asked for before the last age and haven't made or refused:
    /// their links go.
    #[tactic(auto, using(crate::proofs::GivenUp::given_up_by_ids))]
    pub fn give_up_links(&mut self) -> Result<(), AllocError>
        ensures ok { OnOk result (self.new.state ≡ links_given_up self.old.state) }
        ensures brand { self.new.brand ≡ self.old.brand }
    {
        let ids = self.overdue_links()?;
        self.remove_links(&ids);
        Ok(())
    }

    /// Removes each of these links.
    fn remove_links(&mut self, ids: &[LinkId])
        ensures state { Becomes (fold without_link_of self.old.state ids.now) self.old self.new }
    {
        for id in ids {
            self.remove_link(id.server, id.cid);
        }
    }

    /// What stands now stood at this age.
    pub fn tell_age(&mut self)
        ensures state { Becomes (age_told self.old.state) self.old self.new }
    {
        self.last_age = LastAge {
            cid: self.upstream.next(Counter::Cid),
            subscription: self.upstream.next(Counter::Subscription),
        };
    }
}
