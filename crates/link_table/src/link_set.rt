//! Links, found by their IDs, names and subscriptions.
ghost use Rattle.std.specs.Prelude.{◌≡◌, [], ◌∷◌, ◌++◌, length, map, filter_map, true, false, slice_get, OnOk, OnErr, IfOk, IfSome, IsNone};
ghost use Rattle.std.specs.List.{filter, find, list_any};
ghost use Rattle.std.specs.Option.{option_copied};
ghost use Rattle.rows.specs.Rows.{change_first};
ghost use Rattle.link_table.specs.Links.{is_link, is_not_link, is_of, is_not_of, is_named, is_named_any, has_other_sub, has_subscription, new_link, with_state, with_subscription, HasIdsApart};
ghost use Rattle.link_table.specs.LinkIndex.{first_of};

use crate::links::{LinkRow, LinkState, Subject, Subscription, Subscriptions};
use crate::sub_leads::SubLeads;
use pv_name::Name;
use row_index::{Key, NameLists, RowMap};
use std::alloc::{AllocError, Global};
use std::marker::Model;

/// Links in the order of adding. No two have the same key or name, and no two subscriptions of them
/// the same ID, so each of these leads to one link.
#[derive(Drop)]
pub(crate) struct LinkSet {
    rows: RowMap<LinkRow>,
    /// The key of the link for a name.
    by_name: NameLists,
    /// The key of the link that has a subscription.
    leads: SubLeads,
}

impl Model for LinkSet {
    ghost use Rattle.std.specs.Prelude.{List, map};
    ghost use Rattle.link_table.specs.declared.links.LinkRow.{LinkRow};
    ghost use Rattle.row_index.specs.Rows.{row_of};
    ghost use Rattle.link_table.specs.LinkIndex.{AreIndexed};

    ghost Value = { List LinkRow };

    ghost view = { λ s. map row_of s.rows };

    ghost invariant = { λ s. AreIndexed s.rows s.by_name s.leads };
}

impl LinkSet {
    /// No link. This takes no memory.
    pub(crate) fn new(alloc: Global) -> LinkSet
        ensures { result ≡ [] }
    {
        LinkSet {
            rows: RowMap::new(alloc),
            by_name: NameLists::new(alloc),
            leads: SubLeads::new(alloc),
        }
    }

    pub(crate) fn len(&self) -> usize
        ensures { result ≡ length self.now }
    {
        self.rows.len()
    }

    pub(crate) fn contains(&self, server: u32, cid: u32) -> bool
        ensures { result ≡ list_any (is_link server cid) self.now }
    {
        self.rows.contains(Key {
            owner: server,
            id: cid,
        })
    }

    pub(crate) fn by_cid(&self, server: u32, cid: u32) -> Option<&LinkRow>
        ensures { option_copied result ≡ find (is_link server cid) self.now }
    {
        self.rows.get(Key {
            owner: server,
            id: cid,
        })
    }

    pub(crate) fn by_name(&self, name: &Name) -> Option<&LinkRow>
        ensures { option_copied result ≡ find (is_named name.now) self.now }
    {
        match self.by_name.of(name).first() {
            Some(key) => self.rows.get(*key),
            None => None,
        }
    }

    pub(crate) fn by_sub(&self, server: u32, id: u32) -> Option<&LinkRow>
        ensures { option_copied result ≡ find (has_subscription server id) self.now }
    {
        match self.leads.get(Key {
            owner: id,
            id: server,
        }) {
            Some(key) => self.rows.get(key),
            None => None,
        }
    }

    pub(crate) fn link(&self, n: usize) -> Option<&LinkRow>
        ensures { option_copied result ≡ slice_get self.now n }
    {
        self.rows.row(n)
    }

    pub(crate) fn links(&self, alloc: Global) -> Result<Vec<&LinkRow>, AllocError>
        ensures { IfOk result (λ links. map (λ link. link.now) links.items ≡ self.now) }
    {
        self.rows.rows(alloc)
    }

    pub(crate) fn named(&self, alloc: Global, names: &[Name]) -> Result<Vec<&LinkRow>, AllocError>
        ensures { IfOk result (λ links. map (λ link. link.now) links.items ≡ filter (is_named_any names.now) self.now) }
    {
        let keys = keys_named(&self.by_name, alloc, names)?;
        self.rows.in_order(alloc, &keys)
    }

    pub(crate) fn count_of(&self, server: u32) -> usize
        ensures { result ≡ length (filter (is_of server) self.now) }
    {
        self.rows.count_of(server)
    }

    pub(crate) fn nth_of(&self, server: u32, n: usize) -> Option<&LinkRow>
        ensures { option_copied result ≡ slice_get (filter (is_of server) self.now) n }
    {
        self.rows.of(server, n)
    }

    /// Adds a link of which the server is just asked for the channel. At an error none is added.
    pub(crate) fn add(&mut self, server: u32, cid: u32, name: Name) -> Result<(), AllocError>
        requires new_id { list_any (is_link server cid) self.old ≡ false }
        requires new_name { list_any (is_named name) self.old ≡ false }
        ensures ok { OnOk result (self.new ≡ self.old ++ new_link server cid name ∷ []) }
        ensures err { OnErr result (self.new ≡ self.old) }
    {
        let key = Key {
            owner: server,
            id: cid,
        };
        self.rows.add(key, new_link(server, cid, name))?;
        let Some(link) = self.rows.get(key) else {
            return Ok(());
        };
        match self.by_name.add(&link.name, key) {
            Ok(()) => Ok(()),
            Err(refused) => {
                self.rows.remove(key);
                Err(refused)
            }
        }
    }

    /// Keeps how far a link has come, and its access rights.
    pub(crate) fn put(&mut self, server: u32, cid: u32, state: LinkState, rights: u32)
        ensures { self.new ≡ change_first (is_link server cid) (with_state state rights) self.old }
    {
        if let Some(row) = self.rows.get_mut(Key {
            owner: server,
            id: cid,
        }) {
            row.state = state;
            row.rights = rights;
        }
    }

    /// Keeps the present subscription of a link on a subject, or that it has none. At an error it has
    /// the one that it had.
    pub(crate) fn set_sub(
        &mut self,
        server: u32,
        cid: u32,
        subject: Subject,
        sub: Option<Subscription>,
    ) -> Result<(), AllocError>
        requires { IfSome sub (λ s. list_any (has_other_sub server cid subject s.id) self.old ≡ false) }
        ensures ok { OnOk result (self.new ≡ change_first (is_link server cid) (with_subscription subject sub) self.old) }
        ensures err { OnErr result (self.new ≡ self.old) }
    {
        let key = Key {
            owner: server,
            id: cid,
        };
        let Some(link) = self.rows.get(key) else {
            return Ok(());
        };
        let was = link.subscriptions.at(subject);
        self.leads.renew(subject, was, sub, key)?;
        if let Some(row) = self.rows.get_mut(key) {
            row.subscriptions.put(subject, sub);
        }
        Ok(())
    }

    /// Does nothing. Its contract is a law: no other subscription to a server has the ID of a present
    /// one.
    pub(crate) fn has_ids_apart(&self)
        ensures { HasIdsApart self.now }
    {
        let _ = &self.leads;
    }

    pub(crate) fn remove(&mut self, server: u32, cid: u32)
        ensures { self.new ≡ filter (is_not_link server cid) self.old }
    {
        let key = Key {
            owner: server,
            id: cid,
        };
        let Some(link) = self.rows.get(key) else {
            return;
        };
        self.by_name.remove(&link.name, key);
        self.leads.forget(server, link.subscriptions);
        self.rows.remove(key);
    }

    /// Removes all links of a server.
    pub(crate) fn remove_of(&mut self, server: u32)
        ensures { self.new ≡ filter (is_not_of server) self.old }
    {
        while let Some(cid) = self.last_of(server) {
            self.remove(server, cid);
        }
    }

    // The CID of the link of a server that was added last.
    fn last_of(&self, server: u32) -> Option<u32>
        ensures found { IfSome result (λ cid. list_any (is_link server cid) self.now ≡ true) }
        ensures none { IsNone result → list_any (is_of server) self.now ≡ false }
    {
        let count = self.count_of(server);
        if count == 0 {
            return None;
        }
        match self.nth_of(server, count - 1) {
            Some(link) => Some(link.cid),
            None => None,
        }
    }
}

// The keys of the links for these names.
fn keys_named(by_name: &NameLists, alloc: Global, names: &[Name]) -> Result<Vec<Key>, AllocError>
    ensures { IfOk result (λ keys. keys.items ≡ filter_map (first_of by_name.now) names.now) }
{
    let mut keys = Vec::new(alloc);
    for name in names {
        if let Some(key) = key_named(by_name, name) {
            keys.push(key)?;
        }
    }
    Ok(keys)
}

fn key_named(by_name: &NameLists, name: &Name) -> Option<Key>
    ensures { result ≡ first_of by_name.now name.now }
{
    by_name.of(name).first().copied()
}

// A link of which the server is just asked for the channel.
fn new_link(server: u32, cid: u32, name: Name) -> LinkRow
    ensures { result ≡ new_link server cid name }
{
    LinkRow {
        cid,
        server,
        name,
        state: LinkState::Creating,
        rights: 0,
        subscriptions: Subscriptions::none_yet(),
    }
}
