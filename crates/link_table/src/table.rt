//! The table of servers, links and waiting writes.
ghost use Rattle.std.specs.Prelude.{◌≡◌, ◌≢◌, ◌≤◌, ◌<◌, ◌↔◌, [], ◌∷◌, ◌++◌, length, map, true, false, Err, slice_get, OnOk, OnErr, IfOk, IsErrOf, IfSome};
ghost use Rattle.std.specs.List.{filter, find, list_any};
ghost use Rattle.std.specs.Option.{option_copied};
ghost use Rattle.rows.specs.Rows.{change_first};
ghost use Rattle.link_table.specs.LinkRows.{has_server, has_link, write_count};
ghost use Rattle.link_table.specs.Servers.{is_server, is_not_server, with_minor, HaveServers};
ghost use Rattle.link_table.specs.Links.{is_link, is_not_link, is_of, is_not_of, is_named, is_named_any, has_other_sub, has_subscription, new_link, nth_by_cid, with_state, with_subscription, CidsRiseFrom, HasIdsApart};
ghost use Rattle.link_table.specs.Writes.{is_write, is_not_write, is_not_write_of, is_not_write_on, is_not_write_to};
ghost use Rattle.link_table.specs.Counters.{all_at, are_over};

mod numbers;

use crate::counter::NextNumbers;
use crate::link_set::LinkSet;
use crate::links::{LinkRow, LinkState, Subject, Subscription};
use crate::servers::{Server, ServerRows};
use crate::writes::{WaitingWrite, Writes};
use pv_name::Name;
use std::alloc::{AllocError, Global};
use std::marker::Model;

/// How many servers stand at most.
pub const SERVER_LIMIT: usize = 16;

/// How many links stand at most.
pub const LINK_LIMIT: usize = 65_536;

/// How many writes of one session wait at most.
pub const WRITE_LIMIT: usize = 256;

/// Why a row was not added or changed. The table is as before.
#[derive(Clone, Copy, Debug, PartialEq, Eq)]
pub enum TableFault {
    /// Memory was refused.
    OutOfMemory,
    /// A row that this one names doesn't stand.
    Missing,
    /// There are as many such rows as there may be.
    Full,
}

/// Servers, links and waiting writes, each list in the order in which they were added, and the next
/// numbers.
#[derive(Drop)]
pub struct Links {
    servers: ServerRows,
    links: LinkSet,
    writes: Writes,
    next: NextNumbers,
}

impl Model for Links {
    ghost use Rattle.link_table.specs.LinkRows.{LinkRows};

    ghost Value = { LinkRows };

    ghost view = { λ l. record {
      servers = l.servers;
      links = l.links;
      writes = l.writes;
      counters = l.next;
    } };

    ghost use Rattle.link_table.specs.Servers.{HaveServers};

    ghost invariant = { λ l. HaveServers l.servers l.links };
}

impl Links {
    /// No row, and each number given out from `first` on.
    pub fn new(alloc: Global, first: u32) -> Links
        ensures { result ≡ record { servers = []; links = []; writes = []; counters = all_at first } }
    {
        Links {
            servers: ServerRows::new(alloc),
            links: LinkSet::new(alloc),
            writes: Writes::new(alloc),
            next: NextNumbers::new(first),
        }
    }

    /// The server of this number.
    pub fn server(&self, number: u32) -> Option<&Server>
        ensures { option_copied result ≡ find (is_server number) self.now.servers }
    {
        self.servers.find(number)
    }

    /// The link of this server with this CID.
    pub fn by_cid(&self, server: u32, cid: u32) -> Option<&LinkRow>
        ensures { option_copied result ≡ find (is_link server cid) self.now.links }
    {
        self.links.by_cid(server, cid)
    }

    /// The link for the variable of this name.
    pub fn by_name(&self, name: &Name) -> Option<&LinkRow>
        ensures { option_copied result ≡ find (is_named name.now) self.now.links }
    {
        self.links.by_name(name)
    }

    /// The link of this server of which a present subscription has this ID, on whichever subject.
    pub fn by_sub(&self, server: u32, id: u32) -> Option<&LinkRow>
        ensures { option_copied result ≡ find (has_subscription server id) self.now.links }
    {
        self.links.by_sub(server, id)
    }

    /// The n-th link, counted from 0 in the order of adding. Where CIDs rise, this is their order.
    pub fn link(&self, n: usize) -> Option<&LinkRow>
        ensures found { option_copied result ≡ slice_get self.now.links n }
        ensures by_cid { CidsRiseFrom 0 self.now.links → option_copied result ≡ nth_by_cid n self.now.links }
    {
        self.links.link(n)
    }

    /// All links, in the order of adding, which is that of their CIDs.
    ///
    /// # Errors
    ///
    /// Memory for the list was refused.
    pub fn links(&self, alloc: Global) -> Result<Vec<&LinkRow>, AllocError>
        ensures { IfOk result (λ links. map (λ link. link.now) links.items ≡ self.now.links) }
    {
        self.links.links(alloc)
    }

    /// How many links stand.
    pub fn link_count(&self) -> usize
        ensures { result ≡ length self.now.links }
    {
        self.links.len()
    }

    /// The links for these names, each once, in the order of adding.
    ///
    /// # Errors
    ///
    /// Memory for the list was refused.
    pub fn links_named(&self, alloc: Global, names: &[Name]) -> Result<Vec<&LinkRow>, AllocError>
        ensures { IfOk result (λ links. map (λ link. link.now) links.items ≡ filter (is_named_any names.now) self.now.links) }
    {
        self.links.named(alloc, names)
    }

    /// How many servers stand.
    pub fn server_count(&self) -> usize
        ensures { result ≡ length self.now.servers }
    {
        self.servers.len()
    }

    /// How many writes wait, of all sessions.
    pub fn write_count(&self) -> usize
        ensures { result ≡ length self.now.writes }
    {
        self.writes.len()
    }

    /// The server's nth link, counted from 0 in the order of adding. The links of others are not
    /// looked at.
    pub fn link_of(&self, server: u32, n: usize) -> Option<&LinkRow>
        ensures { option_copied result ≡ slice_get (filter (is_of server) self.now.links) n }
    {
        self.links.nth_of(server, n)
    }

    /// How many links the server has.
    pub fn link_count_of(&self, server: u32) -> usize
        ensures { result ≡ length (filter (is_of server) self.now.links) }
    {
        self.links.count_of(server)
    }

    /// The write to this server with this ID.
    pub fn write(&self, server: u32, id: u32) -> Option<&WaitingWrite>
        ensures { option_copied result ≡ find (is_write server id) self.now.writes }
    {
        self.writes.get(server, id)
    }

    /// How many writes of the session wait.
    pub fn writes(&self, session: u32) -> usize
        ensures { result ≡ write_count session self.now }
    {
        self.writes.count(session)
    }

    /// Adds a server. The caller sees to it that none of its number stands.
    pub fn add_server(&mut self, server: Server) -> Result<(), TableFault>
        ensures ok { OnOk result (self.new ≡ record self.old { servers = self.old.servers ++ server ∷ [] }) }
        ensures room { OnOk result (length self.old.servers < SERVER_LIMIT) }
        ensures full { IsErrOf result TableFault.Full ↔ (SERVER_LIMIT ≤ length self.old.servers) }
        ensures missing { result ≢ Err TableFault.Missing }
        ensures err { OnErr result (self.new ≡ self.old) }
    {
        self.add_server_within(SERVER_LIMIT, server)
    }

    /// The same, where at most so many may stand.
    pub fn add_server_within(&mut self, limit: usize, server: Server) -> Result<(), TableFault>
        ensures ok { OnOk result (self.new ≡ record self.old { servers = self.old.servers ++ server ∷ [] }) }
        ensures room { OnOk result (length self.old.servers < limit) }
        ensures full { IsErrOf result TableFault.Full ↔ (limit ≤ length self.old.servers) }
        ensures missing { result ≢ Err TableFault.Missing }
        ensures err { OnErr result (self.new ≡ self.old) }
    {
        if self.servers.len() >= limit {
            return Err(TableFault::Full);
        }
        match self.servers.add(server) {
            Ok(()) => Ok(()),
            Err(_) => Err(TableFault::OutOfMemory),
        }
    }

    /// Adds a link of which the server is just asked for the channel. The caller sees to it that none
    /// of its CID and none for its name stands.
    pub fn add_link(&mut self, server: u32, cid: u32, name: Name) -> Result<(), TableFault>
        requires new_id { has_link server cid self.old ≡ false }
        requires new_name { list_any (is_named name) self.old.links ≡ false }
        ensures ok { OnOk result (self.new ≡ record self.old { links = self.old.links ++ new_link server cid name ∷ [] }) }
        ensures there { OnOk result (has_server server self.old ≡ true) }
        ensures room { OnOk result (length self.old.links < LINK_LIMIT) }
        ensures missing { IsErrOf result TableFault.Missing ↔ (has_server server self.old ≡ false) }
        ensures full { IsErrOf result TableFault.Full ↔
            ((has_server server self.old ≡ true) × (LINK_LIMIT ≤ length self.old.links)) }
        ensures err { OnErr result (self.new ≡ self.old) }
    {
        self.add_link_within(LINK_LIMIT, server, cid, name)
    }

    /// The same, where at most so many may stand.
    pub fn add_link_within(
        &mut self,
        limit: usize,
        server: u32,
        cid: u32,
        name: Name,
    ) -> Result<(), TableFault>
        requires new_id { has_link server cid self.old ≡ false }
        requires new_name { list_any (is_named name) self.old.links ≡ false }
        ensures ok { OnOk result (self.new ≡ record self.old { links = self.old.links ++ new_link server cid name ∷ [] }) }
        ensures there { OnOk result (has_server server self.old ≡ true) }
        ensures room { OnOk result (length self.old.links < limit) }
        ensures missing { IsErrOf result TableFault.Missing ↔ (has_server server self.old ≡ false) }
        ensures full { IsErrOf result TableFault.Full ↔
            ((has_server server self.old ≡ true) × (limit ≤ length self.old.links)) }
        ensures err { OnErr result (self.new ≡ self.old) }
    {
        if !self.servers.stands(server) {
            return Err(TableFault::Missing);
        }
        if self.links.len() >= limit {
            return Err(TableFault::Full);
        }
        match self.links.add(server, cid, name) {
            Ok(()) => Ok(()),
            Err(_) => Err(TableFault::OutOfMemory),
        }
    }

    /// Adds a write to the server that it names. The caller sees to it that none of its ID waits there.
    pub fn add_write(&mut self, write: WaitingWrite) -> Result<(), TableFault>
        requires new { list_any (is_write write.server write.id) self.old.writes ≡ false }
        ensures ok { OnOk result (self.new ≡ record self.old { writes = self.old.writes ++ write ∷ [] }) }
        ensures there { OnOk result (has_server write.server self.old ≡ true) }
        ensures room { OnOk result (write_count write.session self.old < WRITE_LIMIT) }
        ensures missing { IsErrOf result TableFault.Missing ↔ (has_server write.server self.old ≡ false) }
        ensures full { IsErrOf result TableFault.Full ↔
            ((has_server write.server self.old ≡ true)
            × (WRITE_LIMIT ≤ write_count write.session self.old)) }
        ensures err { OnErr result (self.new ≡ self.old) }
    {
        self.add_write_within(WRITE_LIMIT, write)
    }

    /// The same, where at most so many of a session may wait.
    pub fn add_write_within(&mut self, limit: usize, write: WaitingWrite) -> Result<(), TableFault>
        requires new { list_any (is_write write.server write.id) self.old.writes ≡ false }
        ensures ok { OnOk result (self.new ≡ record self.old { writes = self.old.writes ++ write ∷ [] }) }
        ensures there { OnOk result (has_server write.server self.old ≡ true) }
        ensures room { OnOk result (write_count write.session self.old < limit) }
        ensures missing { IsErrOf result TableFault.Missing ↔ (has_server write.server self.old ≡ false) }
        ensures full { IsErrOf result TableFault.Full ↔
            ((has_server write.server self.old ≡ true)
            × (limit ≤ write_count write.session self.old)) }
        ensures err { OnErr result (self.new ≡ self.old) }
    {
        if !self.servers.stands(write.server) {
            return Err(TableFault::Missing);
        }
        if self.writes.count(write.session) >= limit {
            return Err(TableFault::Full);
        }
        match self.writes.add(write) {
            Ok(()) => Ok(()),
            Err(_) => Err(TableFault::OutOfMemory),
        }
    }

    /// Keeps the minor version that a server said.
    pub fn put_server(&mut self, number: u32, minor: u32)
        ensures { self.new ≡
            record self.old { servers = change_first (is_server number) (with_minor minor) self.old.servers } }
    {
        self.servers.put(number, minor);
    }

    /// Keeps how far a link has come, and its access rights.
    pub fn put_link(&mut self, server: u32, cid: u32, state: LinkState, rights: u32)
        ensures { self.new ≡
            record self.old { links = change_first (is_link server cid) (with_state state rights) self.old.links } }
    {
        self.links.put(server, cid, state, rights);
    }

    /// Keeps the present subscription of a link on a subject, or that it has none. The caller sees to
    /// it that no other subscription to this server has its ID.
    pub fn set_sub(
        &mut self,
        server: u32,
        cid: u32,
        subject: Subject,
        sub: Option<Subscription>,
    ) -> Result<(), TableFault>
        requires new_id { IfSome sub (λ s. list_any (has_other_sub server cid subject s.id) self.old.links ≡ false) }
        ensures ok { OnOk result (self.new ≡
            record self.old { links = change_first (is_link server cid) (with_subscription subject sub) self.old.links }) }
        ensures there { OnOk result (has_link server cid self.old ≡ true) }
        ensures missing { IsErrOf result TableFault.Missing ↔ (has_link server cid self.old ≡ false) }
        ensures full { result ≢ Err TableFault.Full }
        ensures err { OnErr result (self.new ≡ self.old) }
    {
        if !self.links.contains(server, cid) {
            return Err(TableFault::Missing);
        }
        match self.links.set_sub(server, cid, subject, sub) {
            Ok(()) => Ok(()),
            Err(_) => Err(TableFault::OutOfMemory),
        }
    }

    /// Does nothing. Its contract is a law: no other subscription to a server has the ID of a present
    /// one, so that one may be put under it again.
    pub fn has_ids_apart(&self)
        ensures { HasIdsApart self.now.links }
    {
        self.links.has_ids_apart();
    }

    /// Does nothing. Its contract is a law: each link's server stands.
    pub fn have_servers(&self)
        ensures { HaveServers self.now.servers self.now.links }
    {
        let _ = &self.servers;
    }

    /// Removes a server with its links and the writes to it.
    pub fn remove_server(&mut self, number: u32)
        ensures { self.new ≡ record self.old {
          servers = filter (is_not_server number) self.old.servers;
          links = filter (is_not_of number) self.old.links;
          writes = filter (is_not_write_to number) self.old.writes;
        } }
    {
        self.servers.remove(number);
        self.links.remove_of(number);
        self.writes.remove_to(number);
    }

    /// Removes a link.
    pub fn remove_link(&mut self, server: u32, cid: u32)
        ensures { self.new ≡ record self.old { links = filter (is_not_link server cid) self.old.links } }
    {
        self.links.remove(server, cid);
    }

    /// Removes the write to this server with this ID.
    pub fn remove_write(&mut self, server: u32, id: u32)
        ensures { self.new ≡ record self.old { writes = filter (is_not_write server id) self.old.writes } }
    {
        self.writes.remove(server, id);
    }

    /// Removes all writes on the session's channel of this ID.
    pub fn remove_writes(&mut self, session: u32, sid: u32)
        ensures { self.new ≡ record self.old { writes = filter (is_not_write_on session sid) self.old.writes } }
    {
        self.writes.remove_on(session, sid);
    }

    /// Removes all writes of the session.
    pub fn remove_writes_of(&mut self, session: u32)
        ensures { self.new ≡ record self.old { writes = filter (is_not_write_of session) self.old.writes } }
    {
        self.writes.remove_of(session);
    }

    /// No number past the last one was given out, whatever was done: this call does nothing.
    pub fn numbers_are_in_range(&self)
        ensures { are_over self.now.counters ≡ false }
    {
        self.next.are_in_range();
    }
}
