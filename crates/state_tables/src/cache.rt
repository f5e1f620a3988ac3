//! What links were told last.
ghost use Rattle.std.specs.Prelude.{◌≡◌, ◌<◌, [], true, false, length, IsOk, OnOk, OnErr, IfSome, IsNone, IsTrue, IsFalse};
ghost use Rattle.std.specs.List.{find, filter, list_any};
ghost use Rattle.std.specs.Option.{option_copied};
ghost use Rattle.rows.specs.Rows.{change_first};
ghost use Rattle.row_index.specs.Rows.{is_owned_by};
ghost use Rattle.dbr_layout.specs.View.{shown};
ghost use Rattle.value_cache.specs.Held.{with_properties, with_value};
ghost use Rattle.value_cache.specs.Message.{TellsProperties};
ghost use Rattle.gateway_state.specs.CachedRows.{is_cached_of, is_cached_elsewhere, is_cached_by_another, put_row, without_told};
ghost use Rattle.state_tables.specs.LatestRows.{HoldIds, is_listed, unchanged};

use crate::latest::Latest;
use bytes::Bytes;
use gateway_state::LastMessage;
use row_index::{Key, RowMap};
use std::alloc::{AllocError, Global};
use std::marker::Model;

/// What links were told last, in one row of a link.
#[derive(Drop)]
pub struct Cache {
    latest: Latest,
    /// The CIDs of the rows under their servers, and no others.
    listed: RowMap<u32>,
}

impl Model for Cache {
    ghost use Rattle.std.specs.Prelude.{List};
    ghost use Rattle.gateway_state.specs.declared.cached.LastMessage.{LastMessage};
    ghost use Rattle.state_tables.specs.LatestRows.{AreListed};

    ghost Value = { List LastMessage };

    ghost view = { λ c. c.latest };

    ghost invariant = { λ c. AreListed c.latest c.listed };
}

impl Cache {
    /// Nothing is kept.
    pub fn new(alloc: Global) -> Cache
        ensures { result ≡ [] }
    {
        Cache {
            latest: Latest::new(alloc),
            listed: RowMap::new(alloc),
        }
    }

    /// What a link was told last.
    pub fn get(&self, cid: u32) -> Option<&LastMessage>
        ensures { option_copied result ≡ find (is_cached_of cid) self.now }
    {
        self.latest.get(cid)
    }

    /// A link was told a value, of so many elements of a type, by the count that was asked for. The
    /// properties that it was told stay. Only a link's first row takes memory.
    pub fn put_value(
        &mut self,
        server: u32,
        cid: u32,
        dtype: u16,
        count: u32,
        payload: Bytes,
        asked_with: u32,
    ) -> Result<(), AllocError>
        requires { IsOk (shown dtype count payload) }
        ensures ok { OnOk result (self.new ≡ put_row server cid (with_value dtype count payload asked_with) self.old) }
        ensures err { OnErr result (self.new ≡ self.old) }
    {
        self.make_row(server, cid)?;
        self.latest
            .put_value(cid, dtype, count, payload, asked_with);
        Ok(())
    }

    /// A link was told properties, in a type. The value that it was told stays. Only a link's first
    /// row takes memory.
    pub fn put_properties(
        &mut self,
        server: u32,
        cid: u32,
        dtype: u16,
        payload: Bytes,
    ) -> Result<(), AllocError>
        requires { TellsProperties dtype payload }
        ensures ok { OnOk result (self.new ≡ put_row server cid (with_properties dtype payload) self.old) }
        ensures err { OnErr result (self.new ≡ self.old) }
    {
        self.make_row(server, cid)?;
        self.latest.put_properties(cid, dtype, payload);
        Ok(())
    }

    /// Forgets the properties that a link was told.
    pub fn drop_properties(&mut self, cid: u32)
        ensures { self.new ≡ change_first (is_cached_of cid) without_told self.old }
    {
        self.latest.drop_properties(cid);
    }

    // Sees to it that a link has a row.
    fn make_row(&mut self, server: u32, cid: u32) -> Result<(), AllocError>
        ensures ok { OnOk result (self.new ≡ put_row server cid unchanged self.old) }
        ensures err { OnErr result (self.new ≡ self.old) }
    {
        if self.latest.has(cid) {
            return Ok(());
        }
        let key = Key {
            owner: server,
            id: cid,
        };
        self.listed.add(key, cid)?;
        match self.latest.add(server, cid) {
            Ok(()) => Ok(()),
            Err(e) => {
                self.listed.remove(key);
                Err(e)
            }
        }
    }

    /// Keeps what is answered from a link's row under a type and a count, so that answers share it. The
    /// rows are as before, also at an error.
    pub fn keep(
        &mut self,
        alloc: Global,
        cid: u32,
        dtype: u16,
        count: u32,
    ) -> Result<(), AllocError>
        ensures { self.new ≡ self.old }
    {
        self.latest.keep(alloc, cid, dtype, count)
    }

    /// Lets go large encodings that are kept beside a link's row, but one. The rows are as before.
    pub fn thin(&mut self, cid: u32)
        ensures { self.new ≡ self.old }
    {
        self.latest.thin(cid);
    }

    /// Forgets what a link was told.
    pub fn remove(&mut self, cid: u32)
        ensures { self.new ≡ filter (is_cached_elsewhere cid) self.old }
    {
        if let Some(owner) = self.latest.server_of(cid) {
            self.listed.remove(Key { owner, id: cid });
            self.latest.remove(cid);
        }
    }

    /// Forgets what a server's links were told.
    pub fn remove_by(&mut self, server: u32)
        ensures { self.new ≡ filter (is_cached_by_another server) self.old }
    {
        while self.remove_one(server) {}
    }

    // Forgets one of the rows of a server's links, if there is any.
    fn remove_one(&mut self, server: u32) -> bool
        ensures others { filter (is_cached_by_another server) self.new ≡ filter (is_cached_by_another server) self.old }
        ensures one { IsTrue result → length self.new < length self.old }
        ensures none { IsFalse result → filter (is_cached_by_another server) self.new ≡ self.new }
    {
        self.latest.has_cids_apart();
        match last_listed(&self.listed, server) {
            Some(cid) => {
                self.remove(cid);
                true
            }
            None => false,
        }
    }
}

// The CID that was listed last under a server.
fn last_listed(listed: &RowMap<u32>, server: u32) -> Option<u32>
    requires { HoldIds listed.now }
    ensures found { IfSome result (λ cid. is_listed server cid listed.now ≡ true) }
    ensures none { IsNone result → list_any (is_owned_by server) listed.now ≡ false }
{
    let count = listed.count_of(server);
    if count == 0 {
        return None;
    }
    match listed.of(server, count - 1) {
        Some(cid) => Some(*cid),
        None => None,
    }
}
