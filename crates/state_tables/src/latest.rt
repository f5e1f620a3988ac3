//! What links were told last, found by their CIDs.
ghost use Rattle.std.specs.Prelude.{◌≡◌, ◌∷◌, ◌++◌, [], false, IsOk, OnOk, OnErr};
ghost use Rattle.std.specs.List.{find, filter, list_any};
ghost use Rattle.std.specs.Option.{option_copied};
ghost use Rattle.rows.specs.Rows.{change_first};
ghost use Rattle.row_index.specs.Rows.{has_key};
ghost use Rattle.named_rows.specs.Indexes.{changed_by};
ghost use Rattle.dbr_layout.specs.View.{shown};
ghost use Rattle.value_cache.specs.Held.{with_properties, with_value, without_properties};
ghost use Rattle.value_cache.specs.Message.{TellsProperties};
ghost use Rattle.gateway_state.specs.CachedRows.{is_cached_of, is_cached_elsewhere, without_told};
ghost use Rattle.link_table.specs.LinkIndex.{key};
ghost use Rattle.state_tables.specs.LatestRows.{server_of, bare, with_held, AreApart};

use bytes::Bytes;
use gateway_state::{LastMessage, LastValue};
use row_index::{Key, RowMap};
use std::alloc::{AllocError, Global};
use std::marker::Model;

/// At most one row of a link, in the order in which they came.
#[derive(Drop)]
pub(crate) struct Latest {
    rows: RowMap<LastMessage>,
}

impl Model for Latest {
    ghost use Rattle.std.specs.Prelude.{List, map};
    ghost use Rattle.row_index.specs.Rows.{row_of};
    ghost use Rattle.gateway_state.specs.declared.cached.LastMessage.{LastMessage};
    ghost use Rattle.state_tables.specs.LatestRows.{AreLatest};

    ghost Value = { List LastMessage };

    ghost view = { λ l. map row_of l.rows };

    ghost invariant = { λ l. AreLatest l.rows };
}

impl Latest {
    pub(crate) fn new(alloc: Global) -> Latest
        ensures { result ≡ [] }
    {
        Latest {
            rows: RowMap::new(alloc),
        }
    }

    pub(crate) fn get(&self, cid: u32) -> Option<&LastMessage>
        ensures { option_copied result ≡ find (is_cached_of cid) self.now }
    {
        self.rows.get(key(cid))
    }

    /// Whether a link has a row.
    pub(crate) fn has(&self, cid: u32) -> bool
        ensures { result ≡ list_any (is_cached_of cid) self.now }
    {
        self.rows.contains(key(cid))
    }

    /// The server of a link's row.
    pub(crate) fn server_of(&self, cid: u32) -> Option<u32>
        ensures { result ≡ server_of cid self.now }
    {
        match self.get(cid) {
            Some(row) => Some(row.server),
            None => None,
        }
    }

    /// Adds a row for a link, to which nothing was told.
    pub(crate) fn add(&mut self, server: u32, cid: u32) -> Result<(), AllocError>
        requires new { list_any (is_cached_of cid) self.old ≡ false }
        ensures ok { OnOk result (self.new ≡ self.old ++ bare server cid ∷ []) }
        ensures err { OnErr result (self.new ≡ self.old) }
    {
        let row = LastMessage {
            server,
            cid,
            held: LastValue::empty(),
        };
        self.rows.add(key(cid), row)
    }

    /// A link was told a value, where it has a row.
    pub(crate) fn put_value(
        &mut self,
        cid: u32,
        dtype: u16,
        count: u32,
        payload: Bytes,
        asked_with: u32,
    )
        requires { IsOk (shown dtype count payload) }
        ensures { self.new ≡ change_first (is_cached_of cid) (with_held (with_value dtype count payload asked_with)) self.old }
    {
        put_value(&mut self.rows, key(cid), dtype, count, payload, asked_with);
    }

    /// A link was told properties, where it has a row.
    pub(crate) fn put_properties(&mut self, cid: u32, dtype: u16, payload: Bytes)
        requires { TellsProperties dtype payload }
        ensures { self.new ≡ change_first (is_cached_of cid) (with_held (with_properties dtype payload)) self.old }
    {
        put_properties(&mut self.rows, key(cid), dtype, payload);
    }

    /// Forgets the properties that a link was told.
    pub(crate) fn drop_properties(&mut self, cid: u32)
        ensures { self.new ≡ change_first (is_cached_of cid) without_told self.old }
    {
        drop_properties(&mut self.rows, key(cid));
    }

    /// Keeps what is answered from a link's row under a type and a count.
    pub(crate) fn keep(
        &mut self,
        alloc: Global,
        cid: u32,
        dtype: u16,
        count: u32,
    ) -> Result<(), AllocError>
        ensures { self.new ≡ self.old }
    {
        keep(alloc, &mut self.rows, key(cid), dtype, count)
    }

    /// Lets go large encodings of a link's row, but one.
    pub(crate) fn thin(&mut self, cid: u32)
        ensures { self.new ≡ self.old }
    {
        thin(&mut self.rows, key(cid));
    }

    pub(crate) fn remove(&mut self, cid: u32)
        ensures { self.new ≡ filter (is_cached_elsewhere cid) self.old }
    {
        self.rows.remove(key(cid));
    }

    /// Does nothing. Its contract is a law: no two rows have the same CID.
    pub(crate) fn has_cids_apart(&self)
        ensures { AreApart self.now }
    {
        self.rows.has_keys_apart();
    }
}

/// A link has one row at most, so a CID is the whole key.
fn key(cid: u32) -> Key
    ensures { result ≡ key cid 0 }
{
    Key { owner: cid, id: 0 }
}

#[tactic(auto, using(crate::proofs::ConnectionRows::unfound_unchanged))]
fn put_value(
    rows: &mut RowMap<LastMessage>,
    key: Key,
    dtype: u16,
    count: u32,
    payload: Bytes,
    asked_with: u32,
)
    requires { IsOk (shown dtype count payload) }
    ensures { rows.new ≡ change_first (has_key key) (changed_by (with_held (with_value dtype count payload asked_with))) rows.old }
{
    if let Some(row) = rows.get_mut(key) {
        row.held.put(dtype, count, payload, asked_with);
    }
}

#[tactic(auto, using(crate::proofs::ConnectionRows::unfound_unchanged))]
fn put_properties(rows: &mut RowMap<LastMessage>, key: Key, dtype: u16, payload: Bytes)
    requires { TellsProperties dtype payload }
    ensures { rows.new ≡ change_first (has_key key) (changed_by (with_held (with_properties dtype payload))) rows.old }
{
    if let Some(row) = rows.get_mut(key) {
        row.held.put_properties(dtype, payload);
    }
}

#[tactic(auto, using(crate::proofs::ConnectionRows::unfound_unchanged))]
fn drop_properties(rows: &mut RowMap<LastMessage>, key: Key)
    ensures { rows.new ≡ change_first (has_key key) (changed_by (with_held without_properties)) rows.old }
{
    if let Some(row) = rows.get_mut(key) {
        row.held.drop_properties();
    }
}

#[tactic(auto, using(crate::proofs::ConnectionRows::written_again))]
fn keep(
    alloc: Global,
    rows: &mut RowMap<LastMessage>,
    key: Key,
    dtype: u16,
    count: u32,
) -> Result<(), AllocError>
    ensures { rows.new ≡ rows.old }
{
    match rows.get_mut(key) {
        Some(row) => row.held.keep(alloc, dtype, count),
        None => Ok(()),
    }
}

#[tactic(auto, using(crate::proofs::ConnectionRows::written_again))]
fn thin(rows: &mut RowMap<LastMessage>, key: Key)
    ensures { rows.new ≡ rows.old }
{
    if let Some(row) = rows.get_mut(key) {
        row.held.thin();
    }
}
