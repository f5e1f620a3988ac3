//! The outboxes of all connections.
ghost use Rattle.std.specs.Prelude.{◌≡◌, ◌∷◌, ◌++◌, ◌&&◌, [], false, not, length, map, take, OnOk, OnErr, IfOk};
ghost use Rattle.std.specs.List.{list_any, filter, find};
ghost use Rattle.std.specs.Option.{option_copied};
ghost use Rattle.fanout.specs.Waiting.{waiting_bytes};
ghost use Rattle.rows.specs.Rows.{change_first};
ghost use Rattle.row_index.specs.Rows.{has_key, value_at};
ghost use Rattle.named_rows.specs.Indexes.{changed_by};
ghost use Rattle.state_tables.specs.ConnectionKeys.{key_of, outbox_under};
ghost use Rattle.gateway_state.specs.Connections.{is_to, is_not_to, given, marked_now, relieved, fresh, outbox_of};
ghost use Rattle.gateway_state.specs.Updates.{outbox_takes_updates};

use fanout::{AppendFault, Out, Outbox};
use gateway_state::{Connection, Dest, Limits, UPDATE_LIMIT};
use row_index::{Key, RowMap};
use std::alloc::{AllocError, Global};
use std::marker::Model;

/// The connections that stand, in the order in which they came, each found by its number.
#[derive(Drop)]
pub struct Connections {
    rows: RowMap<Connection>,
    /// How often an outbox was found full. It is no part of what contracts see.
    full: u64,
}

impl Model for Connections {
    ghost use Rattle.std.specs.Prelude.{List, map};
    ghost use Rattle.row_index.specs.Rows.{row_of};
    ghost use Rattle.gateway_state.specs.declared.connections.Connection.{Connection};
    ghost use Rattle.state_tables.specs.ConnectionKeys.{AreKeyed};

    ghost Value = { List Connection };

    ghost view = { λ c. map row_of c.rows };

    ghost invariant = { λ c. AreKeyed c.rows };
}

impl Connections {
    /// No connection stands.
    pub fn new(alloc: Global) -> Connections
        ensures { result ≡ [] }
    {
        Connections {
            rows: RowMap::new(alloc),
            full: 0,
        }
    }

    fn get(&self, dest: Dest) -> Option<&Connection>
        ensures { option_copied result ≡ find (is_to dest) self.now }
    {
        self.rows.get(key_of(dest))
    }

    /// Whether the connection stands.
    pub fn is_open(&self, dest: Dest) -> bool
        ensures { result ≡ list_any (is_to dest) self.now }
    {
        self.rows.contains(key_of(dest))
    }

    /// Whether the connection stands and must end.
    pub fn must_end(&self, dest: Dest) -> bool
        ensures { result ≡ (outbox_of dest self.now).marked }
    {
        match self.get(dest) {
            Some(connection) => connection.outbox.marked(),
            None => false,
        }
    }

    /// Whether the connection stands and need not end.
    #[tactic(auto, using(crate::proofs::ConnectionRows::acts_there, crate::proofs::ConnectionRows::acts_nowhere))]
    pub fn acts(&self, dest: Dest) -> bool
        ensures { result ≡ (list_any (is_to dest) self.now && not (outbox_of dest self.now).marked) }
    {
        match self.get(dest) {
            Some(connection) => !connection.outbox.marked(),
            None => false,
        }
    }

    /// How many messages wait, 0 where the connection doesn't stand.
    pub fn queued(&self, dest: Dest) -> usize
        ensures { result ≡ length (outbox_of dest self.now).messages }
    {
        match self.get(dest) {
            Some(connection) => connection.outbox.len(),
            None => 0,
        }
    }

    /// How many bytes wait, 0 where the connection doesn't stand.
    pub fn queued_bytes(&self, dest: Dest) -> u64
        ensures { result ≡ waiting_bytes (outbox_of dest self.now) }
    {
        match self.get(dest) {
            Some(connection) => connection.outbox.bytes(),
            None => 0,
        }
    }

    /// Whether the connection's outbox takes updates: it isn't marked, and not too many messages or bytes
    /// wait.
    pub fn takes_updates(&self, limits: &Limits, dest: Dest) -> bool
        ensures { result ≡ outbox_takes_updates limits.now (outbox_of dest self.now) }
    {
        match self.get(dest) {
            Some(connection) => {
                let outbox = &connection.outbox;
                !outbox.marked()
                    && outbox.len() < UPDATE_LIMIT
                    && outbox.bytes() < limits.update_bytes
            }
            None => limits.update_bytes > 0,
        }
    }

    /// Adds a connection for which nothing waits. The caller sees to it that it doesn't stand.
    pub fn add(&mut self, alloc: Global, dest: Dest) -> Result<(), AllocError>
        requires new { list_any (is_to dest) self.old ≡ false }
        ensures ok { OnOk result (self.new ≡ self.old ++ fresh dest ∷ []) }
        ensures err { OnErr result (self.new ≡ self.old) }
    {
        let connection = Connection {
            dest,
            outbox: Outbox::new(alloc),
        };
        self.rows.add(key_of(dest), connection)
    }

    /// Removes a connection with what waits for it.
    pub fn remove(&mut self, dest: Dest)
        ensures { self.new ≡ filter (is_not_to dest) self.old }
    {
        self.rows.remove(key_of(dest));
    }

    /// Gives a message to a connection where at most so many may wait, if it stands and isn't marked.
    pub fn give(&mut self, most: u32, dest: Dest, out: Out) -> Result<(), AllocError>
        ensures ok { OnOk result (self.new ≡ change_first (is_to dest) (given most out) self.old) }
        ensures err { OnErr result (self.new ≡ self.old) }
    {
        give(&mut self.rows, key_of(dest), most, out, &mut self.full)
    }

    /// How often a message found an outbox full since the start, which marked it.
    pub fn full(&self) -> u64 {
        self.full
    }

    /// All connections, in the order in which they came.
    pub fn rows(&self, alloc: Global) -> Result<Vec<&Connection>, AllocError>
        ensures { IfOk result (λ rows. map (λ row. row.now) rows.items ≡ self.now) }
    {
        self.rows.rows(alloc)
    }

    /// Marks a connection to end.
    pub fn mark(&mut self, dest: Dest)
        ensures { self.new ≡ change_first (is_to dest) marked_now self.old }
    {
        mark(&mut self.rows, key_of(dest));
    }

    /// Takes the oldest `count` messages of a connection in order, or all where there are fewer.
    pub fn take(&mut self, alloc: Global, dest: Dest, count: usize) -> Result<Vec<Out>, AllocError>
        ensures ok { OnOk result (self.new ≡ change_first (is_to dest) (relieved count) self.old) }
        ensures found { IfOk result (λ outs. outs.items ≡ take count (outbox_of dest self.old).messages) }
        ensures err { OnErr result (self.new ≡ self.old) }
    {
        take(&mut self.rows, alloc, key_of(dest), count)
    }
}

/// The key of a connection: its number, and which kind it is.
fn key_of(dest: Dest) -> Key
    ensures { result ≡ key_of dest }
{
    match dest {
        Dest::Session(owner) => Key { owner, id: 0 },
        Dest::Upstream(owner) => Key { owner, id: 1 },
    }
}

#[tactic(auto, using(crate::proofs::ConnectionRows::written_is_changed, crate::proofs::ConnectionRows::written_again, crate::proofs::ConnectionRows::unfound_unchanged))]
fn give(
    rows: &mut RowMap<Connection>,
    key: Key,
    most: u32,
    out: Out,
    full: &mut u64,
) -> Result<(), AllocError>
    ensures ok { OnOk result (rows.new ≡ change_first (has_key key) (changed_by (given most out)) rows.old) }
    ensures err { OnErr result (rows.new ≡ rows.old) }
{
    let Some(row) = rows.get_mut(key) else {
        return Ok(());
    };
    let was_marked = row.outbox.marked();
    match row.outbox.append_within(most, out) {
        Ok(()) => Ok(()),
        Err(AppendFault::Marked(_)) => {
            if !was_marked {
                *full = full.saturating_add(1);
            }
            Ok(())
        }
        Err(AppendFault::OutOfMemory(_)) => Err(AllocError),
    }
}

#[tactic(auto, using(crate::proofs::ConnectionRows::written_is_changed, crate::proofs::ConnectionRows::unfound_unchanged))]
fn mark(rows: &mut RowMap<Connection>, key: Key)
    ensures { rows.new ≡ change_first (has_key key) (changed_by marked_now) rows.old }
{
    if let Some(row) = rows.get_mut(key) {
        row.outbox.mark();
    }
}

#[tactic(auto, using(crate::proofs::ConnectionRows::written_is_changed, crate::proofs::ConnectionRows::written_again, crate::proofs::ConnectionRows::unfound_unchanged))]
fn take(
    rows: &mut RowMap<Connection>,
    alloc: Global,
    key: Key,
    count: usize,
) -> Result<Vec<Out>, AllocError>
    ensures ok { OnOk result (rows.new ≡ change_first (has_key key) (changed_by (relieved count)) rows.old) }
    ensures found { IfOk result (λ outs. outs.items ≡ take count (outbox_under key rows.old).messages) }
    ensures err { OnErr result (rows.new ≡ rows.old) }
{
    match rows.get_mut(key) {
        Some(row) => row.outbox.take(alloc, count),
        None => Ok(Vec::new(alloc)),
    }
}
