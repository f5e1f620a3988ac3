//! Connections: whether they stand, and what waits for them.
ghost use Rattle.std.specs.Prelude.{◌≡◌, take, OnOk, IfOk};
ghost use Rattle.gateway_rows.specs.BrandedState.{Becomes};
ghost use Rattle.gateway_state.specs.Asked.{is_open, must_end, queued, queued_bytes, acts};
ghost use Rattle.gateway_state.specs.Connections.{outbox_of};
ghost use Rattle.gateway_state.specs.Direct.{drained};
ghost use Rattle.gateway_state.specs.Telling.{marked};
ghost use Rattle.gateway_state.specs.Updates.{takes_updates};

use crate::state::Known;
use fanout::Out;
use gateway_state::Dest;
use std::alloc::AllocError;

impl Known {
    /// Whether a connection stands.
    pub fn is_open(&self, dest: Dest) -> bool
        ensures { result ≡ is_open self.now.state dest }
    {
        self.connections.is_open(dest)
    }

    /// Whether a connection stands and must end.
    pub fn must_end(&self, dest: Dest) -> bool
        ensures { result ≡ must_end self.now.state dest }
    {
        self.connections.must_end(dest)
    }

    /// How many messages wait for a connection, 0 where it doesn't stand.
    pub fn queued(&self, dest: Dest) -> usize
        ensures { result ≡ queued self.now.state dest }
    {
        self.connections.queued(dest)
    }

    /// How many bytes wait for a connection, 0 where it doesn't stand.
    pub fn queued_bytes(&self, dest: Dest) -> u64
        ensures { result ≡ queued_bytes self.now.state dest }
    {
        self.connections.queued_bytes(dest)
    }

    /// Whether a message from the connection has an effect.
    pub fn acts(&self, dest: Dest) -> bool
        ensures { result ≡ acts self.now.state dest }
    {
        self.connections.acts(dest)
    }

    /// Whether a session's outbox takes updates.
    pub fn takes_updates(&self, number: u32) -> bool
        ensures { result ≡ takes_updates self.now.state number }
    {
        self.connections
            .takes_updates(&self.limits, Dest::Session(number))
    }

    /// Marks a connection to end.
    pub fn mark(&mut self, dest: Dest)
        ensures state { Becomes (marked dest self.old.state) self.old self.new }
    {
        self.connections.mark(dest);
    }

    /// Takes the oldest messages of an outbox, in order.
    pub fn take(&mut self, dest: Dest, count: usize) -> Result<Vec<Out>, AllocError>
        ensures ok { OnOk result (self.new.state ≡ drained self.old.state dest count) }
        ensures found { IfOk result (λ outs. outs.items ≡ take count (outbox_of dest self.old.state.connections).messages) }
        ensures brand { self.new.brand ≡ self.old.brand }
    {
        self.connections.take(self.alloc, dest, count)
    }
}
