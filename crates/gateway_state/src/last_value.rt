//! What a variable told last.
ghost use Rattle.std.specs.Prelude.{◌≡◌, is_some, IsOk, IfOk, IsSome, OnErr};

use bytes::Bytes;
use dbr_layout::View;
use std::alloc::{AllocError, Global};
use std::marker::Model;
use value_cache::{Cached, MOST_KEPT};

/// A value and properties as they came. Contracts see what they say, and not which encodings are
/// kept: so what the gateway knows doesn't depend on that.
#[derive(Drop)]
pub struct LastValue {
    cached: Cached,
}

impl Model for LastValue {
    ghost use Rattle.value_cache.specs.Held.{Held};

    ghost Value = { Held };

    ghost view = { λ v. v.cached.held };
}

impl LastValue {
    ghost use Rattle.dbr_layout.specs.View.{shown};
    ghost use Rattle.value_cache.specs.Held.{alarm_differs, answer, covers, nothing, with_properties, with_value, without_properties};
    ghost use Rattle.value_cache.specs.Message.{TellsProperties};

    /// Nothing was told.
    pub fn empty() -> LastValue
        ensures { result ≡ nothing }
    {
        LastValue {
            cached: Cached::empty(),
        }
    }

    /// A value came: `count` elements of the type with the number `dtype`, and the count that was asked
    /// for. The properties stay.
    pub fn put(&mut self, dtype: u16, count: u32, payload: Bytes, asked_with: u32)
        requires { IsOk (shown dtype count payload) }
        ensures { self.new ≡ with_value dtype count payload asked_with self.old }
    {
        self.cached.put(dtype, count, payload, asked_with);
    }

    /// Properties came, in the type with the number `dtype`. The value stays.
    pub fn put_properties(&mut self, dtype: u16, payload: Bytes)
        requires { TellsProperties dtype payload }
        ensures { self.new ≡ with_properties dtype payload self.old }
    {
        self.cached.put_properties(dtype, payload);
    }

    /// Forgets the properties.
    pub fn drop_properties(&mut self)
        ensures { self.new ≡ without_properties self.old }
    {
        self.cached.drop_properties();
    }

    /// Keeps what is answered under a type and a count, so that answers share it. What is held is as
    /// before, also at an error. Where as many are kept as may be, the first ones stay: else the kinds
    /// that subscriptions ask for in turn would drive each other out.
    pub fn keep(&mut self, alloc: Global, dtype: u16, count: u32) -> Result<(), AllocError>
        ensures { self.new ≡ self.old }
    {
        if self.cached.kept() < MOST_KEPT {
            self.cached.keep(alloc, dtype, count)?;
        }
        Ok(())
    }

    /// Lets go large encodings, but one (`Cached::thin`). What is held is as before.
    pub fn thin(&mut self)
        ensures { self.new ≡ self.old }
    {
        self.cached.thin();
    }

    /// Whether properties are held (`Cached::has_properties`).
    pub fn has_properties(&self) -> bool
        ensures { result ≡ is_some self.now.properties }
    {
        self.cached.has_properties()
    }

    /// Whether it can answer a read of so many elements of a type (`Cached::covers`).
    pub fn covers(&self, dtype: u16, count: u32) -> bool
        ensures { result ≡ covers dtype count self.now }
    {
        self.cached.covers(dtype, count)
    }

    /// Whether the alarm that a view shows is another (`Cached::alarm_differs`).
    pub fn alarm_differs(&self, new: &View<'_>) -> bool
        ensures { result ≡ alarm_differs new.now self.now }
    {
        self.cached.alarm_differs(new)
    }

    /// What a read is given (`Cached::answer`).
    pub fn answer(
        &self,
        alloc: Global,
        dtype: u16,
        count: u32,
    ) -> Result<Option<(u32, Bytes)>, AllocError>
        ensures ok { IfOk result (λ given. given ≡ answer dtype count self.now) }
        ensures err { OnErr result (IsSome (answer dtype count self.now)) }
    {
        self.cached.answer(alloc, dtype, count)
    }
}
