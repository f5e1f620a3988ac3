//! What clients say of their users.
ghost use Rattle.std.specs.Prelude.{◌≡◌, [], IfOk};

use std::alloc::{AllocError, Global};
use std::marker::Model;

/// What a client says that its user is called: any bytes, and none where it said nothing.
#[derive(Debug, Drop)]
pub struct User {
    name: Vec<u8>,
}

impl Model for User {
    ghost use Rattle.std.specs.Prelude.{ℕ, List};

    ghost Value = { List ℕ };

    ghost view = { λ u. u.name.items };
}

impl User {
    /// Nothing was said. It takes no memory.
    pub fn none(alloc: Global) -> User
        ensures { result ≡ [] }
    {
        User {
            name: Vec::new(alloc),
        }
    }

    /// What these bytes say. The error is that memory was refused.
    pub fn new(alloc: Global, name: &[u8]) -> Result<User, AllocError>
        ensures { IfOk result (λ user. user ≡ name.now) }
    {
        Ok(User {
            name: Vec::from_slice(alloc, name)?,
        })
    }

    /// The bytes that were said.
    pub fn as_slice(&self) -> &[u8]
        ensures { result.now ≡ self.now }
    {
        self.name.as_slice()
    }

    /// The same again, from the allocator that this one came from. The error is that memory was refused.
    pub fn copy(&self) -> Result<User, AllocError>
        ensures { IfOk result (λ copy. copy ≡ self.now) }
    {
        Ok(User {
            name: self.name.clone()?,
        })
    }
}
