//! Subscriptions as they were found.
ghost use Rattle.std.specs.Prelude.{◌≡◌, ◌∷◌, [], length};
ghost use Rattle.named_rows.specs.SubLists.{subs_in};

use crate::subs::ClientSub;
use std::marker::Model;
use std::slice;

/// Subscriptions in the order of adding. Most variables have one, which takes no memory.
#[derive(Drop)]
pub struct SubList {
    held: Held,
}

#[derive(Drop)]
enum Held {
    Single(ClientSub),
    Many(Vec<ClientSub>),
}

impl Model for SubList {
    ghost use Rattle.std.specs.Prelude.{List};
    ghost use Rattle.named_rows.specs.declared.subs.ClientSub.{ClientSub};
    ghost use Rattle.named_rows.specs.SubLists.{subs_in};

    ghost Value = { List ClientSub };

    ghost view = { λ l. subs_in l.held };
}

impl SubList {
    pub(crate) fn single(sub: ClientSub) -> SubList
        ensures { result ≡ sub ∷ [] }
    {
        SubList {
            held: Held::Single(sub),
        }
    }

    pub(crate) fn many(subs: Vec<ClientSub>) -> SubList
        ensures { result ≡ subs.items }
    {
        SubList {
            held: Held::Many(subs),
        }
    }

    pub fn as_slice(&self) -> &[ClientSub]
        ensures { result.now ≡ self.now }
    {
        match &self.held {
            Held::Single(sub) => slice::from_ref(sub),
            Held::Many(subs) => subs.as_slice(),
        }
    }

    pub fn len(&self) -> usize
        ensures { result ≡ length self.now }
    {
        self.as_slice().len()
    }
}
