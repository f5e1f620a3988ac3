//! Encodings of one message under several types and counts.
ghost use Rattle.std.specs.Prelude.{◌≡◌, ◌≤◌, List, [], ◌∷◌, ◌++◌, length, filter, nat_lt, OnOk, OnErr, Option, Some, None};
ghost use Rattle.std.specs.List.{count_by, find};
ghost use Rattle.std.specs.Option.{option_copied};
ghost use Rattle.value_cache.specs.Encodings.{is_large_one, is_of, is_small_one, thinned_list};
ghost use Rattle.value_cache.specs.Kept.{last_eight};

use bytes::Bytes;
use std::alloc::{AllocError, Global};
use std::marker::Model;

/// How many encodings of a message are kept at most.
pub const MOST_KEPT: usize = 8;

/// An encoding of so many bytes and more is large.
const LARGE: usize = 65_536;

/// What reads of `count` elements of the type with the number `dtype` are given.
#[derive(Debug, Drop)]
pub(crate) struct Encoding {
    pub(crate) dtype: u16,
    pub(crate) count: u32,
    /// How many elements these are.
    pub(crate) given: u32,
    pub(crate) payload: Bytes,
}

/// At most eight encodings, in the order of keeping.
#[derive(Debug, Drop)]
pub(crate) struct Encodings {
    /// Nothing before the first, so that a value that nobody reads takes no memory for this.
    list: Option<Vec<Encoding>>,
}

impl Model for Encodings {
    ghost use Rattle.std.specs.Prelude.{List, length, ◌≤◌};
    ghost use Rattle.value_cache.specs.declared.encodings.Encoding.{Encoding};
    ghost use Rattle.value_cache.specs.Encodings.{listed_in};

    ghost Value = { List Encoding };

    ghost view = { λ e. listed_in e.list };

    ghost invariant = { λ e. length (listed_in e.list) ≤ 8 };
}

impl Encodings {
    /// None are kept. This takes no memory.
    pub(crate) fn none() -> Encodings
        ensures { result ≡ [] }
    {
        Encodings { list: None }
    }

    pub(crate) fn len(&self) -> usize
        ensures value { result ≡ length self.now }
        ensures most { result ≤ 8 }
    {
        match &self.list {
            Some(list) => list.len(),
            None => 0,
        }
    }

    /// The one under this type and count, if it is kept.
    pub(crate) fn get(&self, dtype: u16, count: u32) -> Option<&Encoding>
        ensures { option_copied result ≡ find (is_of dtype count) self.now }
    {
        match &self.list {
            Some(list) => find(list, dtype, count),
            None => None,
        }
    }

    /// Keeps one more, as the last. A ninth takes the place of the first. At an error those before
    /// are kept.
    pub(crate) fn add(&mut self, alloc: Global, encoding: Encoding) -> Result<(), AllocError>
        ensures ok { OnOk result (self.new ≡ last_eight (self.old ++ encoding ∷ [])) }
        ensures err { OnErr result (self.new ≡ self.old) }
    {
        match &mut self.list {
            Some(list) => add(list, encoding),
            None => {
                let mut list = Vec::new(alloc);
                list.push(encoding)?;
                self.list = Some(list);
                Ok(())
            }
        }
    }

    /// Lets go those that are large, where there are several.
    pub(crate) fn thin(&mut self)
        ensures { self.new ≡ thinned_list self.old }
    {
        if let Some(list) = &mut self.list {
            thin(list);
        }
    }
}

fn is_large(encoding: &Encoding) -> bool
    ensures { result ≡ is_large_one encoding.now }
{
    encoding.payload.len() >= LARGE
}

// Whether several are large.
fn are_several_large(list: &[Encoding]) -> bool
    ensures { result ≡ nat_lt 1 (count_by is_large_one list.now) }
{
    list.iter().filter(|encoding| is_large(*encoding)).count() > 1
}

fn drop_large(list: &mut Vec<Encoding>)
    ensures value { list.new.items ≡ filter is_small_one list.old.items }
    ensures bound { length list.new.items ≤ length list.old.items }
{
    list.retain(|encoding| !is_large(encoding));
}

fn thin(list: &mut Vec<Encoding>)
    requires { length list.old.items ≤ 8 }
    ensures most { length list.new.items ≤ 8 }
    ensures value { list.new.items ≡ thinned_list list.old.items }
{
    if are_several_large(list) {
        drop_large(list);
    }
}

fn find(list: &[Encoding], dtype: u16, count: u32) -> Option<&Encoding>
    ensures { option_copied result ≡ find (is_of dtype count) list.now }
{
    list.iter().find(|encoding| encoding.dtype == dtype && encoding.count == count)
}

fn add(list: &mut Vec<Encoding>, encoding: Encoding) -> Result<(), AllocError>
    requires { length list.old.items ≤ 8 }
    ensures most { length list.new.items ≤ 8 }
    ensures ok { OnOk result (list.new.items ≡ last_eight (list.old.items ++ encoding ∷ [])) }
    ensures err { OnErr result (list.new.items ≡ list.old.items) }
{
    list.push(encoding)?;
    if list.len() > MOST_KEPT {
        list.remove(0);
    }
    Ok(())
}
