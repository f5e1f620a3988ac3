//! Lists of searches by their texts.
ghost use Rattle.std.specs.Prelude.{◌≡◌, [], OnOk, OnErr};
ghost use Rattle.row_index.specs.Lists.{SameLists};
ghost use Rattle.state_tables.specs.Kept.{is_led, is_owned, AddsToText, AddsUnder, AreInLists, KeepsLists, KeepsUnder, Lists, RemovesFromText, Unlists};

use crate::kept::KeptSearch;
use pv_name::Name;
use row_index::{Key, NameLists};
use std::alloc::{AllocError, Global};

/// The keys of searches in order, listed by the name that each is for, by its host, and by the real name
/// that it leads to. A text with no search takes no memory.
#[derive(Drop)]
pub(crate) struct SearchLists {
    pub(crate) names: NameLists,
    pub(crate) hosts: NameLists,
    pub(crate) reals: NameLists,
}

impl SearchLists {
    /// Of no searches. This takes no memory.
    pub(crate) fn new(alloc: Global) -> SearchLists
        ensures { AreInLists [] result }
    {
        SearchLists {
            names: NameLists::new(alloc),
            hosts: NameLists::new(alloc),
            reals: NameLists::new(alloc),
        }
    }

    /// Lists a search behind all others. At an error nothing is listed that wasn't.
    pub(crate) fn add(&mut self, kept: &KeptSearch) -> Result<(), AllocError>
        ensures ok { OnOk result (Lists kept.now self.old self.new) }
        ensures err { OnErr result (KeepsLists kept.now self.old self.new) }
    {
        let key = kept.key();
        self.names.add(&kept.name, key)?;
        match add_rest(&mut self.hosts, &mut self.reals, kept) {
            Ok(()) => Ok(()),
            Err(e) => {
                self.names.remove(&kept.name, key);
                Err(e)
            }
        }
    }

    /// Takes a search off its lists. This takes no memory.
    pub(crate) fn remove(&mut self, kept: &KeptSearch)
        ensures { Unlists kept.now self.old self.new }
    {
        let key = kept.key();
        self.names.remove(&kept.name, key);
        self.hosts.remove(&kept.owner, key);
        remove_real(&mut self.reals, &kept.real, key);
    }
}

/// Lists a search by its host and by its real name, if it leads to any.
fn add_rest(
    hosts: &mut NameLists,
    reals: &mut NameLists,
    kept: &KeptSearch,
) -> Result<(), AllocError>
    ensures ok_hosts { OnOk result (AddsUnder is_owned kept.now hosts.old hosts.new) }
    ensures ok_reals { OnOk result (AddsUnder is_led kept.now reals.old reals.new) }
    ensures err_hosts { OnErr result (KeepsUnder is_owned kept.now hosts.old hosts.new) }
    ensures err_reals { OnErr result (KeepsUnder is_led kept.now reals.old reals.new) }
{
    let key = kept.key();
    hosts.add(&kept.owner, key)?;
    match add_real(reals, &kept.real, key) {
        Ok(()) => Ok(()),
        Err(e) => {
            hosts.remove(&kept.owner, key);
            Err(e)
        }
    }
}

/// Lists a key under a real name, if there is one.
fn add_real(reals: &mut NameLists, real: &Option<Name>, key: Key) -> Result<(), AllocError>
    ensures ok { OnOk result (AddsToText real.now key reals.old reals.new) }
    ensures err { OnErr result (SameLists reals.old reals.new) }
{
    match real {
        Some(real) => reals.add(real, key),
        None => Ok(()),
    }
}

/// Takes a key off the list of a real name, if there is one.
fn remove_real(reals: &mut NameLists, real: &Option<Name>, key: Key)
    ensures { RemovesFromText real.now key reals.old reals.new }
{
    if let Some(real) = real {
        reals.remove(real, key);
    }
}
