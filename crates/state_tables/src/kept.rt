//! Searches as they are kept.
ghost use Rattle.std.specs.Prelude.{◌≡◌, option_map, IfOk};
ghost use Rattle.pv_name.specs.Host.{lowercase};
ghost use Rattle.gateway_state.specs.Searches.{made_now, refreshed};
ghost use Rattle.gateway_state.specs.Resolution.{real_in};
ghost use Rattle.state_tables.specs.Kept.{is_by, is_fresh_row, grown_old, kept_as, kept_key, made_again, made_again_under, serial_key};

use gateway_state::RememberedSearch;
use pv_alias::Lead;
use pv_name::{Host, Name, same_host};
use row_index::Key;
use std::alloc::{AllocError, Global};

/// A search that is remembered, under a number of its own, with the texts under which it is listed.
#[derive(Drop)]
pub(crate) struct KeptSearch {
    pub(crate) serial: u32,
    /// The name that is searched for.
    pub(crate) name: Name,
    /// The host, with its letters in lower case.
    pub(crate) owner: Name,
    /// The real name that the search leads to, if to any.
    pub(crate) real: Option<Name>,
    /// Taken out only as the row goes.
    pub(crate) search: Option<RememberedSearch>,
}

/// The key of a number.
pub(crate) fn key_of(serial: u32) -> Key
    ensures { result ≡ serial_key serial }
{
    Key {
        owner: 0,
        id: serial,
    }
}

impl KeptSearch {
    pub(crate) fn key(&self) -> Key
        ensures { result ≡ kept_key self.now }
    {
        key_of(self.serial)
    }

    /// Whether the host made the search.
    pub(crate) fn is_by(&self, host: &Host) -> bool
        ensures { result ≡ is_by host.now self.now }
    {
        match &self.search {
            Some(search) => same_host(&search.host, host),
            None => false,
        }
    }

    /// Whether the search was made since the last age.
    pub(crate) fn is_fresh(&self) -> bool
        ensures { result ≡ is_fresh_row self.now }
    {
        match &self.search {
            Some(search) => search.fresh,
            None => false,
        }
    }

    /// The search is made again.
    pub(crate) fn make_again(&mut self)
        ensures { self.new ≡ made_again self.old }
    {
        if let Some(search) = &mut self.search {
            search.fresh = true;
        }
    }

    /// Time passed since the search was made.
    pub(crate) fn grow_old(&mut self)
        ensures { self.new ≡ grown_old self.old }
    {
        if let Some(search) = &mut self.search {
            search.fresh = false;
        }
    }

    /// A row like this one under another number, with the search made again.
    pub(crate) fn again(&self, serial: u32) -> Result<KeptSearch, AllocError>
        ensures { IfOk result (λ kept. kept ≡ made_again_under serial self.now) }
    {
        let (Ok(name), Ok(owner)) = (self.name.copy(), self.owner.copy()) else {
            return Err(AllocError);
        };
        Ok(KeptSearch {
            serial,
            name,
            owner,
            real: copy_name(&self.real)?,
            search: copy_again(&self.search)?,
        })
    }
}

/// A copy of a name, if there is one.
fn copy_name(name: &Option<Name>) -> Result<Option<Name>, AllocError>
    ensures { IfOk result (λ copy. copy ≡ name.now) }
{
    match name {
        Some(name) => match name.copy() {
            Ok(copy) => Ok(Some(copy)),
            Err(_) => Err(AllocError),
        },
        None => Ok(None),
    }
}

/// A copy of a search as it is once it is made again.
fn copy_again(search: &Option<RememberedSearch>) -> Result<Option<RememberedSearch>, AllocError>
    ensures { IfOk result (λ copy. copy ≡ option_map refreshed search.now) }
{
    match search {
        Some(search) => Ok(Some(copied(search, true)?)),
        None => Ok(None),
    }
}

/// A copy of a search, which is fresh or not.
pub(crate) fn copied(search: &RememberedSearch, fresh: bool) -> Result<RememberedSearch, AllocError>
    ensures { IfOk result (λ copy. copy ≡ record search.now { fresh = fresh }) }
{
    let (Ok(host), Ok(name)) = (search.host.copy(), search.name.copy()) else {
        return Err(AllocError);
    };
    Ok(RememberedSearch { host, name, fresh })
}

/// A search that is made now.
pub(crate) fn made_now(host: &Host, name: &Name) -> Result<RememberedSearch, AllocError>
    ensures { IfOk result (λ search. search ≡ made_now host.now name.now) }
{
    let (Ok(host), Ok(name)) = (host.copy(), name.copy()) else {
        return Err(AllocError);
    };
    Ok(RememberedSearch {
        host,
        name,
        fresh: true,
    })
}

/// The row of a search that leads there.
pub(crate) fn kept_row(
    alloc: Global,
    serial: u32,
    lead: Option<Lead>,
    search: RememberedSearch,
) -> Result<KeptSearch, AllocError>
    ensures { IfOk result (λ kept. kept ≡ kept_as serial lead search) }
{
    let owner = lowercase(alloc, &search.host)?;
    let Ok(name) = search.name.copy() else {
        return Err(AllocError);
    };
    Ok(KeptSearch {
        serial,
        name,
        owner,
        real: real_in(lead),
        search: Some(search),
    })
}

/// The real name of a lead.
fn real_in(lead: Option<Lead>) -> Option<Name>
    ensures { result ≡ real_in lead }
{
    match lead {
        Some(lead) => Some(lead.real),
        None => None,
    }
}

/// The text of a host with its letters in lower case.
fn lowercase(alloc: Global, host: &Host) -> Result<Name, AllocError>
    ensures { IfOk result (λ text. text ≡ lowercase host.now) }
{
    let text = host.text().to_ascii_lowercase(alloc)?;
    match Name::read(alloc, text.as_bytes()) {
        Ok(name) => Ok(name),
        Err(_) => Err(AllocError),
    }
}
