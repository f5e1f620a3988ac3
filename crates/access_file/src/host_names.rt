//! Names of hosts.
ghost use Rattle.std.specs.Prelude.{◌≡◌, ◌∷◌, ◌++◌, [], bytes_eq, option_copied, OnOk, OnErr};
ghost use Rattle.std.specs.Map.{lookup};
ghost use Rattle.access_file.specs.HostNames.{first_of, hosts_of};
ghost use Rattle.access_file.specs.Named.{put};

use crate::by_name::ByName;
use crate::folded::folded;
use pv_name::{HOST_LIMIT, Host};
use std::alloc::{AllocError, Global};
use std::marker::Model;

/// A name of the host at an address.
#[derive(Drop)]
pub struct HostName {
    pub address: Host,
    pub name: Host,
}

/// Where the rows of an address stand: from the place of the first up to that behind the last.
#[derive(Clone, Copy)]
pub(crate) struct Span {
    first: usize,
    end: usize,
}

/// Spans by the texts of addresses in lower case. They lie on the heap, since a policy, which has host names, is moved with
/// each event: in a list of one, or of none before the first.
#[derive(Drop)]
pub(crate) struct Spans {
    kept: Vec<ByName<Span>>,
}

impl Model for Spans {
    ghost use Rattle.std.specs.Prelude.{ℕ, List};
    ghost use Rattle.access_file.specs.HostNames.{kept_spans};
    ghost use Rattle.access_file.specs.declared.host_names.Span.{Span};

    ghost Value = { List (List ℕ × Span) };

    ghost view = { λ s. kept_spans s.kept.items };
}

impl Spans {
    // None. This takes no memory.
    fn new(alloc: Global) -> Spans
        ensures { result ≡ [] }
    {
        Spans {
            kept: Vec::new(alloc),
        }
    }

    fn get(&self, text: &str) -> Option<&Span>
        ensures { option_copied result ≡ lookup (bytes_eq text.now) self.now }
    {
        match self.kept.first() {
            Some(kept) => kept.get(text),
            None => None,
        }
    }

    // An error changes nothing.
    fn put(&mut self, alloc: Global, text: &str, span: Span) -> Result<(), AllocError>
        ensures ok { OnOk result (self.new ≡ put self.old text.now span) }
        ensures err { OnErr result (self.new ≡ self.old) }
    {
        if let Some(kept) = self.kept.first_mut() {
            return kept.put(alloc, text, span);
        }
        let mut first = ByName::new(alloc);
        first.put(alloc, text, span)?;
        self.kept.push(first)?;
        Ok(())
    }
}

/// Names that hosts have besides their addresses, in the order of adding. A client on a host counts as
/// each that is a name of it, too. A contract sees the list.
#[derive(Drop)]
pub struct HostNames {
    alloc: Global,
    rows: Vec<HostName>,
    // Where each address has its rows.
    spans: Spans,
}

impl Model for HostNames {
    ghost use Rattle.std.specs.Prelude.{List};
    ghost use Rattle.access_file.specs.HostNames.{AreSpans};
    ghost use Rattle.access_file.specs.declared.host_names.HostName.{HostName};

    ghost Value = { List HostName };

    ghost view = { λ n. n.rows.items };

    ghost invariant = { λ n. AreSpans n.rows.items n.spans };
}

impl HostNames {
    /// No host has a name. It takes no memory.
    pub fn new(alloc: Global) -> HostNames
        ensures { result ≡ [] }
    {
        HostNames {
            alloc,
            rows: Vec::new(alloc),
            spans: Spans::new(alloc),
        }
    }

    /// Gives the host at the address a name, behind those that it has. An error changes nothing.
    pub fn add(&mut self, address: Host, name: Host) -> Result<(), AllocError>
        ensures ok { OnOk result (self.new ≡ self.old ++ (record { address = address; name = name }) ∷ []) }
        ensures err { OnErr result (self.new ≡ self.old) }
    {
        let text = address.text().to_ascii_lowercase(self.alloc)?;
        let first = first_of(&self.spans, &text, self.rows.len());
        self.rows.push(HostName { address, name })?;
        let end = self.rows.len();
        if let Err(fault) = self.spans.put(self.alloc, &text, Span { first, end }) {
            self.rows.pop();
            return Err(fault);
        }
        Ok(())
    }

    /// The rows, in order.
    pub fn as_slice(&self) -> &[HostName]
        ensures { result.now ≡ self.now }
    {
        self.rows.as_slice()
    }

    /// Rows that give the host its names: none where it has none. It takes no memory, and costs as much however
    /// many hosts have names; where rows of one host stand behind one another these are all.
    #[tactic(auto, unfolding(crate::specs::HostNames::hosts_of), using(crate::proofs::HostLemmas::names_in_span, crate::proofs::HostLemmas::no_names))]
    pub fn of(&self, host: &Host) -> &[HostName]
        ensures { hosts_of result.now host.now ≡ hosts_of self.now host.now }
    {
        let mut room = [0; HOST_LIMIT];
        let Some(text) = folded(host, &mut room) else {
            return self.rows.as_slice();
        };
        match self.spans.get(text) {
            Some(span) => match self.rows.get(span.first..span.end) {
                Some(rows) => rows,
                None => self.rows.as_slice(),
            },
            None => &[],
        }
    }
}

// The place of the first row of an address, which is here where it has none.
fn first_of(spans: &Spans, text: &str, here: usize) -> usize
    ensures { result ≡ first_of here (lookup (bytes_eq text.now) spans.now) }
{
    match spans.get(text) {
        Some(span) => span.first,
        None => here,
    }
}
