//! How a client's datagram is answered.
ghost use Rattle.std.specs.Prelude.{◌≡◌, Err, IfOk, alloc_error};
ghost use Rattle.std.specs.Fn.{FnReturnsAt};
ghost use Rattle.pv_search.specs.Answer.{HasUnanswered, IsAnswer, IsTested, names};

use crate::NoMemory;
use crate::datagram::Datagram;
use crate::reply::search_reply;
use crate::search::{SearchRequest, searches_in};
use pv_name::Name;
use std::alloc::Global;
use std::marker::Model;

/// Names, in order.
#[derive(Debug, Drop)]
pub struct Names {
    names: Vec<Name>,
}

impl Model for Names {
    ghost use Rattle.std.specs.Prelude.{ℕ, List};

    ghost Value = { List (List ℕ) };

    ghost view = { λ n. n.names.items };
}

impl Names {
    /// It takes no memory.
    pub fn as_slice(&self) -> &[Name]
        ensures { result.now ≡ self.now }
    {
        self.names.as_slice()
    }
}

/// What a client's datagram comes to.
#[derive(Debug, Drop)]
pub struct SearchAnswer {
    /// The datagram to send back: empty where no name passes.
    pub reply: Datagram,
    /// The names that were asked for, in order, each as often as it was.
    pub asked: Names,
}

/// The answer to a client's datagram, where the names that pass the test are served at this TCP port.
/// Where the test can only fail for a name that is asked for, so does the call.
pub fn answer<F: Fn(&Name) -> Result<bool, NoMemory>>(
    alloc: Global,
    datagram: &[u8],
    port: u16,
    test: F,
) -> Result<SearchAnswer, NoMemory>
    requires { F.IsAlwaysCallable test }
    ensures ok { IfOk result (λ answer. IsAnswer (λ name passes. FnReturnsAt F.Fn test name (Ok passes)) datagram.now port answer) }
    ensures err { HasUnanswered (λ name passes. FnReturnsAt F.Fn test name (Ok passes)) datagram.now → result ≡ Err alloc_error }
{
    let searches = searches_in(alloc, datagram)?;
    let tested = test_names(alloc, &searches, test)?;
    let reply = search_reply(alloc, port, &tested.passed)?;
    Ok(SearchAnswer {
        reply: Datagram { bytes: reply },
        asked: Names {
            names: tested.names,
        },
    })
}

/// Searches after the test.
#[derive(Drop)]
struct Tested {
    /// The names, in order.
    names: Vec<Name>,
    /// The CIDs of those that passed, in order.
    passed: Vec<u32>,
}

fn test_names<F: Fn(&Name) -> Result<bool, NoMemory>>(
    alloc: Global,
    searches: &[SearchRequest<'_>],
    test: F,
) -> Result<Tested, NoMemory>
    requires { F.IsAlwaysCallable test }
    ensures names { IfOk result (λ tested. tested.names.items ≡ names searches.now) }
    ensures passed { IfOk result (λ tested. IsTested (λ name passes. FnReturnsAt F.Fn test name (Ok passes)) searches.now tested.passed.items) }
{
    let mut names = Vec::new(alloc);
    let mut passed = Vec::new(alloc);
    for search in searches {
        let name = search.name.to_name(alloc)?;
        let passes = test(&name)?;
        if passes {
            passed.push(search.cid)?;
        }
        names.push(name)?;
    }
    Ok(Tested { names, passed })
}
