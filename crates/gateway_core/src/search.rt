//! Searches by datagram.
ghost use Rattle.std.specs.Prelude.{◌≡◌, IfOk};
ghost use Rattle.gateway_calls.specs.Searching.{IsSearched};

use gateway_rows::Known;
use pv_name::{Host, Name};
use pv_search::{SearchAnswer, answer};
use std::alloc::AllocError;

/// What a host's datagram comes to: those names pass that lead to connected variables.
pub(crate) fn search(
    known: &mut Known,
    host: &Host,
    datagram: &[u8],
) -> Result<SearchAnswer, AllocError>
    ensures found { IfOk result (λ answer. IsSearched known.old.state host.now datagram.now answer) }
    ensures same { known.new ≡ known.old }
{
    learn(known, host, datagram)?;
    search_known(known, host, datagram)
}

/// Where the names lead that a datagram searches for is remembered, so that the rules are run for each once:
/// not in its answer again, nor in the events that tell who looked for them.
fn learn(known: &mut Known, host: &Host, datagram: &[u8]) -> Result<(), AllocError>
    ensures same { known.new ≡ known.old }
{
    if known.searches.policy().rules.is_open() {
        return Ok(());
    }
    let none = |_name: &Name| Ok(false);
    let found = answer(known.alloc, datagram, known.config.port, none)?;
    known.learn_names(host, found.asked.as_slice())
}

fn search_known(known: &Known, host: &Host, datagram: &[u8]) -> Result<SearchAnswer, AllocError>
    ensures { IfOk result (λ answer. IsSearched known.now.state host.now datagram.now answer) }
{
    let is_found = |name: &Name| known.is_found(host, name);
    let found = answer(known.alloc, datagram, known.config.port, is_found)?;
    Ok(found)
}
