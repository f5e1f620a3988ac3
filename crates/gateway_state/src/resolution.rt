//! What an asked name leads to under a policy.
ghost use Rattle.std.specs.Prelude.{◌≡◌, IfOk};
ghost use Rattle.std.specs.Option.{option_copied};
ghost use Rattle.gateway_state.specs.Resolution.{is_real, lead_of, rights_left};

use pv_alias::{Lead, resolve_known};
use pv_name::{Host, Name};
use rule_desk::Policy;
use std::alloc::{AllocError, Global};

/// Where the name leads that a host asks for; nothing where it is refused.
pub fn lead_of(
    alloc: Global,
    policy: &Policy,
    host: &Host,
    name: &Name,
) -> Result<Option<Lead>, AllocError>
    ensures { IfOk result (λ lead. lead ≡ lead_of policy.now host.now name.now) }
{
    resolve_known(alloc, &policy.rules, host, policy.names.of(host), name)
}

/// Whether a name leads to this real name.
pub fn is_real(lead: Option<&Lead>, name: &Name) -> bool
    ensures { result ≡ is_real (option_copied lead.entry) name.now }
{
    match lead {
        Some(lead) => lead.real == *name,
        None => false,
    }
}

/// The access rights that the policy leaves to who was led so (bit 0: read, bit 1: write), none to who
/// was refused.
pub fn rights_left(policy: &Policy, lead: Option<&Lead>) -> u32
    ensures { result ≡ rights_left policy.now (option_copied lead.entry) }
{
    match lead {
        Some(lead) => policy.rights(lead),
        None => 0,
    }
}
