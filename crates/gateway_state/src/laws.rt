//! Laws of the definitions: each is the contract of a call that does nothing.
ghost use Rattle.std.specs.Prelude.{◌≡◌, ◌+◌, ℕ, List};
ghost use Rattle.gateway_state.specs.declared.config.TheConstants.{LAST_FIRST};
ghost use Rattle.gateway_state.specs.declared.interest.TheConstants.{ALARM_EVENTS, CTRL_FORM, PLAIN_TYPES, SERVED_EVENTS, TIME_FORM, VALUE_EVENTS};
ghost use Rattle.gateway_state.specs.declared.limits.TheConstants.{LOWEST_MINOR, SEARCH_LIMIT, UPDATE_BYTES, UPDATE_LIMIT, UPDATE_MINOR};
ghost use Rattle.gateway_state.specs.Gateway.{Gateway};
ghost use Rattle.gateway_state.specs.Variables.{asks, is_among, is_missing};

/// The numbers that the definitions name. Masks are sums of VALUE 1, LOG 2, ALARM 4 and PROPERTY 8; there
/// are seven plain DBR types, and the TIME form of each is 14 above it, the CTRL form 28 (Channel Access
/// Protocol Specification, "Monitor Mask" and "DBR Types"). A client speaks minor version 9 at least, and a
/// server from 13 on takes the count 0 as the native one. The limits are the gateway's own.
pub fn numbers_are_as_documented()
    ensures value_events { VALUE_EVENTS ≡ 1 + 2 }
    ensures alarm_events { ALARM_EVENTS ≡ 4 }
    ensures served_events { SERVED_EVENTS ≡ 1 + 2 + 4 + 8 }
    ensures plain_types { PLAIN_TYPES ≡ 7 }
    ensures time_form { TIME_FORM ≡ 14 }
    ensures ctrl_form { CTRL_FORM ≡ 28 }
    ensures lowest_minor { LOWEST_MINOR ≡ 9 }
    ensures update_minor { UPDATE_MINOR ≡ 13 }
    ensures searches { SEARCH_LIMIT ≡ 4096 }
    ensures updates { UPDATE_LIMIT ≡ 4096 }
    ensures update_bytes { UPDATE_BYTES ≡ 0xFFFF_FFFF_FFFF_FFFF }
    ensures last_first { LAST_FIRST ≡ 0xFFFF_FFFE }
{}

/// The names to ask servers for are exactly those that are wanted and have no link.
#[tactic(auto, using(crate::proofs::AskedNames::asks_missing))]
pub fn asks_are_the_missing_names()
    ensures { (w : Gateway) (name : List ℕ) → is_among (asks w) name ≡ is_missing w name }
{}
