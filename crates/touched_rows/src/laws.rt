//! Laws of the definitions: each is the contract of a call that does nothing.
ghost use Rattle.std.specs.Prelude.{◌≡◌};
ghost use Rattle.gateway_state.specs.declared.event.Event.{Event};
ghost use Rattle.gateway_state.specs.Direct.{direct_effect};
ghost use Rattle.gateway_state.specs.Gateway.{Gateway};
ghost use Rattle.gateway_state.specs.Reached.{IsReached};
ghost use Rattle.gateway_state.specs.Step.{step};
ghost use Rattle.touched_rows.specs.Touches.{event_touches, consequences_of};

/// In every state that a run reaches, an event does its direct effect, and then what follows is told
/// on what the event touches alone.
pub fn steps_follow_what_is_touched()
    ensures { (w : Gateway) (event : Event) → IsReached w
        → step w event ≡ consequences_of (event_touches w event) (direct_effect w event) }
{}
