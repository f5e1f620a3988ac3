//! Laws of histories. Each is a call that does nothing, and its contract is the law.
ghost use Rattle.std.specs.Prelude.{◌≡◌, ℕ, List, [], ◌∷◌, ◌++◌, Bool, Some};
ghost use Rattle.rows.specs.Rows.{change_first};
ghost use Rattle.fanout.specs.declared.outbox.Out.{Out};
ghost use Rattle.gateway_state.specs.Gateway.{initial};
ghost use Rattle.gateway_state.specs.declared.config.Config.{Config};
ghost use Rattle.gateway_state.specs.declared.event.Dest.{Dest};
ghost use Rattle.gateway_state.specs.declared.event.Event.{Event};
ghost use Rattle.rule_desk.specs.declared.policy.Policy.{Policy};
ghost use Rattle.board_rings.specs.Attachments.{is_attachment_of, with_free, with_full, with_leaving};
ghost use Rattle.board_rings.specs.Rings.{Ring};
ghost use Rattle.board_rings.specs.declared.inbound.Inbound.{Inbound};
ghost use Rattle.board_rings.specs.Board.{BoardState};
ghost use Rattle.board_rings.specs.Calls.{Attaches, DeskFails, Desks, PumpFails, Pumps, Retires, SendFails, Sends};
ghost use Rattle.board_rings.specs.History.{IsOnRun};
ghost use Rattle.board_rings.specs.declared.entry.TheConstants.{MOST_SENT};
ghost use Rattle.board_rings.specs.declared.entry.Entry.{Entry};
ghost use Rattle.board_rings.specs.declared.entry.Entry.TheVariants.{Pumped, Desked, Sent, Attached, Retired};

/// How many messages one entry sends on at most.
pub fn numbers_are_these()
    ensures most_sent { MOST_SENT ≡ 64 }
{}

/// A board to which nothing happened yet has the empty history.
pub fn new_boards_have_no_history()
    ensures { (config : Config) (policy : Policy) → let board : BoardState = record { rows = Some (initial config policy); attachments = [] } in
        IsOnRun board config policy [] }
{}

/// Where an item is received and its event performed, the history goes on by that.
pub fn pumps_go_on()
    ensures { (config : Config) (policy : Policy) (history : List Entry) (dest : Dest) (item : Inbound) (old new : BoardState)
        → IsOnRun old config policy history → Pumps dest item old new
        → IsOnRun new config policy (history ++ Pumped dest item ∷ []) }
{}

/// Where an item is received and its event refused, the history stays, and the board has failed.
pub fn refused_pumps_stay()
    ensures { (config : Config) (policy : Policy) (history : List Entry) (dest : Dest) (item : Inbound) (old new : BoardState)
        → IsOnRun old config policy history → PumpFails dest item old new
        → IsOnRun new config policy history }
{}

/// Where an event is handed in and performed, the history goes on by that.
pub fn desks_go_on()
    ensures { (config : Config) (policy : Policy) (history : List Entry) (event : Event) (old new : BoardState)
        → IsOnRun old config policy history → Desks event old new
        → IsOnRun new config policy (history ++ Desked event ∷ []) }
{}

/// Where an event is handed in and refused, the history stays, and the board has failed.
pub fn refused_desks_stay()
    ensures { (config : Config) (policy : Policy) (history : List Entry) (old new : BoardState)
        → IsOnRun old config policy history → DeskFails old new
        → IsOnRun new config policy history }
{}

/// Where messages are taken and pushed, the history goes on by that.
pub fn sends_go_on()
    ensures { (config : Config) (policy : Policy) (history : List Entry) (dest : Dest) (found count : ℕ) (outs : List Out) (old new : BoardState)
        → IsOnRun old config policy history → Sends dest found count outs old new
        → IsOnRun new config policy (history ++ Sent dest count ∷ []) }
{}

/// Where messages are refused, the history stays, and the board has failed.
pub fn refused_sends_stay()
    ensures { (config : Config) (policy : Policy) (history : List Entry) (dest : Dest) (found : ℕ) (old new : BoardState)
        → IsOnRun old config policy history → SendFails dest found old new
        → IsOnRun new config policy history }
{}

/// Where a connection gets its rings, the history goes on by that.
pub fn attaches_go_on()
    ensures { (config : Config) (policy : Policy) (history : List Entry) (dest : Dest) (in_ring out_ring : Ring) (free : ℕ) (old new : BoardState)
        → IsOnRun old config policy history → Attaches dest in_ring out_ring free old new
        → IsOnRun new config policy (history ++ Attached dest ∷ []) }
{}

/// Where a connection's rings are taken off, the history goes on by that.
pub fn retires_go_on()
    ensures { (config : Config) (policy : Policy) (history : List Entry) (dest : Dest) (old new : BoardState)
        → IsOnRun old config policy history → Retires dest old new
        → IsOnRun new config policy (history ++ Retired dest ∷ []) }
{}

/// A ring that nothing went through, and places that were looked at, are no history: what is said of a
/// board depends on its rows, and on what its attachments received and were pushed.
pub fn places_are_no_history()
    ensures { (config : Config) (policy : Policy) (history : List Entry) (dest : Dest) (found : ℕ) (old new : BoardState)
        → IsOnRun old config policy history
        → new.rows ≡ old.rows → new.attachments ≡ change_first (is_attachment_of dest) (with_free found) old.attachments
        → IsOnRun new config policy history }
{}

/// Nor are the marks that are kept with an attachment: that its end was said to come, and that too much waits for it.
pub fn marks_are_no_history()
    ensures leaving { (config : Config) (policy : Policy) (history : List Entry) (dest : Dest) (old new : BoardState)
        → IsOnRun old config policy history
        → new.rows ≡ old.rows → new.attachments ≡ change_first (is_attachment_of dest) with_leaving old.attachments
        → IsOnRun new config policy history }
    ensures full { (config : Config) (policy : Policy) (history : List Entry) (dest : Dest) (full : Bool) (old new : BoardState)
        → IsOnRun old config policy history
        → new.rows ≡ old.rows → new.attachments ≡ change_first (is_attachment_of dest) (with_full full) old.attachments
        → IsOnRun new config policy history }
{}
