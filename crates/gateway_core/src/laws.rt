//! Laws of whole runs. Each is a call that does nothing, and its contract is the law.
ghost use Rattle.std.specs.Prelude.{◌≡◌, ℕ, List, [], ◌∷◌, ◌++◌, false, if◌then◌else◌, Some, None, IfSome};
ghost use Rattle.std.specs.List.{All};
ghost use Rattle.gateway_state.specs.declared.config.Config.{Config};
ghost use Rattle.link_table.specs.declared.links.Subject.TheVariants.{Properties};
ghost use Rattle.channel_table.specs.declared.sessions.Session.{Session};
ghost use Rattle.pv_alias.specs.declared.lead.Lead.{Lead};
ghost use Rattle.pv_alias.specs.Rights.{group_rights};
ghost use Rattle.rule_desk.specs.declared.policy.Policy.{Policy};
ghost use Rattle.gateway_state.specs.declared.event.Dest.{Dest};
ghost use Rattle.gateway_state.specs.declared.event.Event.{Event};
ghost use Rattle.gateway_state.specs.Delivered.{IsWireForm, given_by, is_loss_of};
ghost use Rattle.gateway_state.specs.Gateway.{Gateway, initial};
ghost use Rattle.gateway_state.specs.Resolution.{lead_of, rights_left};
ghost use Rattle.gateway_state.specs.Rights.{lead_for};
ghost use Rattle.gateway_state.specs.Settled.{AreNumbersApart, HasHostsFixed, HasLinksApart, HasLinksOnServers, HasServersOfLinks, HasSessionsConnected, HasSubsApart, HasSubsOnChannels, HasWritesOnLinks, IsInUse, IsKeptPosted, IsSettled, IsSubscribedExactly, IsSubscribedTo, IsUpToDate, IsWaiting};
ghost use Rattle.gateway_state.specs.Step.{consequences, delivered, makes, run};

/// In every state that a run reaches nobody is owed anything: no pass over channels, links, waiting
/// reads or subscriptions would tell or change anything.
pub fn run_is_settled()
    ensures { (config : Config) (policy : Policy) (events : List Event)
        → IsSettled (run (initial config policy) events) }
{}

/// Where nobody is owed anything, the passes change and send nothing.
pub fn settled_states_stay()
    ensures { (w : Gateway) → IsSettled w → consequences w ≡ w }
{}

/// In every state that a run reaches each channel is served, and has the rights that its client was
/// last told.
pub fn run_leaves_channels_up_to_date()
    ensures { (config : Config) (policy : Policy) (events : List Event)
        → let w = run (initial config policy) events in All (IsUpToDate w) w.clients.channels }
{}

/// In every state that a run reaches each link is wanted, and where it is connected it has a
/// subscription exactly for what is read.
pub fn run_leaves_links_in_use()
    ensures { (config : Config) (policy : Policy) (events : List Event)
        → let w = run (initial config policy) events in All (IsInUse w) w.upstream.links }
{}

/// In every state that a run reaches each waiting read still waits for its value: its channel stands
/// and may be read, over a connected link whose last message doesn't cover it.
pub fn run_leaves_reads_that_wait()
    ensures { (config : Config) (policy : Policy) (events : List Event)
        → let w = run (initial config policy) events in All (IsWaiting w) w.clients.reads }
{}

/// In every state that a run reaches each variable has a subscription upstream exactly for what its
/// readers want together, and none where nobody reads it; and one to its properties exactly where a reader
/// asks for them.
pub fn run_subscribes_exactly()
    ensures values { (config : Config) (policy : Policy) (events : List Event)
        → IsSubscribedExactly (run (initial config policy) events) }
    ensures properties { (config : Config) (policy : Policy) (events : List Event)
        → IsSubscribedTo Properties (run (initial config policy) events) }
{}

/// In every state that a run reaches a client's subscription is owed an update as long as its channel
/// may not be read; and where one is owed, its session takes none now, the channel may not be read, or
/// the last message doesn't cover it.
pub fn run_keeps_clients_posted()
    ensures { (config : Config) (policy : Policy) (events : List Event)
        → let w = run (initial config policy) events in All (IsKeptPosted w) w.clients.subs }
{}

/// In every state that a run reaches each subscription of a client is on a channel that stands.
pub fn run_keeps_subscriptions_on_channels()
    ensures { (config : Config) (policy : Policy) (events : List Event)
        → HasSubsOnChannels (run (initial config policy) events) }
{}

/// In every state that a run reaches each write that waits is on a channel that stands, and waits for
/// the server of that channel's link.
pub fn run_keeps_writes_on_links()
    ensures { (config : Config) (policy : Policy) (events : List Event)
        → HasWritesOnLinks (run (initial config policy) events) }
{}

/// In no state that a run reaches has a session two subscriptions under one ID.
pub fn run_keeps_subscriptions_apart()
    ensures { (config : Config) (policy : Policy) (events : List Event)
        → HasSubsApart (run (initial config policy) events) }
{}

/// In no state that a run reaches has a name two links.
pub fn run_links_names_once()
    ensures { (config : Config) (policy : Policy) (events : List Event)
        → HasLinksApart (run (initial config policy) events) }
{}

/// In every state that a run reaches each link belongs to a server that stands.
pub fn run_keeps_links_on_servers()
    ensures { (config : Config) (policy : Policy) (events : List Event)
        → HasLinksOnServers (run (initial config policy) events) }
{}

/// In every state that a run reaches each session has a connection.
pub fn run_keeps_sessions_connected()
    ensures { (config : Config) (policy : Policy) (events : List Event)
        → HasSessionsConnected (run (initial config policy) events) }
{}

/// In every state that a run reaches the session of each channel stands, and has its host fixed: so no
/// HOST_NAME leads the name of a channel elsewhere.
pub fn run_keeps_hosts_fixed()
    ensures { (config : Config) (policy : Policy) (events : List Event)
        → HasHostsFixed (run (initial config policy) events) }
{}

/// In every state that a run reaches the server of each link has a row.
pub fn run_keeps_servers_of_links()
    ensures { (config : Config) (policy : Policy) (events : List Event)
        → HasServersOfLinks (run (initial config policy) events) }
{}

/// In every state that a run reaches numbers tell rows apart: no session has two channels under one SID,
/// no two links have one CID, and no server has two subscriptions or two writes under one ID. All are below
/// their counters as long as those didn't begin again at the first number.
pub fn run_keeps_numbers_apart()
    ensures { (config : Config) (policy : Policy) (events : List Event)
        → AreNumbersApart (run (initial config policy) events) }
{}

/// What was delivered to a connection, once one event more ran, is what was delivered before and then,
/// in order, what this event gave it. It begins anew where the event makes the connection's row; what
/// waited for a connection that is lost is never delivered.
pub fn delivered_grows_by_what_is_given()
    ensures { (config : Config) (policy : Policy) (events : List Event) (event : Event) (dest : Dest)
        → is_loss_of event dest ≡ false
        → let w = initial config policy in delivered w (events ++ event ∷ []) dest
        ≡ (if makes (run w events) event dest then [] else delivered w events dest) ++ given_by (run w events) event dest }
{}

/// Each message that an event gives a connection is the wire form of one reply or notice, where it is
/// a client's, or of one request, where it is a server's. An ECHO goes only to a client whose ECHO the
/// event is, and is that message; an ERROR only to a client whose message the event is, and has its
/// header. A value is one that is laid out in the type and count that are told with it.
pub fn what_is_given_is_in_wire_form()
    ensures { (w : Gateway) (event : Event) (dest : Dest) → All (IsWireForm event dest) (given_by w event dest) }
{}

/// Without an access security file users count for nothing: a session is led as anybody on its host is, where nothing is
/// granted, and may do what the group file leaves to the variable's group.
pub fn users_count_for_nothing_without_access()
    ensures leads { (policy : Policy) (name : List ℕ) (row : Session) → policy.access ≡ None
        → lead_for policy name (Some row) ≡ lead_of policy row.host name }
    ensures ungranted { (policy : Policy) (host name : List ℕ)
        → IfSome (lead_of policy host name) (λ (lead : Lead). lead.grant ≡ None) }
    ensures rights { (policy : Policy) (lead : Lead) → lead.grant ≡ None
        → rights_left policy (Some lead) ≡ group_rights policy.groups lead.group }
{}
