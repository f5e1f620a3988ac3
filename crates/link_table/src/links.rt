//! Rows of links.
ghost use Rattle.std.specs.Prelude.{◌≡◌};
ghost use Rattle.link_table.specs.Links.{none_yet, sub_at, with_at};

use pv_name::Name;

/// The gateway's channel on one server, for one process variable.
#[derive(Debug, Drop)]
pub struct LinkRow {
    /// The gateway's ID of the channel.
    pub cid: u32,
    /// The number of its server.
    pub server: u32,
    /// The variable's name on the server.
    pub name: Name,
    pub state: LinkState,
    /// The access rights that the server told: bit 0 to read, bit 1 to write.
    pub rights: u32,
    /// The present subscriptions.
    pub subscriptions: Subscriptions,
}

/// How far a link has come.
#[derive(Clone, Copy, Debug, PartialEq, Eq)]
pub enum LinkState {
    /// The server was asked for the channel.
    Creating,
    /// The server made the channel.
    Connected {
        /// The server's ID of the channel.
        sid: u32,
        /// The native DBR type.
        dtype: u16,
        /// The native element count.
        count: u32,
    },
    /// The server made a channel that the gateway can't use.
    Unusable,
}

/// Of what a subscription upstream tells.
#[derive(Clone, Copy, Debug, PartialEq, Eq)]
pub enum Subject {
    Values,
    Properties,
}

/// A link's subscriptions upstream, one for each subject.
#[derive(Clone, Copy, Debug, PartialEq, Eq)]
pub struct Subscriptions {
    pub values: Option<Subscription>,
    pub properties: Option<Subscription>,
}

/// A subscription of a link.
#[derive(Clone, Copy, Debug, PartialEq, Eq)]
pub struct Subscription {
    /// The gateway's ID of it.
    pub id: u32,
    /// The events that are reported.
    pub mask: u16,
    /// How many elements an update has at most.
    pub count: u32,
    /// The count field as it was sent.
    pub sent: u32,
}

impl Subscriptions {
    /// No subscription.
    pub fn none_yet() -> Subscriptions
        ensures { result ≡ none_yet }
    {
        Subscriptions {
            values: None,
            properties: None,
        }
    }

    /// The subscription on a subject.
    pub fn at(&self, subject: Subject) -> Option<Subscription>
        ensures { result ≡ sub_at subject self.now }
    {
        match subject {
            Subject::Values => self.values,
            Subject::Properties => self.properties,
        }
    }

    /// Puts a subscription on a subject, or none, in place of the one there.
    pub fn put(&mut self, subject: Subject, sub: Option<Subscription>)
        ensures { self.new ≡ with_at subject sub self.old }
    {
        match subject {
            Subject::Values => self.values = sub,
            Subject::Properties => self.properties = sub,
        }
    }
}
