//! What others are owed after an event.
use bytes::Bytes;
use ca_message::WrittenValue;
use channel_table::{Reach, WaitingRead};
use link_table::{LinkState, Subject, Subscription};
use mask_merge::Want;

/// What becomes of a READ_NOTIFY.
#[derive(Clone, Copy)]
pub enum ReadVerdict {
    /// The session has no such channel.
    NoChannel,
    /// The channel has no connected variable, so nothing is said.
    Ignored,
    /// It is refused with this code.
    Refused(u32),
    /// It is accepted: the channel's reach and rights from now on.
    Accepted { reach: Reach, rights: u32 },
}

/// What becomes of an EVENT_ADD.
#[derive(Clone, Copy)]
pub enum SubVerdict {
    /// The session has no such channel.
    NoChannel,
    /// The channel has no connected variable, so nothing is said.
    Ignored,
    /// It is refused over its channel, which the client calls `cid`, with this code.
    Refused { cid: u32, code: u32 },
    /// The subscription is made.
    Accepted,
}

/// What becomes of a WRITE or a WRITE_NOTIFY.
#[derive(Drop)]
pub enum WriteVerdict<'a> {
    /// The session has no such channel.
    NoChannel,
    /// The channel has no connected variable, so nothing is said.
    Ignored,
    /// It is refused over its channel, which the client calls `cid`, with this code.
    Refused {
        cid: u32,
        code: u32,
    },
    /// The value goes to this server, for the channel that it calls `sid`.
    Accepted {
        server: u32,
        sid: u32,
        value: WrittenValue<'a>,
    },
}

/// What a client is owed about one of its channels.
#[derive(Clone, Copy)]
pub enum ChannelNotice {
    /// The channel is gone.
    Disconnected {
        session: u32,
        sid: u32,
        cid: u32,
    },
    /// It has other access rights.
    RightsChanged {
        session: u32,
        sid: u32,
        cid: u32,
        reach: Reach,
        rights: u32,
    },
}

/// What a server is owed about one of its links.
#[derive(Clone, Copy)]
pub enum LinkNotice {
    /// The present subscription for a subject is given up.
    Cancelled {
        subject: Subject,
        server: u32,
        cid: u32,
        sid: u32,
        dtype: u16,
        subscription: Subscription,
    },
    /// Nobody wants to be told of the subject any more, so what was told of it last goes.
    Unread {
        subject: Subject,
        cid: u32,
    },
    /// A new subscription for a subject is wanted.
    Subscribed {
        subject: Subject,
        server: u32,
        cid: u32,
        sid: u32,
        dtype: u16,
        want: Want,
        sent: u32,
    },
    /// The link is no longer wanted.
    Dropped {
        server: u32,
        cid: u32,
        state: LinkState,
    },
}

/// What a client is owed about a read that waits.
#[derive(Drop)]
pub enum ReadNotice {
    /// The read is refused with this code.
    Refused(WaitingRead, u32),
    /// The read is answered by so many elements with this payload.
    Answered(WaitingRead, u32, Bytes),
}

/// The update that is due to a client's subscription.
#[derive(Drop)]
pub struct UpdateNotice {
    pub session: u32,
    pub id: u32,
    pub dtype: u16,
    pub count: u32,
    pub payload: Bytes,
}
