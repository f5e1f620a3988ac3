//! The rings between the board and the workers of each connection.
//!
//! A connection that is attached has an attachment on the board: a ring in, by which its reader hands over what
//! comes from the peer, and a ring out, by which its writer is handed what goes there. The workers' ends
//! are an [`Inlet`] and an [`Outlet`]; the board's ends of both are in its [`Attachment`], and come back as
//! [`Ends`] where the connection is retired. [`Attachments`] are those of all connections, clients
//! first, each by rising number.
//!
//! - [`Inlet::offer`] and [`Outlet::next`] are one push or pop each. They never wait, and take no memory.
//!   [`Inlet::is_clear`] looks whether all that was offered has been received.
//! - [`Attachments::attach`] makes both rings, [`Attachments::retire`] takes the board's ends off.
//! - [`Attachments::receive`], [`Attachments::room`] and [`Attachments::push_all`] are the board's side. They are told where
//!   the attachment may stand, so that a walk over all attachments, in order, searches for none.
//!
//! A contract sees each end as all that ever went through it: what was offered, received, pushed and
//! taken, what is known to be in the ring, and how often the end looked at what the other did. An offer comes back
//! only where no place is known to be free, and nothing is taken or received only where nothing is known to be there,
//! both after a look: its count has risen, which takes no memory and no time (`counted`). Where both ends of a ring meet, `laws::left_in` and `laws::left_out` say that what went in at
//! one is what came out at the other and then what lies between, in order, each once.
//!
//! A worker's end also notes, for contracts alone, when it was told that it has to end; whoever notes it has to show it
//! of what stands under the gate's lock ([`Teller`]).
//!
//! ```
//! let dest = Dest::Session(1);
//! let mut attachments = Attachments::new(rt.alloc());
//! let (mut inlet, mut outlet) = attachments.attach(rt.alloc(), dest)?;
//! assert!(rt; inlet.offer(Inbound::Gone).is_ok());
//! assert!(rt; attachments.receive(dest, 0).is_some());
//! assert_eq!(rt; attachments.room(dest, 0), RING_SIZE);
//! attachments.push_all(dest, 0, vec![in rt.alloc(); out]?);
//! assert!(rt; outlet.next().is_some());
//! assert!(rt; attachments.retire(dest).is_some());
//! assert_eq!(rt; attachments.len(), 0);
//! ```
//!
//! And what a board's history is, and that each call of the board goes on with it.
//!
//! A board has the gateway's rows and an attachment for each attached connection (`BoardState` in
//! `specs/Board.antt`). Its history is a list of entries (`Entry`): an item of a connection that was
//! received and performed as an event, an event handed in at the desk, messages that were taken and sent
//! on, a connection that was attached or retired. `IsOnRun` of `specs/History.antt` says what ties the
//! two together: the rows are those that the history's events run to, each attached connection received
//! exactly the items that the history has of it since it was last attached, and was pushed exactly the
//! messages that the history took for it. The history is in proofs alone; nothing stores it.
//!
//! `specs/Calls.antt` has a relation for each call of a board, between the board before and after; `history_laws`
//! says of each that a history which fits before fits after, with the entry that the relation names.
#![tactic(auto)]

mod attachment;
mod attachments;
mod counted;
mod ends;
mod entry;
pub mod history_laws;
mod inbound;
pub mod laws;
mod lengths;
mod looks;
mod places;
mod told;

pub use attachment::{Attachment, RING_SIZE};
pub use attachments::Attachments;
pub use ends::{Ends, Inlet, Outlet};
pub use entry::{Entry, MOST_SENT};
pub use inbound::Inbound;
pub use told::Teller;
