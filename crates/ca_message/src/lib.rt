//! What Channel Access messages mean (Channel Access Protocol Specification 4.13, "Commands"), between
//! headers with payloads and enums.
//!
//! - [`read_request`] and [`read_reply`] read what a client asks for and what a server says, or why a
//!   message is neither. They take no memory: texts and values are slices of the payload.
//!   [`read_message`] reads the same, of a message whose payload may be shared.
//! - [`ToClient`] and [`ToServer`] are the messages that are sent. Their `head` and `payload` are the
//!   wire form, with the payload padded and the padding counted.
//! - [`WrittenValue`] is the value of a write, as it is handed on: exactly its elements. A payload that
//!   may be shared and is that already is handed on itself, else its bytes are copied.
//! - [`commands`] and [`codes`] have the numbers of the protocol, [`error_text`] the texts of ERROR.
//!
//! Every message that is sent may head a payload and says its size (`laws::messages_to_clients_are_whole`,
//! `laws::messages_to_servers_are_whole`). What one gateway says to another is read as what was meant
//! (`laws::requests_are_read_back`, `laws::replies_are_read_back`). The numbers are those of the
//! standard (`laws::commands_are_these`, `laws::codes_are_these`, `laws::numbers_are_these`).
//!
//! ```
//! let asked = ToServer::ClearChannel { sid: 5, cid: 7 };
//! let payload = asked.payload(rt.alloc())?;
//! let read = read_request(&asked.head(), payload.as_slice());
//! assert_eq!(rt; read, Ok(ClientRequest::ClearChannel(ClearChannel { sid: 5, cid: 7 })));
//! ```
#![tactic(auto)]

pub use codes::error_text;
pub use reply::{ReplyFault, ServerReply, read_reply};
pub use request::{
    ClearChannel, ClientRequest, CreateChannel, EventAdd, EventCancel, ReadNotify, RequestFault,
    Write, WriteNotify, read_message, read_request,
};
pub use text::{HostText, NUL, NameText};
pub use to_client::ToClient;
pub use to_server::ToServer;
pub use value::ValueBytes;
pub use written::{WriteFault, WrittenValue};

pub mod codes;
pub mod commands;
pub mod laws;
mod payload;
mod reply;
mod request;
mod text;
mod to_client;
mod to_server;
mod value;
mod written;

/// Want of memory, of a call that fails for nothing else.
pub type NoMemory = std::alloc::AllocError;
