//! Status codes of replies (Channel Access Protocol Specification, "Return Codes"), and the texts
//! that an ERROR carries with them.
ghost use Rattle.std.specs.Prelude.{◌≡◌, ◌≤◌, length};
ghost use Rattle.ca_message.specs.ErrorText.{text_of};

/// The request was carried out.
pub const ECA_NORMAL: u32 = 1;

/// A limit of the gateway is reached.
pub const ECA_ALLOCMEM: u32 = 48;

/// The value takes more bytes than a payload has.
pub const ECA_TOLARGE: u32 = 72;

/// The data type isn't served.
pub const ECA_BADTYPE: u32 = 114;

/// The message isn't understood.
pub const ECA_INTERNAL: u32 = 142;

/// The value couldn't be read.
pub const ECA_GETFAIL: u32 = 152;

/// The value couldn't be written.
pub const ECA_PUTFAIL: u32 = 160;

/// The channel doesn't have that many elements.
pub const ECA_BADCOUNT: u32 = 176;

/// The mask names no event.
pub const ECA_BADMASK: u32 = 330;

/// The client may not read the channel.
pub const ECA_NORDACCESS: u32 = 368;

/// The client may not write the channel.
pub const ECA_NOWTACCESS: u32 = 376;

/// The server ID names no channel.
pub const ECA_BADCHID: u32 = 410;

/// No error text is longer than this many bytes.
pub const ERROR_TEXT_LIMIT: usize = 22;

/// The text of an ERROR with this code; empty for a code that no ERROR has.
pub fn error_text(code: u32) -> &'static str
    ensures text { result.now ≡ text_of code }
    ensures short { length result.now ≤ ERROR_TEXT_LIMIT }
{
    match code {
        ECA_ALLOCMEM => "limit reached",
        ECA_TOLARGE => "value too large",
        ECA_BADTYPE => "type not served",
        ECA_INTERNAL => "request not understood",
        ECA_BADCOUNT => "bad element count",
        ECA_BADMASK => "bad event mask",
        ECA_NOWTACCESS => "no write access",
        ECA_BADCHID => "unknown channel",
        _ => "",
    }
}
