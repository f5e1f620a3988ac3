//! The laws of the definitions that the contracts of this crate cite.
ghost use Rattle.std.specs.Prelude.{◌≡◌, ℕ, ◌+◌, ◌≤◌, ◌↔◌, List, [], ◌∷◌, ◌++◌, length};
ghost use Rattle.ca_header.specs.declared.frames.Frame.{Frame};
ghost use Rattle.ca_header.specs.declared.header.Header.{Header};
ghost use Rattle.ca_header.specs.declared.header.Message.{Message};
ghost use Rattle.ca_header.specs.declared.header.TheConstants.{ALIGNMENT, EXTENDED_LEN, EXTENDED_MARK, MAX_PAYLOAD, PLAIN_LEN};
ghost use Rattle.ca_header.specs.declared.reading.FrameFault.{FrameFault};
ghost use Rattle.ca_header.specs.Frames.{AreNext, ending_in, messages_in};
ghost use Rattle.ca_header.specs.Framing.{Ending, IsFaulty, IsFramed, IsPartHead, IsPartial};
ghost use Rattle.ca_header.specs.Header.{canonical_header, message_text};
ghost use Rattle.ca_header.specs.Intake.{Happening, LeadsTo, ending_at, fed, taken};
ghost use Rattle.ca_header.specs.Reading.{front_at, head_at, refused};
ghost use Rattle.ca_header.specs.Spelling.{AreSpelled, BeginsWith, IsBytes, IsHeader, IsSpelled, IsWellFormed};

use crate::reading::{Front, Head};

/// The numbers of headers and payloads.
pub fn numbers_are_these()
    ensures plain_len { PLAIN_LEN ≡ 16 }
    ensures extended_len { EXTENDED_LEN ≡ 24 }
    ensures extended_mark { EXTENDED_MARK ≡ 0xFFFF }
    ensures alignment { ALIGNMENT ≡ 8 }
    ensures max_payload { MAX_PAYLOAD ≡ 16_777_216 }
{}

/// A well-formed header that is written is read as itself, whatever follows it.
pub fn canonical_header_is_read()
    ensures { (h : Header) (rest : List ℕ) → IsHeader h → IsWellFormed h
        → head_at (canonical_header h ++ rest) ≡ Head.Got h (length (canonical_header h)) }
{}

/// A header is got exactly where the bytes begin with a spelling of it that is well-formed.
pub fn header_is_got()
    ensures { (bytes : List ℕ) (h : Header) (n : ℕ) → IsBytes bytes
        → (head_at bytes ≡ Head.Got h n) ↔ (BeginsWith bytes h n × IsWellFormed h) }
{}

/// A header is refused exactly where the bytes begin with a spelling of one that has this fault.
pub fn header_is_refused()
    ensures { (bytes : List ℕ) (f : FrameFault) → IsBytes bytes
        → (head_at bytes ≡ refused f) ↔ IsFaulty bytes f }
{}

/// More bytes are needed exactly where the bytes are the beginning of some header.
pub fn header_needs_more()
    ensures { (bytes : List ℕ) → IsBytes bytes → (head_at bytes ≡ Head.Need) ↔ IsPartHead bytes }
{}

/// A message is whole exactly where the bytes begin with its well-formed header and hold its
/// payload.
pub fn message_is_whole()
    ensures { (bytes : List ℕ) (h : Header) (n : ℕ) → IsBytes bytes
        → (front_at bytes ≡ Front.Whole h n)
        ↔ (BeginsWith bytes h n × IsWellFormed h × (n + h.size ≤ length bytes)) }
{}

/// The bytes are the beginning of a message exactly where there is no whole one and no fault.
pub fn message_is_partial()
    ensures { (bytes : List ℕ) → IsBytes bytes → (front_at bytes ≡ Front.Partial) ↔ IsPartial bytes }
{}

/// The stream has a fault exactly where the bytes begin with a header that has it.
pub fn stream_is_faulty()
    ensures { (bytes : List ℕ) (f : FrameFault) → IsBytes bytes
        → (front_at bytes ≡ Front.Fault f) ↔ IsFaulty bytes f }
{}

/// No stream can be cut into messages in two ways.
pub fn framing_is_unique()
    ensures { (stream : List ℕ) (ms ns : List Message) (end other : Ending) → IsBytes stream
        → IsFramed stream ms end → IsFramed stream ns other → (ms ≡ ns) × (end ≡ other) }
{}

/// Every stream can be cut into messages in one way.
pub fn every_stream_has_a_framing()
    ensures { (stream : List ℕ) → IsBytes stream
        → (messages : List Message) × (end : Ending) × IsFramed stream messages end }
{}

/// A message that is sent is one of the spellings of that message.
pub fn message_text_is_a_spelling()
    ensures { (m : Message) → IsHeader m.head → IsWellFormed m.head → length m.payload ≡ m.head.size
        → IsSpelled m (message_text m) }
{}

/// What `Frames::next` gives, up to a frame that is no message, is the framing of the bytes.
pub fn frames_are_the_framing()
    ensures { (bytes : List ℕ) (frames : List Frame) (last : Frame) (end : Ending) → IsBytes bytes
        → AreNext bytes (frames ++ last ∷ []) → ending_in last ≡ Some end
        → IsFramed bytes (messages_in frames) end }
{}

/// However a stream came in pieces, the pieces joined are spellings of the messages taken, and then
/// what is held.
pub fn pieces_are_taken_or_held()
    ensures { (happenings : List Happening) (held : List ℕ) → IsBytes (fed happenings)
        → LeadsTo [] happenings held
        → (whole : List ℕ) × AreSpelled (taken happenings) whole × (fed happenings ≡ whole ++ held) }
{}

/// Where no message is left to be taken, the messages taken are the framing of the pieces joined.
pub fn intake_is_the_framing()
    ensures { (happenings : List Happening) (held : List ℕ) (end : Ending) → IsBytes (fed happenings)
        → LeadsTo [] happenings held → ending_at held (front_at held) ≡ Some end
        → IsFramed (fed happenings) (taken happenings) end }
{}
