//! Laws of name servers. Each is a call that does nothing, and its contract is the law.
ghost use Rattle.std.specs.Prelude.{◌≡◌, ℕ, List, []};
ghost use Rattle.name_server.specs.Pieces.{AreHeard, HeardPiece, pieces, replies};
ghost use Rattle.name_server.specs.declared.stream_replies.TheConstants.{PAYLOAD_LIMIT};
ghost use Rattle.name_server.specs.declared.tries.TheConstants.{CALM, LONGEST_GAP};
ghost use Rattle.name_server.specs.declared.waiting_text.TheConstants.{WAITING_LIMIT};
ghost use Rattle.name_server.specs.StreamReplies.{stream_reply_of};
ghost use Rattle.pv_search.specs.Picked.{IsPicked};

/// The numbers of name servers.
pub fn numbers_are_these()
    ensures payload_limit { PAYLOAD_LIMIT ≡ 1024 }
    ensures waiting_limit { WAITING_LIMIT ≡ 131072 }
    ensures longest_gap { LONGEST_GAP ≡ 32 }
    ensures calm { CALM ≡ 60 }
{}

/// What is heard of a stream in pieces is what is read of all its bytes together, framed as a datagram is.
pub fn replies_are_heard_in_any_pieces()
    ensures { (heard : List HeardPiece) (left : List ℕ)
        → AreHeard [] heard left → IsPicked stream_reply_of (pieces heard) (replies heard) }
{}
