//! Laws of searches. Each is a call that does nothing, and its contract is the law.
ghost use Rattle.std.specs.Prelude.{◌≡◌, ℕ, ◌<◌, ◌^◌, Bool, IsTrue, List, [], ◌∷◌};
ghost use Rattle.ca_header.specs.Spelling.{IsBytes};
ghost use Rattle.pv_name.specs.Name.{IsName};
ghost use Rattle.pv_search.specs.declared.answering.SearchAnswer.{SearchAnswer};
ghost use Rattle.pv_search.specs.declared.asking.TheConstants.{DONT_REPLY};
ghost use Rattle.pv_search.specs.declared.asks.NameAsk.{NameAsk};
ghost use Rattle.pv_search.specs.declared.asks.TheConstants.{ASK_LIMIT};
ghost use Rattle.pv_search.specs.declared.search.SearchRequest.{SearchRequest};
ghost use Rattle.pv_search.specs.Answer.{IsAnswer};
ghost use Rattle.pv_search.specs.Ask.{ask_text};
ghost use Rattle.pv_search.specs.Asks.{asked_searches, asks_text};
ghost use Rattle.pv_search.specs.Found.{found_cid};
ghost use Rattle.pv_search.specs.Laws.{AreAsks, AreCids};
ghost use Rattle.pv_search.specs.Parts.{AreAnswers, joined_answers, nothing_answered};
ghost use Rattle.pv_search.specs.Picked.{IsPicked};
ghost use Rattle.pv_search.specs.Reply.{search_reply};
ghost use Rattle.pv_search.specs.Search.{search_of};

/// The numbers of searches.
pub fn numbers_are_these()
    ensures ask_limit { ASK_LIMIT ≡ 1400 }
    ensures dont_reply { DONT_REPLY ≡ 5 }
{}

/// A datagram is read in one way.
pub fn datagrams_are_read_in_one_way()
    ensures searches { (datagram : List ℕ) (xs ys : List SearchRequest) → IsBytes datagram
        → IsPicked search_of datagram xs → IsPicked search_of datagram ys → xs ≡ ys }
    ensures replies { (datagram xs ys : List ℕ) → IsBytes datagram
        → IsPicked found_cid datagram xs → IsPicked found_cid datagram ys → xs ≡ ys }
{}

/// A datagram that asks for a name is read as the search for it, and no other.
pub fn searches_are_read_back()
    ensures { (name : List ℕ) (cid : ℕ) → IsName name → cid < 2 ^ 32
        → IsPicked search_of (ask_text name cid) (record { cid = cid; name = name } ∷ []) }
{}

/// A datagram that asks for one name is the one that asks for that name, and one that asks for several is
/// read as the searches for these, in order.
pub fn several_searches_are_read_back()
    ensures one { (asked : NameAsk) → asks_text (asked ∷ []) ≡ ask_text asked.name asked.cid }
    ensures several { (asks : List NameAsk) → AreAsks asks → IsPicked search_of (asks_text asks) (asked_searches asks) }
{}

/// What answers the parts of a datagram, joined, answers the datagram, where a test answers a name by any
/// of what is allowed for it.
pub fn parts_are_answered_as_the_whole()
    ensures { (allowed : List ℕ → Bool → Bool) (datagram : List ℕ) (most port : ℕ) (parts : List SearchAnswer)
        → IsBytes datagram → 0 < most
        → AreAnswers (λ name passes. IsTrue (allowed name passes)) most port datagram parts
        → IsAnswer (λ name passes. IsTrue (allowed name passes)) datagram port (joined_answers nothing_answered parts) }
{}

/// A reply is read as the CIDs that it was written for, in order.
pub fn replies_are_read_back()
    ensures { (port : ℕ) (cids : List ℕ) → port < 2 ^ 16 → AreCids cids
        → IsPicked found_cid (search_reply port cids) cids }
{}
