//! Laws of what is wanted together. Each is a call that does nothing, and its contract is the law.
ghost use Rattle.std.specs.Prelude.{◌≡◌, ℕ, ◌+◌, List, [], ◌∷◌, ◌++◌, ◌==◌, length, map, Bool, Option, Some, IfSome, All};
ghost use Rattle.std.specs.List.{list_any};
ghost use Rattle.rows.specs.Rows.{remove_first};
ghost use Rattle.mask_merge.specs.declared.want.TheConstants.{KNOWN_EVENTS, LOG_EVENT, ALWAYS_ASKED, PROPERTY_EVENT};
ghost use Rattle.mask_merge.specs.declared.want.Ask.{Ask};
ghost use Rattle.mask_merge.specs.declared.want.Want.{Want};
ghost use Rattle.mask_merge.specs.Changes.{Change, AreFair, after, standing};
ghost use Rattle.mask_merge.specs.Counts.{is_nothing, counted, counted_with, counted_without, exchanged, wanted, wanted_of, as_native, want_asked, wants_in, asks_props, props_wanted};
ghost use Rattle.mask_merge.specs.Laws.{AsksAlways, HasSame, Meets};
ghost use Rattle.mask_merge.specs.Merged.{is_want, merged};

/// The masks: VALUE is 1, LOG is 2, ALARM is 4 and PROPERTY is 8.
pub fn numbers_are_these()
    ensures known_events { KNOWN_EVENTS ≡ 1 + 2 + 4 }
    ensures log { LOG_EVENT ≡ 2 }
    ensures always_asked { ALWAYS_ASKED ≡ 1 + 4 }
    ensures property { PROPERTY_EVENT ≡ 8 }
{}

/// What is asked for meets the want of each reader: none of its known events is left out, and it
/// gets as many elements as it wants.
pub fn each_want_is_met()
    ensures { (wants : List Want) → IfSome (merged wants) (λ asked. All (Meets asked) wants) }
{}

/// No more is asked for than that: what meets the want of each reader, and has the events that are
/// always asked for, has all that is asked for.
pub fn no_more_is_asked_for()
    ensures { (wants : List Want) (enough : Want) → All (Meets enough) wants → AsksAlways enough
        → IfSome (merged wants) (Meets enough) }
{}

/// What is asked for depends on which wants there are, and neither on their order nor on how often
/// each is there.
pub fn order_and_repetition_do_not_matter()
    ensures { (xs ys : List Want) → HasSame xs ys → merged xs ≡ merged ys }
{}

/// A reader that came and left leaves what was asked for as it was.
pub fn coming_and_leaving_changes_nothing()
    ensures { (wants : List Want) (mask count : ℕ) → merged (remove_first
        (is_want mask count) (wants ++ record { mask = mask; count = count } ∷ [])) ≡ merged wants }
{}

/// One more reader is counted with the others, wherever it comes.
pub fn counts_follow_one_more()
    ensures last { (asks : List (Option Ask)) (ask : Option Ask) →
        counted (asks ++ ask ∷ []) ≡ counted_with ask (counted asks) }
    ensures anywhere { (xs : List (Option Ask)) (ask : Option Ask) (ys : List (Option Ask)) →
        counted (xs ++ ask ∷ ys) ≡ counted_with ask (counted (xs ++ ys)) }
{}

/// A reader that leaves is no longer counted, and all the others are.
pub fn counts_follow_one_less()
    ensures { (xs : List (Option Ask)) (ask : Option Ask) (ys : List (Option Ask)) →
        counted_without ask (counted (xs ++ ask ∷ ys)) ≡ counted (xs ++ ys) }
{}

/// A reader that wants something else than it did is counted as one that left and one that came.
pub fn an_exchange_is_one_less_and_one_more()
    ensures { (old new : Option Ask) (xs ys : List (Option Ask)) →
        exchanged old new (counted (xs ++ old ∷ ys)) ≡ counted (xs ++ new ∷ ys) }
{}

/// The counts are enough: they say what the readers that want something want together, where a count
/// of 0 stands for the native count, and where each wants something and 0 stands for itself; and
/// whether any of them asks for the properties.
pub fn counts_are_enough()
    ensures native { (native : ℕ) (asks : List (Option Ask)) →
        wanted_of native (counted asks) ≡ merged (map (as_native native) (wants_in asks)) }
    ensures listed { (asks : List Ask) → wanted (counted (map Some asks)) ≡ merged (map want_asked asks) }
    ensures props { (states : Bool) (asks : List (Option Ask)) →
        props_wanted states (counted asks) ≡ list_any (asks_props states) asks }
{}

/// What is counted depends on no order.
pub fn counts_have_no_order()
    ensures { (xs ys : List (Option Ask)) → counted (xs ++ ys) ≡ counted (ys ++ xs) }
{}

/// What a tally is for: readers come, leave and ask for something else, in whatever order, and its
/// counts are always those of the readers that stand. So they say what those want together, whether
/// any of them asks for the properties, and whether any stands at all. Each reader that leaves or
/// changes has to stand; counts don't tell which mask goes with which count, so a call for a reader
/// that isn't there may take something from two that are.
pub fn tallies_follow_those_that_stand()
    ensures counts { (changes : List Change) → AreFair changes →
        after changes ≡ counted (standing changes) }
    ensures wanted { (changes : List Change) → AreFair changes → (native : ℕ) →
        wanted_of native (after changes) ≡ merged (map (as_native native) (wants_in (standing changes))) }
    ensures props { (changes : List Change) → AreFair changes → (states : Bool) →
        props_wanted states (after changes) ≡ list_any (asks_props states) (standing changes) }
    ensures nobody { (changes : List Change) → AreFair changes →
        is_nothing (after changes) ≡ (length (standing changes) == 0) }
{}
