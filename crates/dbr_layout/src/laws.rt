//! Laws of the definitions that the contracts cite.
ghost use Rattle.std.specs.Prelude.{◌≡◌, ℕ, ◌<◌, [], ◌∷◌, None};
ghost use Rattle.std.specs.List.{filter, range_with_len};
ghost use Rattle.dbr_layout.specs.declared.conversion.TheConstants.{STRING_SIZE};
ghost use Rattle.dbr_layout.specs.declared.dbr.TheConstants.{ALIGNMENT, BASES, MAX_PAYLOAD};
ghost use Rattle.dbr_layout.specs.Dbr.{dbr_of};
ghost use Rattle.dbr_layout.specs.Laws.{ReadsBack, WritesBack};
ghost use Rattle.dbr_layout.specs.Needs.{has_properties_by, is_state_by, is_text_by};

/// The numbers of payloads. Those of types, offsets and elements stand in the definitions.
pub fn numbers_are_these()
    ensures alignment { ALIGNMENT ≡ 8 }
    ensures max_payload { MAX_PAYLOAD ≡ 16_777_216 }
    ensures bases { BASES ≡ 7 }
    ensures string_size { STRING_SIZE ≡ 40 }
{}

/// What is laid out under a served type is shown again by a view of it, whatever bytes follow. So
/// neither the bytes before the value nor the padding change an element.
pub fn layouts_read_back()
    ensures { ReadsBack }
{}

/// What a view shows is shown again once it is written under its own type: the alarm, the stamp and
/// as many of its elements as a count asks for, where they are there.
pub fn views_write_back()
    ensures { WritesBack }
{}

/// Which of the types need more than a value, by their numbers from 0 to 34: those of GR and CTRL have
/// properties, but of a STRING, and in each form one is of texts and one of states. No other number
/// is a type's.
#[tactic(auto, unfolding(crate::specs::Dbr::dbr_of))]
pub fn needs_are_these()
    ensures properties { filter has_properties_by (range_with_len 0 35)
        ≡ 22 ∷ 23 ∷ 24 ∷ 25 ∷ 26 ∷ 27 ∷ 29 ∷ 30 ∷ 31 ∷ 32 ∷ 33 ∷ 34 ∷ [] }
    ensures texts { filter is_text_by (range_with_len 0 35) ≡ 0 ∷ 7 ∷ 14 ∷ 21 ∷ 28 ∷ [] }
    ensures states { filter is_state_by (range_with_len 0 35) ≡ 3 ∷ 10 ∷ 17 ∷ 24 ∷ 31 ∷ [] }
    ensures others { (number : ℕ) → 34 < number → dbr_of number ≡ None }
{}
