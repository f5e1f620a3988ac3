//! Laws of schedules and of newcomers. Each is a call that does nothing, and its contract is the law.
ghost use Rattle.std.specs.Prelude.{◌≡◌, ℕ, ◌+◌, ◌^◌, ◌<◌, ◌≤◌, List, ◌∷◌, ◌++◌, length, min, None};
ghost use Rattle.std.specs.List.{count_by};
ghost use Rattle.ask_schedule.specs.declared.row.Newcomer.{Newcomer};
ghost use Rattle.ask_schedule.specs.declared.row.ScheduleRow.{ScheduleRow};
ghost use Rattle.ask_schedule.specs.declared.row.TheConstants.{LAST_LAP, LAST_LOOK, MOST_TRIES};
ghost use Rattle.ask_schedule.specs.Laws.{IsAskedFor, ahead_of, behind};
ghost use Rattle.ask_schedule.specs.Places.{AreApart, InOrder};
ghost use Rattle.ask_schedule.specs.Plan.{asked, is_due, left};
ghost use Rattle.ask_schedule.specs.Queue.{Queue, is_of, last_lap, lined_up, newcomer, with_newcomer};
ghost use Rattle.ask_schedule.specs.Turns.{AreNewcomers};

/// The numbers of schedules.
pub fn numbers_are_these()
    ensures most_tries { MOST_TRIES ≡ 9 }
    ensures last_look { LAST_LOOK + 1 ≡ 2 ^ 64 }
    ensures last_lap { LAST_LAP + 1 ≡ 2 ^ 64 }
{}

/// No more names are asked for at a look than may be.
pub fn a_look_asks_for_so_many()
    ensures { (now most : ℕ) (rows : List ScheduleRow) → length (asked now most rows) ≤ most }
{}

/// A name that is due is asked for, where fewer names that are due stand before it than may be asked for.
pub fn a_due_name_is_asked_for()
    ensures { (now most : ℕ) (before after : List ScheduleRow) (row : ScheduleRow) → row.due ≤ now → count_by (is_due now) before < most
        → IsAskedFor row.name (asked now most (before ++ row ∷ after)) }
{}

/// A name that was asked for is not asked for again before its gap is over.
pub fn no_name_is_asked_for_within_its_gap()
    ensures { (now later most more : ℕ) (before after : List ScheduleRow) (row : ScheduleRow)
        → InOrder (before ++ row ∷ after) → AreApart (before ++ row ∷ after)
        → IsAskedFor row.name (asked now most (before ++ row ∷ after))
        → later < now + 2 ^ min row.tries MOST_TRIES → later < LAST_LOOK
        → IsAskedFor row.name (asked later more (left now most (before ++ row ∷ after))) → ⊥ }
{}

/// A name of a host of which none waits is put behind those of the lap that is taken and of the next one, and of each other
/// host at most two of these wait.
pub fn a_first_name_waits_for_two_of_each_host()
    ensures place { (host : ℕ) (name : List ℕ) (queue : Queue) → AreNewcomers queue.limit queue.lap queue.rows → last_lap host queue.rows ≡ None
        → lined_up (newcomer host name queue) queue.rows
        ≡ ahead_of (queue.lap + 1) queue.rows ++ newcomer host name queue ∷ behind (queue.lap + 1) queue.rows }
    ensures two { (other : ℕ) (queue : Queue) → AreNewcomers queue.limit queue.lap queue.rows
        → count_by (is_of other) (ahead_of (queue.lap + 1) queue.rows) ≤ 2 }
{}

/// There are never more newcomers than may be, where there were not before.
pub fn newcomers_have_a_limit()
    ensures { (host : ℕ) (name : List ℕ) (queue : Queue) → length queue.rows ≤ queue.limit → length (with_newcomer host name queue).rows ≤ queue.limit }
{}
