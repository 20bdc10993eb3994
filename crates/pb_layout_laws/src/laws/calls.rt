//! The laws of calls one after the other.
ghost use Rattle.std.specs.Prelude.{◌≡◌, ◌⊎◌, ℕ, ◌≤◌, List, [], ◌++◌, take, length, Option};
ghost use Rattle.pb_pmem.specs.declared.line.Line.{Line};
ghost use Rattle.pb_pmem.specs.declared.log.LogOp.{LogOp};
ghost use Rattle.pb_pmem.specs.Device.{Device, Tale};
ghost use Rattle.pb_pmem.specs.Operations.{with_ops};
ghost use Rattle.pb_object.specs.History.{History, state_after};
ghost use Rattle.pb_object.specs.Standing.{Standing};
ghost use Rattle.pb_layout.specs.Covers.{Covers};
ghost use Rattle.pb_layout.specs.Exits.{HasOneUnsealedAtMostAlways, IsExit};
ghost use Rattle.pb_layout.specs.ToldExits.{IsSealedAfter};
ghost use Rattle.pb_layout.specs.LogHistory.{LoggedRound, rounds_in, AreSealed, history_of};

/// The rounds of a log are those of its first operations and, after them, those of the rest. What is known of the first ones may be more
/// in the end: a later sync seals them.
pub fn rounds_compose()
    ensures { (base : List Line) (log : List LogOp) (from middle : ℕ)
        → from ≤ middle
        → middle ≤ length log
        → rounds_in (history_of base log from)
        ≡ rounds_in (history_of base (take middle log) from) ++ rounds_in (history_of base log middle) }
{}

/// A covering of the first operations, and one of the rest from the state after their rounds, are a covering of the whole log.
pub fn coverings_compose()
    ensures { (base : List Line) (log : List LogOp) (from middle : ℕ) (s : Standing)
        → Covers base (take middle log) from s (history_of base (take middle log) from)
        → Covers base log middle (state_after s (rounds_in (history_of base (take middle log) from))) (history_of base log middle)
        → from ≤ middle
        → Covers base log from s (history_of base log from) }
{}

/// At each moment at most one round is unsealed, where it is so of both parts, and the first rounds are sealed or the rest tells none.
pub fn one_unsealed_composes()
    ensures { (base : List Line) (log : List LogOp) (from middle : ℕ)
        → from ≤ middle
        → middle ≤ length log
        → HasOneUnsealedAtMostAlways base (take middle log) from
        → HasOneUnsealedAtMostAlways base log middle
        → AreSealed (history_of base (take middle log) from) ⊎ (history_of base log middle ≡ [])
        → HasOneUnsealedAtMostAlways base log from }
{}

/// A call after another one: the rounds of the first are sealed, or the second tells none.
pub fn calls_compose()
    ensures { (base : List Line) (log ops more : List LogOp) (s : Standing)
        (first second : List LoggedRound) (between members : List (Option Standing))
        → IsExit base log ops s first between
        → IsExit base (log ++ ops) more (state_after s (rounds_in first)) second members
        → AreSealed first ⊎ (second ≡ [])
        → IsExit base log (ops ++ more) s (history_of base (log ++ (ops ++ more)) (length log)) members }
{}

/// After sealed rounds the history is the two, one after the other.
pub fn calls_compose_after_sealed_rounds()
    ensures { (base : List Line) (log ops more : List LogOp) (s : Standing)
        (first second : List LoggedRound) (between members : List (Option Standing))
        → IsExit base log ops s first between
        → IsExit base (log ++ ops) more (state_after s (rounds_in first)) second members
        → AreSealed first
        → IsExit base log (ops ++ more) s (first ++ second) members }
{}

/// Where all rounds that the log told are sealed, they are so after a call whose rounds are sealed.
pub fn all_stays_sealed()
    ensures { (base : List Line) (log ops : List LogOp) (s : Standing)
        (history : List LoggedRound) (members : List (Option Standing)) (from : ℕ)
        → IsExit base log ops s history members
        → AreSealed history
        → from ≤ length log
        → AreSealed (history_of base log from)
        → AreSealed (history_of base (log ++ ops) from) }
{}

/// Calls whose rounds are sealed, and more such calls, over a device that tells its log.
pub fn sealed_calls_compose()
    ensures { (tale : Tale) (middle new : Device) (s : Standing) (rounds more : History) (after : IsSealedAfter tale middle s rounds)
        → IsSealedAfter (with_ops after.left.ops tale) new (state_after s rounds) more
        → IsSealedAfter tale new s (rounds ++ more) }
{}
