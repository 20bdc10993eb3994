//! The laws of replays. These functions are here for their contracts.
ghost use Rattle.std.specs.Prelude.{◌≡◌, ℕ, List};
ghost use Rattle.pb_layout.specs.declared.header.Header.{Header};
ghost use Rattle.pb_object.specs.Standing.{Standing};
ghost use Rattle.pb_events.specs.declared.event.Stepped.{Stepped};
ghost use Rattle.pb_replay.specs.Explained.{IsExplained};
ghost use Rattle.pb_replay.specs.Replay.{IsReplayed, HasBadEvent};

/// Whatever a schedule does, with crashes anywhere: one legal history of the object that was formatted explains the answers that are printed. No request stands in it twice,
/// each one that was answered stands in it with its reply, and none of these is lost in what is reported.
pub fn what_is_printed_is_explained()
    ensures { (head : Header) (bytes : List ℕ) (answers : List Stepped) (s : Standing)
        → (replayed : IsReplayed head bytes answers s)
        → IsExplained head replayed.last answers s }
{}

/// A source is replayed in one way at most: with at most one list of answers and one standing, or with at most one line that is refused first,
/// and never with both.
pub fn a_source_has_one_replay()
    ensures replay { (head : Header) (bytes : List ℕ) (answers others : List Stepped) (s t : Standing)
        → IsReplayed head bytes answers s
        → IsReplayed head bytes others t
        → (answers ≡ others) × (s ≡ t) }
    ensures line { (head : Header) (bytes : List ℕ) (number other : ℕ)
        → HasBadEvent head number bytes
        → HasBadEvent head other bytes
        → number ≡ other }
    ensures either { (head : Header) (bytes : List ℕ) (answers : List Stepped) (s : Standing) (number : ℕ)
        → IsReplayed head bytes answers s
        → ¬ HasBadEvent head number bytes }
{}
