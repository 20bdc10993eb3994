//! The laws of the core. These functions are here for their contracts.
ghost use Rattle.std.specs.Prelude.{◌≡◌, ℕ, ◌<◌, List, length};
ghost use Rattle.pb_layout.specs.declared.header.Header.{Header};
ghost use Rattle.pb_object.specs.Standing.{Standing};
ghost use Rattle.pb_events.specs.declared.event.Event.{Event};
ghost use Rattle.pb_events.specs.declared.event.Stepped.{Stepped};
ghost use Rattle.pb_core.specs.DeviceParts.{IsWorld};
ghost use Rattle.pb_core.specs.Fresh.{IsFreshWorld};
ghost use Rattle.pb_core.specs.HolderMoves.{Begins};
ghost use Rattle.pb_core.specs.Laws.{IsOneHistory, IsToldByLog, IsCaused, IsNoted, IsToAsker, IsScannedRound};
ghost use Rattle.pb_core.specs.Memory.{Memory, clients_of};
ghost use Rattle.pb_core.specs.MemoryParts.{IsMemory};
ghost use Rattle.pb_core.specs.MemoryRun.{begun, MemoryRun};
ghost use Rattle.pb_core.specs.Play.{Play};
ghost use Rattle.pb_core.specs.Possible.{IsExact};
ghost use Rattle.pb_core.specs.World.{World};
ghost use Rattle.pb_core.specs.WorldMoves.{Next, Run};

/// Over a region that was just formatted all that is to hold of the world holds.
pub fn holds_at_first()
    ensures { (head : Header) (w : World) → IsFreshWorld head w → IsWorld w }
{}

/// Each event keeps it: a step of a client on a word or on the device, one that fails, a crash, and opening the region again.
pub fn each_event_keeps_it()
    ensures { (old : World) (event : Event) (new : World) (answer : Stepped)
        → IsWorld old
        → Next old event new answer
        → IsWorld new }
{}

/// The parts that speak of memory alone hold over any standing that a device is known to hold, however often its calls failed before ..
pub fn memory_begins_well()
    ensures { (s : Standing) (count : ℕ) → length s.kept ≡ s.clients → IsMemory (begun s count) }
{}

/// .. and are kept by each request, each step on a word and each answer of the device to its holder, whatever the device is.
pub fn each_move_keeps_memory()
    ensures { (count : ℕ) (old new : Memory) → IsMemory old → MemoryRun count old new → IsMemory new }
{}

/// A scan that is over saw a legal round: it isn't empty, its clients rise, each of its requests is its client's next, and the holder's own
/// request is among them.
pub fn a_scan_sees_a_legal_round()
    ensures { (old : Memory) (client : ℕ) (new : Memory)
        → IsMemory old
        → client < clients_of old
        → (begins : Begins old client new)
        → IsScannedRound old client new begins }
{}

/// Over any events, in any order, with crashes anywhere: there is one legal history of the object that was formatted, no request stands in it
/// twice, each answered request stands in it with its reply, and so it does in what each further crash may leave, whatever its image.
pub fn every_run_has_one_history()
    ensures { (head : Header) (first last : World) (events : List Event) (answers : List Stepped)
        → IsFreshWorld head first
        → Run first events answers last
        → IsOneHistory head last answers }
{}

/// Of that history the device's log tells the rounds since the region was opened last, perhaps with the one ahead, and none from before
/// that. It covers them, those that are published are sealed, and the device is ready with what it may be found with: the standing that is
/// known for sure; from a round's index word on, and while it is in doubt, either the one before the round or the one after it; and, once all
/// its calls are made, the one after it.
pub fn the_log_tells_the_history()
    ensures { (w : World) → IsWorld w → IsToldByLog w }
{}

/// Each event is possible exactly where it may be: asking for an idle client under its next number, a step for a client that isn't idle, a
/// failing call for the holder whose next step is one, a crash at each cut that the device's log has, with each pick, and opening the region
/// again until that is done. So no stage is stuck. A step, or a failing call, that begins a round's calls asks for lines of that round's
/// record. A pick names one image of a cut: none of the loose writes, all of them, or these with one number in each word of a line that was
/// written whole. The other images that a crash may leave at a cut, as those that have a part of the loose writes, are no events: what each of
/// them keeps is said at the end of any run, by `every_run_has_one_history`.
pub fn events_are_possible_exactly()
    ensures { (w : World) → IsWorld w → IsExact w }
{}

/// A client is answered by its own step alone, and to the request that it has announced. One that is answered without a reply is told the
/// cause: the turn word that it met first and the one that stands now, which differ, or of which the second is of a turn that is held; or the
/// count of faults before and after the call that failed while it held the turn. Both are noted when that call fails, by the client that
/// holds the turn, and it holds it until it has given it up with these.
pub fn each_answer_has_its_cause()
    ensures asked { (old : World) (event : Event) (new : World) (answer : Stepped)
        → IsWorld old
        → Next old event new answer
        → IsToAsker event answer old.memory }
    ensures caused { (old : World) (event : Event) (new : World) (answer : Stepped)
        → IsWorld old
        → Next old event new answer
        → IsCaused answer old.memory new.memory }
    ensures noted { (old : World) (event : Event) (new : World) (answer : Stepped)
        → IsWorld old
        → Next old event new answer
        → IsNoted event old.memory new.memory }
{}

/// What is played is a run of the world: playing only takes choices that the core leaves.
pub fn what_is_played_is_a_run()
    ensures { (old : World) (events : List Event) (answers : List Stepped) (new : World)
        → Play old events answers new
        → Run old events answers new }
{}

/// What is played is determined: over a region that was just formatted there is at most one world, and from any world the same events make
/// at most one, with at most one list of answers. That there is one for each event that is possible is for the code that plays to show.
pub fn what_is_played_is_determined()
    ensures first { (head : Header) (first other : World) → IsFreshWorld head first → IsFreshWorld head other → first ≡ other }
    ensures played { (old : World) (events : List Event) (answers others : List Stepped) (new other : World)
        → IsWorld old
        → Play old events answers new
        → Play old events others other
        → (new ≡ other) × (answers ≡ others) }
{}
