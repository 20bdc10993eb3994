//! The laws of an engine's calls one after the other: what they come to since it was opened. These functions are here for their contracts.
ghost use Rattle.std.specs.Prelude.{◌≡◌, ℕ, ◌+◌, ◌<◌, true, false, List, [], ◌∷◌, ◌++◌, Some, Option, None, All, length, ◌⊎◌};
ghost use Rattle.pb_pmem.specs.declared.device.DeviceFault.{DeviceFault};
ghost use Rattle.pb_object.specs.declared.kind.Kind.{Kind};
ghost use Rattle.pb_object.specs.declared.request.Ask.{Ask};
ghost use Rattle.pb_object.specs.History.{Round, History, IsLegalRound, kept_by, after_round};
ghost use Rattle.pb_object.specs.Standing.{Standing, newest_of, side_count};
ghost use Rattle.pb_engine.specs.Asks.{MayBeServed, asked_round};
ghost use Rattle.pb_engine.specs.Covers.{RoundCovers, FailedRoundCovers, SettleCovers, FailedSettleCovers};
ghost use Rattle.pb_engine.specs.Calls.{EngineCall, Made, Failed, Settled, FailedSettling, settled_rounds};
ghost use Rattle.pb_engine.specs.Good.{HasCome, BeginsAt};
ghost use Rattle.pb_engine.specs.Outcomes.{HasMade, HasFailedToMake, HasSettled, HasFailedToSettle};
ghost use Rattle.pb_engine.specs.View.{EngineView, FailedRound, IsEngine, IsInUse, IsKnown, was_called};
ghost use Rattle.pb_pmem.specs.Device.{Device, Tale, IsReplay};
ghost use Rattle.pb_pmem.specs.Operations.{with_ops};
ghost use Rattle.pb_layout.specs.declared.header.Header.{Header};
ghost use Rattle.pb_layout.specs.RegionOps.{settle_to};
ghost use Rattle.pb_layout.specs.Represents.{header_for};
ghost use Rattle.pb_engine.specs.Operations.{round_ops};
ghost use Rattle.pb_layout.specs.ToldExits.{IsReadyWith, StaysFound};
ghost use Rattle.pb_engine.specs.Opening.{IsFreshEngine, IsAdopted, IsAdoptRefusal};
ghost use Rattle.pb_pmem.specs.declared.line.Line.{Line};
ghost use Rattle.pb_layout.specs.Recovered.{Represents};
ghost use Rattle.pb_pair.specs.declared.why.Why.{Why};
ghost use Rattle.pb_pair.specs.declared.why.Why.TheVariants.{Memory, Device as DeviceWhy};

/// Requests that may be served make a legal round.
pub fn served_rounds_are_legal()
    ensures { (s : Standing) (asks : List Ask)
        → MayBeServed s asks
        → IsLegalRound s (asked_round s asks) }
{}

/// Before its first call an engine has come nowhere.
pub fn beginning()
    ensures { (start : EngineView) → HasCome start start [] 0 [] }
{}

/// A round that was made is one more.
pub fn after_a_round()
    ensures { (start old new : EngineView) (rounds : History) (failures : ℕ) (calls : List EngineCall) (round : Round)
        → HasCome start old rounds failures calls
        → old.sure ≡ true
        → old.doubt ≡ None
        → (made : HasMade round old new)
        → RoundCovers round old new
        → HasCome start new (rounds ++ round ∷ []) failures
        (calls ++ Made round (round_ops old round made.lines) ∷ []) }
{}

/// One that failed is in doubt.
pub fn after_a_failed_round()
    ensures { (start old new : EngineView) (rounds : History) (failures : ℕ) (calls : List EngineCall) (round : Round) (fault : DeviceFault)
        → HasCome start old rounds failures calls
        → old.sure ≡ true
        → old.doubt ≡ None
        → (failed : HasFailedToMake round fault old new)
        → FailedRoundCovers round old new
        → HasCome start new rounds (failures + 1)
        (calls ++ Failed (record { round = round; called = failed.called }) failed.device.stops.ops ∷ []) }
{}

/// Settling adds the round in doubt where its index word was called, and none else.
pub fn after_settling()
    ensures { (start old new : EngineView) (rounds : History) (failures : ℕ) (calls : List EngineCall)
        → HasCome start old rounds failures calls
        → ((failed : FailedRound) → old.doubt ≡ Some failed → IsLegalRound old.standing failed.round)
        → old.sure ≡ false
        → HasSettled old new
        → SettleCovers old new
        → HasCome start new (settled_rounds rounds old.doubt) failures
        (calls ++ Settled (settle_to (header_for new.standing) new.standing) ∷ []) }
{}

/// Settling that failed changes nothing of that.
pub fn after_failed_settling()
    ensures { (start old new : EngineView) (rounds : History) (failures : ℕ) (calls : List EngineCall) (fault : DeviceFault)
        → HasCome start old rounds failures calls
        → old.sure ≡ false
        → (failed : HasFailedToSettle fault old new)
        → FailedSettleCovers old new
        → HasCome start new rounds (failures + 1)
        (calls ++ FailedSettling failed.device.stops.ops ∷ []) }
{}

/// Calls after other calls come to both, where nothing was in doubt between them.
pub fn calls_after_calls()
    ensures { (first middle last : EngineView) (rounds more : History) (failures others : ℕ) (calls later : List EngineCall)
        → HasCome first middle rounds failures calls
        → middle.doubt ≡ None
        → HasCome middle last more others later
        → HasCome first last (rounds ++ more) (failures + others) (calls ++ later) }
{}

/// An engine that was just made on a device that was ready with no region begins on one that is ready with the empty standing alone.
pub fn a_fresh_engine_begins()
    ensures { (head : Header) (old : Device) (new : EngineView) (tale : Tale)
        → (fresh : IsFreshEngine head old new)
        → (told : old.told ≡ Some tale)
        → (ready : IsReadyWith (None ∷ []) tale)
        → BeginsAt (with_ops (fresh.covers tale told ready).ops tale) (Some new.standing ∷ []) new }
{}

/// One that was just opened begins on the device as it was.
pub fn an_adopted_engine_begins()
    ensures { (device : Device) (engine : EngineView) (tale : Tale) (members : List (Option Standing))
        → IsAdopted device engine
        → IsReplay device
        → device.told ≡ Some tale
        → IsReadyWith members tale
        → BeginsAt tale members engine }
{}

/// What an engine knows of a side's record in use is what the device holds there and the engine has in memory.
pub fn known_records_are_in_use()
    ensures { (kind : Kind) (engine : EngineView) (side : ℕ)
        → IsEngine kind engine
        → side < side_count kind
        → IsKnown engine side
        → IsInUse engine side }
{}

/// After a round each of its requests is its client's last recorded one, with its reply.
pub fn requests_of_a_round_are_kept()
    ensures { (s : Standing) (round : Round)
        → length s.kept ≡ s.clients
        → IsLegalRound s round
        → All (λ entry. newest_of (after_round s round) entry.client ≡ kept_by entry) round.entries }
{}

/// Of a region that represents a standing adopting refuses no line: it answers an error only for want of memory or by a fault.
pub fn what_stands_is_adopted()
    ensures { (old new : Device) (why : Why) (lines : List Line) (s : Standing)
        → IsAdoptRefusal old new why
        → old.now ≡ Some lines
        → Represents lines s
        → (why ≡ Memory) ⊎ ((fault : DeviceFault) × (why ≡ DeviceWhy fault)) }
{}

/// Settling what an opening found, wherever it stops, leaves each image representing the same standing: so opening may be stopped and
/// repeated.
pub fn settling_keeps_what_was_found()
    ensures { (old new : EngineView) (fault : DeviceFault) (tale : Tale)
        → was_called old.doubt ≡ false
        → old.device.told ≡ Some tale
        → IsReadyWith (Some old.standing ∷ []) tale
        → HasSettled old new ⊎ HasFailedToSettle fault old new
        → StaysFound tale new.device old.standing }
{}
