//! Laws of the program's theorem, and of the map that it serves, as contracts of functions that do nothing.
ghost use Rattle.std.specs.Prelude.{◌≡◌, ◌≢◌, ◌<◌, ℕ, List, length, Some};
ghost use Rattle.std.specs.List.{All};
ghost use Rattle.pb_object.specs.declared.codes.Action.TheVariants.{Get, Put};
ghost use Rattle.pb_object.specs.declared.request.Op.{Op};
ghost use Rattle.pb_object.specs.Codes.{action_of};
ghost use Rattle.pb_object.specs.Map.{last_version, register_at};
ghost use Rattle.pb_object.specs.Standing.{Standing};
ghost use Rattle.pb_pmem.specs.declared.line.Line.{Line};
ghost use Rattle.pb_layout.specs.declared.header.Header.{Header};
ghost use Rattle.pb_layout.specs.Exits.{empty_for};
ghost use Rattle.pb_script.specs.Command.{command_of};
ghost use Rattle.pb_broker.specs.Recovery.{IsRegionOf};
ghost use Rattle.pb_broker.specs.Running.{making_ops};
ghost use Rattle.pb_layout.specs.Recovered.{Represents};
ghost use Rattle.pb_layout.specs.RegionOps.{settle_to};
ghost use Rattle.pb_layout.specs.Represents.{header_for};
ghost use Rattle.pb_broker.specs.declared.status.Status.{Status};
ghost use Rattle.pb_broker.specs.declared.stop.Stop.{Stop};
ghost use Rattle.pb_broker.specs.Call.{Call};
ghost use Rattle.pb_broker.specs.Laws.{IsWellAsked, IsFaultless, Succeeds, TellsCause, SaysStop, CostsOneEach, GetAnswersThePut};
ghost use Rattle.pb_broker.specs.Top.{IsAnswered};
ghost use Rattle.pb_broker.specs.Stream.{Stream};

use pb_object::{Op, Register};

/// Where the words are a command, source and device are as it wants them, and no call failed, the status is that of a
/// command that did its work, but for what was asked for under wrong numbers; or memory ran out.
pub fn what_is_asked_for_is_done()
    ensures { (words : List (List ℕ)) (call : Call) (out : Stream) (status : Status)
        → IsAnswered words call out status
        → IsWellAsked (command_of words) call
        → IsFaultless call out
        → Succeeds status }
{}

/// Where source and device tell why a command stops, and no call failed, the call says just that; or memory ran out.
pub fn each_cause_decides()
    ensures { (words : List (List ℕ)) (call : Call) (out : Stream) (stop : Stop) (status : Status)
        → IsAnswered words call out status
        → TellsCause (command_of words) call stop
        → IsFaultless call out
        → SaysStop out stop status }
{}

/// A run in which no call of the device failed asks for one fence and one sync for each of its rounds, and beside these for a
/// fence and a sync to make the region, or a sync to settle it.
pub fn each_round_is_one_fence_and_one_sync()
    ensures making { (head : Header) → CostsOneEach (empty_for head) (making_ops head) 1 1 }
    ensures settling { (s : Standing) → CostsOneEach s (settle_to (header_for s) s) 0 1 }
{}

/// What the lines of a device represent is told by the parts of a region, and by the checks that it passes: it is the same.
pub fn a_region_is_its_parts()
    ensures passes { (image : List Line) (s : Standing) → IsRegionOf image s → Represents image s }
    ensures parts { (image : List Line) (s : Standing) → Represents image s → IsRegionOf image s }
{}

/// A get answers the last put of its register, whatever was done to other registers since then.
pub fn get_answers_the_last_put(registers: &[Register], put: &Op, others: &[Op], get: &Op)
    requires put { action_of put.now.code ≡ Some Put }
    requires get { action_of get.now.code ≡ Some Get }
    requires same { get.now.a ≡ put.now.a }
    requires present { put.now.a < length registers.now }
    requires unworn { (register_at registers.now put.now.a).version < last_version }
    requires others { All (λ (op : Op). op.a ≢ put.now.a) others.now }
    ensures { GetAnswersThePut registers.now put.now others.now get.now }
{}
