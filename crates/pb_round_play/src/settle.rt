//! The operations of settling.
ghost use Rattle.std.specs.Prelude.{◌≡◌, ◌+◌, ◌≤◌, [], ◌∷◌, ◌++◌, length, vec_capacity};
ghost use Rattle.pb_pmem.specs.declared.log.LogOp.{LogOp};
ghost use Rattle.pb_layout.specs.RegionOps.{settle_ops};
ghost use Rattle.pb_round_play.specs.Shape.{AreWithin};

use crate::rounds::Rounds;
use pb_layout::{Header, MAGIC};
use pb_object::Kind;
use pb_pmem::LogOp;

/// Makes a list of the operations that settle to these numbers of rounds.
pub fn plan_settling(plan: &mut Vec<LogOp>, head: &Header, rounds: Rounds)
    requires { 5 ≤ vec_capacity plan.old }
    ensures plan { plan.new.items ≡ settle_ops head.now rounds.first rounds.second }
    ensures within { AreWithin plan.new.items }
    ensures capacity { vec_capacity plan.old ≤ vec_capacity plan.new }
{
    plan.clear();
    push(plan, word(0, MAGIC));
    push(plan, word(1, rounds.first));
    if head.kind == Kind::Queue {
        push(plan, word(2, rounds.second));
    }
    push(plan, LogOp::Back { first: 0, count: 3 });
    push(plan, LogOp::Sync);
}

fn word(line: u32, to: u64) -> LogOp
    ensures { result ≡ LogOp.Word line 0 to }
{
    LogOp::Word { line, word: 0, to }
}

/// Adds an operation to a plan, which has room for it.
pub fn push(plan: &mut Vec<LogOp>, op: LogOp)
    requires { length plan.old.items + 1 ≤ vec_capacity plan.old }
    ensures plan { plan.new.items ≡ plan.old.items ++ op ∷ [] }
    ensures capacity { vec_capacity plan.old ≤ vec_capacity plan.new }
{
    let _ = plan.push(op);
}
