//! Judging a request by what is kept of its client.
ghost use Rattle.std.specs.Prelude.{◌≡◌, ◌<◌, ◌≤◌};
ghost use Rattle.pb_shared.specs.Kept.{again_on, again_by};
ghost use Rattle.pb_object.specs.Request.{is_same_op};

use crate::answers::Again;
use crate::lists::{find_kept, kept_in};
use pb_object::{Kept, Op};

/// What asking for a request under this number comes to.
pub fn judge(list: &[Kept], number: u64, op: &Op) -> Again
    requires { 1 ≤ number }
    ensures { result ≡ again_on list.now number op.now }
{
    let last = kept_in(list, 0).number;
    if number <= last {
        let one = find_kept(list, number);
        return again_of(&one, last, op);
    }
    if number - 1 == last {
        Again::Announced
    } else {
        Again::Gap { last }
    }
}

fn again_of(one: &Option<Kept>, last: u64, op: &Op) -> Again
    ensures { result ≡ again_by one.now last op.now }
{
    match one {
        Some(kept) if is_same(&kept.op, op) => Again::Kept(kept.reply),
        Some(kept) => Again::Changed { kept: *kept },
        None => Again::Old { last },
    }
}

fn is_same(first: &Op, second: &Op) -> bool
    ensures { result ≡ is_same_op first.now second.now }
{
    first.code == second.code && first.a == second.a && first.b == second.b && first.c == second.c
}
