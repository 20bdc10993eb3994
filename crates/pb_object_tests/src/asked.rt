//! Operations and lines, written short, and what every object does with them.
use pb_object::{Action, NotAState, Object, Op, Reply};
use pb_pmem::Line;
use std::process::Abort;

/// An operation with its arguments.
pub fn op(action: Action, [a, b, c]: [u64; 3]) -> Op {
    let code = action.code();
    Op { code, a, b, c }
}

/// What an object replies to an operation of its kind.
pub fn reply_to<O: Object>(rt: &impl Abort, object: &mut O, op: &Op) -> Reply {
    assert!(rt; O::accepts(op));
    object.apply(op)
}

/// An object replies to these operations, one after the other, as their rows say.
pub fn replies<O: Object>(rt: &impl Abort, object: &mut O, rows: &[(Action, [u64; 3], Reply)]) {
    for (action, arguments, reply) in rows {
        let op = op(*action, *arguments);
        assert!(rt; reply_to(rt, object, &op) == *reply, "at {op:?}");
    }
}

/// An object takes the state of these lines, or names the first that is refused.
pub fn take<O: Object>(rt: &impl Abort, object: &mut O, lines: &[Line]) -> Result<(), NotAState> {
    assert!(rt; lines.len() == object.lines() as usize);
    object.take_lines(lines)
}

/// An object refuses two lines, of which one is named.
pub fn refuses<O: Object>(rt: &impl Abort, object: &mut O, words: [[u64; 8]; 2], line: u32) {
    let [first, second] = words;
    let lines = [Line { words: first }, Line { words: second }];
    assert!(rt;
        take(rt, object, &lines) == Err(NotAState { line }),
        "at {words:?}"
    );
}
