//! The map: a register that is worn, lines that are refused, and copies.
use crate::asked::{op, refuses, replies, reply_to, take};
use pb_map::RegMap;
use pb_object::{Action, Answer, LAST_VERSION, Object, Reply, pass_by_lines};
use pb_pmem::Line;
use std::alloc::Global;
use std::process::Abort;

fn fresh(rt: &impl Abort, alloc: Global, size: u32) -> RegMap {
    assert!(rt; 1 <= size && size <= 1024);
    RegMap::fresh(alloc, size).expect(rt, "memory")
}

#[test]
fn a_worn_register(rt: HostRuntime) {
    let mut map = fresh(&rt, rt.alloc(), 4);
    let words = [8, LAST_VERSION, 0, 0, 0, 0, 0, 0];
    assert!(rt; take(&rt, &mut map, &[Line { words }]) == Ok(()));
    let worn = Reply::new(Answer::Worn, 0, 0);
    let rows = [
        (Action::Put, [0, 1, 0], worn),
        (Action::Cas, [0, LAST_VERSION, 1], worn),
        (
            Action::Get,
            [0, 0, 0],
            Reply::new(Answer::Is, 8, LAST_VERSION),
        ),
    ];
    replies(&rt, &mut map, &rows);
}

#[test]
fn refused_lines(rt: HostRuntime) {
    let mut map = fresh(&rt, rt.alloc(), 5);
    // A version past the last one, a value at version 0, and a word of no register.
    let past = [8, LAST_VERSION + 1, 0, 0, 0, 0, 0, 0];
    refuses(&rt, &mut map, [past, [0; 8]], 0);
    refuses(&rt, &mut map, [[0; 8], [1, 0, 0, 0, 0, 0, 0, 0]], 1);
    refuses(&rt, &mut map, [[0; 8], [0, 0, 0, 0, 0, 0, 0, 1]], 1);
}

#[test]
fn a_map_passed_by_lines(rt: HostRuntime) {
    let mut map = fresh(&rt, rt.alloc(), 5);
    let mut copy = fresh(&rt, rt.alloc(), 5);
    reply_to(&rt, &mut map, &op(Action::Put, [4, 77, 0]));
    let mut lines = [Line::default(); 2];
    assert!(rt; map.lines() == 2 && map.size() == copy.size());
    assert!(rt; pass_by_lines(&map, &mut copy, &mut lines) == Ok(()));
    assert!(rt; lines[1].words == [77, 1, 0, 0, 0, 0, 0, 0]);
    assert!(rt; copy.size() == 5 && copy.register(4) == (77, 1));
}

#[test]
fn a_copy(rt: HostRuntime) {
    let mut map = fresh(&rt, rt.alloc(), 5);
    let mut copy = fresh(&rt, rt.alloc(), 5);
    reply_to(&rt, &mut map, &op(Action::Put, [0, 5, 0]));
    assert!(rt; map.size() == copy.size());
    copy.copy_from(&map);
    assert!(rt; copy.size() == 5 && copy.register(0) == (5, 1));
}
