//! Scripts on devices of zeros: what is printed, with which status, and how long the log is then.
use crate::rows::{
    FIRST, FIRST_REPORT, FRESH, FRESH_TWO, Row, TWO, chained, each_alone, report_two,
};

// What is asked again is answered again.
const AGAIN: [Row; 6] = [
    FRESH,
    (
        "run",
        FIRST,
        "0 1 kept was 0 1\n0 2 kept is 77 1\n",
        0,
        Some(53),
    ),
    (
        "run",
        "0 4 get 3\n0 5 get 3\n",
        "0 4 gap\n0 5 left\n",
        8,
        Some(57),
    ),
    ("run", "0 2 put 3 1\n", "0 2 changed\n", 8, Some(61)),
    ("report", "", FIRST_REPORT, 0, Some(61)),
    ("fresh map 1 4", FIRST, "taken\n", 7, Some(61)),
];

const TWO_AGAIN: [Row; 2] = [
    FRESH_TWO,
    ("run", TWO, "0 1 kept was 0 1\n1 1 kept was 0 1\n", 0, None),
];

const EMPTY: [Row; 2] = [
    ("fresh map 1 1", "", "", 0, Some(25)),
    (
        "report",
        "",
        "kind map\nclients 1\nsize 1\nrounds 0\nclient 0 none\nregisters 0\n",
        0,
        Some(25),
    ),
];

const QUEUE: [Row; 2] = [
    (
        "fresh queue 1 2",
        "0 1 put 1\n0 2 put 2\n0 3 put 3\n0 4 take\n0 5 put 4\n0 6 take\n",
        "0 1 new at 0\n0 2 new at 1\n0 3 new full\n0 4 new item 1 0\n0 5 new at 2\n0 6 new item 2 1\n",
        0,
        None,
    ),
    (
        "report",
        "",
        "kind queue\nclients 1\nsize 2\nrounds 4 2\nclient 0 6 take item 2 1\nitems 1\nitem 4 2\n",
        0,
        None,
    ),
];

const NINE: &str =
    "0 1 get 0\n0 2 get 0\n0 3 get 0\n0 4 get 0\n0 5 get 0\n0 6 get 0\n0 7 get 0\n0 8 get 0\n0 9 get 0\n";

// Eight requests of a client are kept.
const KEPT: [Row; 2] = [
    (
        "fresh map 1 4",
        NINE,
        "0 1 new is 0 0\n0 2 new is 0 0\n0 3 new is 0 0\n0 4 new is 0 0\n0 5 new is 0 0\n\
            0 6 new is 0 0\n0 7 new is 0 0\n0 8 new is 0 0\n0 9 new is 0 0\n",
        0,
        None,
    ),
    (
        "run",
        NINE,
        "0 1 old\n0 2 kept is 0 0\n0 3 kept is 0 0\n0 4 kept is 0 0\n0 5 kept is 0 0\n\
            0 6 kept is 0 0\n0 7 kept is 0 0\n0 8 kept is 0 0\n0 9 kept is 0 0\n",
        0,
        None,
    ),
];

const OBJECTS: [Row; 4] = [
    (
        "fresh stack 1 1",
        "0 1 push 5\n0 2 push 6\n0 3 pop\n0 4 pop\n",
        "0 1 new depth 1\n0 2 new full\n0 3 new item 5\n0 4 new empty\n",
        0,
        None,
    ),
    (
        "fresh heap 1 4",
        "0 1 insert 18446744073709551615\n0 2 insert 0\n0 3 insert 0\n0 4 removemin\n0 5 removemin\n0 6 removemin\n",
        "0 1 new size 1\n0 2 new size 2\n0 3 new size 3\n0 4 new item 0\n0 5 new item 0\n\
            0 6 new item 18446744073709551615\n",
        0,
        None,
    ),
    (
        "fresh map 1 4",
        "0 1 cas 0 1 9\n0 2 get 4\n",
        "0 1 new stale 0 0\n0 2 new nokey\n",
        0,
        None,
    ),
    (
        "fresh map 1 1024",
        "0 1 put 0 5\n0 2 put 4 6\n0 3 put 8 7\n",
        "0 1 new was 0 1\n0 2 new was 0 1\n0 3 new was 0 1\n",
        0,
        Some(571),
    ),
];

// Sources that aren't in the plain form, and those that are refused.
const SOURCES: [Row; 8] = [
    (
        "fresh map 1 4",
        " 0\t01 put 3  077 \r\n# note\n\n",
        "0 1 new was 0 1\n",
        0,
        None,
    ),
    ("fresh map 01 004", "0 1 get 0", "0 1 new is 0 0\n", 0, None),
    ("fresh map 1 4", "0 1 put 3\n", "line 1\n", 3, Some(0)),
    (
        "fresh map 1 4",
        "0 1 get 0\n0 3 get 0\n",
        "line 2\n",
        3,
        Some(0),
    ),
    ("fresh map 1 4", "0 1 push 5\n", "line 1\n", 3, Some(0)),
    (
        "fresh map 1 4",
        "0 72057594037927936 get 0\n",
        "line 1\n",
        3,
        Some(0),
    ),
    (
        "fresh map 1 4",
        "0 72057594037927935 get 0\n",
        "0 72057594037927935 gap\n",
        8,
        Some(25),
    ),
    ("run", "x\n", "none\n", 7, Some(0)),
];

const WORDS: [Row; 4] = [
    ("fresh map 0 4", "", "usage\n", 2, Some(0)),
    ("fresh map 1 1025", "", "usage\n", 2, Some(0)),
    ("run now", "", "usage\n", 2, Some(0)),
    ("", "", "usage\n", 2, Some(0)),
];

// Sixteen clients ask for registers of their own.
const SIXTEEN: [Row; 1] = [(
    "fresh map 16 16",
    "0 1 put 0 5\n1 1 put 1 6\n2 1 put 2 7\n3 1 put 3 8\n4 1 put 4 9\n5 1 put 5 10\n6 1 put 6 11\n7 1 put 7 12\n\
        8 1 get 8\n9 1 get 9\n10 1 get 10\n11 1 get 11\n12 1 get 12\n13 1 get 13\n14 1 get 14\n15 1 get 16\n0 2 get 0\n",
    "0 1 new was 0 1\n1 1 new was 0 1\n2 1 new was 0 1\n3 1 new was 0 1\n4 1 new was 0 1\n5 1 new was 0 1\n\
        6 1 new was 0 1\n7 1 new was 0 1\n8 1 new is 0 0\n9 1 new is 0 0\n10 1 new is 0 0\n11 1 new is 0 0\n\
        12 1 new is 0 0\n13 1 new is 0 0\n14 1 new is 0 0\n15 1 new nokey\n0 2 new is 5 1\n",
    0,
    None,
)];

#[test]
fn chains(rt: HostRuntime) {
    chained(&rt, rt.alloc(), &AGAIN);
    let two = chained(&rt, rt.alloc(), &TWO_AGAIN);
    report_two(&rt, rt.alloc(), two);
    chained(&rt, rt.alloc(), &EMPTY);
    chained(&rt, rt.alloc(), &QUEUE);
    chained(&rt, rt.alloc(), &KEPT);
}

#[test]
fn scripts(rt: HostRuntime) {
    each_alone(&rt, rt.alloc(), &OBJECTS);
    each_alone(&rt, rt.alloc(), &SOURCES);
    each_alone(&rt, rt.alloc(), &WORDS);
    each_alone(&rt, rt.alloc(), &SIXTEEN);
}
