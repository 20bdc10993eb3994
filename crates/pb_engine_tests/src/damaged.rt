//! Regions that aren't made or opened.
use crate::cases::{Case, HEAP, MAP, Round, STACK};
use crate::engines::{adopt, fresh, made, serve};
use pb_comb::Comb;
use pb_device_fixtures::word;
use pb_heap::MinHeap;
use pb_image::Image;
use pb_map::RegMap;
use pb_object::{LAST_VERSION, Object};
use pb_pair::{Refused, Why};
use pb_pmem::{LINES, Line, LogOp, Pmem};
use pb_stack::Stack;
use std::alloc::Global;
use std::process::Abort;

// Words that are written into a region, and the line that is refused then, if one is.
type Row<'a> = (&'a [(u32, u32, u64)], Option<u32>);

// Writes words into a device, as these operations.
fn write(rt: &impl Abort, device: &mut Image, words: &[(u32, u32, u64)]) {
    for &(line, place, to) in words {
        assert!(rt; line < LINES && place < 8);
        assert!(rt; device.set_word(line, place, to).is_ok());
    }
}

// Why a device isn't adopted, if it isn't. Its log is as long as before.
fn refusal<O: Object>(rt: &impl Abort, alloc: Global, device: Image) -> Option<Why> {
    let count = device.log().len();
    match adopt::<O>(rt, alloc, device) {
        Ok(engine) => {
            assert!(rt; engine.close().log().len() == count);
            None
        }
        Err(refused) => {
            assert!(rt; refused.device.log().len() == count);
            Some(refused.why)
        }
    }
}

// One client's region of a case's object, of this size, in which nothing was asked yet.
fn of_one_client(case: &Case, size: u32) -> Case {
    Case {
        clients: 1,
        size,
        ..*case
    }
}

fn damaged_at(line: Option<u32>) -> Option<Why> {
    match line {
        Some(line) => Some(Why::Damaged { line }),
        None => None,
    }
}

// A case's region with these words is refused at this line.
fn is_refused_at<O: Object>(rt: &impl Abort, alloc: Global, case: &Case, row: &Row<'_>) -> bool {
    let (words, line) = *row;
    let engine: Comb<O, Image> = made(rt, alloc, 64, case);
    let mut device = engine.close();
    write(rt, &mut device, words);
    refusal::<O>(rt, alloc, device) == damaged_at(line)
}

// The regions with these words are refused at these lines.
fn are_refused<O: Object>(rt: &impl Abort, alloc: Global, case: &Case, rows: &[Row<'_>]) {
    for (place, row) in rows.iter().enumerate() {
        assert!(rt; is_refused_at::<O>(rt, alloc, case, row), "row {place}");
    }
}

// The object's lines of a heap and of a stack of four items are 20 and 21: the count, and the items.
#[test]
fn the_first_refused_line_of_a_heap_is_named(rt: HostRuntime) {
    are_refused::<MinHeap>(
        &rt,
        rt.alloc(),
        &of_one_client(&HEAP, 4),
        &[
            (&[(20, 0, 2), (21, 0, 9), (21, 1, 3)], Some(21)),
            (&[(20, 0, 2), (21, 0, 3), (21, 1, 9)], None),
            (&[(20, 0, 2), (21, 0, 3), (21, 1, 3)], None),
            (&[(20, 0, 3), (21, 0, 3), (21, 1, 9), (21, 2, 2)], Some(21)),
            (&[(20, 0, 1), (21, 0, 3), (21, 1, 3)], Some(21)),
            (&[(20, 0, 5)], Some(20)),
            (&[(20, 1, 1)], Some(20)),
            (&[(20, 0, 5), (21, 7, 1)], Some(20)),
        ],
    );
}

#[test]
fn the_first_refused_line_of_a_stack_is_named(rt: HostRuntime) {
    are_refused::<Stack>(
        &rt,
        rt.alloc(),
        &of_one_client(&STACK, 4),
        &[
            (&[(20, 0, 2), (21, 0, 9), (21, 1, 3)], None),
            (&[(20, 0, 2), (21, 2, 1)], Some(21)),
            (&[(21, 0, 1)], Some(21)),
            (&[(20, 0, 5)], Some(20)),
            (&[(20, 7, 1)], Some(20)),
            (&[(20, 7, 1), (21, 0, 1)], Some(20)),
        ],
    );
}

// The object's lines of a map of six registers are 20, and 21 whose last four words are unused.
#[test]
fn the_first_refused_line_of_a_map_is_named(rt: HostRuntime) {
    are_refused::<RegMap>(
        &rt,
        rt.alloc(),
        &of_one_client(&MAP, 6),
        &[
            (&[(20, 0, 1)], Some(20)),
            (&[(20, 1, 1)], None),
            (&[(20, 0, 1), (20, 1, LAST_VERSION)], None),
            (&[(20, 1, LAST_VERSION + 1)], Some(20)),
            (&[(21, 2, 1)], Some(21)),
            (&[(21, 3, 1)], None),
            (&[(21, 4, 1)], Some(21)),
            (&[(20, 2, 1), (21, 4, 1)], Some(20)),
        ],
    );
}

// Of this map the record has eleven lines: its formatting makes 26 operations and its first round 16.
const MADE: usize = 42;

// A map of six registers for one client, after `put 0 5`.
fn after_a_put(rt: &impl Abort, alloc: Global) -> Image {
    let case = of_one_client(&MAP, 6);
    let mut engine: Comb<RegMap, Image> = made(rt, alloc, 64, &case);
    let put = Round {
        rows: &[(0, [2, 0, 5, 0], [2, 0, 1])],
        object: &[],
    };
    assert!(rt; serve(rt, &mut engine, &[Line::default(); 11], &put).is_ok());
    engine.close()
}

// That map is refused at this line where a word of a line is 1.
fn is_judged(rt: &impl Abort, alloc: Global, line: u32, word: u32) -> Option<Why> {
    let mut device = after_a_put(rt, alloc);
    write(rt, &mut device, &[(line, word, 1)]);
    refusal::<RegMap>(rt, alloc, device)
}

#[test]
fn the_record_in_use_is_judged(rt: HostRuntime) {
    // After a round the object's lines are 31 and 32.
    for (line, word, refused) in [(31, 2, true), (32, 5, true), (20, 2, false), (21, 5, false)] {
        let want = damaged_at(if refused { Some(line) } else { None });
        assert!(&rt;
            is_judged(&rt, rt.alloc(), line, word) == want,
            "line {line}"
        );
    }
}

// A device was refused for this, with a log of this length whose last operation is this one.
fn is_refused<O: Object>(
    rt: &impl Abort,
    answer: Result<Comb<O, Image>, Refused<Image>>,
    why: Why,
    count: usize,
    last: &LogOp,
) {
    match answer {
        Ok(_) => panic!(rt; "not refused"),
        Err(refused) => {
            assert!(rt; refused.why == why);
            assert!(rt; refused.device.log().len() == count);
            assert!(rt; refused.device.log().last() == Some(last));
        }
    }
}

#[test]
fn a_device_with_a_region_is_taken(rt: HostRuntime) {
    let alloc = rt.alloc();
    // Whatever object is asked for.
    let answer = fresh::<Stack>(&rt, alloc, after_a_put(&rt, alloc), &STACK);
    is_refused(&rt, answer, Why::Taken, MADE, &LogOp::Sync);
}

#[test]
fn a_device_without_the_magic_has_no_region(rt: HostRuntime) {
    let alloc = rt.alloc();
    let mut device = after_a_put(&rt, alloc);
    write(&rt, &mut device, &[(0, 0, 1)]);
    let answer = adopt::<RegMap>(&rt, alloc, device);
    is_refused(&rt, answer, Why::NoRegion, MADE + 1, &word(0, 0, 1));
}
