//! Regions that are refused at an opening.
use pb_device_fixtures::{MAGIC, made, word};
use pb_image::Image;
use pb_pair::{Pair, Why};
use pb_pmem::LogOp;
use pb_region_fixtures::{log_with, open, tells};
use std::alloc::Global;
use std::process::Abort;

// Why a device with this log isn't opened. Its log is as before.
fn judge(rt: &impl Abort, alloc: Global, device: Image, ops: &[LogOp]) -> Option<Why> {
    match Pair::open(alloc, device) {
        Ok(pair) => {
            assert!(rt; pair.close().log() == ops);
            None
        }
        Err(refused) => {
            assert!(rt; refused.device.log() == ops);
            Some(refused.why)
        }
    }
}

// The first operations of the worked log, and then these words: why the device isn't opened.
fn why(rt: &impl Abort, alloc: Global, moment: usize, words: &[(u32, u32, u64)]) -> Option<Why> {
    let mut ops = log_with(alloc, moment, &[]).expect(rt, "memory");
    for &(line, place, to) in words {
        ops.push(word(line, place, to)).expect(rt, "memory");
    }
    let device = made(alloc, &ops, 64).expect(rt, "memory");
    judge(rt, alloc, device, &ops)
}

// The line that is refused where these words are written after the first operations.
fn refuses(
    rt: &impl Abort,
    alloc: Global,
    moment: usize,
    words: &[(u32, u32, u64)],
    line: u32,
) -> bool {
    why(rt, alloc, moment, words) == Some(Why::Damaged { line })
}

#[test]
fn a_device_without_the_magic_has_no_region(rt: HostRuntime) {
    for moment in 0..23 {
        assert!(rt; why(&rt, rt.alloc(), moment, &[]) == Some(Why::NoRegion));
    }
    assert!(rt; why(&rt, rt.alloc(), 23, &[]).is_none());
    // However sound the rest is.
    let lost = [(0, 0, MAGIC - 1)];
    assert!(rt; why(&rt, rt.alloc(), 49, &lost) == Some(Why::NoRegion));
}

// Columns: the moment, the line, the place in it, the word, and the line that is refused.
const REFUSED: [(usize, u32, u32, u64, u32); 33] = [
    (49, 0, 1, 1, 0),
    (49, 0, 1, 3, 0),
    (49, 0, 2, 0, 0),
    (49, 0, 2, 5, 0),
    (49, 0, 3, 0, 0),
    (49, 0, 3, 17, 0),
    (49, 0, 4, 0, 0),
    (49, 0, 4, 1025, 0),
    // The words 5 and 6 name the records of version 1, and not those that are there.
    (49, 0, 5, 10, 0),
    (49, 0, 6, 9, 0),
    (49, 0, 7, 1, 0),
    (49, 1, 3, 1, 1),
    (49, 1, 7, 1, 1),
    (49, 2, 0, 1, 2),
    (49, 2, 7, 1, 2),
    // The round counts on, and the record in use is the other one, or carries another number.
    (49, 1, 0, 3, 19),
    (49, 1, 0, 4, 9),
    (49, 9, 0, 1, 9),
    (49, 9, 1, 1, 9),
    (49, 10, 1, 4, 10),
    (49, 10, 4, 1, 10),
    // The numbers of a client's slots fall.
    (49, 10, 0, 1, 11),
    (49, 11, 0, 2, 11),
    (49, 11, 0, 3, 11),
    (49, 17, 7, 1, 17),
    (40, 19, 0, 2, 19),
    (40, 19, 7, 1, 19),
    (40, 20, 5, 1, 20),
    // A request of number 0 has no other word.
    (40, 20, 0, 0, 20),
    (40, 21, 1, 2, 21),
    (25, 9, 0, 1, 9),
    (25, 10, 7, 1, 10),
    (25, 17, 1, 1, 17),
];

#[test]
fn the_first_refused_line_is_named(rt: HostRuntime) {
    for (moment, line, place, to, refused) in REFUSED {
        let found = refuses(&rt, rt.alloc(), moment, &[(line, place, to)], refused);
        assert!(rt; found, "{moment}, line {line}, word {place} is {to}");
    }
}

// The first two make more rounds than requests. Then, from the last check to the first, one more word is wrong each time.
const WRONG: [(u32, u32, u64); 9] = [
    (1, 0, 4),
    (9, 0, 4),
    (17, 1, 1),
    (11, 0, 2),
    (10, 1, 4),
    (9, 1, 1),
    (2, 0, 1),
    (1, 3, 1),
    (0, 7, 1),
];

#[test]
fn the_first_check_that_fails_decides(rt: HostRuntime) {
    for (count, refused) in [
        (2, 9),
        (3, 17),
        (4, 11),
        (5, 10),
        (6, 9),
        (7, 2),
        (8, 1),
        (9, 0),
    ] {
        assert!(rt; count <= WRONG.len());
        let words = WRONG.split_at(count).0;
        assert!(rt;
            refuses(&rt, rt.alloc(), 49, words, refused),
            "{count} words"
        );
    }
}

#[test]
fn what_is_not_in_use_is_not_looked_at(rt: HostRuntime) {
    // The object's line, the lines of version 1's records, the spare record, and a line past the region.
    for words in [
        (18, 0, 1),
        (3, 0, 9),
        (8, 7, 9),
        (19, 0, 9),
        (20, 1, 9),
        (28, 7, 9),
        (29, 0, 9),
    ] {
        assert!(rt; why(&rt, rt.alloc(), 49, &[words]).is_none());
    }
}

#[test]
fn the_header_of_a_queue_asks_for_its_records(rt: HostRuntime) {
    // The first record of its puts begins at line 19 where the round number is even, else at line 29, and its takes' at line 39.
    let words = [(0, 2, 4), (0, 6, 7), (2, 0, 1)];
    let queue = words.split_at(2).0;
    assert!(rt; why(&rt, rt.alloc(), 25, queue).is_none());
    assert!(rt; refuses(&rt, rt.alloc(), 40, queue, 29));
    assert!(rt; refuses(&rt, rt.alloc(), 49, queue, 19));
    assert!(rt; refuses(&rt, rt.alloc(), 25, &words, 49));
}

// A device that begins with these bytes.
fn of_bytes(rt: &impl Abort, alloc: Global, prefix: &[u8]) -> Image {
    let mut bytes = Vec::with_capacity(alloc, 131072).expect(rt, "memory");
    bytes.extend_from_slice(prefix).expect(rt, "memory");
    bytes.resize(131072, 0).expect(rt, "memory");
    assert!(rt; bytes.len() == 131072);
    Image::from_bytes(alloc, &bytes, 4).expect(rt, "memory")
}

#[test]
fn bytes_are_judged_as_the_lines_that_they_spell(rt: HostRuntime) {
    let sound = of_bytes(
        &rt,
        rt.alloc(),
        b"PBCOMB01\x02\0\0\0\0\0\0\0\x01\0\0\0\0\0\0\0\x01\0\0\0\0\0\0\0\x04\0\0\0\0\0\0\0\x03\0\0\0\0\0\0\0\x03\0\0\0\0\0\0\0",
    );
    let pair = open(rt.alloc(), sound).expect(&rt, "a region");
    assert!(rt; tells(&pair, 0));
    let magic = of_bytes(&rt, rt.alloc(), b"PBCOMB01");
    let refused = judge(&rt, rt.alloc(), magic, &[]);
    assert!(rt; refused == Some(Why::Damaged { line: 0 }));
    let other = of_bytes(&rt, rt.alloc(), b"PBCOMB02");
    assert!(rt; judge(&rt, rt.alloc(), other, &[]) == Some(Why::NoRegion));
}
