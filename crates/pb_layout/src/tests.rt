//! Expected lines are written out by hand from the format.
ghost use Rattle.std.specs.Prelude.{◌≡◌, ◌<◌, ◌≤◌, length};

use super::*;
use pb_object::{Kept, Kind, Op, Reply};
use pb_pmem::{LINES, Line};
use std::test::Fail;

fn line(words: [u64; 8]) -> Line {
    Line { words }
}

#[test]
fn reads_headers(rt: HostRuntime) {
    let bytes = MAGIC.to_le_bytes();
    assert_eq!(rt; bytes, *b"PBCOMB01");
    let map = [MAGIC, 2, 1, 1, 4, 3, 3, 0];
    let head = Header {
        kind: Kind::Map,
        clients: 1,
        size: 4,
    };
    assert_eq!(rt; header_line(&head), line(map));
    assert_eq!(rt; header_of(&line(map)), Ok(head));
    assert_eq!(rt; laws::header_again(&head), Ok(head));
    let accepted = [
        [MAGIC, 2, 2, 16, 1024, 146, 3, 0],
        [MAGIC, 2, 3, 16, 1, 19, 3, 0],
        [MAGIC, 2, 4, 2, 2, 4, 5, 0],
        [MAGIC, 2, 1, 1, 1, 3, 3, 0],
    ];
    for words in accepted {
        assert!(rt; header_of(&line(words)).is_ok(), "{words:?}");
    }
    let no_magic = header_of(&line([MAGIC - 1, 2, 1, 1, 4, 3, 3, 0]));
    assert_eq!(rt; no_magic, Err(LayoutFault::NoMagic));
    let refused = [
        (1, [MAGIC, 1, 1, 1, 4, 3, 3, 0]),
        (1, [MAGIC, 3, 1, 1, 4, 3, 3, 0]),
        (2, [MAGIC, 2, 0, 1, 4, 3, 3, 0]),
        (2, [MAGIC, 2, 5, 1, 4, 3, 3, 0]),
        (3, [MAGIC, 2, 1, 0, 4, 2, 3, 0]),
        (3, [MAGIC, 2, 1, 17, 4, 19, 3, 0]),
        (4, [MAGIC, 2, 1, 1, 0, 2, 3, 0]),
        (4, [MAGIC, 2, 1, 1, 1025, 259, 3, 0]),
        (5, [MAGIC, 2, 1, 1, 4, 10, 3, 0]),
        (6, [MAGIC, 2, 4, 2, 2, 4, 3, 0]),
        (7, [MAGIC, 2, 1, 1, 4, 3, 3, 1]),
    ];
    for (word, words) in refused {
        let read = header_of(&line(words));
        assert_eq!(rt; read, Err(LayoutFault::BadHeader { word }), "{words:?}");
    }
}

#[test]
fn places_lines(rt: HostRuntime) {
    let map = Header {
        kind: Kind::Map,
        clients: 1,
        size: 4,
    };
    assert_eq!(rt; (record_len(&map), first_record(&map)), (10, 9));
    assert_eq!(rt; (record_line(&map, 0, 0), record_line(&map, 0, 1)), (9, 19));
    let queue = Header {
        kind: Kind::Queue,
        clients: 16,
        size: 1024,
    };
    assert_eq!(rt; (record_len(&queue), first_record(&queue)), (130, 1099));
    assert_eq!(rt;
        (record_line(&queue, 0, 1), record_line(&queue, 1, 0)),
        (1229, 1359)
    );
    assert_eq!(rt; record_line(&queue, 1, 1) + record_len(&queue), 1619);
    assert_eq!(rt;
        (cell_line(&queue, 1023), cell_line(&queue, 1024)),
        (1026, 3)
    );
}

fn is_read(kind: Kind, side: u32, words: [u64; 8]) -> bool {
    client_of(kind, side, &line(words)).is_some()
}

#[test]
fn reads_clients(rt: HostRuntime) {
    let kept = Kept {
        number: 1,
        op: Op {
            code: 2,
            a: 3,
            b: 77,
            c: 0,
        },
        reply: Reply {
            code: 2,
            value: 0,
            extra: 1,
        },
    };
    let put = line([1, 2, 3, 77, 0, 2, 0, 1]);
    assert_eq!(rt; client_line(&kept), put);
    assert_eq!(rt; client_of(Kind::Map, 0, &put), Some(kept));
    assert_eq!(rt;
        client_of(Kind::Map, 0, &Line::default()),
        Some(Kept::default())
    );
    assert_eq!(rt;
        laws::client_again(Kind::Queue, 1, &Kept::default()),
        Some(Kept::default())
    );
    assert!(rt; !is_read(Kind::Map, 0, [0, 2, 3, 77, 0, 2, 0, 1]));
    assert!(rt; is_read(Kind::Map, 0, [72057594037927935, 2, 3, 77, 0, 2, 0, 1]));
    assert!(rt; !is_read(Kind::Map, 0, [72057594037927936, 2, 3, 77, 0, 2, 0, 1]));
    assert!(rt; !is_read(Kind::Map, 1, [1, 2, 3, 77, 0, 2, 0, 1]));
    assert!(rt; !is_read(Kind::Stack, 0, [1, 2, 3, 77, 0, 2, 0, 1]));
    assert!(rt; !is_read(Kind::Queue, 0, [1, 11, 0, 0, 0, 9, 0, 0]));
    assert!(rt; !is_read(Kind::Queue, 1, [1, 10, 7, 0, 0, 11, 0, 0]));
}

#[test]
fn reads_map_requests(rt: HostRuntime) {
    let rows = [
        (true, [1, 1, 9, 0, 0, 1, 8, 7]),
        (false, [1, 1, 9, 1, 0, 1, 8, 7]),
        (true, [1, 1, 9, 0, 0, 4, 0, 0]),
        (false, [1, 1, 9, 0, 0, 5, 0, 0]),
        (true, [1, 2, 9, 8, 0, 2, 7, 6]),
        (false, [1, 2, 9, 8, 1, 2, 7, 6]),
        (true, [1, 2, 9, 8, 0, 4, 0, 0]),
        (false, [1, 2, 9, 8, 0, 4, 0, 1]),
        (true, [1, 2, 9, 8, 0, 5, 0, 0]),
        (false, [1, 2, 9, 8, 0, 5, 1, 0]),
        (true, [1, 3, 9, 8, 7, 2, 6, 5]),
        (false, [1, 3, 9, 8, 7, 1, 6, 5]),
        (true, [1, 3, 9, 8, 7, 3, 6, 5]),
        (false, [1, 3, 9, 8, 7, 12, 6, 5]),
        (true, [1, 3, 9, 8, 7, 4, 0, 0]),
        (false, [1, 3, 9, 8, 7, 4, 6, 0]),
        (true, [1, 3, 9, 8, 7, 5, 0, 0]),
        (false, [1, 3, 9, 8, 7, 6, 0, 0]),
    ];
    for (accepted, words) in rows {
        assert_eq!(rt; is_read(Kind::Map, 0, words), accepted, "{words:?}");
    }
}

#[test]
fn reads_stack_and_heap_requests(rt: HostRuntime) {
    let rows = [
        (Kind::Stack, true, [1, 4, 9, 0, 0, 6, 8, 0]),
        (Kind::Stack, false, [1, 4, 9, 0, 0, 6, 8, 1]),
        (Kind::Stack, true, [1, 4, 9, 0, 0, 7, 0, 0]),
        (Kind::Stack, false, [1, 4, 9, 1, 0, 7, 0, 0]),
        (Kind::Stack, true, [1, 5, 0, 0, 0, 8, 9, 0]),
        (Kind::Stack, false, [1, 5, 0, 0, 0, 8, 9, 1]),
        (Kind::Stack, true, [1, 5, 0, 0, 0, 9, 0, 0]),
        (Kind::Stack, false, [1, 5, 1, 0, 0, 9, 0, 0]),
        (Kind::Stack, true, [1, 6, 0, 0, 0, 8, 9, 0]),
        (Kind::Stack, false, [1, 6, 0, 0, 0, 7, 0, 0]),
        (Kind::Stack, true, [1, 6, 0, 0, 0, 9, 0, 0]),
        (Kind::Stack, false, [1, 6, 0, 0, 0, 9, 1, 0]),
        (Kind::Heap, true, [1, 7, 9, 0, 0, 10, 8, 0]),
        (Kind::Heap, false, [1, 7, 9, 0, 0, 6, 8, 0]),
        (Kind::Heap, true, [1, 7, 9, 0, 0, 7, 0, 0]),
        (Kind::Heap, false, [1, 7, 9, 0, 0, 7, 0, 1]),
        (Kind::Heap, true, [1, 8, 0, 0, 0, 8, 9, 0]),
        (Kind::Heap, false, [1, 8, 0, 0, 0, 8, 9, 1]),
        (Kind::Heap, true, [1, 8, 0, 0, 0, 9, 0, 0]),
        (Kind::Heap, false, [1, 8, 0, 0, 1, 9, 0, 0]),
        (Kind::Heap, true, [1, 9, 0, 0, 0, 8, 9, 0]),
        (Kind::Heap, false, [1, 9, 0, 0, 0, 10, 9, 0]),
        (Kind::Heap, true, [1, 9, 0, 0, 0, 9, 0, 0]),
        (Kind::Heap, false, [1, 9, 0, 1, 0, 9, 0, 0]),
    ];
    for (kind, accepted, words) in rows {
        assert_eq!(rt; is_read(kind, 0, words), accepted, "{words:?}");
    }
}

#[test]
fn reads_queue_requests(rt: HostRuntime) {
    let rows = [
        (0, true, [1, 10, 9, 0, 0, 11, 8, 0]),
        (0, false, [1, 10, 9, 0, 0, 11, 8, 1]),
        (0, true, [1, 10, 9, 0, 0, 7, 0, 0]),
        (0, false, [1, 10, 9, 0, 0, 9, 0, 0]),
        (0, true, [1, 10, 9, 0, 0, 5, 0, 0]),
        (0, false, [1, 10, 9, 0, 0, 5, 1, 0]),
        (1, true, [1, 11, 0, 0, 0, 8, 9, 7]),
        (1, false, [1, 11, 1, 0, 0, 8, 9, 7]),
        (1, true, [1, 11, 0, 0, 0, 9, 0, 0]),
        (1, false, [1, 11, 0, 0, 0, 9, 0, 7]),
    ];
    for (side, accepted, words) in rows {
        assert_eq!(rt; is_read(Kind::Queue, side, words), accepted, "{words:?}");
    }
}

// One word of an allowed slot is another: of a put's, of a take's, and of an empty one.
#[test]
fn judges_each_word_of_a_slot(rt: HostRuntime) {
    let rows = [
        (Kind::Map, 0, false, [0, 2, 3, 77, 0, 2, 5, 9]),
        (Kind::Map, 0, false, [1, 1, 3, 77, 0, 2, 5, 9]),
        (Kind::Map, 0, true, [1, 2, 4, 77, 0, 2, 5, 9]),
        (Kind::Map, 0, true, [1, 2, 3, 78, 0, 2, 5, 9]),
        (Kind::Map, 0, false, [1, 2, 3, 77, 1, 2, 5, 9]),
        (Kind::Map, 0, false, [1, 2, 3, 77, 0, 1, 5, 9]),
        (Kind::Map, 0, true, [1, 2, 3, 77, 0, 2, 6, 9]),
        (Kind::Map, 0, true, [1, 2, 3, 77, 0, 2, 5, 10]),
        (Kind::Queue, 1, false, [0, 11, 0, 0, 0, 8, 70, 0]),
        (Kind::Queue, 1, false, [1, 10, 0, 0, 0, 8, 70, 0]),
        (Kind::Queue, 1, false, [1, 11, 1, 0, 0, 8, 70, 0]),
        (Kind::Queue, 1, false, [1, 11, 0, 1, 0, 8, 70, 0]),
        (Kind::Queue, 1, false, [1, 11, 0, 0, 1, 8, 70, 0]),
        (Kind::Queue, 1, false, [1, 11, 0, 0, 0, 9, 70, 0]),
        (Kind::Queue, 1, true, [1, 11, 0, 0, 0, 8, 71, 0]),
        (Kind::Queue, 1, true, [1, 11, 0, 0, 0, 8, 70, 1]),
        (Kind::Map, 0, false, [1, 0, 0, 0, 0, 0, 0, 0]),
        (Kind::Map, 0, false, [0, 1, 0, 0, 0, 0, 0, 0]),
        (Kind::Map, 0, false, [0, 0, 1, 0, 0, 0, 0, 0]),
        (Kind::Map, 0, false, [0, 0, 0, 1, 0, 0, 0, 0]),
        (Kind::Map, 0, false, [0, 0, 0, 0, 1, 0, 0, 0]),
        (Kind::Map, 0, false, [0, 0, 0, 0, 0, 1, 0, 0]),
        (Kind::Map, 0, false, [0, 0, 0, 0, 0, 0, 1, 0]),
        (Kind::Map, 0, false, [0, 0, 0, 0, 0, 0, 0, 1]),
    ];
    for (kind, side, accepted, words) in rows {
        assert_eq!(rt; is_read(kind, side, words), accepted, "{words:?}");
    }
}

#[test]
fn reads_cells(rt: HostRuntime) {
    assert_eq!(rt; cell(5, 77), line([5, 77, 0, 0, 0, 0, 0, 0]));
    assert_eq!(rt; laws::cell_again(5, 77), Some(77));
    assert_eq!(rt; cell_of(5, &line([5, 77, 0, 0, 0, 0, 0, 0])), Some(77));
    assert_eq!(rt; cell_of(6, &line([5, 77, 0, 0, 0, 0, 0, 0])), None);
    assert_eq!(rt; cell_of(5, &line([5, 77, 1, 0, 0, 0, 0, 0])), None);
    assert_eq!(rt; cell_of(5, &line([5, 77, 0, 0, 0, 0, 0, 1])), None);
}

// A record of a map of size 1 with two clients: its round, sixteen slots and one object line.
fn record(round: Line, slots: [Line; 16]) -> [Line; 18] {
    let mut lines = [Line::default(); 18];
    lines[0] = round;
    for place in 0..16 {
        lines[1 + place] = slots[place];
    }
    lines
}

// Slots in which the first client has these lines and the second one those.
fn slots(first: &[Line], second: &[Line]) -> [Line; 16]
    requires first { length first.now ≤ 8 }
    requires second { length second.now ≤ 8 }
{
    let mut slots = [Line::default(); 16];
    for place in 0..first.len() {
        slots[place] = first[place];
    }
    for place in 0..second.len() {
        slots[8 + place] = second[place];
    }
    slots
}

fn put(number: u64) -> Line {
    line([number, 2, 0, 5, 0, 2, 0, 1])
}

// The first refused line of a record of this round with these slots.
fn refused(round: u64, first: &[Line], second: &[Line]) -> Option<u32>
    requires first { length first.now ≤ 8 }
    requires second { length second.now ≤ 8 }
{
    let head = Header {
        kind: Kind::Map,
        clients: 2,
        size: 1,
    };
    match record_of(
        &head,
        0,
        round,
        &record(count_line(round), slots(first, second)),
    ) {
        Err(LayoutFault::BadRecord { line }) => Some(line),
        _ => None,
    }
}

#[test]
fn judges_records(rt: HostRuntime) {
    let nothing = Line::default();
    let bad = line([1, 2, 0, 5, 0, 1, 0, 1]);
    assert_eq!(rt; refused(1, &[put(1)], &[]), None);
    assert_eq!(rt; refused(3, &[put(2), put(1)], &[put(1)]), None);
    assert_eq!(rt; refused(1, &[bad], &[bad]), Some(1));
    assert_eq!(rt; refused(1, &[put(2), bad], &[bad]), Some(2));
    assert_eq!(rt; refused(1, &[put(1)], &[bad]), Some(9));
    assert_eq!(rt; refused(3, &[put(1)], &[bad]), Some(9));
    assert_eq!(rt; refused(3, &[put(1)], &[put(1)]), Some(0));
    // The sum is of the newest numbers alone.
    assert_eq!(rt; refused(3, &[put(2), put(1)], &[]), Some(0));
    // Numbers fall, and empty slots come last.
    assert_eq!(rt; refused(1, &[put(2), put(2)], &[]), Some(2));
    assert_eq!(rt; refused(1, &[put(2), put(3)], &[]), Some(2));
    assert_eq!(rt; refused(1, &[nothing, put(1)], &[put(1)]), Some(2));
    assert_eq!(rt; refused(1, &[put(3), nothing, put(1)], &[]), Some(3));
    // One client's slots say nothing of the next one's.
    let eight = [
        put(8),
        put(7),
        put(6),
        put(5),
        put(4),
        put(3),
        put(2),
        put(1),
    ];
    assert_eq!(rt; refused(11, &eight, &[put(9)]), None);
    assert_eq!(rt; refused(1, &[], &eight), None);
}

#[test]
fn judges_the_first_line_first(rt: HostRuntime) {
    let head = Header {
        kind: Kind::Map,
        clients: 2,
        size: 1,
    };
    let bad = line([1, 2, 0, 5, 0, 1, 0, 1]);
    let lines = record(count_line(1), slots(&[bad], &[]));
    let read = record_of(&head, 0, 2, &lines);
    assert_eq!(rt; read, Err(LayoutFault::BadRecord { line: 0 }));
    let lines = record(put(1), slots(&[put(1)], &[]));
    let read = record_of(&head, 0, 1, &lines);
    assert_eq!(rt; read, Err(LayoutFault::BadRecord { line: 0 }));
}

#[test]
fn puts_in_front(rt: HostRuntime) {
    let kept = Kept {
        number: 10,
        op: Op {
            code: 2,
            a: 0,
            b: 5,
            c: 0,
        },
        reply: Reply {
            code: 2,
            value: 0,
            extra: 1,
        },
    };
    let before = record(
        count_line(9),
        slots(
            &[put(3)],
            &[
                put(9),
                put(8),
                put(7),
                put(6),
                put(5),
                put(4),
                put(3),
                put(2),
            ],
        ),
    );
    let mut lines = before;
    put_in_front(&before, 1, &kept, &mut lines);
    let eight = [
        put(10),
        put(9),
        put(8),
        put(7),
        put(6),
        put(5),
        put(4),
        put(3),
    ];
    let want = record(count_line(9), slots(&[put(3)], &eight));
    assert_eq!(rt; lines, want);
    assert_eq!(rt; kept_in_slot(&lines, 1, 0), kept);
    assert_eq!(rt; kept_in_slot(&lines, 1, 7).number, 3);
    assert_eq!(rt; kept_in_slot(&lines, 0, 1), Kept::default());
}

// The number at a place of the first client's kept requests, where these are records of a queue's two sides.
fn kept_number(puts: &[Line], takes: &[Line], place: u32) -> Option<u64>
    requires puts { length puts.now ≡ 18 }
    requires takes { length takes.now ≡ 18 }
    requires place { place < 8 }
{
    let head = Header {
        kind: Kind::Queue,
        clients: 2,
        size: 1,
    };
    let Ok(()) = record_of(&head, 0, 2, puts) else {
        return None;
    };
    let Ok(()) = record_of(&head, 1, 2, takes) else {
        return None;
    };
    Some(kept_of_both(puts, takes, 0, place).number)
}

#[test]
fn merges_by_number(rt: HostRuntime) {
    let added = line([9, 10, 5, 0, 0, 11, 3, 0]);
    let full = line([4, 10, 5, 0, 0, 7, 0, 0]);
    let taken = line([8, 11, 0, 0, 0, 8, 5, 2]);
    let empty = line([7, 11, 0, 0, 0, 9, 0, 0]);
    let puts = record(count_line(2), slots(&[added, full], &[]));
    let takes = record(count_line(2), slots(&[taken, empty], &[]));
    let want = [9, 8, 7, 4, 0, 0, 0, 0];
    for place in 0..8 {
        let number = kept_number(&puts, &takes, place);
        assert_eq!(rt; number, Some(want[place as usize]), "{place}");
    }
}

#[test]
fn has_one_recovery(rt: HostRuntime) -> Result<(), Fail> {
    let image = vec![in rt.alloc(); Line::default(); LINES as usize]?;
    laws::one_recovery(&image);
    laws::one_standing(&image);
    Ok(())
}
