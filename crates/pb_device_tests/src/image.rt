//! A device in memory: what it keeps, how it fails, and what a crash leaves of it. And one that never fails.
ghost use Rattle.std.specs.Prelude.{◌<◌};

use pb_crash::Leaves;
use pb_device_fixtures::MAGIC;
use pb_image::{Call, Fail, Image, Sound};
use pb_pmem::{Line, LogOp, Pmem, PmemFault};
use std::alloc::Global;
use std::process::Abort;

// Writes a record of three lines, orders it before the index, writes the index and waits for it.
fn store(image: &mut Image, first: u32, record: [[u64; 8]; 3], index: u64) -> Result<(), PmemFault>
    requires { first < 100 }
{
    let [round, request, object] = record;
    image.write(first, &Line { words: round })?;
    image.write(first + 1, &Line { words: request })?;
    image.write(first + 2, &Line { words: object })?;
    image.write_back(first, 3)?;
    image.fence()?;
    image.set_word(1, 0, index)?;
    image.write_back(1, 1)?;
    image.sync()
}

// Writes the empty region: record 0, both index lines, the header, and after a fence the magic.
fn format(image: &mut Image) -> Result<(), PmemFault> {
    for line in [3, 4, 5, 1, 2] {
        image.write(line, &Line::default())?;
    }
    let mut word = 0;
    for value in [1, 1, 1, 4, 3, 3, 0] {
        word = 1 + word % 7;
        image.set_word(0, word, value)?;
    }
    image.write_back(0, 3)?;
    image.write_back(3, 3)?;
    image.fence()?;
    image.set_word(0, 0, MAGIC)?;
    image.write_back(0, 1)?;
    image.sync()
}

// The records of two requests, `put 3 77` and `get 3`.
const PUT: [[u64; 8]; 3] = [
    [1, 0, 0, 0, 0, 0, 0, 0],
    [1, 2, 3, 77, 0, 2, 0, 1],
    [0, 0, 0, 0, 0, 0, 77, 1],
];

const GET: [[u64; 8]; 3] = [
    [2, 0, 0, 0, 0, 0, 0, 0],
    [2, 1, 3, 0, 0, 1, 77, 1],
    [0, 0, 0, 0, 0, 0, 77, 1],
];

// The device after a map of one client and size 4 that took the two requests: 34 operations.
fn first_command(rt: &impl Abort, alloc: Global) -> Image {
    let mut image = Image::zero(alloc, 4096).expect(rt, "memory");
    assert!(rt; format(&mut image) == Ok(()));
    assert!(rt; store(&mut image, 6, PUT, 1) == Ok(()));
    assert!(rt; store(&mut image, 3, GET, 2) == Ok(()));
    image
}

fn word(image: &Image, line: u32, word: usize) -> u64
    requires line { line < 2048 }
    requires word { word < 8 }
{
    let found = image.line(line);
    found.words[word]
}

// What a crash leaves, at a moment and a cut that the device allows.
fn crashed(
    rt: &impl Abort,
    alloc: Global,
    image: &Image,
    (moment, cut): (u32, u32),
    pick: u64,
) -> Image {
    assert!(rt; moment as usize <= image.log().len());
    let (least, greatest) = image.cuts(moment);
    assert!(rt; least <= cut && cut <= greatest);
    image
        .after_crash(alloc, moment, cut, pick, 8)
        .expect(rt, "memory")
}

#[test]
fn crashes_before_the_last_operation(rt: HostRuntime) {
    let image = first_command(&rt, rt.alloc());
    assert!(rt; image.log().len() == 34);
    assert!(rt; image.cuts(33) == (4, 5));
    // Columns: the cut, the pick, the index, and the first words of lines 3 and 4.
    for (cut, pick, index, round, request) in [
        (4, 0, 1, 0, 0),
        (4, 1, 1, 2, 2),
        (4, 7, 1, 7, 7),
        (5, 0, 1, 2, 2),
        (5, 1, 2, 2, 2),
        (5, 7, 2, 2, 2),
    ] {
        let left = crashed(&rt, rt.alloc(), &image, (33, cut), pick);
        assert!(rt; left.log().is_empty());
        assert!(rt; word(&left, 0, 0) == MAGIC && word(&left, 7, 3) == 77);
        let found = [word(&left, 1, 0), word(&left, 3, 0), word(&left, 4, 0)];
        assert!(rt; found == [index, round, request], "cut {cut}, pick {pick}");
    }
}

#[test]
fn crashes_inside_the_formatting(rt: HostRuntime) {
    let image = first_command(&rt, rt.alloc());
    // Columns: the moment, the cut, the pick, words 0 and 4 of line 0, and word 0 of line 5.
    for (moment, cut, pick, magic, size, record) in [
        (14, 0, 0, 0, 0, 0),
        (14, 0, 7, 0, 4, 7),
        (15, 1, 7, 0, 4, 0),
        (16, 0, 1, 0, 4, 0),
        (16, 1, 0, 0, 4, 0),
        (17, 1, 1, MAGIC, 4, 0),
        (18, 2, 0, MAGIC, 4, 0),
    ] {
        let left = crashed(&rt, rt.alloc(), &image, (moment, cut), pick);
        let found = [word(&left, 0, 0), word(&left, 0, 4), word(&left, 5, 0)];
        assert!(rt;
            found == [magic, size, record],
            "moment {moment}, cut {cut}"
        );
    }
}

// A device with room for three operations, of which the first write, the second sync and the fourth call fail.
fn failing(rt: &impl Abort, alloc: Global) -> Image {
    let fails = [
        Fail {
            call: Call::Write,
            nth: 1,
            how: Leaves::Torn(9),
        },
        Fail {
            call: Call::Sync,
            nth: 2,
            how: Leaves::Fenced,
        },
        Fail {
            call: Call::Any,
            nth: 4,
            how: Leaves::Done,
        },
    ];
    let mut image = Image::zero(alloc, 3).expect(rt, "memory");
    image.failing(fails.to_vec(alloc).expect(rt, "memory"));
    image
}

#[test]
fn fails_as_it_is_told(rt: HostRuntime) {
    let mut image = failing(&rt, rt.alloc());
    assert!(rt; image.write(5, &Line::default()) == Err(PmemFault));
    assert!(rt; image.sync() == Ok(()));
    assert!(rt; image.sync() == Err(PmemFault));
    let mut line = Line::default();
    assert!(rt; image.read(5, &mut line) == Err(PmemFault));
    assert!(rt; image.read(5, &mut line) == Ok(()));
    assert!(rt; line == Line { words: [9; 8] });
    assert!(rt; image.fence() == Err(PmemFault), "the log is full");
    assert!(rt; image.faults() == 4);
    let log = [
        LogOp::Whole { line: 5, to: line },
        LogOp::Sync,
        LogOp::Fence,
    ];
    assert!(rt; image.log() == log.as_slice());
}

#[test]
fn begins_from_bytes(rt: HostRuntime) {
    let mut bytes = vec![in rt.alloc(); 0; 131072].expect(&rt, "memory");
    bytes[64 * 3 + 8] = 5;
    bytes[64 * 3 + 9] = 1;
    let image = Image::from_bytes(rt.alloc(), &bytes, 1).expect(&rt, "memory");
    assert!(rt; word(&image, 3, 1) == 0x105);
    assert!(rt; image.line(2) == Line::default());
}

#[test]
fn a_sound_device_keeps_what_is_written(rt: HostRuntime) {
    let mut sound = Sound::zero(rt.alloc()).expect(&rt, "memory");
    assert!(rt; sound.set_word(2047, 7, 3) == Ok(()));
    assert!(rt; sound.write_back(2047, 1) == Ok(()));
    assert!(rt; sound.fence() == Ok(()));
    assert!(rt; sound.sync() == Ok(()));
    let mut line = Line::default();
    assert!(rt; sound.read(2047, &mut line) == Ok(()));
    assert!(rt;
        line == Line {
            words: [0, 0, 0, 0, 0, 0, 0, 3]
        }
    );
    assert!(rt; sound.write(0, &line) == Ok(()));
    assert!(rt; sound.faults() == 0);
}
