//! What a crash leaves, by the plain words: a slow program to compare with, on logs made at random.
ghost use Rattle.std.specs.Prelude.{◌<◌};

use pb_device_fixtures::left_at;
use pb_image::Image;
use pb_pmem::{Line, LogOp, Pmem, PmemFault};
use std::alloc::Global;
use std::process::Abort;

// How many lines the random logs write.
const FEW: u32 = 4;

#[derive(Clone, Copy, PartialEq, Eq)]
enum Fate {
    Settled,
    Loose,
    Barred,
}

fn is_mark(op: &LogOp) -> bool {
    matches!(op, LogOp::Fence) || matches!(op, LogOp::Sync)
}

// How many operations stand before a mark; all, where the log has fewer marks; none before mark 0.
fn before_mark(log: &[LogOp], mark: u32) -> usize {
    if mark == 0 {
        return 0;
    }
    let mut count = 0u32;
    for (place, op) in log.iter().enumerate() {
        if is_mark(op) {
            count = count.wrapping_add(1);
        }
        if count == mark {
            return place;
        }
    }
    log.len()
}

fn covers(op: &LogOp, line: u32) -> bool {
    match *op {
        LogOp::Back { first, count } => first <= line && line - first < count,
        _ => false,
    }
}

// A write is settled where a `Back` of its line stands after it and before mark `cut`,
// barred where it stands after mark `cut + 1`, and else loose.
fn fate_of(log: &[LogOp], cut: u32, place: usize, line: u32) -> Fate {
    for (at, op) in log.iter().enumerate() {
        if at > place && at < before_mark(log, cut) && covers(op, line) {
            return Fate::Settled;
        }
    }
    if place > before_mark(log, cut.wrapping_add(1)) {
        Fate::Barred
    } else {
        Fate::Loose
    }
}

// Does a write, if it is one of this line. Answers whether it wrote the line whole.
fn do_write(content: &mut Line, op: &LogOp, line: u32) -> bool {
    match *op {
        LogOp::Whole { line: at, to } => {
            if at == line {
                *content = to;
            }
            at == line
        }
        LogOp::Word { line: at, word, to } => {
            if at == line {
                content.words[word as usize % 8] = to;
            }
            false
        }
        _ => false,
    }
}

// A line with its writes of one fate in order, and whether a whole line was among them.
fn written(start: Line, log: &[LogOp], cut: u32, line: u32, which: Fate) -> (Line, bool) {
    let mut content = start;
    let mut whole = false;
    for (place, op) in log.iter().enumerate() {
        if fate_of(log, cut, place, line) == which && do_write(&mut content, op, line) {
            whole = true;
        }
    }
    (content, whole)
}

// The line that a pick leaves.
fn picked(start: Line, log: &[LogOp], cut: u32, line: u32, pick: u64) -> Line {
    let settled = written(start, log, cut, line, Fate::Settled).0;
    let (loose, whole) = written(settled, log, cut, line, Fate::Loose);
    match pick {
        0 => settled,
        1 => loose,
        _ => {
            if whole {
                Line { words: [pick; 8] }
            } else {
                loose
            }
        }
    }
}

#[derive(Drop)]
struct Random {
    state: u64,
}

impl Random {
    fn below(&mut self, limit: u32) -> u32
        requires { 0 < limit }
        ensures { result < limit }
    {
        self.state = self
            .state
            .wrapping_mul(6364136223846793005)
            .wrapping_add(1442695040888963407);
        ((self.state >> 33) % u64::from(limit)) as u32
    }
}

// One call of a random kind.
fn call(image: &mut Image, random: &mut Random, value: u64) -> Result<(), PmemFault> {
    let line = random.below(FEW);
    match random.below(12) {
        0 | 1 | 2 => image.write(line, &Line { words: [value; 8] }),
        3 | 4 | 5 => {
            let word = random.below(2);
            image.set_word(line, word, value)
        }
        6 | 7 | 8 => image.write_back(line, 1),
        9 => image.write_back(line, 2),
        10 => image.fence(),
        _ => image.sync(),
    }
}

// A device whose lines are all 1, with a random log.
fn random_device(rt: &impl Abort, alloc: Global, random: &mut Random) -> Image {
    let bytes = vec![in alloc; 1; 131072].expect(rt, "memory");
    let mut image = Image::from_bytes(alloc, &bytes, 64).expect(rt, "memory");
    for value in 100..130 {
        assert!(rt; call(&mut image, random, value) == Ok(()));
    }
    image
}

// Compares the first lines of what a crash leaves with the words.
fn compare(rt: &impl Abort, left: &Image, log: &[LogOp], cut: u32, pick: u64) {
    let start = Line {
        words: [0x0101_0101_0101_0101; 8],
    };
    for line in 0..5 {
        let want = picked(start, log, cut, line, pick);
        assert!(rt;
            left.line(line) == want,
            "line {line}, cut {cut}, pick {pick}"
        );
    }
}

// Compares what crashes at a moment leave, at each cut that the device allows. Answers how many were compared.
fn compare_all(rt: &impl Abort, alloc: Global, image: &Image, moment: u32) -> u32 {
    assert!(rt; moment as usize <= image.log().len());
    let log = image.log().split_at(moment as usize).0;
    let mut compared = 0u32;
    for left in left_at(alloc, image, moment, &[0, 1, 9]).expect(rt, "memory") {
        compare(rt, &left.device, log, left.cut, left.pick);
        compared = compared.wrapping_add(1);
    }
    compared
}

#[test]
fn crashes_as_the_words_say(rt: HostRuntime) {
    let mut random = Random { state: 1 };
    let mut compared = 0u32;
    for _round in 0..12 {
        let image = random_device(&rt, rt.alloc(), &mut random);
        let moment = random.below(31);
        compared = compared.wrapping_add(compare_all(&rt, rt.alloc(), &image, moment));
    }
    assert!(rt; compared > 40, "only {compared} images were compared");
}
