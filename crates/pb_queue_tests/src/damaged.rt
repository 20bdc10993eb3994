//! A region of which one line is damaged. It has two clients and two places: the cells of positions
//! 0 and 1 are lines 3 and 4, and the records of 18 lines begin at lines 21 and 39 for puts and at
//! 57 and 75 for takes.
use crate::engine::{made, open, serve_step, two_places};
use pb_image::Image;
use pb_pair::Why;
use pb_pmem::{Line, Pmem};
use std::alloc::Global;
use std::process::Abort;

// Items wait at the positions 1 and 2. The puts' record 0 is in use after four rounds, and the
// takes' record 1 after one.
fn queue(rt: &impl Abort, alloc: Global) -> Image {
    let mut queue = made(rt, alloc, 512, 2, 2);
    for step in two_places().iter().take(5) {
        serve_step(rt, &mut queue, step);
    }
    queue.close()
}

// Exchanges a word of a line.
fn exchange(rt: &impl Abort, device: &mut Image, line: u32, word: usize, to: u64) {
    assert!(rt; line < 100 && word < 8);
    let mut damaged: Line = device.line(line);
    damaged.words[word] = to;
    assert!(rt; device.write(line, &damaged).is_ok());
}

// What opening answers where a word of a line was exchanged.
fn opened_with(rt: &impl Abort, alloc: Global, line: u32, word: usize, to: u64) -> Option<Why> {
    let mut device = queue(rt, alloc);
    exchange(rt, &mut device, line, word, to);
    match open(rt, alloc, device) {
        Ok(_) => None,
        Err(why) => Some(why),
    }
}

#[test]
fn its_first_refused_line_is_named(rt: HostRuntime) {
    let alloc = rt.alloc();
    // The number of a slot of an unused record changes nothing.
    assert!(rt; opened_with(&rt, alloc, 40, 0, 9) == None);
    // The tail, beyond the last position; and one that doesn't fit the head.
    for (line, word, to) in [
        (38, 0, 1 << 63),
        (38, 3, 1),
        // The head, beyond the tail, and too far before it.
        (92, 0, 4),
        (92, 0, 0),
        // A take's number that stands among the client's puts.
        (76, 0, 3),
        // The cells of the two items: another position, and a word that has to be zero.
        (4, 0, 3),
        (3, 2, 1),
    ] {
        let damaged = Some(Why::Damaged { line });
        let answer = opened_with(&rt, alloc, line, word, to);
        assert!(rt; answer == damaged, "{line} {word} {to}");
    }
}
