//! The format of a region, read plainly: check after check, line after line.
use pb_image::Image;
use pb_pmem::LINES;
use std::alloc::Global;
use std::process::Abort;
use std::sync::Wait;
use std::thread::Threads;

/// What a device's lines are found to be.
#[derive(Clone, Copy, PartialEq, Eq)]
pub enum Found {
    Nothing,
    Damaged(u64),
    Region,
}

const MAGIC: u64 = 0x3130_424D_4F43_4250;

const LAST_NUMBER: u64 = 72_057_594_037_927_935;

const LAST_POSITION: u64 = 4_611_686_018_427_387_904;

const MAP: u64 = 1;

const HEAP: u64 = 3;

const QUEUE: u64 = 4;

// An operation's code, its kind and side, how many arguments it has, and the codes of its replies.
type Operation = (u64, u64, u64, u64, &'static [u64]);

const OPERATIONS: [Operation; 11] = [
    (1, 1, 0, 1, &[1, 4]),
    (2, 1, 0, 2, &[2, 4, 5]),
    (3, 1, 0, 3, &[2, 3, 4, 5]),
    (4, 2, 0, 1, &[6, 7]),
    (5, 2, 0, 0, &[8, 9]),
    (6, 2, 0, 0, &[8, 9]),
    (7, 3, 0, 1, &[10, 7]),
    (8, 3, 0, 0, &[8, 9]),
    (9, 3, 0, 0, &[8, 9]),
    (10, 4, 0, 1, &[11, 7, 5]),
    (11, 4, 1, 0, &[8, 9]),
];

// A word of a line, and 0 where there is none.
fn word(device: &Image, line: u64, word: usize) -> u64 {
    if line >= u64::from(LINES) {
        return 0;
    }
    device
        .line(line as u32)
        .words
        .get(word)
        .copied()
        .unwrap_or(0)
}

// The words of a line from one on are zero.
fn is_zero_from(device: &Image, line: u64, first: usize) -> bool {
    for place in first..8 {
        if word(device, line, place) != 0 {
            return false;
        }
    }
    true
}

/// A region's header, where its checks let it be one.
#[derive(Clone, Copy)]
pub struct Head {
    pub kind: u64,
    pub clients: u64,
    pub size: u64,
}

fn head_of(device: &Image) -> Head {
    Head {
        kind: word(device, 0, 2),
        clients: word(device, 0, 3),
        size: word(device, 0, 4),
    }
}

// How many object lines a record has.
fn object_lines(head: Head) -> u64 {
    if head.kind == MAP {
        return head.size.div_ceil(4);
    }
    if head.kind == QUEUE {
        return 1;
    }
    head.size.div_ceil(8).wrapping_add(1)
}

fn sides(head: Head) -> u64 {
    if head.kind == QUEUE { 2 } else { 1 }
}

// The first line behind the cells.
fn first_line(head: Head) -> u64 {
    if head.kind == QUEUE {
        return head.size.wrapping_add(3);
    }
    3
}

fn is_within(value: u64, low: u64, high: u64) -> bool {
    low <= value && value <= high
}

fn is_head(device: &Image) -> bool {
    let head = head_of(device);
    let is_small = is_within(head.kind, 1, 4)
        && is_within(head.clients, 1, 16)
        && is_within(head.size, 1, 1024);
    if !is_small || word(device, 0, 1) != 2 || word(device, 0, 7) != 0 {
        return false;
    }
    let length = head
        .clients
        .wrapping_add(object_lines(head))
        .wrapping_add(1);
    word(device, 0, 5) == length && word(device, 0, 6) == first_line(head)
}

// The round of a side.
fn round(device: &Image, side: u64) -> u64 {
    word(device, side.wrapping_add(1), 0)
}

// How many lines a record has: its first one, eight for each client, and the object's.
fn record_lines(head: Head) -> u64 {
    head.clients
        .wrapping_mul(8)
        .wrapping_add(object_lines(head))
        .wrapping_add(1)
}

// The first line of a side's record in use.
fn record(device: &Image, head: Head, side: u64) -> u64 {
    let old = head
        .clients
        .wrapping_add(object_lines(head))
        .wrapping_add(1)
        .wrapping_mul(sides(head))
        .wrapping_mul(2);
    let which = side.wrapping_mul(2).wrapping_add(round(device, side) % 2);
    first_line(head)
        .wrapping_add(old)
        .wrapping_add(which.wrapping_mul(record_lines(head)))
}

// The line of a client's slot in a side's record.
fn slot(device: &Image, head: Head, side: u64, (client, place): (u64, u64)) -> u64 {
    record(device, head, side)
        .wrapping_add(1)
        .wrapping_add(client.wrapping_mul(8))
        .wrapping_add(place)
}

// The first object line of a side's record.
fn object(device: &Image, head: Head, side: u64) -> u64 {
    record(device, head, side)
        .wrapping_add(1)
        .wrapping_add(head.clients.wrapping_mul(8))
}

// The operation of a client's line, where it is one of the kind and side.
fn operation(device: &Image, head: Head, side: u64, line: u64) -> Option<Operation> {
    let code = word(device, line, 1);
    for operation in OPERATIONS {
        if operation.0 == code && operation.1 == head.kind && operation.2 == side {
            return Some(operation);
        }
    }
    None
}

// The words of a reply that its code leaves unused are zero.
fn is_reply(device: &Image, head: Head, line: u64) -> bool {
    let code = word(device, line, 5);
    let has_value = !(code == 4 || code == 5 || code == 7 || code == 9);
    let has_extra = code <= 3 || (code == 8 && head.kind == QUEUE);
    (has_value || word(device, line, 6) == 0) && (has_extra || word(device, line, 7) == 0)
}

// A client's line is empty, or a request of this side with a reply that it may have.
fn is_client(device: &Image, head: Head, side: u64, line: u64) -> bool {
    if is_zero_from(device, line, 0) {
        return true;
    }
    if !is_within(word(device, line, 0), 1, LAST_NUMBER) {
        return false;
    }
    let Some((_, _, _, arguments, replies)) = operation(device, head, side, line) else {
        return false;
    };
    for place in 2..5usize {
        if place as u64 >= arguments.wrapping_add(2) && word(device, line, place) != 0 {
            return false;
        }
    }
    replies.contains(&word(device, line, 5)) && is_reply(device, head, line)
}

// The first line that is refused of a side's record but for the object's.
fn judge_record(device: &Image, head: Head, side: u64) -> Option<u64> {
    let first = record(device, head, side);
    if word(device, first, 0) != round(device, side) || !is_zero_from(device, first, 1) {
        return Some(first);
    }
    let mut sum = 0u128;
    for client in 0..head.clients {
        for place in 0..8u64 {
            let line = slot(device, head, side, (client, place));
            let number = word(device, line, 0);
            let before = word(device, line.wrapping_sub(1), 0);
            if !is_client(device, head, side, line)
                || (place > 0 && number != 0 && number >= before)
            {
                return Some(line);
            }
            if place == 0 {
                sum = sum.wrapping_add(u128::from(number));
            }
        }
    }
    (u128::from(round(device, side)) > sum).then_some(first)
}

// The first of a map's lines that is refused.
fn judge_map(device: &Image, head: Head) -> Option<u64> {
    let first = object(device, head, 0);
    for nth in 0..object_lines(head) {
        let line = first.wrapping_add(nth);
        for place in 0..4usize {
            let value = word(device, line, place.wrapping_mul(2));
            let version = word(device, line, place.wrapping_mul(2).wrapping_add(1));
            let register = nth.wrapping_mul(4).wrapping_add(place as u64);
            let is_used = register < head.size || (value == 0 && version == 0);
            if version > LAST_POSITION || (version == 0 && value != 0) || !is_used {
                return Some(line);
            }
        }
    }
    None
}

// An item of a stack or a heap.
fn item(device: &Image, head: Head, place: u64) -> u64 {
    let line = object(device, head, 0)
        .wrapping_add(1)
        .wrapping_add(place / 8);
    word(device, line, (place % 8) as usize)
}

// The first of a stack's or a heap's lines that is refused.
fn judge_items(device: &Image, head: Head) -> Option<u64> {
    let first = object(device, head, 0);
    let count = word(device, first, 0);
    if count > head.size || !is_zero_from(device, first, 1) {
        return Some(first);
    }
    let end = object_lines(head).wrapping_sub(1).wrapping_mul(8);
    for place in 0..end {
        let is_unused = place >= count && item(device, head, place) != 0;
        let is_sunk = head.kind == HEAP
            && place > 0
            && place < count
            && item(device, head, place) < item(device, head, place.wrapping_sub(1) / 2);
        if is_unused || is_sunk {
            return Some(first.wrapping_add(1).wrapping_add(place / 8));
        }
    }
    None
}

// The first refused line of a queue's tail and head, of a request that stands on both sides, or of a cell.
fn judge_queue(device: &Image, head: Head) -> Option<u64> {
    let (tails, heads) = (object(device, head, 0), object(device, head, 1));
    let (last, first) = (word(device, tails, 0), word(device, heads, 0));
    if last > LAST_POSITION || !is_zero_from(device, tails, 1) {
        return Some(tails);
    }
    let is_bad = first > LAST_POSITION || !is_zero_from(device, heads, 1) || first > last;
    if is_bad || last.wrapping_sub(first) > head.size {
        return Some(heads);
    }
    judge_twice(device, head).or(judge_cells(device, head, first, last))
}

// The first slot of side 1 whose number stands on side 0 too.
fn judge_twice(device: &Image, head: Head) -> Option<u64> {
    for client in 0..head.clients {
        for place in 0..8u64 {
            let line = slot(device, head, 1, (client, place));
            for other in 0..8u64 {
                let twin = slot(device, head, 0, (client, other));
                if word(device, line, 0) != 0 && word(device, line, 0) == word(device, twin, 0) {
                    return Some(line);
                }
            }
        }
    }
    None
}

// The first of the cells of these positions that isn't its position's.
fn judge_cells(device: &Image, head: Head, first: u64, last: u64) -> Option<u64> {
    for position in first..last {
        let line = position.checked_rem(head.size).unwrap_or(0).wrapping_add(3);
        if word(device, line, 0) != position || !is_zero_from(device, line, 2) {
            return Some(line);
        }
    }
    None
}

// The first refused line of the object.
fn judge_object(device: &Image, head: Head) -> Option<u64> {
    if head.kind == MAP {
        return judge_map(device, head);
    }
    if head.kind == QUEUE {
        return judge_queue(device, head);
    }
    judge_items(device, head)
}

// The first refused line of those in front of the records.
fn judge_front(device: &Image, head: Head) -> Option<u64> {
    if !is_head(device) {
        return Some(0);
    }
    if !is_zero_from(device, 1, 1) {
        return Some(1);
    }
    let is_second = is_zero_from(device, 2, 1) && (sides(head) == 2 || round(device, 1) == 0);
    if is_second { None } else { Some(2) }
}

// The first refused line of all sides' records but for the object's.
fn judge_records(device: &Image, head: Head) -> Option<u64> {
    for side in 0..sides(head) {
        if let Some(line) = judge_record(device, head, side) {
            return Some(line);
        }
    }
    None
}

/// What a device's lines are.
pub fn judge(device: &Image) -> Found {
    if word(device, 0, 0) != MAGIC {
        return Found::Nothing;
    }
    let head = head_of(device);
    let mut refused = judge_front(device, head);
    if refused.is_none() {
        refused = judge_records(device, head);
    }
    if refused.is_none() {
        refused = judge_object(device, head);
    }
    match refused {
        Some(line) => Found::Damaged(line),
        None => Found::Region,
    }
}

/// What `run` prints of it over an empty script, and its status.
pub fn said(
    rt: &(impl Abort + Wait + Threads + Sync),
    alloc: Global,
    found: Found,
) -> (String, u8) {
    match found {
        Found::Nothing => (format!(in alloc; "none\n").expect(rt, "memory"), 7),
        Found::Damaged(line) => (
            format!(in alloc; "damaged {line}\n").expect(rt, "memory"),
            7,
        ),
        Found::Region => (String::new(alloc), 0),
    }
}
