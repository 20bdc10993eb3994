//! A script for one client of a map of four registers, read plainly: lines, fields, numbers; and what it prints on an empty map.
use std::alloc::Global;
use std::process::Abort;
use std::sync::Wait;
use std::thread::Threads;

const LAST_NUMBER: u64 = 72_057_594_037_927_935;

// What one piece after the other is between bytes that part them. Of pieces between two such bytes the empty ones stay.
fn parted(
    rt: &(impl Abort + Wait + Threads + Sync),
    alloc: Global,
    bytes: &[u8],
    first: u8,
    second: u8,
) -> Vec<Vec<u8>> {
    let mut pieces = Vec::new(alloc);
    let mut piece = Vec::new(alloc);
    for byte in bytes {
        if *byte == first || *byte == second {
            pieces.push(piece).expect(rt, "memory");
            piece = Vec::new(alloc);
        } else {
            piece.push(*byte).expect(rt, "memory");
        }
    }
    pieces.push(piece).expect(rt, "memory");
    pieces
}

// The fields of a line.
fn fields(rt: &(impl Abort + Wait + Threads + Sync), alloc: Global, line: &[u8]) -> Vec<Vec<u8>> {
    let mut fields = Vec::new(alloc);
    for field in parted(rt, alloc, line, b' ', b'\t') {
        if !field.is_empty() {
            fields.push(field).expect(rt, "memory");
        }
    }
    fields
}

// A number of one to twenty digits that a word holds.
fn number(field: &[u8]) -> Option<u64> {
    if field.is_empty() || field.len() > 20 {
        return None;
    }
    let mut value = 0u64;
    for byte in field {
        if *byte < b'0' || *byte > b'9' {
            return None;
        }
        let digit = u64::from(byte.wrapping_sub(b'0'));
        value = value.checked_mul(10)?.checked_add(digit)?;
    }
    Some(value)
}

/// What a client asks a map for: `get`, `put` or `cas`, with the arguments that it has.
#[derive(Clone, Copy)]
enum Wish {
    Get(u64),
    Put(u64, u64),
    Cas(u64, u64, u64),
}

// The operation of a line's fields behind client and number.
fn wish_of(word: &[u8], arguments: &[Option<u64>]) -> Option<Wish> {
    let first = arguments.first().copied().flatten();
    let second = arguments.get(1).copied().flatten();
    let third = arguments.get(2).copied().flatten();
    if word == b"get".as_slice() && arguments.len() == 1 {
        return Some(Wish::Get(first?));
    }
    if word == b"put".as_slice() && arguments.len() == 2 {
        return Some(Wish::Put(first?, second?));
    }
    if word == b"cas".as_slice() && arguments.len() == 3 {
        return Some(Wish::Cas(first?, second?, third?));
    }
    None
}

// The number and the operation of a request line, where it follows this number, or any where that is 0.
fn request(
    rt: &(impl Abort + Wait + Threads + Sync),
    alloc: Global,
    fields: &[Vec<u8>],
    last: u64,
) -> Option<(u64, Wish)> {
    let client = number(fields.first()?)?;
    let asked = number(fields.get(1)?)?;
    let word = fields.get(2)?;
    let mut arguments = Vec::new(alloc);
    for field in fields.iter().skip(3) {
        arguments.push(number(field)).expect(rt, "memory");
    }
    let wish = wish_of(word, &arguments)?;
    let is_next = last == 0 || asked == last.wrapping_add(1);
    let is_number = asked >= 1 && asked <= LAST_NUMBER;
    (client == 0 && is_number && is_next).then_some((asked, wish))
}

// The registers' values and versions.
type Registers = [(u64, u64); 4];

// Does what is wished for, and answers.
fn apply(
    rt: &(impl Abort + Wait + Threads + Sync),
    alloc: Global,
    registers: &mut Registers,
    wish: Wish,
) -> String {
    let (key, wanted, to) = match wish {
        Wish::Get(key) => (key, None, None),
        Wish::Put(key, to) => (key, None, Some(to)),
        Wish::Cas(key, version, to) => (key, Some(version), Some(to)),
    };
    for (place, (value, version)) in registers.iter_mut().enumerate() {
        if place as u64 == key {
            return apply_here(rt, alloc, value, version, wanted, to);
        }
    }
    format!(in alloc; "nokey").expect(rt, "memory")
}

// The same for the register that is meant.
fn apply_here(
    rt: &(impl Abort + Wait + Threads + Sync),
    alloc: Global,
    value: &mut u64,
    version: &mut u64,
    wanted: Option<u64>,
    to: Option<u64>,
) -> String {
    let (old, at) = (*value, *version);
    if wanted.is_some_and(|wanted| wanted != at) {
        return format!(in alloc; "stale {old} {at}").expect(rt, "memory");
    }
    let Some(to) = to else {
        return format!(in alloc; "is {old} {at}").expect(rt, "memory");
    };
    let next = at.wrapping_add(1);
    *value = to;
    *version = next;
    format!(in alloc; "was {old} {next}").expect(rt, "memory")
}

// A line without its return, where it ends with one.
fn without_return(line: &mut Vec<u8>) {
    if line.last().copied() == Some(b'\r') {
        line.pop();
    }
}

/// What a run of a source on an empty map prints, and its status.
pub fn answered(
    rt: &(impl Abort + Wait + Threads + Sync),
    alloc: Global,
    source: &[u8],
) -> (String, u8) {
    let mut text = String::new(alloc);
    let mut registers = [(0, 0); 4];
    let (mut last, mut status, mut at) = (0u64, 0u8, 0u32);
    for mut line in parted(rt, alloc, source, b'\n', b'\n') {
        at = at.saturating_add(1);
        without_return(&mut line);
        let fields = fields(rt, alloc, &line);
        if fields.is_empty()
            || fields
                .first()
                .is_some_and(|field| field.first() == Some(&b'#'))
        {
            continue;
        }
        let Some((asked, wish)) = request(rt, alloc, &fields, last) else {
            return (format!(in alloc; "line {at}\n").expect(rt, "memory"), 3);
        };
        let said = if status == 8 {
            format!(in alloc; "left").expect(rt, "memory")
        } else if last == 0 && asked != 1 {
            status = 8;
            format!(in alloc; "gap").expect(rt, "memory")
        } else {
            let reply = apply(rt, alloc, &mut registers, wish);
            format!(in alloc; "new {reply}").expect(rt, "memory")
        };
        let whole = format!(in alloc; "0 {asked} {said}\n").expect(rt, "memory");
        text.push_str(&whole).expect(rt, "memory");
        last = asked;
    }
    (text, status)
}
