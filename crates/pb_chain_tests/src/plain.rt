//! The four objects as plain lists, and what they answer.
ghost use Rattle.std.specs.Prelude.{◌≤◌, length};

use std::alloc::Global;
use std::process::Abort;
use std::sync::Wait;
use std::thread::Threads;

/// An operation with its arguments.
#[derive(Clone, Copy, PartialEq, Eq)]
pub enum Wish {
    Get(u64),
    Put(u64, u64),
    Cas(u64, u64, u64),
    Push(u64),
    Pop,
    Top,
    Insert(u64),
    RemoveMin,
    Min,
    Add(u64),
    Take,
}

/// A wish as a script's line has it.
pub fn wish_text(rt: &(impl Abort + Wait + Threads + Sync), alloc: Global, wish: &Wish) -> String {
    let text = match *wish {
        Wish::Get(k) => format!(in alloc; "get {k}"),
        Wish::Put(k, v) => format!(in alloc; "put {k} {v}"),
        Wish::Cas(k, version, v) => format!(in alloc; "cas {k} {version} {v}"),
        Wish::Push(v) => format!(in alloc; "push {v}"),
        Wish::Pop => format!(in alloc; "pop"),
        Wish::Top => format!(in alloc; "top"),
        Wish::Insert(v) => format!(in alloc; "insert {v}"),
        Wish::RemoveMin => format!(in alloc; "removemin"),
        Wish::Min => format!(in alloc; "min"),
        Wish::Add(v) => format!(in alloc; "put {v}"),
        Wish::Take => format!(in alloc; "take"),
    };
    text.expect(rt, "memory")
}

/// Which object.
#[derive(Clone, Copy, PartialEq, Eq)]
pub enum Form {
    Map,
    Stack,
    Heap,
    Queue,
}

/// An object: its values, a map's versions beside them, and how many items a queue ever gave away. A stack's items lie from the
/// bottom, a heap's rise, and a queue's first one is the next to go.
#[derive(Drop)]
pub struct Plain {
    pub form: Form,
    pub size: usize,
    pub values: Vec<u64>,
    pub versions: Vec<u64>,
    pub taken: u64,
}

/// An object in which nothing was asked.
pub fn empty(
    rt: &(impl Abort + Wait + Threads + Sync),
    alloc: Global,
    form: Form,
    size: usize,
) -> Plain {
    let registers = if form == Form::Map { size } else { 0 };
    Plain {
        form,
        size,
        values: vec![in alloc; 0u64; registers].expect(rt, "memory"),
        versions: vec![in alloc; 0u64; registers].expect(rt, "memory"),
        taken: 0,
    }
}

// A register's value and version.
fn register(plain: &Plain, k: u64) -> Option<(u64, u64)> {
    for (place, (value, version)) in plain.values.iter().zip(plain.versions.iter()).enumerate() {
        if place as u64 == k {
            return Some((*value, *version));
        }
    }
    None
}

// Writes a register, whose version is one more then.
fn write(plain: &mut Plain, k: u64, v: u64) {
    for (place, value) in plain.values.iter_mut().enumerate() {
        if place as u64 == k {
            *value = v;
        }
    }
    for (place, version) in plain.versions.iter_mut().enumerate() {
        if place as u64 == k {
            *version = version.saturating_add(1);
        }
    }
}

// What a write of a register comes to, where it wants a version or any.
fn written(
    rt: &(impl Abort + Wait + Threads + Sync),
    alloc: Global,
    plain: &mut Plain,
    k: u64,
    wanted: Option<u64>,
    v: u64,
) -> String {
    let Some((value, version)) = register(plain, k) else {
        return format!(in alloc; "nokey").expect(rt, "memory");
    };
    if wanted.is_some_and(|wanted| wanted != version) {
        return format!(in alloc; "stale {value} {version}").expect(rt, "memory");
    }
    write(plain, k, v);
    let next = version.saturating_add(1);
    format!(in alloc; "was {value} {next}").expect(rt, "memory")
}

// What a get comes to.
fn got(rt: &(impl Abort + Wait + Threads + Sync), alloc: Global, plain: &Plain, k: u64) -> String {
    match register(plain, k) {
        Some((value, version)) => format!(in alloc; "is {value} {version}"),
        None => format!(in alloc; "nokey"),
    }
    .expect(rt, "memory")
}

// An item, or that there is none.
fn item(rt: &(impl Abort + Wait + Threads + Sync), alloc: Global, item: Option<u64>) -> String {
    match item {
        Some(value) => format!(in alloc; "item {value}"),
        None => format!(in alloc; "empty"),
    }
    .expect(rt, "memory")
}

// Adds an item, where there is room, and says how many there are then.
fn added(
    rt: &(impl Abort + Wait + Threads + Sync),
    alloc: Global,
    plain: &mut Plain,
    v: u64,
    word: &str,
) -> String {
    if plain.values.len() >= plain.size {
        return format!(in alloc; "full").expect(rt, "memory");
    }
    let place = place_of(plain, v);
    plain.values.insert(place, v).expect(rt, "memory");
    let count = plain.values.len();
    format!(in alloc; "{word} {count}").expect(rt, "memory")
}

// Where an item is put: a heap's before the first greater one, another's behind all.
fn place_of(plain: &Plain, v: u64) -> usize
    ensures { result ≤ length plain.now.values.items }
{
    if plain.form == Form::Heap {
        for (place, value) in plain.values.iter().enumerate() {
            if v < *value {
                return place;
            }
        }
    }
    plain.values.len()
}

// Takes a list's first item away.
fn first(plain: &mut Plain) -> Option<u64> {
    if plain.values.is_empty() {
        return None;
    }
    Some(plain.values.remove(0))
}

// Adds an item to a queue.
fn queued(
    rt: &(impl Abort + Wait + Threads + Sync),
    alloc: Global,
    plain: &mut Plain,
    v: u64,
) -> String {
    if plain.values.len() >= plain.size {
        return format!(in alloc; "full").expect(rt, "memory");
    }
    let position = plain.taken.saturating_add(plain.values.len() as u64);
    plain.values.push(v).expect(rt, "memory");
    format!(in alloc; "at {position}").expect(rt, "memory")
}

// Takes a queue's next item.
fn taken(rt: &(impl Abort + Wait + Threads + Sync), alloc: Global, plain: &mut Plain) -> String {
    let Some(value) = first(plain) else {
        return format!(in alloc; "empty").expect(rt, "memory");
    };
    let position = plain.taken;
    plain.taken = position.saturating_add(1);
    format!(in alloc; "item {value} {position}").expect(rt, "memory")
}

/// Does what is wished for, and answers.
pub fn apply(
    rt: &(impl Abort + Wait + Threads + Sync),
    alloc: Global,
    plain: &mut Plain,
    wish: &Wish,
) -> String {
    match *wish {
        Wish::Get(k) => got(rt, alloc, plain, k),
        Wish::Put(k, v) => written(rt, alloc, plain, k, None, v),
        Wish::Cas(k, version, v) => written(rt, alloc, plain, k, Some(version), v),
        Wish::Push(v) => added(rt, alloc, plain, v, "depth"),
        Wish::Pop => item(rt, alloc, plain.values.pop()),
        Wish::Top => item(rt, alloc, plain.values.last().copied()),
        Wish::Insert(v) => added(rt, alloc, plain, v, "size"),
        Wish::RemoveMin => item(rt, alloc, first(plain)),
        Wish::Min => item(rt, alloc, plain.values.first().copied()),
        Wish::Add(v) => queued(rt, alloc, plain, v),
        Wish::Take => taken(rt, alloc, plain),
    }
}

// The registers that were ever written.
fn registers(rt: &(impl Abort + Wait + Threads + Sync), alloc: Global, plain: &Plain) -> String {
    let mut text = String::new(alloc);
    let mut count = 0u64;
    for (place, (value, version)) in plain.values.iter().zip(plain.versions.iter()).enumerate() {
        if *version != 0 {
            count = count.saturating_add(1);
            let line = format!(in alloc; "register {place} {value} {version}\n").expect(
                rt, "memory",
            );
            text.push_str(&line).expect(rt, "memory");
        }
    }
    format!(in alloc; "registers {count}\n{text}").expect(rt, "memory")
}

/// What a report says of the object itself.
pub fn contents(rt: &(impl Abort + Wait + Threads + Sync), alloc: Global, plain: &Plain) -> String {
    if plain.form == Form::Map {
        return registers(rt, alloc, plain);
    }
    let count = plain.values.len();
    let mut text = format!(in alloc; "items {count}\n").expect(rt, "memory");
    let mut position = plain.taken;
    for value in plain.values.iter() {
        let line = if plain.form == Form::Queue {
            format!(in alloc; "item {value} {position}\n")
        } else {
            format!(in alloc; "item {value}\n")
        };
        text.push_str(&line.expect(rt, "memory"))
            .expect(rt, "memory");
        position = position.saturating_add(1);
    }
    text
}
