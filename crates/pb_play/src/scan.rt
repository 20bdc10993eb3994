//! The scan: the holder looks at each client's request.
ghost use Rattle.std.specs.Prelude.{◌≡◌, ◌+◌, ◌↔◌, ◌<◌, IsTrue};
ghost use Rattle.pb_play.specs.Seats.{seat_of, at_work, with_ask_seen};
ghost use Rattle.pb_play.specs.Steps.{StepsHeld};

use crate::memory::Memory;
use crate::wait::{row, side_of};
use crate::work::{Part, Work};
use pb_events::Stepped;
use pb_object::{Ask, Op};

/// The holder loads the next word of a client's request.
pub fn scan(memory: &mut Memory, client: u32, part: Part, side: u32) -> Stepped
    requires small { client < 16 }
    requires there { client < memory.old.head.clients }
    requires at { memory.old.work ≡ Work.Scanning client part }
    ensures { StepsHeld memory.old side memory.new result }
{
    match part {
        Part::AtNumber => meet(memory, client, side),
        Part::AtCode { number } => scan_code(memory, client, number, side),
        Part::AtFirst { number, code } => scan_first(memory, client, number, code, side),
        Part::AtSecond { number, code, a } => scan_second(memory, client, number, code, a, side),
        Part::AtThird { number, code, a, b } => {
            let c = memory.seats[client as usize].op.c;
            scan_third(memory, client, number, Op { code, a, b, c }, side)
        }
    }
}

// A client announces its next number, or nothing that is due.
fn meet(memory: &mut Memory, client: u32, side: u32) -> Stepped
    requires small { client < 16 }
    requires there { client < memory.old.head.clients }
    requires at { memory.old.work ≡ Work.Scanning client Part.AtNumber }
    ensures { StepsHeld memory.old side memory.new result }
{
    let _ = side;
    let number = memory.seats[client as usize].number;
    let last = row(memory, client, memory.turn).number;
    if follows(number, last) {
        scan_on(memory, client, Part::AtCode { number })
    } else {
        scan_on(memory, client + 1, Part::AtNumber)
    }
}

/// Whether a number is the next one after another.
pub fn follows(number: u64, last: u64) -> bool
    ensures { IsTrue result ↔ (number ≡ last + 1) }
{
    number > 0 && number - 1 == last
}

// The holder scans on.
fn scan_on(memory: &mut Memory, client: u32, part: Part) -> Stepped
    ensures after { memory.new ≡ at_work (Work.Scanning client part) memory.old }
    ensures says { result ≡ Stepped.Went }
{
    memory.work = Work::Scanning { client, part };
    Stepped::Went
}

// It loads the code, ..
fn scan_code(memory: &mut Memory, client: u32, number: u64, side: u32) -> Stepped
    requires small { client < 16 }
    requires there { client < memory.old.head.clients }
    requires at { memory.old.work ≡ Work.Scanning client (Part.AtCode number) }
    ensures { StepsHeld memory.old side memory.new result }
{
    let _ = side;
    let code = memory.seats[client as usize].op.code;
    scan_on(memory, client, Part::AtFirst { number, code })
}

// .. the first argument, ..
fn scan_first(memory: &mut Memory, client: u32, number: u64, code: u64, side: u32) -> Stepped
    requires small { client < 16 }
    requires there { client < memory.old.head.clients }
    requires at { memory.old.work ≡ Work.Scanning client (Part.AtFirst number code) }
    ensures { StepsHeld memory.old side memory.new result }
{
    let _ = side;
    let a = memory.seats[client as usize].op.a;
    scan_on(memory, client, Part::AtSecond { number, code, a })
}

// .. the second, ..
fn scan_second(
    memory: &mut Memory,
    client: u32,
    number: u64,
    code: u64,
    a: u64,
    side: u32,
) -> Stepped
    requires small { client < 16 }
    requires there { client < memory.old.head.clients }
    requires at { memory.old.work ≡ Work.Scanning client (Part.AtSecond number code a) }
    ensures { StepsHeld memory.old side memory.new result }
{
    let _ = side;
    let b = memory.seats[client as usize].op.b;
    scan_on(memory, client, Part::AtThird { number, code, a, b })
}

// .. and the third. The request belongs to the round where it is of the holder's side.
fn scan_third(memory: &mut Memory, client: u32, number: u64, op: Op, side: u32) -> Stepped
    requires small { client < 16 }
    requires there { client < memory.old.head.clients }
    requires at { memory.old.work ≡ Work.Scanning client (Part.AtThird number op.code op.a op.b) }
    requires last { op.c ≡ (seat_of memory.old client).op.c }
    ensures { StepsHeld memory.old side memory.new result }
{
    if side_of(&op) == side {
        see(memory, &Ask { client, number, op })
    } else {
        scan_on(memory, client + 1, Part::AtNumber)
    }
}

fn see(memory: &mut Memory, ask: &Ask) -> Stepped
    requires { ask.now.client < 16 }
    ensures after { memory.new ≡ with_ask_seen ask.now memory.old }
    ensures says { result ≡ Stepped.Went }
{
    if memory.met < 16 {
        memory.seen[memory.met as usize] = *ask;
        memory.met += 1;
    }
    scan_on(memory, ask.client + 1, Part::AtNumber)
}
