//! Scripts in which all clients ask in turns.
use pb_object::Action;
use std::alloc::Global;
use std::process::Abort;

/// What the clients of a script ask for.
#[derive(Clone, Copy)]
pub enum Plan {
    /// Each request puts its number to a register: client `c` of so many registers to number `c`, counted round.
    Registers(u32),
    /// A client's requests put an item that no other one puts, and take an item, in turns.
    Items(Action, Action),
}

/// A script in which each of so many clients has so many requests.
pub fn script(rt: &impl Abort, alloc: Global, clients: u32, requests: u64, plan: Plan) -> String {
    let mut text = String::new(alloc);
    for number in 1..requests.saturating_add(1) {
        for client in 0..clients {
            let line = match plan {
                Plan::Registers(count) => put_line(rt, alloc, client, number, count),
                Plan::Items(put, take) => item_line(rt, alloc, client, number, put, take),
            };
            text.push_str(&line).expect(rt, "memory");
        }
    }
    text
}

fn put_line(rt: &impl Abort, alloc: Global, client: u32, number: u64, count: u32) -> String {
    let key = client % count.max(1);
    let word = Action::Put.word();
    format!(in alloc; "{client} {number} {word} {key} {number}\n").expect(rt, "memory")
}

fn item_line(
    rt: &impl Abort,
    alloc: Global,
    client: u32,
    number: u64,
    put: Action,
    take: Action,
) -> String {
    if number % 2 == 0 {
        let word = take.word();
        return format!(in alloc; "{client} {number} {word}\n").expect(rt, "memory");
    }
    let word = put.word();
    let item = number.saturating_mul(16).saturating_add(u64::from(client));
    format!(in alloc; "{client} {number} {word} {item}\n").expect(rt, "memory")
}
