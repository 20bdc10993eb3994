//! What a drill asks for, and what it sums up.
use crate::asking::{Asking, Line};
use crate::draws::Draws;
use crate::plain::Wish;
use std::alloc::Global;
use std::process::Abort;
use std::sync::Wait;
use std::thread::Threads;

/// How many registers a drill's map has.
pub const REGISTERS: usize = 64;

// The request of the next three numbers.
fn drawn(draws: &mut Draws) -> Wish {
    let is_get = draws.below(4) == 0;
    let k = draws.below(64);
    let v = draws.below(u64::MAX);
    if is_get {
        Wish::Get(k)
    } else {
        Wish::Put(k, v)
    }
}

/// The script of a drill: so many requests of each client.
pub fn drilled(
    rt: &(impl Abort + Wait + Threads + Sync),
    alloc: Global,
    seed: u64,
    clients: u32,
    count: u64,
) -> Vec<Line> {
    let mut draws = Draws::new(seed);
    let mut script = Vec::new(alloc);
    for nth in 0..count {
        for client in 0..clients {
            let wish = drawn(&mut draws);
            let line = (client, nth.saturating_add(1), wish);
            script.push(line).expect(rt, "memory");
        }
    }
    script
}

// The register that is asked for.
fn register(wish: Wish) -> u64 {
    match wish {
        Wish::Get(k) => k,
        Wish::Put(k, _) => k,
        _ => 0,
    }
}

// Whether another client asks for the register of a line.
fn is_shared(script: &[Line], client: u32, k: u64) -> bool {
    for line in script {
        if line.0 != client && register(line.2) == k {
            return true;
        }
    }
    false
}

/// Whether each register of a drill is asked for by one client: then each reply is certain.
pub fn are_apart(script: &[Line]) -> bool {
    for line in script {
        if is_shared(script, line.0, register(line.2)) {
            return false;
        }
    }
    true
}

/// The summary of a drill of so many requests, of which these were recorded.
pub fn summary_text(
    rt: &(impl Abort + Wait + Threads + Sync),
    alloc: Global,
    asking: &Asking,
    requests: usize,
) -> String {
    let new = asking.lines.len();
    let mut puts = 0u64;
    for line in asking.lines.iter() {
        if matches!(line.2, Wish::Put(_, _)) {
            puts = puts.saturating_add(1);
        }
    }
    let mut versions = 0u64;
    let mut steps = 0u64;
    for version in asking.plain.versions.iter() {
        versions = versions.saturating_add(*version);
        steps = steps.saturating_add(version.saturating_mul(version.saturating_add(1)) / 2);
    }
    format!(in alloc;
        "requests {requests}\nnew {new}\nputs {puts}\nversions {versions}\nsteps {steps}\n"
    ).expect(rt, "memory")
}
