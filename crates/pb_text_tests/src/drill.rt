//! The scripts of drills.
use pb_object::{Ask, Kind};
use pb_script::{generate, parse_script, print_script};
use std::alloc::Global;
use std::process::Abort;

// A seed, how many clients there are and how many requests of each, and the script.
type Drill = (u64, u32, u32, &'static str);

// The second seed begins as the first one does.
const DRILLS: [Drill; 4] = [
    (0, 1, 2, "0 1 put 34 1291394886\n0 2 put 49 407355683\n"),
    (
        2147483646,
        1,
        3,
        "0 1 put 34 1291394886\n0 2 put 49 407355683\n0 3 put 25 564586691\n",
    ),
    (
        18446744073709551615,
        3,
        2,
        "0 1 get 33\n1 1 put 31 75239987\n2 1 get 22\n0 2 put 49 2074982136\n1 2 put 28 1010821785\n2 2 get 30\n",
    ),
    (
        2,
        1,
        4,
        "0 1 put 38 1726701011\n0 2 put 21 1222067049\n0 3 get 12\n0 4 put 41 1462800974\n",
    ),
];

// The requests of a drill.
fn requests(rt: &impl Abort, alloc: Global, seed: u64, clients: u32, count: u32) -> Vec<Ask> {
    assert!(rt; 1 <= clients);
    assert!(rt; clients <= 16);
    assert!(rt; 1 <= count);
    assert!(rt; count <= 32768);
    assert!(rt; clients * count <= 32768);
    generate(alloc, seed, clients, count).expect(rt, "memory")
}

// What requests are printed as reads as these requests.
fn is_read_again(rt: &impl Abort, alloc: Global, asks: &[Ask], text: &[u8]) -> bool {
    assert!(rt; text.len() < 1000);
    let again = parse_script(alloc, text, Kind::Map, 3).expect(rt, "a script");
    again.as_slice() == asks
}

fn is_drawn(rt: &impl Abort, alloc: Global, (seed, clients, count, script): Drill) {
    let asks = requests(rt, alloc, seed, clients, count);
    let text = print_script(alloc, &asks, Kind::Map).expect(rt, "memory");
    assert!(rt; text.as_slice() == script.as_bytes(), "{seed}: {script}");
    assert!(rt; is_read_again(rt, alloc, &asks, &text), "{seed}");
}

#[test]
fn are_drawn_from_a_seed(rt: HostRuntime) {
    for drill in DRILLS {
        is_drawn(&rt, rt.alloc(), drill);
    }
}

#[test]
fn are_as_long_as_a_script_may_be(rt: HostRuntime) {
    assert!(rt; requests(&rt, rt.alloc(), 7, 16, 2048).len() == 32768);
}
