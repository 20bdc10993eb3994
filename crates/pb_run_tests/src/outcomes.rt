//! What becomes of requests, where it doesn't depend on which client is first: each script with its outcome lines.
use crate::session::{lines_of, map, run};
use std::alloc::Global;
use std::process::Abort;
use std::sync::Wait;
use std::thread::Threads;

/// A script, and the outcome lines that it is to have.
#[derive(Clone, Copy)]
struct Run {
    script: &'static str,
    lines: &'static str,
}

// Nine requests, of which eight are kept.
const NINE: &str = "0 1 get 0\n0 2 get 0\n0 3 get 0\n0 4 get 0\n0 5 get 0\n0 6 get 0\n0 7 get 0\n\
    0 8 get 0\n0 9 get 0\n";

const NINE_RUNS: [Run; 2] = [
    Run {
        script: NINE,
        lines: "0 1 new is 0 0\n0 2 new is 0 0\n0 3 new is 0 0\n0 4 new is 0 0\n0 5 new is 0 0\n\
            0 6 new is 0 0\n0 7 new is 0 0\n0 8 new is 0 0\n0 9 new is 0 0\n",
    },
    Run {
        script: NINE,
        lines: "0 1 old\n0 2 kept is 0 0\n0 3 kept is 0 0\n0 4 kept is 0 0\n0 5 kept is 0 0\n\
            0 6 kept is 0 0\n0 7 kept is 0 0\n0 8 kept is 0 0\n0 9 kept is 0 0\n",
    },
];

// Three clients, each with a register of its own, ask in turns.
const THREE: &str = "0 1 put 0 5\n1 1 put 1 6\n2 1 put 2 7\n0 2 get 0\n2 2 get 2\n1 2 put 1 8\n";

const THREE_RUNS: [Run; 2] = [
    Run {
        script: THREE,
        lines: "0 1 new was 0 1\n1 1 new was 0 1\n2 1 new was 0 1\n0 2 new is 5 1\n2 2 new is 7 1\n\
            1 2 new was 6 2\n",
    },
    Run {
        script: THREE,
        lines: "0 1 kept was 0 1\n1 1 kept was 0 1\n2 1 kept was 0 1\n0 2 kept is 5 1\n\
            2 2 kept is 7 1\n1 2 kept was 6 2\n",
    },
];

// A client asks for another operation, and one leaves out a number. The third goes on.
const ENDED_RUNS: [Run; 2] = [
    Run {
        script: "0 1 put 3 77\n1 1 get 2\n",
        lines: "0 1 new was 0 1\n1 1 new is 0 0\n",
    },
    Run {
        script: "0 1 put 3 78\n1 3 get 3\n0 2 get 3\n1 4 get 3\n2 1 get 3\n",
        lines: "0 1 changed\n1 3 gap\n0 2 left\n1 4 left\n2 1 new is 77 1\n",
    },
];

// The second sync fails: the first request is recorded all the same.
const DOUBT: &str = "0 1 put 3 77\n0 2 get 3\n";

const DOUBT_RUNS: [Run; 2] = [
    Run {
        script: DOUBT,
        lines: "0 1 doubt\n0 2 left\n",
    },
    Run {
        script: DOUBT,
        lines: "0 1 kept was 0 1\n0 2 new is 77 1\n",
    },
];

// Makes a map for so many clients, of whose device these syncs fail, and runs these scripts over it, one after the other.
fn run_all<R: Wait + Threads + Sync + Abort>(
    rt: &R,
    alloc: Global,
    clients: u32,
    syncs: &[u64],
    runs: &[Run],
) {
    let mut engine = map(rt, alloc, clients, syncs);
    for one in runs {
        let ran = run(rt, alloc, engine, one.script);
        assert!(rt; lines_of(rt, alloc, &ran).bytes() == one.lines.as_bytes());
        engine = ran.engine;
    }
}

#[test]
fn outcomes(rt: HostRuntime) {
    let alloc = rt.alloc();
    run_all(&rt, alloc, 1, &[], &NINE_RUNS);
    run_all(&rt, alloc, 3, &[], &THREE_RUNS);
    run_all(&rt, alloc, 3, &[], &ENDED_RUNS);
    run_all(&rt, alloc, 1, &[2], &DOUBT_RUNS);
}
