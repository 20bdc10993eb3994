//! Outcome lines and summaries.
use pb_io::{ByteSink, Sink, SinkFault};
use pb_object::{Action, Answer, Ask, Op, Reply};
use pb_report::{Outcome, write_outcome, write_outcomes, write_summary};
use std::alloc::Global;
use std::process::Abort;

// A request.
fn ask(client: u32, number: u64, action: Action, [a, b, c]: [u64; 3]) -> Ask {
    let code = action.code();
    let op = Op { code, a, b, c };
    Ask { client, number, op }
}

// A sink in memory that takes so many bytes in all, and so many at a time, and doesn't fail.
fn sink(rt: &impl Abort, alloc: Global, room: u32, piece: u32) -> ByteSink {
    ByteSink::new(alloc, room, piece, &[]).expect(rt, "memory")
}

// A room that no text of these tests fills.
const AMPLE: u32 = 65536;

// The outcome line of a request. The sink takes a byte at a time.
fn is_line(rt: &impl Abort, alloc: Global, asked: &Ask, outcome: Outcome, text: &str) -> bool {
    let mut sink = sink(rt, alloc, AMPLE, 1);
    write_outcome(&mut sink, asked, &outcome) == Ok(()) && sink.bytes() == text.as_bytes()
}

// Columns: the operation, the code of the reply and its numbers, and the outcome lines of request 1 of client 0.
const REPLIES: [(Action, [u64; 3], [u64; 3], &str, &str); 14] = [
    (
        Action::Get,
        [3, 0, 0],
        [1, 77, 1],
        "0 1 new is 77 1\n",
        "0 1 kept is 77 1\n",
    ),
    (
        Action::Put,
        [3, 77, 0],
        [2, 0, 1],
        "0 1 new was 0 1\n",
        "0 1 kept was 0 1\n",
    ),
    (
        Action::Cas,
        [0, 1, 9],
        [3, 0, 0],
        "0 1 new stale 0 0\n",
        "0 1 kept stale 0 0\n",
    ),
    (
        Action::Get,
        [4, 0, 0],
        [4, 0, 0],
        "0 1 new nokey\n",
        "0 1 kept nokey\n",
    ),
    (
        Action::Cas,
        [0, 4611686018427387904, 1],
        [5, 0, 0],
        "0 1 new worn\n",
        "0 1 kept worn\n",
    ),
    (
        Action::Get,
        [0; 3],
        [1, 8, 4611686018427387904],
        "0 1 new is 8 4611686018427387904\n",
        "0 1 kept is 8 4611686018427387904\n",
    ),
    (
        Action::Push,
        [5, 0, 0],
        [6, 1, 0],
        "0 1 new depth 1\n",
        "0 1 kept depth 1\n",
    ),
    (
        Action::Push,
        [6, 0, 0],
        [7, 0, 0],
        "0 1 new full\n",
        "0 1 kept full\n",
    ),
    (
        Action::Pop,
        [0; 3],
        [8, 5, 0],
        "0 1 new item 5\n",
        "0 1 kept item 5\n",
    ),
    (
        Action::Top,
        [0; 3],
        [9, 0, 0],
        "0 1 new empty\n",
        "0 1 kept empty\n",
    ),
    (
        Action::Insert,
        [u64::MAX, 0, 0],
        [10, 1, 0],
        "0 1 new size 1\n",
        "0 1 kept size 1\n",
    ),
    (
        Action::RemoveMin,
        [0; 3],
        [8, u64::MAX, 0],
        "0 1 new item 18446744073709551615\n",
        "0 1 kept item 18446744073709551615\n",
    ),
    (
        Action::QueuePut,
        [1, 0, 0],
        [11, 0, 0],
        "0 1 new at 0\n",
        "0 1 kept at 0\n",
    ),
    (
        Action::QueueTake,
        [0; 3],
        [8, 2, 1],
        "0 1 new item 2 1\n",
        "0 1 kept item 2 1\n",
    ),
];

#[test]
fn outcomes_with_replies(rt: HostRuntime) {
    for (action, arguments, [code, value, extra], new, kept) in REPLIES {
        let asked = ask(0, 1, action, arguments);
        let reply = Reply { code, value, extra };
        assert!(rt;
            is_line(&rt, rt.alloc(), &asked, Outcome::New(reply), new),
            "{new}"
        );
        assert!(rt;
            is_line(&rt, rt.alloc(), &asked, Outcome::Kept(reply), kept),
            "{kept}"
        );
    }
}

#[test]
fn outcomes_without_reply(rt: HostRuntime) {
    for (client, number, outcome, text) in [
        (0, 1, Outcome::Old, "0 1 old\n"),
        (
            0,
            72057594037927935,
            Outcome::Gap,
            "0 72057594037927935 gap\n",
        ),
        (0, 2, Outcome::Changed, "0 2 changed\n"),
        (0, 1, Outcome::Doubt, "0 1 doubt\n"),
        (15, 5, Outcome::Left, "15 5 left\n"),
    ] {
        let asked = ask(client, number, Action::Get, [3, 0, 0]);
        assert!(rt; is_line(&rt, rt.alloc(), &asked, outcome, text), "{text}");
    }
}

// What comes of a thousand outcome lines of nine bytes.
fn write_thousand(rt: &impl Abort, sink: &mut ByteSink) -> Result<(), SinkFault> {
    let asks = [ask(0, 1, Action::Get, [0; 3]); 1000];
    let outcomes = [Outcome::Left; 1000];
    assert!(rt; asks.len() == outcomes.len());
    write_outcomes(sink, &asks, &outcomes)
}

#[test]
fn a_short_sink(rt: HostRuntime) {
    let mut sink = sink(&rt, rt.alloc(), 5, 9);
    assert!(rt; write_thousand(&rt, &mut sink) == Err(SinkFault));
    assert!(rt; sink.bytes() == b"0 1 l".as_slice());
}

#[test]
fn a_sink_that_fails_in_mid_text(rt: HostRuntime) {
    let mut sink = ByteSink::new(rt.alloc(), AMPLE, 4, &[3]).expect(&rt, "memory");
    let asked = ask(0, 1, Action::Get, [0; 3]);
    assert!(rt; write_outcome(&mut sink, &asked, &Outcome::Left) == Err(SinkFault));
    assert!(rt; sink.bytes() == b"0 1 left".as_slice() && sink.faults() == 1);
}

#[test]
fn a_text_of_several_pieces(rt: HostRuntime) {
    let mut sink = ByteSink::new(rt.alloc(), AMPLE, AMPLE, &[3]).expect(&rt, "memory");
    assert!(rt; write_thousand(&rt, &mut sink) == Ok(()));
    assert!(rt; sink.bytes().len() == 9000);
}

// The summary of two puts that learnt this.
fn is_summary(
    rt: &impl Abort,
    alloc: Global,
    outcomes: [Outcome; 2],
    versions: u64,
    text: &str,
) -> bool {
    let asks = [
        ask(0, 1, Action::Put, [34, 1291394886, 0]),
        ask(0, 2, Action::Put, [49, 407355683, 0]),
    ];
    let mut sink = sink(rt, alloc, AMPLE, AMPLE);
    write_summary(&mut sink, &asks, &outcomes, versions) == Ok(())
        && sink.bytes() == text.as_bytes()
}

#[test]
fn summaries(rt: HostRuntime) {
    let was = Reply::new(Answer::Was, 0, 1);
    let is = Reply::new(Answer::Is, 5, 9);
    for (first, second, versions, text) in [
        (
            Outcome::New(was),
            Outcome::New(was),
            2,
            "requests 2\nnew 2\nputs 2\nversions 2\nsteps 2\n",
        ),
        (
            Outcome::New(was),
            Outcome::Doubt,
            1,
            "requests 2\nnew 1\nputs 1\nversions 1\nsteps 1\n",
        ),
        (
            Outcome::Kept(was),
            Outcome::New(is),
            0,
            "requests 2\nnew 1\nputs 0\nversions 0\nsteps 0\n",
        ),
    ] {
        let outcomes = [first, second];
        assert!(rt;
            is_summary(&rt, rt.alloc(), outcomes, versions, text),
            "{text}"
        );
    }
}
