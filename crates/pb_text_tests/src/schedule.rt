//! Lines of schedules are read.
use pb_crash::Leaves;
use pb_events::Event;
use pb_object::{Ask, Kind, Op};
use pb_script::{EventLine, Repeat, read_event_line};

// What a line of a map with two clients says, where it names events: how often its event happens.
fn times(line: &[u8]) -> Option<u32> {
    match read_event_line(line, Kind::Map, 2) {
        EventLine::Events(repeat) => Some(repeat.times),
        _ => None,
    }
}

#[test]
fn reads_how_often_events_happen(rt: HostRuntime) {
    let table: [(&[u8], u32); 15] = [
        (b"ask 0 1 put 3 77\r", 1),
        (b"ask 1 18446744073709551615 get 0", 1),
        (b"ask 0 0 get 0", 1),
        (b"step 1", 1),
        (b"step 0 256", 256),
        (b"fail 0 left", 1),
        (b"fail 1 done", 1),
        (b"fail 0 torn 7", 1),
        (b"fail 0 fenced", 1),
        (b"crash 4294967295 18446744073709551615", 1),
        (b" \topen\t", 1),
        (b"open 0256", 256),
        (b"openfail done", 1),
        (b"openfail torn 1", 1),
        (b"open", 1),
    ];
    for (line, want) in &table {
        assert!(rt; times(line) == Some(*want), "{line:?}");
    }
}

#[test]
fn refuses_lines_that_name_no_event(rt: HostRuntime) {
    let table: [&[u8]; 18] = [
        b"ask 2 1 get 0",
        b"ask 0 1 push 5",
        b"ask 0 18446744073709551616 get 0",
        b"step 0 0",
        b"step 0 257",
        b"step 0 1 1",
        b"step",
        b"fail 0 torn",
        b"fail 0 left 1",
        b"fail 0",
        b"crash 4294967296 0",
        b"crash 0",
        b"crash 0 0 0",
        b"open 257",
        b"openfail",
        b"Open",
        b"x",
        b"y\r",
    ];
    for line in &table {
        assert!(rt;
            read_event_line(line, Kind::Map, 2) == EventLine::Refused,
            "{line:?}"
        );
    }
    for line in [b"".as_slice(), b"# note".as_slice(), b" \t\r".as_slice()] {
        assert!(rt;
            read_event_line(line, Kind::Map, 2) == EventLine::Nothing,
            "{line:?}"
        );
    }
}

// An event that happens so often.
fn repeated(event: Event, times: u32) -> EventLine {
    EventLine::Events(Repeat { event, times })
}

// The request of `ask 0 1 put 3 77`.
const PUT: Ask = Ask {
    client: 0,
    number: 1,
    op: Op {
        code: 2,
        a: 3,
        b: 77,
        c: 0,
    },
};

#[test]
fn reads_each_event(rt: HostRuntime) {
    let how = Leaves::Torn(9);
    let table: [(&[u8], EventLine); 6] = [
        (b"ask 0 1 put 3 77", repeated(Event::Ask(PUT), 1)),
        (b"step 0 26", repeated(Event::Step { client: 0 }, 26)),
        (
            b"fail 0 torn 9",
            repeated(Event::Fail { client: 0, how }, 1),
        ),
        (b"crash 3 1", repeated(Event::Crash { cut: 3, pick: 1 }, 1)),
        (b"open 2", repeated(Event::Reopen, 2)),
        (
            b"openfail fenced",
            repeated(
                Event::ReopenFail {
                    how: Leaves::Fenced,
                },
                1,
            ),
        ),
    ];
    for (line, want) in &table {
        assert!(rt; read_event_line(line, Kind::Map, 1) == *want, "{line:?}");
    }
}
