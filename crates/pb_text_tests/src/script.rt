//! Words and scripts are read, and scripts are printed.
use pb_object::{Action, Ask, Kind, Op};
use pb_script::{Command, ScriptFault, parse_script, parse_words, print_script};
use std::alloc::Global;
use std::process::Abort;

/// What a source of a map with two clients is read as: how many requests, or why it is no script.
fn read(rt: &impl Abort, alloc: Global, source: &[u8]) -> Result<usize, ScriptFault> {
    assert!(rt; source.len() < 4_194_305);
    Ok(parse_script(alloc, source, Kind::Map, 2)?.len())
}

// A source is refused at this line.
fn line(number: u32) -> Result<usize, ScriptFault> {
    Err(ScriptFault::Line { number })
}

#[test]
fn reads_and_refuses(rt: HostRuntime) {
    let table: [(&[u8], Result<usize, ScriptFault>); 32] = [
        (b"", Ok(0)),
        (b" \t\n\r\n\n", Ok(0)),
        (b"\r", Ok(0)),
        (b"\t 0  1\tget 0 \t\n", Ok(1)),
        (b"0 1 get 0\r\n", Ok(1)),
        (b"0 1 get 0\r\r\n", line(1)),
        (b"0 1 get 0\r \n", line(1)),
        (b"0 1 get 0", Ok(1)),
        (b"0 1 get 0\r", Ok(1)),
        (b"0 1 get 0\0\n", line(1)),
        (b"0 1 get\x0c0\n", line(1)),
        (b"0 1 get 00000000000000000007\n", Ok(1)),
        (b"0 1 get 000000000000000000007\n", line(1)),
        (b"0 1 put 0 18446744073709551615\n", Ok(1)),
        (b"0 1 put 0 18446744073709551616\n", line(1)),
        (b"0 0 get 0\n", line(1)),
        (b"0 72057594037927935 get 0\n", Ok(1)),
        (b"0 72057594037927936 get 0\n", line(1)),
        (b"1 1 get 0\n", Ok(1)),
        (b"2 1 get 0\n", line(1)),
        (b"0 1 get 0\n0 3 get 0\n", line(2)),
        (b"0 1 get 0\n0 1 get 0\n", line(2)),
        (b"0 5 get 0\n1 9 get 0\n0 6 get 0\n", Ok(3)),
        (b"0 1 push 5\n", line(1)),
        (b"0 1 GET 0\n", line(1)),
        (b"0 1 get 0 0\n", line(1)),
        (b"0 1 put 3\n", line(1)),
        (b"0 1 get -1\n", line(1)),
        (b"0 1\n", line(1)),
        (b" \t# note\n#\n0 1 get 0\n", Ok(1)),
        (b"0 1 get 0 # note\n", line(1)),
        (b"\n# note\n0 1 get 0\nx\nx\n", line(4)),
    ];
    for (source, want) in &table {
        assert!(rt; read(&rt, rt.alloc(), source) == *want, "{source:?}");
    }
}

// The first so many lines of a script, of which the third is no request.
fn long_source(rt: &impl Abort, alloc: Global) -> Vec<u8> {
    let mut source = Vec::new(alloc);
    source
        .extend_from_slice(b"# note\n0 1 get 0\nx\n")
        .expect(rt, "memory");
    for number in 2..32768u32 {
        let request = format!(in alloc; "0 {number} get 0\n").expect(rt, "memory");
        source
            .extend_from_slice(request.as_bytes())
            .expect(rt, "memory");
    }
    source
}

#[test]
fn refuses_too_many(rt: HostRuntime) {
    let mut source = long_source(&rt, rt.alloc());
    assert!(rt; read(&rt, rt.alloc(), &source) == line(3));
    source.extend_from_slice(b"y").expect(&rt, "memory");
    assert!(rt; read(&rt, rt.alloc(), &source) == Err(ScriptFault::Many));
}

// The requests of a script.
fn requests(rt: &impl Abort, alloc: Global, source: &[u8], kind: Kind, clients: u32) -> Vec<Ask> {
    assert!(rt; source.len() < 1000);
    assert!(rt; clients <= 16);
    parse_script(alloc, source, kind, clients).expect(rt, "a script")
}

// The plain form of requests is this text.
fn are_printed(rt: &impl Abort, alloc: Global, asks: &[Ask], kind: Kind, text: &[u8]) -> bool {
    print_script(alloc, asks, kind)
        .expect(rt, "memory")
        .as_slice()
        == text
}

#[test]
fn prints_what_was_read(rt: HostRuntime) {
    let source = b" 0\t01 put 3  077 \r\n# note\n\n";
    let asks = requests(&rt, rt.alloc(), source, Kind::Map, 1);
    let op = Op {
        code: Action::Put.code(),
        a: 3,
        b: 77,
        c: 0,
    };
    let ask = Ask {
        client: 0,
        number: 1,
        op,
    };
    assert!(rt; asks.as_slice() == [ask].as_slice());
    assert!(rt; are_printed(&rt, rt.alloc(), &asks, Kind::Map, b"0 1 put 3 77\n"));
}

// What is printed of a script for two clients in the plain form is that script.
fn is_plain(rt: &impl Abort, alloc: Global, kind: Kind, source: &[u8]) -> bool {
    let asks = requests(rt, alloc, source, kind, 2);
    are_printed(rt, alloc, &asks, kind, source)
}

#[test]
fn prints_each_operation(rt: HostRuntime) {
    let map = b"0 1 get 3\n0 2 put 3 77\n1 1 cas 3 1 9\n";
    assert!(rt; is_plain(&rt, rt.alloc(), Kind::Map, map));
    let stack = b"0 1 push 5\n0 2 pop\n0 3 top\n";
    assert!(rt; is_plain(&rt, rt.alloc(), Kind::Stack, stack));
    let heap = b"1 7 insert 5\n1 8 removemin\n1 9 min\n";
    assert!(rt; is_plain(&rt, rt.alloc(), Kind::Heap, heap));
    let queue = b"0 1 put 5\n1 1 take\n";
    assert!(rt; is_plain(&rt, rt.alloc(), Kind::Queue, queue));
}

// The words of a text, between single blanks.
fn words(rt: &impl Abort, alloc: Global, text: &str) -> Vec<String> {
    let mut words = Vec::new(alloc);
    for word in text.split(' ') {
        let word = String::from_str(alloc, word).expect(rt, "memory");
        words.push(word).expect(rt, "memory");
    }
    words
}

#[test]
fn reads_words(rt: HostRuntime) {
    let kind = Kind::Queue;
    let table: [(&str, Option<Command>); 22] = [
        (
            "fresh queue 1 4",
            Some(Command::Fresh {
                kind,
                clients: 1,
                size: 4,
            }),
        ),
        ("run", Some(Command::Run)),
        ("report", Some(Command::Report)),
        (
            "replay queue 016 1024",
            Some(Command::Replay {
                kind,
                clients: 16,
                size: 1024,
            }),
        ),
        (
            "drill 0 2 16384",
            Some(Command::Drill {
                seed: 0,
                clients: 2,
                count: 16384,
            }),
        ),
        ("", None),
        ("run now", None),
        ("Run", None),
        ("report run", None),
        ("fresh", None),
        ("fresh queue 1", None),
        ("fresh queue 1 4 4", None),
        ("fresh queues 1 4", None),
        ("fresh queue 0 4", None),
        ("fresh queue 17 4", None),
        ("fresh queue 1 0", None),
        ("fresh queue 1 1025", None),
        ("drill 0 2", None),
        ("drill 0 2 16385", None),
        ("drill 0 2 0", None),
        ("drill 0 0 1", None),
        ("drill 18446744073709551616 1 1", None),
    ];
    for (text, want) in table {
        let words = words(&rt, rt.alloc(), text);
        assert!(rt; parse_words(&words) == want, "{text}");
    }
    assert!(rt; parse_words(&[]).is_none());
}
