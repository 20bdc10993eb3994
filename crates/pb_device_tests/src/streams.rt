//! Sources and sinks, in memory and over the standard reader and writer.
use pb_io::{ByteSink, ByteSource, Sink, SinkFault, Source, SourceFault, StdSink, StdSource};
use std::alloc::Global;
use std::io::{self, Cursor, ErrorKind, Read, Write};
use std::process::Abort;

// Reads two bytes at a time, and answers what each read said, one after the other, with the bytes that were read.
fn read_times<S: Source>(
    rt: &impl Abort,
    alloc: Global,
    source: &mut S,
    times: usize,
) -> (Vec<Result<usize, SourceFault>>, Vec<u8>) {
    let mut answers = Vec::new(alloc);
    let mut bytes = Vec::new(alloc);
    for _ in 0..times {
        let mut piece = [0; 2];
        let answer = source.read(&mut piece);
        if let Ok(count) = answer {
            bytes
                .extend_from_slice(&piece[..count])
                .expect(rt, "memory");
        }
        answers.push(answer).expect(rt, "memory");
    }
    (answers, bytes)
}

// So many reads answer this, and read these bytes.
fn gives<S: Source>(
    rt: &impl Abort,
    alloc: Global,
    source: &mut S,
    answers: &[Result<usize, SourceFault>],
    bytes: &[u8],
) -> bool {
    let (told, read) = read_times(rt, alloc, source, answers.len());
    told.as_slice() == answers && read.as_slice() == bytes
}

// Writes of these pieces in turn answer this.
fn takes<K: Sink>(sink: &mut K, pieces: &[(&[u8], Result<usize, SinkFault>)]) -> bool {
    for (piece, answer) in pieces {
        if sink.write(piece) != *answer {
            return false;
        }
    }
    true
}

#[test]
fn a_source_in_memory_fails_at_its_numbers(rt: HostRuntime) {
    let mut source = ByteSource::new(rt.alloc(), b"abc", 1, &[2, 3]).expect(&rt, "memory");
    let fault = Err(SourceFault);
    let answers = [Ok(1), fault, fault, Ok(1), Ok(1), Ok(0)];
    assert!(rt; gives(&rt, rt.alloc(), &mut source, &answers, b"abc"));
    assert!(rt; source.faults() == 2);
}

#[test]
fn a_sink_in_memory_fails_at_its_numbers_and_when_full(rt: HostRuntime) {
    let mut sink = ByteSink::new(rt.alloc(), 2, 1, &[2]).expect(&rt, "memory");
    let fault = Err(SinkFault);
    let pieces: [(&[u8], Result<usize, SinkFault>); 5] = [
        (b"abc", Ok(1)),
        (b"bc", fault),
        (b"bc", Ok(1)),
        (b"c", fault),
        (b"", Ok(0)),
    ];
    assert!(rt; takes(&mut sink, &pieces) && sink.flush() == Ok(()));
    assert!(rt; sink.bytes() == b"ab".as_slice() && sink.faults() == 2);
}

#[test]
fn a_sink_of_no_piece_takes_nothing(rt: HostRuntime) {
    let mut sink = ByteSink::new(rt.alloc(), 2, 0, &[]).expect(&rt, "memory");
    assert!(rt; sink.write(b"a") == Err(SinkFault));
    assert!(rt; sink.write(b"") == Ok(0));
    assert!(rt; sink.bytes().is_empty() && sink.faults() == 1);
}

// Gives one byte, fails, gives one byte, and is at its end.
#[derive(Drop)]
struct Stutter(u32);

impl Read for Stutter {
    fn read(&mut self, into: &mut [u8]) -> io::Result<usize> {
        self.0 = self.0.saturating_add(1);
        match (self.0, into) {
            (2, _) => Err(io::Error::from(ErrorKind::Interrupted)),
            (1 | 3, [first, ..]) => {
                *first = b'x';
                Ok(1)
            }
            _ => Ok(0),
        }
    }
}

// Takes one byte, then nothing, then fails, then takes one byte more; and its flush fails.
#[derive(Drop)]
struct Choke(u32);

impl Write for Choke {
    fn write(&mut self, from: &[u8]) -> io::Result<usize> {
        self.0 = self.0.saturating_add(1);
        match self.0 {
            2 => Ok(0),
            3 => Err(io::Error::from(ErrorKind::Interrupted)),
            _ => Ok(from.len().min(1)),
        }
    }

    fn flush(&mut self) -> io::Result<()> {
        Err(io::Error::from(ErrorKind::BrokenPipe))
    }
}

#[test]
fn a_standard_reader_is_a_source(rt: HostRuntime) {
    let mut source = StdSource::new(Cursor::new(b"abc".as_slice()));
    let answers = [Ok(2), Ok(1), Ok(0)];
    assert!(rt; gives(&rt, rt.alloc(), &mut source, &answers, b"abc"));
    assert!(rt; source.faults() == 0);
}

#[test]
fn an_error_of_a_standard_reader_is_a_fault(rt: HostRuntime) {
    let mut source = StdSource::new(Stutter(0));
    let answers = [Ok(1), Err(SourceFault), Ok(1), Ok(0)];
    assert!(rt; gives(&rt, rt.alloc(), &mut source, &answers, b"xx"));
    assert!(rt; source.faults() == 1);
}

// Gives one byte, is at its end, and then gives one byte more.
#[derive(Drop)]
struct Resumed(u32);

impl Read for Resumed {
    fn read(&mut self, into: &mut [u8]) -> io::Result<usize> {
        self.0 = self.0.saturating_add(1);
        match (self.0, into) {
            (1 | 3, [first, ..]) => {
                *first = b'x';
                Ok(1)
            }
            _ => Ok(0),
        }
    }
}

#[test]
fn each_read_of_a_source_is_one_of_its_reader(rt: HostRuntime) {
    let mut source = StdSource::new(Resumed(0));
    let answers = [Ok(1), Ok(0), Ok(1), Ok(0)];
    assert!(rt; gives(&rt, rt.alloc(), &mut source, &answers, b"xx"));
    assert!(rt; source.faults() == 0);
}

#[test]
fn a_standard_writer_is_a_sink(rt: HostRuntime) {
    let mut bytes = Vec::new(rt.alloc());
    let mut sink = StdSink::new(&mut bytes);
    let pieces: [(&[u8], Result<usize, SinkFault>); 3] = [
        (b"ab", Ok(2)),
        (b"", Ok(0)),
        (b"c", Ok(1)),
    ];
    assert!(rt; takes(&mut sink, &pieces) && sink.flush() == Ok(()));
    assert!(rt; sink.faults() == 0);
    assert!(rt; bytes.as_slice() == b"abc".as_slice());
}

#[test]
fn an_error_of_a_standard_writer_is_a_fault(rt: HostRuntime) {
    let mut sink = StdSink::new(Choke(0));
    let fault = Err(SinkFault);
    let pieces: [(&[u8], Result<usize, SinkFault>); 4] = [
        (b"ab", Ok(1)),
        (b"b", fault),
        (b"b", fault),
        (b"b", Ok(1)),
    ];
    assert!(rt; takes(&mut sink, &pieces) && sink.flush() == Err(SinkFault));
    assert!(rt; sink.faults() == 3);
}
