//! Reports, written over engines that were opened again.
use crate::engines::{Session, comb, open, served};
use crate::rows::Row;
use pb_crash::Leaves;
use pb_engine::Engine;
use pb_image::{Call, Fail, Image};
use pb_io::ByteSink;
use pb_map::RegMap;
use pb_object::Kind;
use pb_region_report::{Unwritten, write_map, write_report};
use std::alloc::Global;
use std::process::Abort;
use std::sync::Wait;
use std::test::Fail as TestFail;
use std::thread::Threads;

fn session_of(row: &Row) -> Session {
    Session {
        kind: row.0,
        clients: row.1,
        size: row.2,
        script: row.3,
    }
}

// What comes of a report of a device's region into a sink of so many bytes, which takes so many at a time. It leaves the device as it was.
fn report(
    rt: &impl Abort,
    alloc: Global,
    device: Image,
    room: u32,
    piece: u32,
) -> Result<(Result<(), Unwritten>, ByteSink), TestFail> {
    let log = device.log().to_vec(alloc)?;
    let engine = open(alloc, device)?;
    let mut sink = ByteSink::new(alloc, room, piece, &[])?;
    let answer = write_report(alloc, &mut sink, &engine);
    assert_eq!(rt; engine.close().log(), log.as_slice());
    Ok((answer, sink))
}

/// The region of each row is opened and reported.
pub fn are_reported<R: Wait + Threads + Sync + Abort>(
    rt: &R,
    alloc: Global,
    rows: &[Row],
) -> Result<(), TestFail> {
    for row in rows {
        let device = served(rt, alloc, &session_of(row))?;
        let (answer, sink) = report(rt, alloc, device, 4096, 7)?;
        assert_eq!(rt; answer, Ok(()));
        assert_eq!(rt; sink.bytes(), row.4.as_bytes());
    }
    Ok(())
}

/// Of each row's report so many bytes leave, and no more.
pub fn are_cut_off<R: Wait + Threads + Sync + Abort>(
    rt: &R,
    alloc: Global,
    rows: &[Row],
    room: u32,
    bytes: &[u8],
) -> Result<(), TestFail> {
    for row in rows {
        let device = served(rt, alloc, &session_of(row))?;
        let (answer, sink) = report(rt, alloc, device, room, 4096)?;
        assert_eq!(rt; answer, Err(Unwritten::Sink));
        assert_eq!(rt; sink.bytes(), bytes);
    }
    Ok(())
}

// A device whose third sync fails: the first one makes a region.
fn failing(alloc: Global) -> Result<Image, TestFail> {
    let mut device = Image::zero(alloc, 1024)?;
    let mut fails = Vec::new(alloc);
    fails.push(Fail {
        call: Call::Sync,
        nth: 3,
        how: Leaves::Left,
    })?;
    device.failing(fails);
    Ok(device)
}

/// The second of two rounds is in doubt. The report is of the first one.
pub fn is_reported_in_doubt<R: Wait + Threads + Sync + Abort>(
    rt: &R,
    alloc: Global,
    script: &'static str,
    text: &str,
) -> Result<(), TestFail> {
    let session = Session {
        kind: Kind::Map,
        clients: 1,
        size: 4,
        script,
    };
    let comb = comb::<R, RegMap>(rt, alloc, failing(alloc)?, &session)?;
    assert!(rt; !comb.sure());
    let mut sink = ByteSink::new(alloc, 4096, 4096, &[])?;
    assert_eq!(rt; write_map(&mut sink, &comb), Ok(()));
    assert_eq!(rt; sink.bytes(), text.as_bytes());
    Ok(())
}
