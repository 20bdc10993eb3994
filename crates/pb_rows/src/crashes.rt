//! Crashes at each moment of a run, and the runs after them.
use crate::rows::{
    FIRST, FIRST_REPORT, FRESH, FRESH_TWO, NEW, Row, TWO, call, calls, chained, report_two,
};
use crate::run::{failing, run};
use pb_crash::Leaves;
use pb_image::{Call, Image};
use std::alloc::Global;
use std::process::Abort;
use std::sync::Wait;
use std::thread::Threads;

// Which picks a crash has.
const PICKS: [u64; 3] = [0, 1, 7];

// The device that a crash leaves.
fn after(
    rt: &(impl Abort + Wait + Threads + Sync),
    alloc: Global,
    image: &Image,
    moment: u32,
    cut: u32,
    pick: u64,
) -> Image {
    assert!(rt; moment as usize <= image.log().len());
    let (least, greatest) = image.cuts(moment);
    assert!(rt; least <= cut && cut <= greatest);
    image
        .after_crash(alloc, moment, cut, pick, 4096)
        .expect(rt, "memory")
}

const ONE: &str = "0 1 kept was 0 1\n0 2 new is 77 1\n";

const BOTH: &str = "0 1 kept was 0 1\n0 2 kept is 77 1\n";

// What the first script comes to behind a crash of its own log.
fn want(moment: u32, cut: u32, pick: u64) -> (&'static str, u8) {
    match moment {
        0..=22 => ("none\n", 7),
        23 | 24 if cut == 0 || pick == 0 => ("none\n", 7),
        23..=37 => (NEW, 0),
        38 | 39 if cut == 2 || pick == 0 => (NEW, 0),
        38..=46 => (ONE, 0),
        47 | 48 if cut == 4 || pick == 0 => (ONE, 0),
        _ => (BOTH, 0),
    }
}

const REPORT: Row = ("report", "", FIRST_REPORT, 0, None);

// Runs the first script behind a crash, makes a region first where there is none, and reports the same in the end.
fn goes_on(
    rt: &(impl Abort + Wait + Threads + Sync),
    alloc: Global,
    device: Image,
    text: &'static str,
    status: u8,
) {
    let mut device = call(rt, alloc, device, &("run", FIRST, text, status, None));
    if status == 7 {
        device = call(rt, alloc, device, &FRESH);
    }
    call(rt, alloc, device, &REPORT);
}

// The images of a moment, at each cut and pick.
fn first_at(rt: &(impl Abort + Wait + Threads + Sync), alloc: Global, image: &Image, moment: u32) {
    assert!(rt; moment as usize <= image.log().len());
    let (least, greatest) = image.cuts(moment);
    for cut in least..=greatest {
        for pick in PICKS {
            let (text, status) = want(moment, cut, pick);
            goes_on(
                rt,
                alloc,
                after(rt, alloc, image, moment, cut, pick),
                text,
                status,
            );
        }
    }
}

#[test]
fn of_one_client(rt: HostRuntime) {
    let image = chained(&rt, rt.alloc(), &[FRESH]);
    for moment in 0..50 {
        first_at(&rt, rt.alloc(), &image, moment);
    }
}

// What is asked behind a crash is new or kept.
fn is_answered(text: &[u8]) -> bool {
    text == b"0 1 new was 0 1\n1 1 new was 0 1\n".as_slice()
        || text == b"0 1 kept was 0 1\n1 1 new was 0 1\n".as_slice()
        || text == b"0 1 new was 0 1\n1 1 kept was 0 1\n".as_slice()
        || text == b"0 1 kept was 0 1\n1 1 kept was 0 1\n".as_slice()
}

const TWO_KEPT: Row = ("run", TWO, "0 1 kept was 0 1\n1 1 kept was 0 1\n", 0, None);

// Runs two clients' script behind a crash.
fn two_go_on(rt: &(impl Abort + Wait + Threads + Sync), alloc: Global, device: Image) {
    let (done, sink) = run(rt, alloc, "run", TWO, 4096, device);
    let device = if done.status.code() == 7 {
        assert!(rt; sink.bytes() == b"none\n".as_slice());
        call(
            rt,
            alloc,
            done.device,
            &("fresh map 2 4", TWO, FRESH_TWO.2, 0, None),
        )
    } else {
        assert!(rt; done.status.code() == 0 && is_answered(sink.bytes()));
        done.device
    };
    let device = call(rt, alloc, device, &TWO_KEPT);
    report_two(rt, alloc, device);
}

fn two_at(rt: &(impl Abort + Wait + Threads + Sync), alloc: Global, image: &Image, moment: u32) {
    assert!(rt; moment as usize <= image.log().len());
    let (least, greatest) = image.cuts(moment);
    for cut in least..=greatest {
        for pick in PICKS {
            two_go_on(rt, alloc, after(rt, alloc, image, moment, cut, pick));
        }
    }
}

#[test]
fn of_two_clients(rt: HostRuntime) {
    let image = chained(&rt, rt.alloc(), &[FRESH_TWO]);
    let end = u32::try_from(image.log().len()).expect(&rt, "a moment");
    for moment in 0..=end {
        two_at(&rt, rt.alloc(), &image, moment);
    }
}

const HALF: Row = (
    "report",
    "",
    "kind map\nclients 1\nsize 4\nrounds 1\nclient 0 1 put 3 77 was 0 1\nregisters 1\nregister 3 77 1\n",
    0,
    Some(0),
);

const DOUBT: [Row; 1] = [("fresh map 1 4", FIRST, "0 1 doubt\n0 2 left\n", 6, Some(39))];

#[test]
fn of_torn_records_and_of_doubt(rt: HostRuntime) {
    let alloc = rt.alloc();
    let image = chained(&rt, alloc, &[FRESH]);
    call(&rt, alloc, after(&rt, alloc, &image, 45, 4, 7), &HALF);
    let doubt = calls(
        &rt,
        alloc,
        failing(&rt, alloc, Call::Sync, &[2], Leaves::Left),
        &DOUBT,
    );
    goes_on(&rt, alloc, after(&rt, alloc, &doubt, 39, 3, 0), NEW, 0);
    goes_on(&rt, alloc, after(&rt, alloc, &doubt, 39, 3, 1), ONE, 0);
}
