//! Regions that are opened after a crash, and again after a crash while they are settled.
use crate::logs::worked_device;
use crate::pair::settled;
use pb_device_fixtures::{Left, left_at};
use pb_image::Image;
use pb_pair::{Pair, Why};
use pb_region_fixtures::{round_of, tells};
use std::alloc::Global;
use std::process::Abort;

/// What an opening finds after a crash of the worked log at a moment, with a cut and the pick 0, 1 or 7.
///
/// - No region: at the moments 0 to 22; at 23 and 24 with cut 0 or pick 0.
/// - Round 0: at 23 and 24 with cut 1 and pick 1 or 7; at 25 to 37; at 38 and 39 with cut 2 or pick 0.
/// - Round 1: at 38 and 39 with cut 3 and pick 1 or 7; at 40 to 46; at 47 and 48 with cut 4 or pick 0.
/// - Round 2: at 47 and 48 with cut 5 and pick 1 or 7; at 49.
fn stop(moment: u32, cut: u32, pick: u64) -> Result<u64, Why> {
    match moment {
        0..=22 => Err(Why::NoRegion),
        23 | 24 if cut == 0 || pick == 0 => Err(Why::NoRegion),
        23..=37 => Ok(0),
        38 | 39 if cut == 2 || pick == 0 => Ok(0),
        38..=46 => Ok(1),
        47 | 48 if cut == 4 || pick == 0 => Ok(1),
        _ => Ok(2),
    }
}

// The devices that a crash at a moment leaves: at each cut, with the picks 0, 1 and 7.
fn crashes(rt: &impl Abort, alloc: Global, image: &Image, moment: u32) -> Vec<Left> {
    assert!(rt; moment as usize <= image.log().len());
    left_at(alloc, image, moment, &[0, 1, 7]).expect(rt, "memory")
}

// What an opening finds: it writes nothing, and tells the record of the round, or that there is no region.
fn opened(rt: &impl Abort, alloc: Global, device: Image) -> Result<u64, Why> {
    match Pair::open(alloc, device) {
        Ok(pair) => {
            let round = round_of(&pair).expect(rt, "the worked region");
            assert!(rt; tells(&pair, round) && pair.close().log().is_empty());
            Ok(round)
        }
        Err(refused) => {
            assert!(rt; refused.device.log().is_empty());
            Err(refused.why)
        }
    }
}

#[test]
fn each_image_is_opened_as_the_table_of_stops_says(rt: HostRuntime) {
    let image = worked_device(&rt, rt.alloc(), 49);
    for moment in 0..50 {
        for left in crashes(&rt, rt.alloc(), &image, moment) {
            let want = stop(moment, left.cut, left.pick);
            assert!(rt;
                opened(&rt, rt.alloc(), left.device) == want,
                "moment {moment}"
            );
        }
    }
}

// Where a region is to be found, each crash while this device is settled leaves what is opened with the same round.
fn keeps(rt: &impl Abort, alloc: Global, device: Image, want: Result<u64, Why>) {
    match settled(rt, alloc, device) {
        Ok((round, device)) => {
            assert!(rt; want == Ok(round) && device.log().len() == 4);
            for moment in 0..5 {
                for left in crashes(rt, alloc, &device, moment) {
                    assert!(rt; opened(rt, alloc, left.device) == want);
                }
            }
        }
        Err(why) => assert!(rt; want == Err(why)),
    }
}

#[test]
fn settling_that_a_crash_stops_changes_nothing(rt: HostRuntime) {
    let image = worked_device(&rt, rt.alloc(), 49);
    for moment in 0..50 {
        for left in crashes(&rt, rt.alloc(), &image, moment) {
            let want = stop(moment, left.cut, left.pick);
            keeps(&rt, rt.alloc(), left.device, want);
        }
    }
}
