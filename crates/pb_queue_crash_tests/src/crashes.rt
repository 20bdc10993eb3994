//! Crashes at each moment of the queue's log.
use crate::queue::{changed, opened};
use pb_device_fixtures::left_at;
use pb_image::Image;
use pb_pair::Why;
use std::alloc::Global;
use std::process::Abort;

const PICKS: [u64; 3] = [0, 1, 7];

/// What an opening finds of what a crash at a moment leaves.
#[derive(Drop)]
pub struct Opening {
    pub cut: u32,
    pub pick: u64,
    pub found: Result<usize, Why>,
}

/// What openings find of what a crash at a moment leaves: at each cut, with the picks 0, 1 and 7.
pub fn openings(rt: &impl Abort, alloc: Global, image: &Image, moment: usize) -> Vec<Opening> {
    assert!(rt; moment <= image.log().len() && moment < 256);
    let mut openings = Vec::new(alloc);
    for left in left_at(alloc, image, moment as u32, &PICKS).expect(rt, "memory") {
        let opening = Opening {
            cut: left.cut,
            pick: left.pick,
            found: opened(rt, alloc, left.device),
        };
        openings.push(opening).expect(rt, "memory");
    }
    openings
}

/// What an opening finds after a crash at a moment, with a cut and the pick 0, 1 or 7. The magic is operation 50, and the index words are
/// the operations 75, 98 and 112. Each has a fence before it, and two operations later a sync.
fn stop(moment: usize, cut: u32, pick: u64) -> Result<usize, Why> {
    match moment {
        0..=49 => Err(Why::NoRegion),
        50 | 51 if cut == 0 || pick == 0 => Err(Why::NoRegion),
        50..=74 => Ok(0),
        75 | 76 if cut == 2 || pick == 0 => Ok(0),
        75..=97 => Ok(1),
        98 | 99 if cut == 4 || pick == 0 => Ok(1),
        98..=111 => Ok(2),
        112 | 113 if cut == 6 || pick == 0 => Ok(2),
        _ => Ok(3),
    }
}

#[test]
fn each_image_is_opened_as_the_table_of_stops_says(rt: HostRuntime) {
    let device = changed(&rt, rt.alloc());
    for moment in 0..115 {
        for opening in openings(&rt, rt.alloc(), &device, moment) {
            let want = stop(moment, opening.cut, opening.pick);
            assert!(rt; opening.found == want, "moment {moment}");
        }
    }
}
