//! Crashes at each moment of a log.
use crate::found::{Found, read_image};
use crate::logs::worked_device;
use crate::rounds::{ToldRound, told_rounds};
use pb_device_fixtures::left_at;
use pb_image::Image;
use pb_pmem::LogOp;
use std::alloc::Global;
use std::process::Abort;

const PICKS: [u64; 5] = [0, 1, 2, 7, 9];

/// What the images represent that a crash at a moment leaves: at each cut, those of some picks.
pub fn found_at(rt: &impl Abort, alloc: Global, image: &Image, moment: usize) -> Vec<Found> {
    assert!(rt; moment <= image.log().len() && moment <= 64);
    let all = left_at(alloc, image, moment as u32, &PICKS).expect(rt, "memory");
    let mut found = Vec::new(alloc);
    for left in &all {
        let one = read_image(rt, alloc, &left.device);
        found.push(one).expect(rt, "memory");
    }
    found
}

/// What the images represent that a crash after all operations leaves.
pub fn found_at_the_end(rt: &impl Abort, alloc: Global, image: &Image) -> Vec<Found> {
    found_at(rt, alloc, image, image.log().len())
}

// The first `kept` rounds are rounds so far, and none of the others is sealed.
fn is_front(rounds: &[ToldRound], moment: usize, kept: usize) -> bool {
    for (place, round) in rounds.iter().enumerate() {
        if place < kept {
            if !round.is_there(moment) {
                return false;
            }
        } else if round.is_sealed(moment) {
            return false;
        }
    }
    kept <= rounds.len()
}

// An image represents the state after a prefix of the rounds so far, which includes every sealed one.
fn stands_for_a_front(rounds: &[ToldRound], moment: usize, found: &Found) -> bool {
    match *found {
        Found::Round(kept) => is_front(rounds, moment, kept as usize),
        _ => false,
    }
}

// There was no region at the start, no sync stands since, and there is none.
fn is_still_nothing(log: &[LogOp], found: &Found) -> bool {
    *found == Found::Nothing && !log.contains(&LogOp::Sync)
}

// Each image that a crash at a moment leaves is one that the rounds cover.
fn is_covered(
    rt: &impl Abort,
    alloc: Global,
    image: &Image,
    rounds: &[ToldRound],
    moment: usize,
) -> bool {
    let found = found_at(rt, alloc, image, moment);
    assert!(rt; moment <= image.log().len());
    let log = image.log().split_at(moment).0;
    for one in &found {
        if !stands_for_a_front(rounds, moment, one) && !is_still_nothing(log, one) {
            return false;
        }
    }
    true
}

/// The first moment at which a crash leaves an image that the rounds don't cover.
pub fn first_uncovered(rt: &impl Abort, alloc: Global, image: &Image) -> Option<usize> {
    let rounds = told_rounds(rt, alloc, image.log());
    assert!(rt; image.log().len() <= 64);
    for moment in 0..image.log().len() + 1 {
        if !is_covered(rt, alloc, image, &rounds, moment) {
            return Some(moment);
        }
    }
    None
}

#[test]
fn each_image_stands_for_a_front_of_the_rounds(rt: HostRuntime) {
    let image = worked_device(&rt, rt.alloc(), 49);
    assert!(rt; first_uncovered(&rt, rt.alloc(), &image).is_none());
}

// Some crash at a moment leaves the state after the first so many rounds.
fn is_left(rounds: &[ToldRound], moment: usize, kept: usize) -> bool {
    // The magic is operation 23.
    moment >= 23 && is_front(rounds, moment, kept)
}

#[test]
fn each_front_of_the_rounds_is_left_by_some_crash(rt: HostRuntime) {
    let image = worked_device(&rt, rt.alloc(), 49);
    let rounds = told_rounds(&rt, rt.alloc(), image.log());
    for moment in 0..50 {
        let found = found_at(&rt, rt.alloc(), &image, moment);
        // Only the sync of the formatting, operation 25, takes the images without a region away.
        assert!(rt;
            found.contains(&Found::Nothing) == (moment < 25),
            "{moment}"
        );
        for kept in 0..3 {
            let left = is_left(&rounds, moment, kept as usize);
            assert!(rt;
                found.contains(&Found::Round(kept)) == left,
                "{moment}, {kept} rounds"
            );
        }
    }
}

#[test]
fn the_device_holds_the_state_after_all_rounds(rt: HostRuntime) {
    for moment in 0..50 {
        let image = worked_device(&rt, rt.alloc(), moment);
        let found = read_image(&rt, rt.alloc(), &image);
        let rounds = told_rounds(&rt, rt.alloc(), image.log()).len();
        let want = if moment < 23 {
            Found::Nothing
        } else {
            Found::Round(rounds as u64)
        };
        assert!(rt; found == want, "moment {moment}");
    }
}
