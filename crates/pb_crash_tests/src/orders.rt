//! The second round stored in wrong orders, and a failed store that is settled.
use crate::crash::{first_uncovered, found_at, found_at_the_end};
use crate::found::Found;
use crate::logs::{device, log};
use crate::pair::settle_ops;
use crate::rounds::told_rounds;
use pb_image::Image;
use pb_pmem::LogOp;
use pb_region_fixtures::worked;
use std::alloc::Global;
use std::process::Abort;

// Some crash after all operations leaves the state before the second round.
fn loses_the_round(rt: &impl Abort, alloc: Global, image: &Image) -> bool {
    found_at_the_end(rt, alloc, image).contains(&Found::Round(1))
}

// With these operations a crash at moment 46, and none before it, leaves an index over a record that isn't there.
fn is_found_out(rt: &impl Abort, alloc: Global, ops: &[LogOp]) -> bool {
    let image = device(rt, alloc, ops);
    first_uncovered(rt, alloc, &image) == Some(46)
        && found_at(rt, alloc, &image, 46).contains(&Found::Damaged)
}

// The worked operations without the one at a place.
fn without(rt: &impl Abort, alloc: Global, place: usize) -> Vec<LogOp> {
    let mut ops = worked().to_vec(alloc).expect(rt, "memory");
    assert!(rt; place < ops.len());
    ops.remove(place);
    ops
}

#[test]
fn index_before_fence_is_found_out(rt: HostRuntime) {
    let mut ops = worked();
    ops.swap(45, 46);
    assert!(rt; is_found_out(&rt, rt.alloc(), &ops));
}

#[test]
fn record_not_written_back_is_found_out(rt: HostRuntime) {
    let ops = without(&rt, rt.alloc(), 44);
    assert!(rt; is_found_out(&rt, rt.alloc(), &ops));
}

// No image is wrong in itself here: the round was answered, but the log doesn't seal it.
#[test]
fn index_line_not_written_back_loses_an_answered_round(rt: HostRuntime) {
    let ops = without(&rt, rt.alloc(), 47);
    let image = device(&rt, rt.alloc(), &ops);
    assert!(rt; loses_the_round(&rt, rt.alloc(), &image));
    assert!(rt; first_uncovered(&rt, rt.alloc(), &image).is_none());
    let rounds = told_rounds(&rt, rt.alloc(), image.log());
    assert!(rt; rounds.len() == 2);
    assert!(rt; rounds[0].moment == Some(40) && rounds[1].moment.is_none());
}

// The last sync fails, and the region is settled with this round number.
fn settled_with(rt: &impl Abort, alloc: Global, index: u64) -> Image {
    device(rt, alloc, &log(rt, alloc, 48, &settle_ops(index)))
}

#[test]
fn settling_with_the_old_number_loses_a_sealed_round(rt: HostRuntime) {
    let right = settled_with(&rt, rt.alloc(), 2);
    assert!(rt; !loses_the_round(&rt, rt.alloc(), &right));
    assert!(rt; first_uncovered(&rt, rt.alloc(), &right).is_none());
    let wrong = settled_with(&rt, rt.alloc(), 1);
    assert!(rt; loses_the_round(&rt, rt.alloc(), &wrong));
    assert!(rt; first_uncovered(&rt, rt.alloc(), &wrong) == Some(52));
}
