//! Reports of empty and of full objects of each kind, and of an engine in doubt.
use crate::reporting::{are_cut_off, are_reported, is_reported_in_doubt};
use crate::rows::{EMPTY, FULL, WRAPPED};
use std::test::Fail;

#[test]
fn of_empty_objects(rt: HostRuntime) -> Result<(), Fail> {
    are_reported(&rt, rt.alloc(), &EMPTY)
}

#[test]
fn of_full_objects(rt: HostRuntime) -> Result<(), Fail> {
    are_reported(&rt, rt.alloc(), &FULL)
}

#[test]
fn of_wrapped_queues(rt: HostRuntime) -> Result<(), Fail> {
    are_reported(&rt, rt.alloc(), &WRAPPED)
}

#[test]
fn into_a_short_sink(rt: HostRuntime) -> Result<(), Fail> {
    are_cut_off(&rt, rt.alloc(), &WRAPPED, 12, b"kind queue\nc")
}

#[test]
fn of_an_engine_in_doubt(rt: HostRuntime) -> Result<(), Fail> {
    is_reported_in_doubt(
        &rt,
        rt.alloc(),
        "0 1 put 3 77\n0 2 put 3 78\n",
        "kind map\nclients 1\nsize 4\nrounds 1\nclient 0 1 put 3 77 was 0 1\nregisters 1\nregister 3 77 1\n",
    )
}
