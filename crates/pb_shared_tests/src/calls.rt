//! The calls of a shared map, whose conditions on the pass are asserted first.
ghost use Rattle.pb_shared.specs.Passes.{IsOf};

use crate::rows::MapEngine;
use pb_object::{LAST_NUMBER, Op, is_operation};
use pb_shared::{Again, Attempt, OpenGate, Pass, Performed, Shared};
use std::process::Abort;
use std::sync::Wait;

/// Announces an operation of a map.
pub fn announce(
    rt: &impl Abort,
    object: &Shared<MapEngine>,
    pass: &mut Pass<MapEngine>,
    op: &Op,
) -> u64
    requires { IsOf object.now pass.old }
    ensures { IsOf object.now pass.new }
{
    assert!(rt; pass.pending().is_none());
    assert!(rt; is_operation(object.kind(), op));
    assert!(rt; pass.last().number < LAST_NUMBER);
    object.announce(pass, op)
}

/// Tries once.
pub fn attempt(rt: &impl Abort, object: &Shared<MapEngine>, pass: &mut Pass<MapEngine>) -> Attempt
    requires { IsOf object.now pass.old }
    ensures { IsOf object.now pass.new }
{
    assert!(rt; pass.pending().is_some());
    object.attempt(pass)
}

/// Asks again.
pub fn again(
    rt: &impl Abort,
    object: &Shared<MapEngine>,
    pass: &mut Pass<MapEngine>,
    number: u64,
    op: &Op,
) -> Again
    requires { IsOf object.now pass.old }
    ensures { IsOf object.now pass.new }
{
    assert!(rt; pass.pending().is_none());
    assert!(rt; is_operation(object.kind(), op));
    assert!(rt; 1 <= number && number <= LAST_NUMBER);
    object.again(pass, number, op)
}

/// Tries until it is served, or the device fails.
pub fn perform<R: Wait>(
    rt: &impl Abort,
    wait: &R,
    object: &Shared<MapEngine>,
    pass: &mut Pass<MapEngine>,
) -> Performed
    requires { IsOf object.now pass.old }
    ensures { IsOf object.now pass.new }
{
    assert!(rt; pass.pending().is_some());
    object.perform(wait, pass, &OpenGate)
}
