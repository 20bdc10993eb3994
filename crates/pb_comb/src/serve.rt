//! Applying the requests of a round, and following them.
ghost use Rattle.std.specs.Prelude.{◌≡◌, All, if◌then◌else◌};
ghost use Rattle.pb_object.specs.ObjectLines.{size_of};
ghost use Rattle.pb_object.specs.Request.{IsOperation};
ghost use Rattle.pb_engine.specs.Asks.{answered_from, state_from};
ghost use Rattle.pb_engine.specs.Next.{PutsEntries};
ghost use Rattle.pb_comb.specs.Serving.{AreServable};

use pb_engine::NextRecord;
use pb_object::{Ask, Kept, Object};
use pb_pmem::Line;

/// Applies the requests one after the other, and puts each with its reply in front of its client's slots of the record before.
pub fn serve<O: Object>(asks: &[Ask], before: &[Line], object: &mut O, next: &mut NextRecord)
    requires before { AreServable O.KIND before.now asks.now }
    requires room { AreServable O.KIND next.old asks.now }
    ensures state { O.state object.new ≡ state_from (O.state object.old) asks.now }
    ensures entries { PutsEntries before.now (answered_from (O.state object.old) asks.now) next.old next.new }
{
    for ask in asks {
        let reply = object.apply(&ask.op);
        let kept = Kept {
            number: ask.number,
            op: ask.op,
            reply,
        };
        next.put(before, ask.client, &kept);
    }
}

/// Applies the requests to an object that is behind by them.
pub fn catch_up<O: Object>(asks: &[Ask], object: &mut O)
    requires { All (λ ask. IsOperation O.KIND ask.op) asks.now }
    ensures { O.state object.new ≡ state_from (O.state object.old) asks.now }
{
    for ask in asks {
        let _ = object.apply(&ask.op);
    }
}

/// Makes two copies of an object agree: on the one that is ahead, or on the other.
pub fn agree<O: Object>(on_ahead: bool, object: &mut O, ahead: &mut O)
    requires { size_of (O.state object.old) ≡ size_of (O.state ahead.old) }
    ensures object { O.state object.new ≡ (if on_ahead then O.state ahead.old else O.state object.old) }
    ensures ahead { O.state ahead.new ≡ (if on_ahead then O.state ahead.old else O.state object.old) }
{
    if on_ahead {
        object.copy_from(ahead);
    } else {
        ahead.copy_from(object);
    }
}
