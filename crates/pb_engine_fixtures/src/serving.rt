//! Whether requests may be served in one round.
ghost use Rattle.std.specs.Prelude.{IsTrue, All};
ghost use Rattle.pb_engine.specs.Asks.{AskersRise, IsNextAsk, MayBeServed};

use pb_engine::Engine;
use pb_object::{Ask, LAST_NUMBER};

/// Whether these requests may be served in one round of an engine. False is answered also where it can't be told.
pub fn may_be_served<E: Engine>(engine: &E, asks: &[Ask]) -> bool
    ensures { IsTrue result → MayBeServed (E.seen engine.now).standing asks.now }
{
    let Some(first) = asks.first() else {
        return false;
    };
    match engine.side(&first.op) {
        Some(side) => are_next(engine, side, asks),
        None => false,
    }
}

// Whether these may be the next requests of rising clients, on this side.
fn are_next<E: Engine>(engine: &E, side: u32, asks: &[Ask]) -> bool
    ensures rising { IsTrue result → AskersRise asks.now }
    ensures next { IsTrue result → All (IsNextAsk (E.seen engine.now).standing side) asks.now }
{
    let mut floor = 0;
    for ask in asks {
        if ask.client < floor || ask.client >= 16 || !is_next(engine, side, ask) {
            return false;
        }
        floor = ask.client + 1;
    }
    true
}

// Whether a request may be its client's next, on this side.
fn is_next<E: Engine>(engine: &E, side: u32, ask: &Ask) -> bool
    ensures { IsTrue result → IsNextAsk (E.seen engine.now).standing side ask.now }
{
    if engine.clients() <= ask.client {
        return false;
    }
    let last = engine.kept(ask.client).number;
    last < LAST_NUMBER && ask.number == last + 1 && engine.side(&ask.op) == Some(side)
}
