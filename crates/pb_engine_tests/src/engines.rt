//! An engine's calls, whose conditions are asserted first.
ghost use Rattle.std.specs.Prelude.{◌≡◌};

use crate::cases::{Case, Round};
use crate::records::asks_of;
use arrayvec::ArrayVec;
use pb_comb::Comb;
use pb_engine::Engine;
use pb_engine_fixtures::may_be_served;
use pb_image::Image;
use pb_object::{Ask, Kept, Object};
use pb_pair::{Pair, Refused};
use pb_pmem::{DeviceFault, Line};
use std::alloc::Global;
use std::process::Abort;

/// Makes a region on a device that has none.
pub fn fresh<O: Object>(
    rt: &impl Abort,
    alloc: Global,
    device: Image,
    case: &Case,
) -> Result<Comb<O, Image>, Refused<Image>> {
    let clients = case.clients;
    let size = case.size;
    assert!(rt; 1 <= clients && clients <= 16);
    assert!(rt; 1 <= size && size <= 1024);
    Comb::fresh(alloc, device, clients, size)
}

/// An engine of a new region on a device of zeros with this room.
pub fn made<O: Object>(rt: &impl Abort, alloc: Global, room: u32, case: &Case) -> Comb<O, Image> {
    made_on(rt, alloc, zeros(rt, alloc, room), case)
}

/// An engine of a new region on this device.
pub fn made_on<O: Object>(
    rt: &impl Abort,
    alloc: Global,
    device: Image,
    case: &Case,
) -> Comb<O, Image> {
    match fresh(rt, alloc, device, case) {
        Ok(engine) => engine,
        Err(_) => panic!(rt; "the region is made"),
    }
}

/// A device of zeros with this room.
pub fn zeros(rt: &impl Abort, alloc: Global, room: u32) -> Image {
    Image::zero(alloc, room).expect(rt, "memory")
}

/// Opens a device that has a region of the object's kind.
pub fn adopt<O: Object>(
    rt: &impl Abort,
    alloc: Global,
    device: Image,
) -> Result<Comb<O, Image>, Refused<Image>> {
    match Pair::open(alloc, device) {
        Ok(pair) => {
            assert!(rt; pair.header().kind == O::KIND);
            Comb::adopt(alloc, pair)
        }
        Err(refused) => Err(refused),
    }
}

/// Serves requests in one round.
pub fn round<O: Object>(
    rt: &impl Abort,
    engine: &mut Comb<O, Image>,
    asks: &ArrayVec<Ask, 16>,
) -> Result<(), DeviceFault> {
    assert!(rt; engine.sure());
    assert!(rt; may_be_served(engine, asks.as_slice()));
    engine.round(asks)
}

/// Serves the requests of a round after this record.
pub fn serve<O: Object>(
    rt: &impl Abort,
    engine: &mut Comb<O, Image>,
    before: &[Line],
    next: &Round,
) -> Result<(), DeviceFault> {
    let asks = asks_of(rt, before, next);
    round(rt, engine, &asks)
}

/// Settles an engine that isn't sure.
pub fn settle<O: Object>(
    rt: &impl Abort,
    engine: &mut Comb<O, Image>,
) -> Result<bool, DeviceFault> {
    assert!(rt; !engine.sure());
    engine.settle()
}

/// One of a client's kept requests.
pub fn kept_at<O: Object>(
    rt: &impl Abort,
    engine: &Comb<O, Image>,
    client: u32,
    place: u32,
) -> Kept {
    assert!(rt; client < engine.clients() && place < 8);
    engine.kept_at(client, place)
}

// The line of a kept request.
fn kept_line(kept: &Kept) -> Line {
    let Kept { number, op, reply } = *kept;
    Line {
        words: [
            number,
            op.code,
            op.a,
            op.b,
            op.c,
            reply.code,
            reply.value,
            reply.extra,
        ],
    }
}

// Adds the lines of the kept requests.
fn add_kept<O: Object>(rt: &impl Abort, lines: &mut Vec<Line>, engine: &Comb<O, Image>) {
    for client in 0..engine.clients() {
        for place in 0..8 {
            let kept = kept_at(rt, engine, client, place);
            lines.push(kept_line(&kept)).expect(rt, "memory");
        }
    }
}

// Adds the object's lines.
fn add_object<O: Object>(rt: &impl Abort, alloc: Global, lines: &mut Vec<Line>, object: &O) {
    let count = object.lines() as usize;
    let mut last = vec![in alloc; Line::default(); count].expect(rt, "memory");
    object.put_lines(&mut last);
    lines.extend_from_slice(&last).expect(rt, "memory");
}

/// What an engine tells as known for sure, as the lines of a record: its rounds, the kept requests and the object.
pub fn told<O: Object>(rt: &impl Abort, alloc: Global, engine: &Comb<O, Image>) -> Vec<Line> {
    let mut lines = Vec::new(alloc);
    let first = Line {
        words: [engine.rounds(), 0, 0, 0, 0, 0, 0, 0],
    };
    lines.push(first).expect(rt, "memory");
    add_kept(rt, &mut lines, engine);
    add_object(rt, alloc, &mut lines, engine.object());
    lines
}

/// An engine tells this record.
pub fn tells<O: Object>(
    rt: &impl Abort,
    alloc: Global,
    engine: &Comb<O, Image>,
    lines: &[Line],
) -> bool {
    told(rt, alloc, engine).as_slice() == lines
}
