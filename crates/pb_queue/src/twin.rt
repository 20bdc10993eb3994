//! The engine of a queue.
ghost use Rattle.std.specs.Prelude.{◌≡◌};
ghost use Rattle.pb_object.specs.declared.limits.TheConstants.{MOST_CLIENTS, MOST_SIZE};
ghost use Rattle.pb_object.specs.declared.kind.Kind.TheVariants.{Queue};
ghost use Rattle.pb_engine.specs.Asks.{side_asked};
ghost use Rattle.pb_queue.specs.Items.{settled_items};

use crate::items::Items;
use crate::kept::kept_at;
use crate::recovery::recover;
use crate::serve::prepare;
use crate::store::store_round;
use arrayvec::ArrayVec;
use pb_engine::{Engine, NextRecord};
use pb_layout::{Header, record_len};
use pb_object::{Action, Ask, Kept, Kind};
use pb_pair::{Pair, Refused, Why};
use pb_pmem::{DeviceFault, Pmem};
use std::alloc::Global;
use std::marker::Model;

/// The engine of a queue, over the device that holds its region: its puts combine on side 0 and its
/// takes on side 1.
///
/// A contract sees it as an `EngineView`. The items that wait lie in memory as well, so no call but
/// `adopt` reads the device. No call but `fresh` and `adopt` takes memory.
#[derive(Drop)]
pub struct TwinQueue<P: Pmem> {
    pair: Pair<P>,
    // The items as they are known for sure, and ahead by the requests of a round that failed.
    items: Items,
    next: NextRecord,
    // The requests of the round that failed.
    asked: ArrayVec<Ask, 16>,
}

impl<P: Pmem> Model for TwinQueue<P> {
    ghost use Rattle.pb_engine.specs.View.{EngineView};
    ghost use Rattle.pb_queue.specs.View.{twin_view, IsTwin};

    ghost Value = { EngineView };

    ghost view = { λ q. twin_view q.pair q.items q.asked.items };

    ghost invariant = { λ q. IsTwin q.pair q.items q.next q.asked.items };
}

impl<P: Pmem> TwinQueue<P> {
    ghost use Rattle.std.specs.Prelude.{◌≡◌, ◌-◌, ◌<◌, ◌≤◌, IfOk, IfErr, slice_index};
    ghost use Rattle.pb_pair.specs.Open.{IsOpened};
    ghost use Rattle.pb_engine.specs.Opening.{IsFreshEngine, IsFreshRefusal, IsAdopted, IsAdoptRefusal};
    ghost use Rattle.pb_object.specs.Standing.{rounds_of};
    ghost use Rattle.pb_layout.specs.declared.header.Header.{Header};
    ghost use Rattle.pb_layout.specs.Represents.{header_for};
    ghost use Rattle.pb_queue.specs.Waits.{taken_in_state, tail_in, items_in};

    /// Makes a region on a device that has none, in which nothing was asked yet. The engine is sure.
    ///
    /// Memory is taken before the device is written to: `Memory` leaves the device as it was.
    /// `Taken` comes only where the device has a region, and leaves it as it was. `Device` comes
    /// where a call of the device failed.
    pub fn fresh(
        alloc: Global,
        device: P,
        clients: u32,
        size: u32,
    ) -> Result<TwinQueue<P>, Refused<P>>
        requires some_clients { 1 ≤ clients }
        requires few_clients { clients ≤ MOST_CLIENTS }
        requires some_size { 1 ≤ size }
        requires small_size { size ≤ MOST_SIZE }
        ensures ok { let head : Header = record { kind = Queue; clients = clients; size = size } in
            IfOk result (IsFreshEngine head (P.seen device)) }
        ensures err { let head : Header = record { kind = Queue; clients = clients; size = size } in
            IfErr result (λ refused. IsFreshRefusal head (P.seen device) (P.seen refused.device) refused.why) }
    {
        let head = Header {
            kind: Kind::Queue,
            clients,
            size,
        };
        let Ok(items) = Items::fresh(alloc, size, 0) else {
            return Err(Refused {
                device,
                why: Why::Memory,
            });
        };
        let Ok(next) = NextRecord::fresh(alloc, record_len(&head)) else {
            return Err(Refused {
                device,
                why: Why::Memory,
            });
        };
        match Pair::format(alloc, device, &head, next.lines(), next.lines()) {
            Ok(pair) => Ok(TwinQueue {
                pair,
                items,
                next,
                asked: ArrayVec::new(),
            }),
            Err(refused) => Err(refused),
        }
    }

    /// The engine of a region that was just opened, whose object is a queue. It reads the cells of
    /// the items that wait, and writes nothing. The engine isn't sure until it is settled.
    ///
    /// `Damaged` names the first line of the region that the format refuses, and an Ok comes where
    /// it refuses none. `Memory` comes where memory ran out, and `Device` where a read failed. Each
    /// refusal leaves the device's log as it was.
    pub fn adopt(alloc: Global, mut pair: Pair<P>) -> Result<TwinQueue<P>, Refused<P>>
        requires opened { IsOpened pair.device pair }
        requires kind { pair.head.kind ≡ Queue }
        ensures ok { IfOk result (IsAdopted pair.device) }
        ensures header { IfOk result (λ queue. header_for queue.standing ≡ pair.head) }
        ensures err { IfErr result (λ refused. IsAdoptRefusal pair.device (P.seen refused.device) refused.why) }
    {
        let items = match recover(alloc, &mut pair) {
            Ok(items) => items,
            Err(why) => {
                return Err(Refused {
                    device: pair.close(),
                    why,
                });
            }
        };
        let Ok(next) = NextRecord::fresh(alloc, record_len(&pair.header())) else {
            return Err(Refused {
                device: pair.close(),
                why: Why::Memory,
            });
        };
        Ok(TwinQueue {
            pair,
            items,
            next,
            asked: ArrayVec::new(),
        })
    }

    /// The position of the first item that waits, as the engine last knew it for sure: so many were
    /// taken.
    pub fn head(&self) -> u64
        ensures { result ≡ taken_in_state self.now.standing.state }
    {
        self.items.head()
    }

    /// The position of the next item that is put, as the engine last knew it for sure: so many were
    /// put.
    pub fn tail(&self) -> u64
        ensures { result ≡ tail_in self.now.standing.state }
    {
        self.items.tail()
    }

    /// The item that waits at a position, as the engine last knew it for sure.
    pub fn item(&self, position: u64) -> u64
        requires after { taken_in_state self.now.standing.state ≤ position }
        requires before { position < tail_in self.now.standing.state }
        ensures { result ≡ slice_index (items_in self.now.standing.state) (position - taken_in_state self.now.standing.state) }
    {
        self.items.item(position)
    }

    /// How many rounds of a side there were: 0 for puts and 1 for takes.
    pub fn round_of(&self, side: u32) -> u64
        requires { side < 2 }
        ensures { result ≡ rounds_of self.now.standing side }
    {
        self.pair.round(side)
    }

    /// The header of the region.
    pub fn header(&self) -> Header
        ensures { result ≡ header_for self.now.standing }
    {
        self.pair.header()
    }

    /// Hands the device back.
    pub fn close(self) -> P
        ensures { P.seen result ≡ self.device }
    {
        self.pair.close()
    }
}

impl<P: Pmem> Engine for TwinQueue<P> {
    ghost use Rattle.pb_engine.specs.View.{IsEngine};

    ghost seen = { λ queue. queue };

    fn kind(&self) -> Kind
        ensures standing { result ≡ self.now.standing.kind }
        ensures queue { result ≡ Queue }
    {
        self.pair.header().kind
    }

    fn clients(&self) -> u32
        ensures count { result ≡ self.now.standing.clients }
        ensures sound { IsEngine self.now.standing.kind self.now }
        ensures own { IsEngine Queue self.now }
    {
        self.pair.header().clients
    }

    fn rounds(&self) -> u64 {
        self.pair.round(0) + self.pair.round(1)
    }

    fn sure(&self) -> bool {
        self.pair.sure()
    }

    fn kept_at(&self, client: u32, place: u32) -> Kept {
        kept_at(&self.pair, client, place)
    }

    fn faults(&self) -> u64 {
        self.pair.faults()
    }

    fn round(&mut self, asks: &ArrayVec<Ask, 16>) -> Result<(), DeviceFault> {
        let in_order = asks.as_slice();
        let side = side_of(in_order);
        prepare(&self.pair, side, in_order, &mut self.items, &mut self.next);
        match store_round(&mut self.pair, side, &self.items, self.next.lines()) {
            Ok(()) => {
                self.items.confirm();
                Ok(())
            }
            Err(fault) => {
                keep(&mut self.asked, asks);
                Err(fault)
            }
        }
    }

    fn settle(&mut self) -> Result<bool, DeviceFault> {
        let recorded = self.pair.settle()?;
        follow(&mut self.items, recorded);
        self.asked.clear();
        Ok(recorded)
    }
}

// The side of requests of one side.
fn side_of(asks: &[Ask]) -> u32
    ensures { result ≡ side_asked asks.now }
{
    match asks.first() {
        Some(ask) => pb_object::side_of(&ask.op),
        None => 0,
    }
}

// Keeps the requests of a round that failed.
fn keep(asked: &mut ArrayVec<Ask, 16>, asks: &ArrayVec<Ask, 16>)
    ensures { asked.new.items ≡ asks.now.items }
{
    asked.clear();
    let _ = asked.try_extend_from_slice(asks.as_slice());
}

// Makes sure of what was applied, or takes it back.
fn follow(items: &mut Items, recorded: bool)
    ensures { items.new ≡ settled_items recorded items.old }
{
    if recorded {
        items.confirm();
    } else {
        items.revert();
    }
}
