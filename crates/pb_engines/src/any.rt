use arrayvec::ArrayVec;
use pb_comb::Comb;
use pb_engine::Engine;
use pb_heap::MinHeap;
use pb_layout::Header;
use pb_map::RegMap;
use pb_object::{Ask, Kept, Kind};
use pb_pair::{Pair, Refused};
use pb_pmem::{DeviceFault, Pmem};
use pb_queue::TwinQueue;
use pb_stack::Stack;
use std::alloc::Global;

/// The engine of a region, of whatever kind that is.
///
/// A contract sees it by `view_of`. No call but `fresh`, `open` and `adopt` takes memory.
#[derive(Drop)]
pub enum AnyEngine<P: Pmem> {
    Map(Comb<RegMap, P>),
    Stack(Comb<Stack, P>),
    Heap(Comb<MinHeap, P>),
    Queue(TwinQueue<P>),
}

impl<P: Pmem> AnyEngine<P> {
    ghost use Rattle.std.specs.Prelude.{◌≡◌, IfOk, IfErr};
    ghost use Rattle.pb_layout.specs.Represents.{header_for};
    ghost use Rattle.pb_pair.specs.Open.{IsOpened};
    ghost use Rattle.pb_engine.specs.Opening.{IsFreshEngine, IsFreshRefusal, IsAdopted, IsAdoptRefusal};
    ghost use Rattle.pb_engines.specs.AnyEngine.{view_of};
    ghost use Rattle.pb_engines.specs.Unopened.{IsUnopened};

    /// Makes a region of the header's kind on a device that has none, in which nothing was asked yet. The engine is sure.
    ///
    /// Memory is taken before the device is written to: `Memory` leaves the device as it was. `Taken` comes only where the device has a
    /// region, and leaves it as it was. `Device` comes only where a call of the device failed: there is no region still, or the whole
    /// empty one.
    pub fn fresh(alloc: Global, head: &Header, device: P) -> Result<AnyEngine<P>, Refused<P>>
        ensures ok { IfOk result (λ engine. IsFreshEngine head.now (P.seen device) (view_of engine)) }
        ensures err { IfErr result (λ refused. IsFreshRefusal head.now (P.seen device) (P.seen refused.device) refused.why) }
    {
        match head.kind {
            Kind::Map => match Comb::fresh(alloc, device, head.clients, head.size) {
                Ok(comb) => Ok(AnyEngine::Map(comb)),
                Err(refused) => Err(refused),
            },
            Kind::Stack => match Comb::fresh(alloc, device, head.clients, head.size) {
                Ok(comb) => Ok(AnyEngine::Stack(comb)),
                Err(refused) => Err(refused),
            },
            Kind::Heap => match Comb::fresh(alloc, device, head.clients, head.size) {
                Ok(comb) => Ok(AnyEngine::Heap(comb)),
                Err(refused) => Err(refused),
            },
            Kind::Queue => match TwinQueue::fresh(alloc, device, head.clients, head.size) {
                Ok(queue) => Ok(AnyEngine::Queue(queue)),
                Err(refused) => Err(refused),
            },
        }
    }

    /// Opens the region of a device. It writes nothing, and the engine isn't sure until it is settled.
    ///
    /// `NoRegion` comes only where the first word isn't the magic. `Damaged` names the first line of the region that the format refuses,
    /// and an Ok comes where it refuses none. `Memory` comes where memory ran out, and `Device` where a read failed. Each refusal leaves
    /// the device's log as it was.
    pub fn open(alloc: Global, device: P) -> Result<AnyEngine<P>, Refused<P>>
        ensures ok { IfOk result (λ engine. IsAdopted (P.seen device) (view_of engine)) }
        ensures err { IfErr result (λ refused. IsUnopened (P.seen device) (P.seen refused.device) refused.why) }
    {
        match Pair::open(alloc, device) {
            Ok(pair) => AnyEngine::adopt(alloc, pair),
            Err(refused) => Err(refused),
        }
    }

    /// The engine of a region that was just opened. It writes nothing, and isn't sure until it is settled.
    ///
    /// `Damaged` names the first line of the region that the format refuses, and an Ok comes where it refuses none. `Memory` comes where
    /// memory ran out, and `Device` where a read failed, which a queue alone makes. Each refusal leaves the device's log as it was.
    pub fn adopt(alloc: Global, pair: Pair<P>) -> Result<AnyEngine<P>, Refused<P>>
        requires { IsOpened pair.device pair }
        ensures ok { IfOk result (λ engine. IsAdopted pair.device (view_of engine)) }
        ensures header { IfOk result (λ engine. header_for (view_of engine).standing ≡ pair.head) }
        ensures err { IfErr result (λ refused. IsAdoptRefusal pair.device (P.seen refused.device) refused.why) }
    {
        match pair.header().kind {
            Kind::Map => match Comb::adopt(alloc, pair) {
                Ok(comb) => Ok(AnyEngine::Map(comb)),
                Err(refused) => Err(refused),
            },
            Kind::Stack => match Comb::adopt(alloc, pair) {
                Ok(comb) => Ok(AnyEngine::Stack(comb)),
                Err(refused) => Err(refused),
            },
            Kind::Heap => match Comb::adopt(alloc, pair) {
                Ok(comb) => Ok(AnyEngine::Heap(comb)),
                Err(refused) => Err(refused),
            },
            Kind::Queue => match TwinQueue::adopt(alloc, pair) {
                Ok(queue) => Ok(AnyEngine::Queue(queue)),
                Err(refused) => Err(refused),
            },
        }
    }

    /// Hands the device back.
    pub fn close(self) -> P
        ensures { P.seen result ≡ (view_of self).device }
    {
        match self {
            AnyEngine::Map(comb) => comb.close(),
            AnyEngine::Stack(comb) => comb.close(),
            AnyEngine::Heap(comb) => comb.close(),
            AnyEngine::Queue(queue) => queue.close(),
        }
    }
}

impl<P: Pmem> Engine for AnyEngine<P> {
    ghost use Rattle.pb_engines.specs.AnyEngine.{view_of};

    ghost seen = { λ engine. view_of engine };

    fn kind(&self) -> Kind {
        match self {
            AnyEngine::Map(comb) => comb.kind(),
            AnyEngine::Stack(comb) => comb.kind(),
            AnyEngine::Heap(comb) => comb.kind(),
            AnyEngine::Queue(queue) => queue.kind(),
        }
    }

    fn clients(&self) -> u32 {
        match self {
            AnyEngine::Map(comb) => comb.clients(),
            AnyEngine::Stack(comb) => comb.clients(),
            AnyEngine::Heap(comb) => comb.clients(),
            AnyEngine::Queue(queue) => queue.clients(),
        }
    }

    fn rounds(&self) -> u64 {
        match self {
            AnyEngine::Map(comb) => comb.rounds(),
            AnyEngine::Stack(comb) => comb.rounds(),
            AnyEngine::Heap(comb) => comb.rounds(),
            AnyEngine::Queue(queue) => queue.rounds(),
        }
    }

    fn sure(&self) -> bool {
        match self {
            AnyEngine::Map(comb) => comb.sure(),
            AnyEngine::Stack(comb) => comb.sure(),
            AnyEngine::Heap(comb) => comb.sure(),
            AnyEngine::Queue(queue) => queue.sure(),
        }
    }

    fn kept_at(&self, client: u32, place: u32) -> Kept {
        match self {
            AnyEngine::Map(comb) => comb.kept_at(client, place),
            AnyEngine::Stack(comb) => comb.kept_at(client, place),
            AnyEngine::Heap(comb) => comb.kept_at(client, place),
            AnyEngine::Queue(queue) => queue.kept_at(client, place),
        }
    }

    fn faults(&self) -> u64 {
        match self {
            AnyEngine::Map(comb) => comb.faults(),
            AnyEngine::Stack(comb) => comb.faults(),
            AnyEngine::Heap(comb) => comb.faults(),
            AnyEngine::Queue(queue) => queue.faults(),
        }
    }

    fn round(&mut self, asks: &ArrayVec<Ask, 16>) -> Result<(), DeviceFault> {
        match self {
            AnyEngine::Map(comb) => comb.round(asks),
            AnyEngine::Stack(comb) => comb.round(asks),
            AnyEngine::Heap(comb) => comb.round(asks),
            AnyEngine::Queue(queue) => queue.round(asks),
        }
    }

    fn settle(&mut self) -> Result<bool, DeviceFault> {
        match self {
            AnyEngine::Map(comb) => comb.settle(),
            AnyEngine::Stack(comb) => comb.settle(),
            AnyEngine::Heap(comb) => comb.settle(),
            AnyEngine::Queue(queue) => queue.settle(),
        }
    }
}
