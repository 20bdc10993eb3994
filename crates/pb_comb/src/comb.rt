//! The engine of an object with one side.
ghost use Rattle.std.specs.Prelude.{◌≡◌, ◌+◌, ◌%◌, ◌<◌, length, drop};
ghost use Rattle.pb_object.specs.declared.limits.TheConstants.{MOST_CLIENTS, MOST_SIZE};
ghost use Rattle.pb_object.specs.ObjectLines.{object_line_count};
ghost use Rattle.pb_object.specs.Standing.{side_count};
ghost use Rattle.pb_layout.specs.Header.{record_length, slot_count};
ghost use Rattle.pb_layout.specs.Region.{record_place};

use crate::memory::Memory;
use crate::serve::{agree, catch_up, serve};
use arrayvec::ArrayVec;
use pb_engine::{Engine, NextRecord};
use pb_layout::{Header, kept_in_slot, record_len, record_line};
use pb_object::{Ask, KEPT_REQUESTS, Kept, Kind, Object};
use pb_pair::{Pair, Refused, Why};
use pb_pmem::{DeviceFault, Line, Pmem};
use std::alloc::Global;
use std::marker::Model;

/// An engine of one object with one side, over the device that holds its region.
///
/// A contract sees it as an `EngineView`. A round is applied to a second copy of the object, which the other one follows once the round is
/// stored. No call but `fresh` and `adopt` takes memory.
#[derive(Drop)]
pub struct Comb<O: Object, P: Pmem> {
    pair: Pair<P>,
    // The object as it is known for sure, and a copy that is ahead by the requests of a round that failed.
    object: O,
    ahead: O,
    // The lines of the record in use, where the engine is sure: the next round changes them in place.
    next: NextRecord,
    // The requests of the round that failed.
    asked: ArrayVec<Ask, 16>,
}

impl<O: Object, P: Pmem> Model for Comb<O, P> {
    ghost use Rattle.pb_engine.specs.View.{EngineView};
    ghost use Rattle.pb_comb.specs.View.{comb_view, IsComb};

    ghost Value = { EngineView };

    ghost view = { λ c. comb_view c.pair (O.state c.object) c.asked.items };

    ghost invariant = { λ c. IsComb O.KIND c.pair (O.state c.object) (O.state c.ahead) c.next c.asked.items };
}

impl<O: Object, P: Pmem> Comb<O, P> {
    ghost use Rattle.std.specs.Prelude.{◌≡◌, ◌≤◌, IfOk, IfErr};
    ghost use Rattle.pb_layout.specs.declared.header.Header.{Header};
    ghost use Rattle.pb_layout.specs.Represents.{header_for};
    ghost use Rattle.pb_pair.specs.Open.{IsOpened};
    ghost use Rattle.pb_engine.specs.Opening.{IsFreshEngine, IsFreshRefusal, IsAdopted, IsUnreadRefusal};

    /// Makes a region on a device that has none, in which nothing was asked yet. The engine is sure.
    ///
    /// Memory is taken before the device is written to: `Memory` leaves the device as it was. `Taken` comes only where the device has a
    /// region, and leaves it as it was. `Device` comes only where a call of the device failed: there is no region still, or the whole
    /// empty one.
    pub fn fresh(
        alloc: Global,
        device: P,
        clients: u32,
        size: u32,
    ) -> Result<Comb<O, P>, Refused<P>>
        requires some_clients { 1 ≤ clients }
        requires few_clients { clients ≤ MOST_CLIENTS }
        requires some_size { 1 ≤ size }
        requires small_size { size ≤ MOST_SIZE }
        ensures ok { let head : Header = record { kind = O.KIND; clients = clients; size = size } in
            IfOk result (IsFreshEngine head (P.seen device)) }
        ensures err { let head : Header = record { kind = O.KIND; clients = clients; size = size } in
            IfErr result (λ refused. IsFreshRefusal head (P.seen device) (P.seen refused.device) refused.why) }
    {
        let head = Header {
            kind: O::KIND,
            clients,
            size,
        };
        let Ok(mut memory) = Memory::<O>::fresh(alloc, &head) else {
            return Err(Refused {
                device,
                why: Why::Memory,
            });
        };
        memory.next.put_object(&memory.object);
        match Pair::format(alloc, device, &head, memory.next.lines(), &[]) {
            Ok(pair) => Ok(Comb {
                pair,
                object: memory.object,
                ahead: memory.ahead,
                next: memory.next,
                asked: ArrayVec::new(),
            }),
            Err(refused) => Err(refused),
        }
    }

    /// The engine of a region that was just opened, whose kind is this object's. It writes nothing, and isn't sure until it is settled.
    ///
    /// `Damaged` names the first of the object's lines that the format refuses, and an Ok comes where it refuses none. `Memory` comes
    /// where memory ran out. Each refusal leaves the device as it was.
    pub fn adopt(alloc: Global, pair: Pair<P>) -> Result<Comb<O, P>, Refused<P>>
        requires opened { IsOpened pair.device pair }
        requires kind { pair.head.kind ≡ O.KIND }
        ensures ok { IfOk result (IsAdopted pair.device) }
        ensures header { IfOk result (λ comb. header_for comb.standing ≡ pair.head) }
        ensures err { IfErr result (λ refused. IsUnreadRefusal pair.device (P.seen refused.device) refused.why) }
    {
        let head = pair.header();
        let Ok(mut memory) = Memory::<O>::fresh(alloc, &head) else {
            return Err(Refused {
                device: pair.close(),
                why: Why::Memory,
            });
        };
        match memory
            .object
            .take_lines(object_lines(&head, pair.lines_of(0)))
        {
            Ok(()) => {
                memory.ahead.copy_from(&memory.object);
                Ok(Comb {
                    pair,
                    object: memory.object,
                    ahead: memory.ahead,
                    next: memory.next,
                    asked: ArrayVec::new(),
                })
            }
            Err(refused) => {
                let line = object_line_at(&head, pair.round(0), refused.line);
                Err(Refused {
                    device: pair.close(),
                    why: Why::Damaged { line },
                })
            }
        }
    }

    /// The object as the engine last knew it for sure.
    pub fn object(&self) -> &O
        ensures { O.state result.now ≡ self.now.standing.state }
    {
        &self.object
    }

    /// The header of the region.
    pub fn header(&self) -> Header
        ensures { result ≡ header_for self.now.standing }
    {
        self.pair.header()
    }

    /// Hands the device back.
    pub fn close(self) -> P
        ensures { P.seen result ≡ self.device }
    {
        self.pair.close()
    }
}

// The object's lines of a record, which are the last ones.
fn object_lines<'a>(head: &Header, lines: &'a [Line]) -> &'a [Line]
    requires { length lines.now ≡ record_length head.now }
    ensures { result.now ≡ drop (1 + slot_count head.now) lines.now }
{
    lines
        .split_at((1 + KEPT_REQUESTS * head.clients) as usize)
        .1
}

// Where a line of the object's stands on the device, in the record that is in use after so many rounds.
fn object_line_at(head: &Header, round: u64, place: u32) -> u32
    requires side { 0 < side_count head.now.kind }
    requires place { place < object_line_count head.now.kind head.now.size }
    ensures { result ≡ record_place head.now 0 (round % 2) + 1 + slot_count head.now + place }
{
    let slots = KEPT_REQUESTS * head.clients;
    record_line(head, 0, (round % 2) as u32) + 1 + slots + place
}

impl<O: Object, P: Pmem> Engine for Comb<O, P> {
    ghost use Rattle.std.specs.Prelude.{◌≡◌};
    ghost use Rattle.pb_engine.specs.View.{IsEngine};

    ghost seen = { λ comb. comb };

    fn kind(&self) -> Kind
        ensures standing { result ≡ self.now.standing.kind }
        ensures object { result ≡ O.KIND }
    {
        self.pair.header().kind
    }

    fn clients(&self) -> u32
        ensures count { result ≡ self.now.standing.clients }
        ensures sound { IsEngine self.now.standing.kind self.now }
        ensures own { IsEngine O.KIND self.now }
    {
        self.pair.header().clients
    }

    fn rounds(&self) -> u64 {
        self.pair.round(0)
    }

    fn sure(&self) -> bool {
        self.pair.sure()
    }

    fn kept_at(&self, client: u32, place: u32) -> Kept {
        kept_in_slot(self.pair.lines_of(0), client, place)
    }

    fn faults(&self) -> u64 {
        self.pair.faults()
    }

    fn round(&mut self, asks: &ArrayVec<Ask, 16>) -> Result<(), DeviceFault> {
        let round = self.pair.round(0) + 1;
        self.next.carry(round);
        serve(
            asks.as_slice(),
            self.pair.lines_of(0),
            &mut self.ahead,
            &mut self.next,
        );
        self.next.put_changes(asks.as_slice(), &self.ahead);
        match self.pair.store(0, self.next.lines()) {
            Ok(()) => {
                catch_up(asks.as_slice(), &mut self.object);
                Ok(())
            }
            Err(fault) => {
                self.asked.clear();
                let _ = self.asked.try_extend_from_slice(asks.as_slice());
                Err(fault)
            }
        }
    }

    fn settle(&mut self) -> Result<bool, DeviceFault> {
        let recorded = self.pair.settle()?;
        agree(recorded, &mut self.object, &mut self.ahead);
        self.next.follow(self.pair.lines_of(0));
        self.asked.clear();
        Ok(recorded)
    }
}
