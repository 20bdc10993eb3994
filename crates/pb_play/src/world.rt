ghost use Rattle.std.specs.Prelude.{◌≡◌, ◌+◌, ◌-◌, ◌<◌, ◌≤◌, ◌∷◌, length, replicate, IfOk};
ghost use Rattle.pb_pmem.specs.declared.line.TheConstants.{LINES};
ghost use Rattle.pb_pmem.specs.Lines.{zero_line};
ghost use Rattle.pb_layout.specs.Header.{header_line_of};

use crate::calls::Calls;
use crate::device::Device;
use crate::memory::Memory;
use pb_crash::filled;
use pb_layout::{Header, header_line, record_len};
use pb_object::Kind;
use pb_pmem::{LINES, Line};
use pb_round_play::Items;
use std::alloc::{AllocError, Global};

/// The core: the words of a shared object, where each of its clients stands, the device with the calls that are being made, and what is
/// known of it.
#[derive(Drop)]
pub struct World {
    pub head: Header,
    pub memory: Memory,
    pub calls: Calls,
    pub device: Device,
    // Memory for the next record, and for the object that makes it.
    pub next: Vec<Line>,
    pub items: Items,
}

impl World {
    ghost use Rattle.pb_pmem.specs.Contents.{contents};
    ghost use Rattle.pb_pmem.specs.Lines.{line_at};
    ghost use Rattle.pb_core.specs.World.{World as CoreWorld};
    ghost use Rattle.pb_play.specs.Shape.{IsDevice};
    ghost use Rattle.pb_play.specs.Worlds.{IsShaped, IsBegun, ShowsWorld};

    /// A world over a region that was just formatted, in which nothing was asked yet. It has room for `room` events.
    pub fn fresh(
        alloc: Global,
        kind: Kind,
        clients: u32,
        size: u32,
        room: u32,
    ) -> Result<World, AllocError>
        requires some_clients { 1 ≤ clients }
        requires few_clients { clients ≤ 16 }
        requires some_size { 1 ≤ size }
        requires small_size { size ≤ 1024 }
        ensures shaped { IfOk result IsShaped }
        ensures room { IfOk result (λ world. world.device.room ≡ room) }
        ensures begun { IfOk result (IsBegun (record { kind = kind; clients = clients; size = size })) }
    {
        let head = Header {
            kind,
            clients,
            size,
        };
        let length = record_len(&head);
        Ok(World {
            head,
            memory: Memory::fresh(head),
            calls: Calls::fresh(alloc, length)?,
            device: Device::fresh(alloc, formatted(alloc, &head)?, room)?,
            next: vec![in alloc; filled(0); length as usize]?,
            items: Items::fresh(alloc, kind, size)?,
        })
    }

    /// For how many more events there is room.
    pub fn spare(&self) -> u32
        requires { IsDevice self.now.device }
        ensures { result + length self.now.device.log.items ≡ self.now.device.room }
    {
        self.device.room - self.device.log.len() as u32
    }

    /// A line of the device as it is now.
    pub fn line(&self, line: u32) -> Line
        requires device { IsDevice self.now.device }
        requires line { line < LINES }
        ensures { (w : CoreWorld) → ShowsWorld self.now w → result ≡ line_at (contents w.tale.base w.tale.log) line }
    {
        self.device.lines[line as usize]
    }
}

// What formatting a device of zeros leaves.
fn formatted(alloc: Global, head: &Header) -> Result<Vec<Line>, AllocError>
    ensures { IfOk result (λ lines. lines.items ≡ header_line_of head.now ∷ replicate (LINES - 1) zero_line) }
{
    let mut lines = vec![in alloc; filled(0); LINES as usize]?;
    lines[0] = header_line(head);
    Ok(lines)
}
