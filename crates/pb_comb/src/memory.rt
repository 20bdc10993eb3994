//! The memory that an engine takes before it begins.
ghost use Rattle.std.specs.Prelude.{◌≡◌, replicate, IfOk};
ghost use Rattle.pb_pmem.specs.Lines.{zero_line};
ghost use Rattle.pb_object.specs.Object.{start_state};
ghost use Rattle.pb_layout.specs.Header.{record_length};

use pb_engine::NextRecord;
use pb_layout::{Header, record_len};
use pb_object::Object;
use std::alloc::{AllocError, Global};

/// What an engine takes in memory beside its pair: two copies of the object, and the lines of a record.
#[derive(Drop)]
pub struct Memory<O: Object> {
    pub object: O,
    pub ahead: O,
    pub next: NextRecord,
}

impl<O: Object> Memory<O> {
    /// Empty objects of the header's size, and as many lines of zeros as a record has.
    pub fn fresh(alloc: Global, head: &Header) -> Result<Memory<O>, AllocError>
        ensures object { IfOk result (λ memory. O.state memory.object ≡ start_state O.KIND head.now.size) }
        ensures ahead { IfOk result (λ memory. O.state memory.ahead ≡ start_state O.KIND head.now.size) }
        ensures next { IfOk result (λ memory. memory.next ≡ replicate (record_length head.now) zero_line) }
    {
        let object = O::fresh(alloc, head.size)?;
        let ahead = O::fresh(alloc, head.size)?;
        let next = NextRecord::fresh(alloc, record_len(head))?;
        Ok(Memory {
            object,
            ahead,
            next,
        })
    }
}
