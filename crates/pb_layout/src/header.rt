//! The header of a region: line 0, written, read and refused.
ghost use Rattle.std.specs.Prelude.{◌≡◌, IfOk, IfErr};
ghost use Rattle.pb_layout.specs.Header.{header_line_of, IsHeaderFault};
ghost use Rattle.pb_layout.specs.Shape.{IsHeader};

use crate::fault::LayoutFault;
use crate::region::{old_first_record, old_record_len};
use pb_object::{Kind, MOST_CLIENTS, MOST_SIZE};
use pb_pmem::Line;
use std::marker::Model;

/// The first word of a region. As bytes, the lowest first, it is the ASCII text `PBCOMB01`.
pub const MAGIC: u64 = 0x3130_424D_4F43_4250;

/// The version of the format.
pub const VERSION: u64 = 2;

/// What a region holds: the kind of its object, how many clients have slots in it, and the object's size.
///
/// Each header has 1 to [`MOST_CLIENTS`] clients and a size of 1 to [`MOST_SIZE`]: a contract sees it as a `Shape`
/// that `IsHeader` holds of.
#[derive(Clone, Copy, Debug, PartialEq, Eq)]
pub struct Header {
    pub kind: Kind,
    pub clients: u32,
    pub size: u32,
}

impl Model for Header {
    ghost use Rattle.pb_layout.specs.Shape.{Shape, IsHeader};

    ghost Value = { Shape };

    ghost view = { λ h. record { kind = h.kind; clients = h.clients; size = h.size } };

    ghost invariant = { λ h. IsHeader (record { kind = h.kind; clients = h.clients; size = h.size }) };

    ghost inverse = { λ s. record { kind = s.kind; clients = s.clients; size = s.size } };
}

/// Line 0 of a region with this header.
pub fn header_line(head: &Header) -> Line
    ensures line { result ≡ header_line_of head.now }
    ensures valid { IsHeader head.now }
{
    Line {
        words: [
            MAGIC,
            VERSION,
            head.kind.code(),
            u64::from(head.clients),
            u64::from(head.size),
            u64::from(old_record_len(head)),
            u64::from(old_first_record(head)),
            0,
        ],
    }
}

/// The header that line 0 of a region spells.
///
/// `NoMagic` comes exactly where the first word isn't the magic, and `BadHeader` with the first word that the format refuses.
pub fn header_of(line: &Line) -> Result<Header, LayoutFault>
    ensures ok { IfOk result (λ head. IsHeader head × (line.now ≡ header_line_of head)) }
    ensures refused { IfErr result (IsHeaderFault line.now) }
{
    let words = &line.words;
    if words[0] != MAGIC {
        return Err(LayoutFault::NoMagic);
    }
    if words[1] != VERSION {
        return Err(LayoutFault::BadHeader { word: 1 });
    }
    let Some(kind) = Kind::from_code(words[2]) else {
        return Err(LayoutFault::BadHeader { word: 2 });
    };
    if words[3] < 1 || words[3] > u64::from(MOST_CLIENTS) {
        return Err(LayoutFault::BadHeader { word: 3 });
    }
    if words[4] < 1 || words[4] > u64::from(MOST_SIZE) {
        return Err(LayoutFault::BadHeader { word: 4 });
    }
    let head = Header {
        kind,
        clients: words[3] as u32,
        size: words[4] as u32,
    };
    if words[5] != u64::from(old_record_len(&head)) {
        return Err(LayoutFault::BadHeader { word: 5 });
    }
    if words[6] != u64::from(old_first_record(&head)) {
        return Err(LayoutFault::BadHeader { word: 6 });
    }
    if words[7] != 0 {
        return Err(LayoutFault::BadHeader { word: 7 });
    }
    Ok(head)
}
