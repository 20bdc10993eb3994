//! The operations of settling.
ghost use Rattle.std.specs.Prelude.{◌≡◌, ◌+◌, ◌<◌, OnOk, OnErr};
ghost use Rattle.pb_pmem.specs.Operations.{IsFailedPrefix, Does, Stops};
ghost use Rattle.pb_layout.specs.RegionOps.{settle_ops};
ghost use Rattle.pb_pair.specs.Settle.{called_in, called_on};

use crate::known::Doubt;
use pb_layout::{Header, MAGIC};
use pb_pmem::{LogOp, Pmem, PmemFault, make_all};

/// Writes the magic and the round numbers of the sides, and makes them durable.
pub fn settle_rounds<P: Pmem>(
    device: &mut P,
    head: &Header,
    first: u64,
    second: u64,
) -> Result<(), PmemFault>
    ensures ok { OnOk result (Does (settle_ops head.now first second) (P.seen device.old) (P.seen device.new)) }
    ensures err { OnErr result
        (Stops (IsFailedPrefix (settle_ops head.now first second)) (P.seen device.old) (P.seen device.new)) }
{
    let magic = LogOp::Word {
        line: 0,
        word: 0,
        to: MAGIC,
    };
    let back = LogOp::Back { first: 0, count: 3 };
    if head.kind.sides() == 2 {
        make_all(
            device,
            &[
                magic,
                index_word(0, first),
                index_word(1, second),
                back,
                LogOp::Sync,
            ],
        )
    } else {
        make_all(device, &[magic, index_word(0, first), back, LogOp::Sync])
    }
}

fn index_word(side: u32, to: u64) -> LogOp
    requires { side < 2 }
    ensures { result ≡ LogOp.Word (1 + side) 0 to }
{
    LogOp::Word {
        line: 1 + side,
        word: 0,
        to,
    }
}

/// Whether the store that failed had called its index word.
pub fn is_called(doubt: Option<Doubt>) -> bool
    ensures { result ≡ called_in doubt }
{
    match doubt {
        Some(doubt) => doubt.called,
        None => false,
    }
}

/// Whether it had called the index word of this side.
pub fn is_called_on(doubt: Option<Doubt>, side: u32) -> bool
    ensures { result ≡ called_on doubt side }
{
    match doubt {
        Some(doubt) => doubt.called && doubt.side == side,
        None => false,
    }
}
