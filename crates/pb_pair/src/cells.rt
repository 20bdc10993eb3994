//! The cells of a queue.
ghost use Rattle.std.specs.Prelude.{◌≡◌, IfOk, OnOk, OnErr, IfSome};
ghost use Rattle.pb_pmem.specs.Device.{Fails, IsNoOp, Reads};
ghost use Rattle.pb_pmem.specs.Operations.{IsFailedPrefix, Does, Stops};
ghost use Rattle.pb_object.specs.declared.kind.Kind.TheVariants.{Queue};
ghost use Rattle.pb_layout.specs.Shape.{IsHeader};
ghost use Rattle.pb_layout.specs.Region.{cell_place};
ghost use Rattle.pb_layout.specs.PutCell.{put_ops};

use pb_layout::{Header, cell, cell_line};
use pb_pmem::{Line, LogOp, Pmem, PmemFault, make_all};

/// Reads the cell of a position.
pub fn read<P: Pmem>(device: &mut P, head: &Header, position: u64) -> Result<Line, PmemFault>
    requires header { IsHeader head.now }
    requires queue { head.now.kind ≡ Queue }
    ensures ok { IfOk result (λ line. Reads (cell_place head.now position) line (P.seen device.old) (P.seen device.new)) }
    ensures err { OnErr result (Fails IsNoOp (P.seen device.old) (P.seen device.new)) }
{
    let mut line = Line::default();
    device.read(cell_line(head, position), &mut line)?;
    Ok(line)
}

/// Writes the cell of a position, and gives it to the device.
pub fn put<P: Pmem>(
    device: &mut P,
    head: &Header,
    position: u64,
    value: u64,
) -> Result<(), PmemFault>
    requires header { IsHeader head.now }
    requires queue { head.now.kind ≡ Queue }
    ensures ok { OnOk result (Does (put_ops head.now position value) (P.seen device.old) (P.seen device.new)) }
    ensures err { OnErr result
        (Stops (IsFailedPrefix (put_ops head.now position value)) (P.seen device.old) (P.seen device.new)) }
{
    let line = cell_line(head, position);
    let to = cell(position, value);
    make_all(
        device,
        &[
            LogOp::Whole { line, to },
            LogOp::Back {
                first: line,
                count: 1,
            },
        ],
    )
}
