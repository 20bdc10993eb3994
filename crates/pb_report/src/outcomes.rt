//! Outcome lines.
ghost use Rattle.std.specs.Prelude.{◌≡◌, length, OnOk, OnErr};
ghost use Rattle.std.specs.Io.KnownBytes.{Appends};
ghost use Rattle.pb_pmem.specs.Count.{HasCause};
ghost use Rattle.pb_io.specs.SinkBytes.{AppendsSome};
ghost use Rattle.pb_report.specs.OutcomeText.{outcome_line, outcomes_text};

use crate::outcome::Outcome;
use crate::outcome_lines::{OutcomeLines, outcome_line};
use crate::output::{send, write_lines};
use pb_io::{Sink, SinkFault};
use pb_object::Ask;

/// Writes the outcome line of a request.
pub fn write_outcome<K: Sink>(sink: &mut K, ask: &Ask, outcome: &Outcome) -> Result<(), SinkFault>
    ensures ok { OnOk result (Appends (K.bytes sink.old) (K.bytes sink.new) (outcome_line ask.now outcome.now)) }
    ensures err { OnErr result (AppendsSome (K.bytes sink.old) (K.bytes sink.new) (outcome_line ask.now outcome.now)) }
    ensures cause { HasCause (K.fault_count sink.old) (K.fault_count sink.new) result }
{
    let line = outcome_line(ask, outcome);
    send(sink, line.as_str().as_bytes())
}

/// Writes the outcome lines of requests, in their order.
pub fn write_outcomes<K: Sink>(
    sink: &mut K,
    asks: &[Ask],
    outcomes: &[Outcome],
) -> Result<(), SinkFault>
    requires { length outcomes.now ≡ length asks.now }
    ensures ok { OnOk result (Appends (K.bytes sink.old) (K.bytes sink.new) (outcomes_text asks.now outcomes.now)) }
    ensures err { OnErr result (AppendsSome (K.bytes sink.old) (K.bytes sink.new) (outcomes_text asks.now outcomes.now)) }
    ensures cause { HasCause (K.fault_count sink.old) (K.fault_count sink.new) result }
{
    write_lines(sink, &OutcomeLines { asks, outcomes })
}
