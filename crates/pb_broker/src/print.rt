//! Printing what a call came to, and its status.
ghost use Rattle.std.specs.Prelude.{◌≡◌, ◌⊎◌, ◌≤◌, [], ◌∷◌, length, MatchResult};
ghost use Rattle.std.specs.Io.KnownBytes.{Keeps};
ghost use Rattle.std.specs.List.{list_any};
ghost use Rattle.pb_pmem.specs.Count.{Rose};
ghost use Rattle.pb_report.specs.OutcomeText.{outcomes_text};
ghost use Rattle.pb_report.specs.Pieces.{numbered};
ghost use Rattle.pb_report.specs.SummaryText.{summary_text};
ghost use Rattle.pb_run.specs.Run.{is_doubt};
ghost use Rattle.pb_broker.specs.declared.status.Status.TheVariants.{WriteFault};
ghost use Rattle.pb_broker.specs.Call.{IsSaid};
ghost use Rattle.pb_broker.specs.Texts.{stop_text, stop_status, run_status, is_misnumbered};
ghost use Rattle.pb_broker.specs.Stream.{stream};

use crate::requests::Requests;
use crate::status::Status;
use crate::stop::Stop;
use arrayvec::ArrayString;
use itoa::Buffer;
use pb_io::{Sink, SinkFault};
use pb_report::{Outcome, send, write_outcomes, write_summary};

/// Prints the outcomes of a run, or why there was none.
pub fn print<K: Sink>(sink: &mut K, served: &Result<Requests, Stop>) -> Status
    ensures { let out = stream (K.bytes sink.old) (K.bytes sink.new) (K.fault_count sink.old) (K.fault_count sink.new) in
        MatchResult served.now
        (λ requests. IsSaid out (outcomes_text requests.asks.items requests.outcomes.items) (run_status requests.outcomes.items) result)
        (λ stop. IsSaid out (stop_text stop) (stop_status stop) result) }
{
    match served {
        Ok(requests) => {
            let written = write_outcomes(sink, &requests.asks, &requests.outcomes);
            status_of(sink, written, run_status(&requests.outcomes))
        }
        Err(stop) => print_stop(sink, stop),
    }
}

/// Prints the summary of a drill, with the sum of the versions at its end.
pub fn print_summary<K: Sink>(sink: &mut K, requests: &Requests, versions: u64) -> Status
    requires { length requests.now.asks.items ≤ 32768 }
    ensures { let out = stream (K.bytes sink.old) (K.bytes sink.new) (K.fault_count sink.old) (K.fault_count sink.new) in
        IsSaid out (summary_text requests.now.asks.items requests.now.outcomes.items versions) (run_status requests.now.outcomes.items) result }
{
    let written = write_summary(sink, &requests.asks, &requests.outcomes, versions);
    status_of(sink, written, run_status(&requests.outcomes))
}

/// Prints why a call stopped.
pub fn print_stop<K: Sink>(sink: &mut K, stop: &Stop) -> Status
    ensures { let out = stream (K.bytes sink.old) (K.bytes sink.new) (K.fault_count sink.old) (K.fault_count sink.new) in
        IsSaid out (stop_text stop.now) (stop_status stop.now) result }
{
    let text = stop_text(stop);
    let written = send(sink, text.as_str().as_bytes());
    status_of(sink, written, stop_status(stop))
}

/// The status after a text: the one that goes with it, where all of it left.
pub fn status_of<K: Sink>(sink: &mut K, written: Result<(), SinkFault>, whole: Status) -> Status
    ensures bytes { Keeps (K.bytes sink.old) (K.bytes sink.new) }
    ensures status { MatchResult written
        (λ _. ((result ≡ whole) × (K.fault_count sink.new ≡ K.fault_count sink.old))
        ⊎ ((result ≡ WriteFault) × Rose (K.fault_count sink.old) (K.fault_count sink.new)))
        (λ _. (result ≡ WriteFault) × (K.fault_count sink.new ≡ K.fault_count sink.old)) }
{
    if written.is_ok() && sink.flush().is_ok() {
        whole
    } else {
        Status::WriteFault
    }
}

fn run_status(outcomes: &[Outcome]) -> Status
    ensures { result ≡ run_status outcomes.now }
{
    if has_doubt(outcomes) {
        return Status::DeviceFault;
    }
    if has_misnumbered(outcomes) {
        return Status::Misnumbered;
    }
    Status::Done
}

fn has_doubt(outcomes: &[Outcome]) -> bool
    ensures { result ≡ list_any is_doubt outcomes.now }
{
    outcomes.iter().any(|outcome| is_doubt(outcome))
}

fn has_misnumbered(outcomes: &[Outcome]) -> bool
    ensures { result ≡ list_any is_misnumbered outcomes.now }
{
    outcomes.iter().any(|outcome| is_misnumbered(outcome))
}

fn is_doubt(outcome: &Outcome) -> bool
    ensures { result ≡ is_doubt outcome.now }
{
    matches!(outcome, Outcome::Doubt)
}

fn is_misnumbered(outcome: &Outcome) -> bool
    ensures { result ≡ is_misnumbered outcome.now }
{
    matches!(outcome, Outcome::Gap | Outcome::Changed)
}

fn stop_status(stop: &Stop) -> Status
    ensures { result ≡ stop_status stop.now }
{
    match stop {
        Stop::Memory => Status::OutOfMemory,
        Stop::Usage => Status::Usage,
        Stop::ReadFault => Status::ReadFault,
        Stop::Long => Status::Refused,
        Stop::Many => Status::Refused,
        Stop::Line(_) => Status::Refused,
        Stop::DeviceFault => Status::DeviceFault,
        Stop::Taken => Status::Unusable,
        Stop::NoRegion => Status::Unusable,
        Stop::Damaged(_) => Status::Unusable,
    }
}

/// A line of a word, and of a number where one belongs to it.
type Text = ArrayString<32>;

fn stop_text(stop: &Stop) -> Text
    ensures { result.bytes ≡ stop_text stop.now }
{
    match stop {
        Stop::Memory => Text::new(),
        Stop::Usage => line("usage\n"),
        Stop::ReadFault => line("read fault\n"),
        Stop::Long => line("long\n"),
        Stop::Many => line("many\n"),
        Stop::Line(number) => numbered("line", *number),
        Stop::DeviceFault => line("device fault\n"),
        Stop::Taken => line("taken\n"),
        Stop::NoRegion => line("none\n"),
        Stop::Damaged(place) => numbered("damaged", *place),
    }
}

fn line(word: &str) -> Text
    requires { length word.now ≤ 16 }
    ensures { result.bytes ≡ word.now }
{
    let mut text = Text::new();
    text.push_str(word);
    text
}

fn numbered(word: &str, number: u32) -> Text
    requires { length word.now ≤ 16 }
    ensures { result.bytes ≡ numbered word.now (number ∷ []) }
{
    let mut text = line(word);
    let mut digits = Buffer::new();
    text.push_str(" ");
    text.push_str(digits.format(number));
    text.push_str("\n");
    text
}
