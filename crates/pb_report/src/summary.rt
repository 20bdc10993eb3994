//! The summary of a drill.
ghost use Rattle.std.specs.Prelude.{◌≡◌, ◌≤◌, ◌+◌, ◌++◌, ◌==◌, codes, count_by, decimal, length, OnOk, OnErr};
ghost use Rattle.std.specs.List.{sum_by};
ghost use Rattle.std.specs.Io.KnownBytes.{Appends};
ghost use Rattle.arrayvec.specs.ArrayString.{array_string_len};
ghost use Rattle.pb_pmem.specs.Count.{HasCause};
ghost use Rattle.pb_object.specs.declared.codes.Answer.TheVariants.{Was};
ghost use Rattle.pb_object.specs.Codes.{answer_code};
ghost use Rattle.pb_io.specs.SinkBytes.{AppendsSome};
ghost use Rattle.pb_report.specs.SummaryText.{summary_text, summary_of, is_new, is_new_put, new_version};

use crate::line::{LINE, Text, push_number};
use crate::outcome::Outcome;
use crate::output::send;
use itoa::Buffer;
use pb_io::{Sink, SinkFault};
use pb_object::{Answer, Ask, Reply};

/// Writes the summary of a drill, given the sum of the versions of the object's registers at the end.
pub fn write_summary<K: Sink>(
    sink: &mut K,
    asks: &[Ask],
    outcomes: &[Outcome],
    versions: u64,
) -> Result<(), SinkFault>
    requires same_length { length outcomes.now ≡ length asks.now }
    requires most { length asks.now ≤ 32768 }
    ensures ok { OnOk result (Appends (K.bytes sink.old) (K.bytes sink.new) (summary_text asks.now outcomes.now versions)) }
    ensures err { OnErr result (AppendsSome (K.bytes sink.old) (K.bytes sink.new) (summary_text asks.now outcomes.now versions)) }
    ensures cause { HasCause (K.fault_count sink.old) (K.fault_count sink.new) result }
{
    let text = summary(asks.len(), outcomes, versions);
    send(sink, text.as_str().as_bytes())
}

// The summary of so many requests with these outcomes.
fn summary(requests: usize, outcomes: &[Outcome], versions: u64) -> Text
    requires { length outcomes.now ≤ 32768 }
    ensures { result.bytes ≡ summary_of requests outcomes.now versions }
{
    let mut text = Text::new();
    text.push_str("requests ");
    push_number(&mut text, requests as u64);
    text.push_str("\nnew ");
    push_number(&mut text, new_count(outcomes) as u64);
    text.push_str("\nputs ");
    push_number(&mut text, put_count(outcomes) as u64);
    text.push_str("\nversions ");
    push_number(&mut text, versions);
    text.push_str("\nsteps ");
    push_wide(&mut text, version_sum(outcomes));
    text.push_str("\n");
    text
}

fn push_wide(text: &mut Text, number: u128)
    requires { array_string_len text.old + 40 ≤ LINE }
    ensures text { text.new.bytes ≡ text.old.bytes ++ decimal number }
    ensures len { array_string_len text.new ≤ array_string_len text.old + 40 }
{
    let mut buffer = Buffer::new();
    text.push_str(buffer.format(number));
}

fn new_count(outcomes: &[Outcome]) -> usize
    ensures { result ≡ count_by is_new outcomes.now }
{
    outcomes.iter().filter(|outcome| is_new(outcome)).count()
}

fn is_new(outcome: &Outcome) -> bool
    ensures { result ≡ is_new outcome.now }
{
    matches!(outcome, Outcome::New(_))
}

fn put_count(outcomes: &[Outcome]) -> usize
    ensures { result ≡ count_by is_new_put outcomes.now }
{
    outcomes
        .iter()
        .filter(|outcome| is_new_put(outcome))
        .count()
}

fn is_new_put(outcome: &Outcome) -> bool
    ensures { result ≡ is_new_put outcome.now }
{
    match outcome {
        Outcome::New(reply) => is_put(reply),
        Outcome::Kept(_) => false,
        Outcome::Old => false,
        Outcome::Gap => false,
        Outcome::Changed => false,
        Outcome::Doubt => false,
        Outcome::Left => false,
    }
}

fn is_put(reply: &Reply) -> bool
    ensures { result ≡ (reply.now.code == answer_code Was) }
{
    reply.code == Answer::Was.code()
}

// The sum of the versions that new puts led to. It doesn't fit 64 bits where replies are as large as they can be.
fn version_sum(outcomes: &[Outcome]) -> u128
    requires { length outcomes.now ≤ 32768 }
    ensures { result ≡ sum_by new_version outcomes.now }
{
    let mut sum = 0;
    for outcome in outcomes {
        sum += u128::from(new_version(outcome));
    }
    sum
}

fn new_version(outcome: &Outcome) -> u64
    ensures { result ≡ new_version outcome.now }
{
    match outcome {
        Outcome::New(reply) => { if is_put(reply) { reply.extra } else { 0 } }
        Outcome::Kept(_) => 0,
        Outcome::Old => 0,
        Outcome::Gap => 0,
        Outcome::Changed => 0,
        Outcome::Doubt => 0,
        Outcome::Left => 0,
    }
}
