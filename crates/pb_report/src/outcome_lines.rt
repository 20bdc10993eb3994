//! The lines of outcomes.
ghost use Rattle.std.specs.Prelude.{◌≡◌, ◌+◌, ◌≤◌, ◌++◌, length, slice_index_or};
ghost use Rattle.arrayvec.specs.ArrayString.{array_string_len};
ghost use Rattle.pb_object.specs.Text.{reply_text};
ghost use Rattle.pb_report.specs.OutcomeText.{outcome_text, outcome_line};

use crate::line::{LINE, Text, push_number, push_reply};
use crate::outcome::Outcome;
use crate::output::Lines;
use pb_object::Ask;

/// The outcome line of a request.
pub fn outcome_line(ask: &Ask, outcome: &Outcome) -> Text
    ensures { result.bytes ≡ outcome_line ask.now outcome.now }
{
    let mut line = Text::new();
    push_number(&mut line, u64::from(ask.client));
    line.push_str(" ");
    push_number(&mut line, ask.number);
    line.push_str(" ");
    push_outcome(&mut line, ask, outcome);
    line.push_str("\n");
    line
}

fn push_outcome(line: &mut Text, ask: &Ask, outcome: &Outcome)
    requires { array_string_len line.old + 64 ≤ LINE }
    ensures text { line.new.bytes ≡ line.old.bytes ++ outcome_text ask.now.op outcome.now }
    ensures len { array_string_len line.new ≤ array_string_len line.old + 64 }
{
    match outcome {
        Outcome::New(reply) => {
            line.push_str("new ");
            push_reply(line, &ask.op, reply);
        }
        Outcome::Kept(reply) => {
            line.push_str("kept ");
            push_reply(line, &ask.op, reply);
        }
        Outcome::Old => line.push_str("old"),
        Outcome::Gap => line.push_str("gap"),
        Outcome::Changed => line.push_str("changed"),
        Outcome::Doubt => line.push_str("doubt"),
        Outcome::Left => line.push_str("left"),
    }
}

/// The outcome lines of requests, one for each.
#[derive(Clone, Copy)]
pub struct OutcomeLines<'a> {
    pub asks: &'a [Ask],
    pub outcomes: &'a [Outcome],
    ghost same_length: { length outcomes.now ≡ length asks.now },
}

impl Lines for OutcomeLines<'_> {
    ghost use Rattle.pb_report.specs.OutcomeText.{outcome_line_at};

    ghost line_count = { λ lines. length lines.asks.now };

    ghost line_at = { λ lines. outcome_line_at lines.asks.now lines.outcomes.now };

    fn count(&self) -> usize {
        self.asks.len()
    }

    fn line(&self, place: usize) -> Text {
        outcome_line(&self.asks[place], &self.outcomes[place])
    }
}
