//! The lines of answers.
ghost use Rattle.std.specs.Prelude.{◌≡◌, ◌≤◌, ◌++◌, codes, length};
ghost use Rattle.arrayvec.specs.ArrayString.{array_string_len};
ghost use Rattle.pb_events.specs.declared.event.Stepped.{Stepped};
ghost use Rattle.pb_replay.specs.AnswerText.{answer_line, ask_text, values_text};

use pb_events::Stepped;
use pb_object::{Ask, Reply};
use pb_report::{Lines, Text, push_number, push_reply, push_spaced};

/// A line for each answer that a client is given, in their order.
#[derive(Clone, Copy)]
pub struct AnswerLines<'a> {
    pub answers: &'a [Stepped],
}

impl Lines for AnswerLines<'_> {
    ghost use Rattle.std.specs.Prelude.{length};
    ghost use Rattle.pb_replay.specs.AnswerText.{answer_line_at};

    ghost line_count = { λ lines. length lines.answers.now };

    ghost line_at = { λ lines. answer_line_at lines.answers.now };

    fn count(&self) -> usize {
        self.answers.len()
    }

    fn line(&self, place: usize) -> Text {
        answer_line(&self.answers[place])
    }
}

fn answer_line(answer: &Stepped) -> Text
    ensures { result.bytes ≡ answer_line answer.now }
{
    match *answer {
        Stepped::Went => Text::new(),
        Stepped::Done { ask, reply } => done_line(&ask, &reply),
        Stepped::Busy { ask, from, to } => values_line(&ask, "busy", from, to),
        Stepped::Fault { ask, from, to } => values_line(&ask, "fault", from, to),
        Stepped::Impossible => Text::new(),
    }
}

fn done_line(ask: &Ask, reply: &Reply) -> Text
    ensures { result.bytes ≡ answer_line (Stepped.Done ask.now reply.now) }
{
    let mut line = ask_text(ask);
    line.push_str("done ");
    push_reply(&mut line, &ask.op, reply);
    line.push_str("\n");
    line
}

fn values_line(ask: &Ask, word: &str, from: u64, to: u64) -> Text
    requires { length word.now ≤ 8 }
    ensures { result.bytes ≡ ask_text ask.now ++ (values_text word.now from to ++ codes "\n") }
{
    let mut line = ask_text(ask);
    line.push_str(word);
    push_spaced(&mut line, from);
    push_spaced(&mut line, to);
    line.push_str("\n");
    line
}

// Whose request it is, and its number.
fn ask_text(ask: &Ask) -> Text
    ensures text { result.bytes ≡ ask_text ask.now }
    ensures len { array_string_len result ≤ 42 }
{
    let mut line = Text::new();
    push_number(&mut line, u64::from(ask.client));
    push_spaced(&mut line, ask.number);
    line.push_str(" ");
    line
}
