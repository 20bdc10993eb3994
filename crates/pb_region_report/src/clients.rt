//! The lines of clients.
ghost use Rattle.std.specs.Prelude.{◌≡◌, ◌+◌, ◌<◌, ◌≤◌, ◌^◌, ◌++◌, codes};
ghost use Rattle.arrayvec.specs.ArrayString.{array_string_len};
ghost use Rattle.pb_report.specs.declared.line.TheConstants.{LINE};
ghost use Rattle.pb_region_report.specs.ReportText.{client_line, kept_text};

use pb_engine::Engine;
use pb_object::Kept;
use pb_report::{Lines, Text, push_number, push_op, push_reply};

/// A line for each client of an engine, rising.
#[derive(Drop)]
pub struct ClientLines<'a, E: Engine> {
    pub engine: &'a E,
    pub clients: u32,
    ghost all: { clients ≡ (E.seen engine.now).standing.clients },
    ghost few: { clients < 2 ^ 32 },
}

impl<E: Engine> Lines for ClientLines<'_, E> {
    ghost use Rattle.pb_object.specs.Standing.{newest_of};

    ghost line_count = { λ lines. (E.seen lines.engine.now).standing.clients };

    ghost line_at = { λ lines client. client_line client (newest_of (E.seen lines.engine.now).standing client) };

    fn count(&self) -> usize {
        self.clients as usize
    }

    fn line(&self, place: usize) -> Text {
        let client = place as u32;
        client_line(client, &self.engine.kept(client))
    }
}

fn client_line(client: u32, kept: &Kept) -> Text
    ensures { result.bytes ≡ client_line client kept.now }
{
    let mut text = Text::new();
    text.push_str("client ");
    push_number(&mut text, u64::from(client));
    text.push_str(" ");
    if kept.number == 0 {
        text.push_str("none");
    } else {
        push_kept(&mut text, kept);
    }
    text.push_str("\n");
    text
}

fn push_kept(text: &mut Text, kept: &Kept)
    requires { array_string_len text.old + 141 ≤ LINE }
    ensures text { text.new.bytes ≡ text.old.bytes ++ kept_text kept.now }
    ensures len { array_string_len text.new ≤ array_string_len text.old + 141 }
{
    push_number(text, kept.number);
    text.push_str(" ");
    push_op(text, &kept.op);
    text.push_str(" ");
    push_reply(text, &kept.op, &kept.reply);
}
