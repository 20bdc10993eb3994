//! A line of text, made in place: numbers, operations and replies as scripts and outcome lines spell them.
ghost use Rattle.std.specs.Prelude.{◌≡◌, ◌+◌, ◌≤◌, ◌++◌, codes, decimal};
ghost use Rattle.arrayvec.specs.ArrayString.{array_string_len};
ghost use Rattle.pb_object.specs.Text.{op_text, reply_text};

use arrayvec::ArrayString;
use itoa::Buffer;
use pb_object::{Action, Answer, Op, Reply};

/// The most bytes of a text that is made in place. The longest line is of a client's kept request, with 154.
pub const LINE: usize = 256;

/// A line, or a few lines.
pub type Text = ArrayString<LINE>;

/// Puts a number after the text.
pub fn push_number(text: &mut Text, number: u64)
    requires { array_string_len text.old + 20 ≤ LINE }
    ensures text { text.new.bytes ≡ text.old.bytes ++ decimal number }
    ensures len { array_string_len text.new ≤ array_string_len text.old + 20 }
{
    let mut buffer = Buffer::new();
    text.push_str(buffer.format(number));
}

/// Puts a space and a number after the text.
pub fn push_spaced(text: &mut Text, number: u64)
    requires { array_string_len text.old + 21 ≤ LINE }
    ensures text { text.new.bytes ≡ text.old.bytes ++ (codes " " ++ decimal number) }
    ensures len { array_string_len text.new ≤ array_string_len text.old + 21 }
{
    text.push_str(" ");
    push_number(text, number);
}

/// Puts an operation after the text, in its script form. Nothing is put of what has no operation's code.
pub fn push_op(text: &mut Text, op: &Op)
    requires { array_string_len text.old + 72 ≤ LINE }
    ensures text { text.new.bytes ≡ text.old.bytes ++ op_text op.now }
    ensures len { array_string_len text.new ≤ array_string_len text.old + 72 }
{
    let Some(action) = Action::from_code(op.code) else {
        return;
    };
    text.push_str(action.word());
    match action.argument_count() {
        0 => {}
        1 => push_spaced(text, op.a),
        2 => {
            push_spaced(text, op.a);
            push_spaced(text, op.b);
        }
        _ => {
            push_spaced(text, op.a);
            push_spaced(text, op.b);
            push_spaced(text, op.c);
        }
    }
}

/// Puts the reply to an operation after the text. Nothing is put where one of the two has no code.
pub fn push_reply(text: &mut Text, op: &Op, reply: &Reply)
    requires { array_string_len text.old + 47 ≤ LINE }
    ensures text { text.new.bytes ≡ text.old.bytes ++ reply_text op.now reply.now }
    ensures len { array_string_len text.new ≤ array_string_len text.old + 47 }
{
    let (Some(action), Some(answer)) = (Action::from_code(op.code), Answer::from_code(reply.code))
    else {
        return;
    };
    text.push_str(answer.word());
    match action.value_count(answer) {
        0 => {}
        1 => push_spaced(text, reply.value),
        _ => {
            push_spaced(text, reply.value);
            push_spaced(text, reply.extra);
        }
    }
}
