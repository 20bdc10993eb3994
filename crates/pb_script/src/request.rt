//! How the fields of a line ask for an operation.
ghost use Rattle.std.specs.Prelude.{◌≡◌, ◌+◌, ◌<◌, ◌≤◌, IfSome};
ghost use Rattle.std.specs.Option.{option_map};
ghost use Rattle.pb_script.specs.Request.{number_within, op_of, request_of};
ghost use Rattle.pb_script.specs.Readers.{first_number, AreArguments};
ghost use Rattle.pb_script.specs.Words.{words};

use crate::words::cut_word;
use pb_object::{Action, Ask, Kind, LAST_NUMBER, Op, parse_number};

/// The number that a word writes, if it is at least `low` and below `high`.
#[tactic(auto, unfolding(crate::specs::Request::number_within))]
pub fn number_within(word: &[u8], low: u64, high: u64) -> Option<u64>
    ensures value { result ≡ number_within low high word.now }
    ensures within { IfSome result (λ number. (low ≤ number) × (number < high)) }
{
    let number = parse_number(word)?;
    (low <= number && number < high).then_some(number)
}

/// The request that a text's words ask for, if they ask for one: a client below `clients`, its number and an operation of the kind.
pub fn read_request(text: &[u8], kind: Kind, clients: u32) -> Option<Ask>
    ensures value { result ≡ request_of kind clients (words text.now) }
    ensures within { IfSome result (λ ask. (ask.client < clients) × (1 ≤ ask.number)) }
{
    let (client, text) = next_number(text, 0, u64::from(clients))?;
    let (number, text) = next_number(text, 1, LAST_NUMBER + 1)?;
    let op = read_op(text, kind)?;
    Some(Ask {
        client: client as u32,
        number,
        op,
    })
}

/// The number that a text's first word writes, if it is at least `low` and below `high`, and what stands after it.
#[tactic(auto, unfolding(crate::specs::Readers::first_number))]
pub fn next_number(text: &[u8], low: u64, high: u64) -> Option<(u64, &[u8])>
    ensures value { option_map (λ read. (read.0, words read.1.now)) result ≡ first_number low high (words text.now) }
    ensures within { IfSome result (λ read. (low ≤ read.0) × (read.0 < high)) }
{
    let (word, rest) = cut_word(text)?;
    let number = number_within(word, low, high)?;
    Some((number, rest))
}

/// The operation of the kind that a text's words spell, if they spell one.
#[tactic(auto, unfolding(crate::specs::Request::op_of))]
pub fn read_op(text: &[u8], kind: Kind) -> Option<Op>
    ensures { result ≡ op_of kind (words text.now) }
{
    let (word, rest) = cut_word(text)?;
    let action = Action::from_word(kind, word)?;
    let arguments = read_arguments(rest, action.argument_count())?;
    Some(Op {
        code: action.code(),
        a: arguments[0],
        b: arguments[1],
        c: arguments[2],
    })
}

/// Just so many numbers, if a text's words write them; the other values are 0.
fn read_arguments(text: &[u8], count: usize) -> Option<[u64; 3]>
    requires { count ≤ 3 }
    ensures { AreArguments count (words text.now) result }
{
    let mut values = [0; 3];
    let mut rest = text;
    for i in 0..count {
        let (word, after) = cut_word(rest)?;
        values[i] = parse_number(word)?;
        rest = after;
    }
    match cut_word(rest) {
        None => Some(values),
        Some(_) => None,
    }
}
