//! How the fields of a line name events.
ghost use Rattle.std.specs.Prelude.{◌≡◌, ◌<◌, ◌≤◌, IfSome};
ghost use Rattle.std.specs.Option.{option_map};
ghost use Rattle.pb_script.specs.Events.{any_number, if_last, times_of, torn_of, how_of, asked_of, ask_event_of, step_of, fail_of, crash_of, open_of, openfail_of, region_event_with, event_of, repeated, event_line};
ghost use Rattle.pb_script.specs.Words.{words, fields};

use crate::request::{next_number, number_within, read_op};
use crate::script::is_request;
use crate::words::{cut_word, without_return};
use pb_crash::Leaves;
use pb_events::Event;
use pb_object::{Ask, Kind, parse_number};

/// How often one line may name an event.
pub const MOST_TIMES: u32 = 256;

/// How many event lines a schedule may have.
pub const MOST_EVENTS: u32 = 4096;

/// An event, and how often it happens, one time after the other.
#[derive(Clone, Copy, Debug, PartialEq, Eq)]
pub struct Repeat {
    /// What happens.
    pub event: Event,
    /// How often.
    pub times: u32,
}

impl Repeat {
    fn new(event: Event, times: u32) -> Self
        ensures { result ≡ repeated event times }
    {
        Repeat { event, times }
    }
}

/// What a line of a schedule says.
#[derive(Clone, Copy, Debug, PartialEq, Eq)]
pub enum EventLine {
    /// Nothing: it is blank, or a comment.
    Nothing,
    /// No event that there is.
    Refused,
    /// These events.
    Events(Repeat),
}

/// Reads a line of a schedule for an object of this kind with so many clients.
pub fn read_event_line(line: &[u8], kind: Kind, clients: u32) -> EventLine
    ensures { result ≡ event_line kind clients (fields line.now) }
{
    let text = without_return(line);
    if !is_request(text) {
        return EventLine::Nothing;
    }
    match read_event(text, kind, clients) {
        Some(events) => EventLine::Events(events),
        None => EventLine::Refused,
    }
}

/// The events that a text's words name, if they name any: for `ask` under any number, for the others as often as they say.
#[tactic(auto, unfolding(crate::specs::Events::event_of))]
fn read_event(text: &[u8], kind: Kind, clients: u32) -> Option<Repeat>
    ensures { result ≡ event_of kind clients (words text.now) }
{
    let (word, rest) = cut_word(text)?;
    match word {
        b"ask" => read_ask(rest, kind, clients),
        b"step" => read_step(rest, clients),
        b"fail" => read_fail(rest, clients),
        _ => read_region_event(word, rest),
    }
}

/// A crash, or a part of opening the region again.
fn read_region_event(word: &[u8], rest: &[u8]) -> Option<Repeat>
    ensures { result ≡ region_event_with word.now (words rest.now) }
{
    match word {
        b"crash" => read_crash(rest),
        b"open" => read_open(rest),
        _ if word == b"openfail".as_slice() => read_openfail(rest),
        _ => None,
    }
}

#[tactic(auto, unfolding(crate::specs::Events::ask_event_of))]
fn read_ask(text: &[u8], kind: Kind, clients: u32) -> Option<Repeat>
    ensures { result ≡ ask_event_of kind clients (words text.now) }
{
    let ask = read_asked(text, kind, clients)?;
    Some(Repeat::new(Event::Ask(ask), 1))
}

/// The request that a text's words ask for under any number, if they ask for one.
#[tactic(auto, unfolding(crate::specs::Events::asked_of))]
fn read_asked(text: &[u8], kind: Kind, clients: u32) -> Option<Ask>
    ensures { result ≡ asked_of kind clients (words text.now) }
{
    let (client, text) = next_number(text, 0, u64::from(clients))?;
    let (number, text) = next_any(text)?;
    let op = read_op(text, kind)?;
    Some(Ask {
        client: client as u32,
        number,
        op,
    })
}

#[tactic(auto, unfolding(crate::specs::Events::step_of))]
fn read_step(text: &[u8], clients: u32) -> Option<Repeat>
    ensures { result ≡ step_of clients (words text.now) }
{
    let (client, text) = next_number(text, 0, u64::from(clients))?;
    let times = read_times(text)?;
    let client = client as u32;
    Some(Repeat::new(Event::Step { client }, times))
}

#[tactic(auto, unfolding(crate::specs::Events::fail_of))]
fn read_fail(text: &[u8], clients: u32) -> Option<Repeat>
    ensures { result ≡ fail_of clients (words text.now) }
{
    let (client, text) = next_number(text, 0, u64::from(clients))?;
    let how = read_how(text)?;
    let client = client as u32;
    Some(Repeat::new(Event::Fail { client, how }, 1))
}

#[tactic(auto, unfolding(crate::specs::Events::crash_of))]
fn read_crash(text: &[u8]) -> Option<Repeat>
    ensures { result ≡ crash_of (words text.now) }
{
    let (cut, text) = next_number(text, 0, 4_294_967_296)?;
    let (pick, text) = next_any(text)?;
    let cut = cut as u32;
    if cut_word(text).is_some() {
        return None;
    }
    Some(Repeat::new(Event::Crash { cut, pick }, 1))
}

#[tactic(auto, unfolding(crate::specs::Events::open_of))]
fn read_open(text: &[u8]) -> Option<Repeat>
    ensures { result ≡ open_of (words text.now) }
{
    let times = read_times(text)?;
    Some(Repeat::new(Event::Reopen, times))
}

#[tactic(auto, unfolding(crate::specs::Events::openfail_of))]
fn read_openfail(text: &[u8]) -> Option<Repeat>
    ensures { result ≡ openfail_of (words text.now) }
{
    let how = read_how(text)?;
    Some(Repeat::new(Event::ReopenFail { how }, 1))
}

/// How often an event happens, by a text's words.
#[tactic(auto, unfolding(crate::specs::Events::times_of))]
fn read_times(text: &[u8]) -> Option<u32>
    ensures { result ≡ times_of (words text.now) }
{
    match cut_word(text) {
        None => Some(1),
        Some((word, rest)) => {
            let times = number_within(word, 1, u64::from(MOST_TIMES) + 1)?;
            last(times as u32, rest)
        }
    }
}

/// What a failing call leaves, by a text's words.
#[tactic(auto, unfolding(crate::specs::Events::how_of))]
fn read_how(text: &[u8]) -> Option<Leaves>
    ensures { result ≡ how_of (words text.now) }
{
    let (word, rest) = cut_word(text)?;
    match word {
        b"left" => last(Leaves::Left, rest),
        b"done" => last(Leaves::Done, rest),
        b"torn" => read_torn(rest),
        b"fenced" => last(Leaves::Fenced, rest),
        _ => None,
    }
}

#[tactic(auto, unfolding(crate::specs::Events::torn_of))]
fn read_torn(text: &[u8]) -> Option<Leaves>
    ensures { result ≡ torn_of (words text.now) }
{
    let (value, rest) = next_any(text)?;
    last(Leaves::Torn(value), rest)
}

/// The number that a text's first word writes, whichever it is, and what stands after it.
#[tactic(auto, unfolding(crate::specs::Events::any_number))]
fn next_any(text: &[u8]) -> Option<(u64, &[u8])>
    ensures { option_map (λ read. (read.0, words read.1.now)) result ≡ any_number (words text.now) }
{
    let (word, rest) = cut_word(text)?;
    let number = parse_number(word)?;
    Some((number, rest))
}

/// A value, where a text has no words left.
fn last<T: Copy>(value: T, text: &[u8]) -> Option<T>
    ensures { result ≡ if_last value (words text.now) }
{
    match cut_word(text) {
        None => Some(value),
        Some(_) => None,
    }
}
