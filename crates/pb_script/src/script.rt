//! The request lines of a source.
ghost use Rattle.std.specs.Prelude.{◌≡◌, ◌↔◌, ℕ, List, [], ◌∷◌, ◌++◌, ◌+◌, ◌<◌, ◌≤◌, ◌^◌, All, IsTrue, IfOk, length};
ghost use Rattle.pb_object.specs.declared.request.Ask.{Ask};
ghost use Rattle.pb_script.specs.Script.{IsReadAs, IsShort, IsScript, IsAskOf, IsAnswer};
ghost use Rattle.pb_script.specs.Reading.{Holds, HoldsMore, FollowsLast, AddsAsk, IsFinished};
ghost use Rattle.pb_script.specs.Words.{lines, words, is_request};

use crate::command::MOST_CLIENTS;
use crate::request::read_request;
use crate::words::{cut_line, cut_word, without_return};
use pb_object::{Ask, Kind};
use std::alloc::Global;

/// How many request lines a script may have.
pub const MOST_REQUESTS: u32 = 32768;

/// Why a source is no script.
#[derive(Clone, Copy, Debug, PartialEq, Eq)]
pub enum ScriptFault {
    /// There was no memory for the requests.
    Memory,
    /// There are more request lines than a script may have, refused ones counted.
    Many,
    /// The first refused line, counted from 1 over all lines.
    Line { number: u32 },
}

/// Reads the request lines of a source: the requests of a script of this kind with so many clients, in their order. Lines that
/// are blank or comments ask for nothing.
///
/// `Many` comes exactly where there are more request lines than a script may have, and else `Line` with the first line that is
/// refused. Memory is taken for the requests alone.
pub fn parse_script(
    alloc: Global,
    bytes: &[u8],
    kind: Kind,
    clients: u32,
) -> Result<Vec<Ask>, ScriptFault>
    requires source { length bytes.now < 2 ^ 32 }
    requires clients { clients ≤ MOST_CLIENTS }
    ensures exact { IsReadAs kind clients (lines bytes.now) result }
    ensures only { (asks : List Ask) → IsShort (lines bytes.now) → IsScript kind clients (lines bytes.now) asks →
        IsAnswer asks result }
    ensures asks { IfOk result (λ asks. All (λ ask. IsAskOf kind clients ask) asks.items) }
{
    read_script(alloc, bytes, kind, clients)
}

/// Whether a source has no more request lines than a script may have, refused ones counted. It takes no
/// memory, and what the lines ask for doesn't matter.
pub fn is_short(bytes: &[u8]) -> bool
    ensures { IsTrue result ↔ IsShort (lines bytes.now) }
{
    let mut requests = 0;
    let mut rest = bytes;
    while !rest.is_empty() {
        let (line, after) = cut_line(rest);
        if is_request(without_return(line)) {
            if requests == MOST_REQUESTS {
                return false;
            }
            requests += 1;
        }
        rest = after;
    }
    true
}

fn read_script(
    alloc: Global,
    source: &[u8],
    kind: Kind,
    clients: u32,
) -> Result<Vec<Ask>, ScriptFault>
    requires source { length source.now < 2 ^ 32 }
    requires clients { clients ≤ MOST_CLIENTS }
    ensures { IsReadAs kind clients (lines source.now) result }
{
    let mut reading = Reading {
        asks: Vec::new(alloc),
        last: [0; CLIENTS],
        lines: 0,
        requests: 0,
        refused: None,
    };
    let mut rest = source;
    while !rest.is_empty() {
        let (line, after) = cut_line(rest);
        reading.read_line(line, kind, clients)?;
        rest = after;
    }
    reading.finish()
}

/// For how many clients a last number is held.
const CLIENTS: usize = MOST_CLIENTS as usize;

/// What was read of a source so far.
#[derive(Drop)]
struct Reading {
    /// The requests before the first refused line.
    asks: Vec<Ask>,
    /// The number of each client's last request, 0 where it has none.
    last: [u64; CLIENTS],
    /// How many lines were read.
    lines: u32,
    /// How many request lines were read, refused ones counted.
    requests: u32,
    /// The first refused line, counted from 1.
    refused: Option<u32>,
}

impl Reading {
    /// Reads one more line. `Many` comes where it is a request line too many. After an error nothing is said of what is held:
    /// the reading ends there.
    fn read_line(&mut self, line: &[u8], kind: Kind, clients: u32) -> Result<(), ScriptFault>
        requires clients { clients ≤ MOST_CLIENTS }
        requires lines { self.old.lines + 1 < 2 ^ 32 }
        ensures { (read : List (List ℕ)) → Holds kind clients read self.old →
            HoldsMore kind clients (read ++ line.now ∷ []) self.new result }
    {
        self.lines += 1;
        let text = without_return(line);
        if !is_request(text) {
            return Ok(());
        }
        if self.requests >= MOST_REQUESTS {
            return Err(ScriptFault::Many);
        }
        self.requests += 1;
        if self.refused.is_some() {
            return Ok(());
        }
        match read_request(text, kind, clients) {
            Some(ask) if self.follows(&ask) => self.add(ask)?,
            _ => self.refused = Some(self.lines),
        }
        Ok(())
    }

    /// Whether a request has the number after the one of its client's last request, if it has one.
    fn follows(&self, ask: &Ask) -> bool
        requires client { ask.now.client < MOST_CLIENTS }
        requires number { 1 ≤ ask.now.number }
        ensures { IsTrue result ↔ FollowsLast self.now.last ask.now }
    {
        let last = self.last[ask.client as usize];
        last == 0 || last == ask.number - 1
    }

    fn add(&mut self, ask: Ask) -> Result<(), ScriptFault>
        requires { ask.client < MOST_CLIENTS }
        ensures { AddsAsk self.old ask self.new result }
    {
        match self.asks.push(ask) {
            Ok(()) => {
                self.last[ask.client as usize] = ask.number;
                Ok(())
            }
            Err(_) => Err(ScriptFault::Memory),
        }
    }

    fn finish(self) -> Result<Vec<Ask>, ScriptFault>
        ensures { IsFinished self result }
    {
        let Reading {
            asks,
            last: _,
            lines: _,
            requests: _,
            refused,
        } = self;
        match refused {
            None => Ok(asks),
            Some(number) => Err(ScriptFault::Line { number }),
        }
    }
}

/// Whether a line, without its CR, asks for something.
pub fn is_request(text: &[u8]) -> bool
    ensures { result ≡ is_request (words text.now) }
{
    match cut_word(text) {
        None => false,
        Some((word, _)) => !matches!(word, [b'#', ..]),
    }
}
