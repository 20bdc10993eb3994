//! The command line.
ghost use Rattle.std.specs.Prelude.{◌≡◌, ◌+◌, ◌≤◌, [], ◌∷◌, option_map, IfSome};
ghost use Rattle.pb_script.specs.Command.{IsWithinLimits, IsObjectWithin, command_of, object_of, drill_of, alone, texts};
ghost use Rattle.pb_script.specs.declared.command.Command.TheVariants.{Fresh, Replay};
ghost use Rattle.pb_script.specs.Request.{number_within};

use crate::request::number_within;
use crate::script::MOST_REQUESTS;
use pb_object::{Kind, parse_number};

/// How many clients an object may have.
pub const MOST_CLIENTS: u32 = 16;

/// How many registers or items an object may hold.
pub const MOST_SIZE: u32 = 1024;

/// What the program is to do.
#[derive(Clone, Copy, Debug, PartialEq, Eq)]
pub enum Command {
    /// Make a new object, and run a script on it.
    Fresh { kind: Kind, clients: u32, size: u32 },
    /// Run a script on the object that is there.
    Run,
    /// Report the object that is there.
    Report,
    /// Play a schedule on a new object.
    Replay { kind: Kind, clients: u32, size: u32 },
    /// Run a script made from a seed on a new object: so many requests of each client.
    Drill { seed: u64, clients: u32, count: u32 },
}

/// The command that the words after the device spell. None exactly where they have none of the forms, one word more or less
/// included.
#[tactic(auto, unfolding(crate::specs::Command::command_of))]
pub fn parse_words(words: &[String]) -> Option<Command>
    ensures command { result ≡ command_of (texts words.now) }
    ensures within { IfSome result IsWithinLimits }
{
    let (word, arguments) = words.split_first()?;
    match word.as_str() {
        "fresh" => parse_fresh(arguments),
        "run" => alone(Command::Run, arguments),
        "report" => alone(Command::Report, arguments),
        "replay" => parse_replay(arguments),
        "drill" => parse_drill(arguments),
        _ => None,
    }
}

fn alone(command: Command, words: &[String]) -> Option<Command>
    ensures alone { result ≡ alone command (texts words.now) }
    ensures same { IfSome result (λ one. one ≡ command) }
{
    match words {
        [] => Some(command),
        _ => None,
    }
}

fn parse_fresh(words: &[String]) -> Option<Command>
    ensures command { result ≡ option_map (λ object. Fresh object.0 object.1 object.2) (object_of (texts words.now)) }
    ensures within { IfSome result IsWithinLimits }
{
    let (kind, clients, size) = parse_object(words)?;
    Some(Command::Fresh {
        kind,
        clients,
        size,
    })
}

fn parse_replay(words: &[String]) -> Option<Command>
    ensures command { result ≡ option_map (λ object. Replay object.0 object.1 object.2) (object_of (texts words.now)) }
    ensures within { IfSome result IsWithinLimits }
{
    let (kind, clients, size) = parse_object(words)?;
    Some(Command::Replay {
        kind,
        clients,
        size,
    })
}

#[tactic(auto, unfolding(crate::specs::Command::object_of))]
fn parse_object(words: &[String]) -> Option<(Kind, u32, u32)>
    ensures object { result ≡ object_of (texts words.now) }
    ensures within { IfSome result (λ object. IsObjectWithin object.1 object.2) }
{
    match words {
        [kind, clients, size] => {
            object_with(kind.as_bytes(), clients.as_bytes(), size.as_bytes())
        }
        _ => None,
    }
}

/// A new object's kind, clients and size.
#[tactic(auto, unfolding(crate::specs::Command::object_of))]
fn object_with(kind: &[u8], clients: &[u8], size: &[u8]) -> Option<(Kind, u32, u32)>
    ensures object { result ≡ object_of (kind.now ∷ clients.now ∷ size.now ∷ []) }
    ensures within { IfSome result (λ object. IsObjectWithin object.1 object.2) }
{
    let kind = Kind::from_word(kind)?;
    let clients = small_within(clients, MOST_CLIENTS)?;
    let size = small_within(size, MOST_SIZE)?;
    Some((kind, clients, size))
}

#[tactic(auto, unfolding(crate::specs::Command::drill_of))]
fn parse_drill(words: &[String]) -> Option<Command>
    ensures command { result ≡ drill_of (texts words.now) }
    ensures within { IfSome result IsWithinLimits }
{
    match words {
        [seed, clients, count] => {
            drill_with(seed.as_bytes(), clients.as_bytes(), count.as_bytes())
        }
        _ => None,
    }
}

/// A drill's seed, clients and count, with no more requests than a script may have.
#[tactic(auto, unfolding(crate::specs::Command::drill_of))]
fn drill_with(seed: &[u8], clients: &[u8], count: &[u8]) -> Option<Command>
    ensures command { result ≡ drill_of (seed.now ∷ clients.now ∷ count.now ∷ []) }
    ensures within { IfSome result IsWithinLimits }
{
    let seed = parse_number(seed)?;
    let clients = small_within(clients, MOST_CLIENTS)?;
    let count = small_within(count, MOST_REQUESTS)?;
    (clients * count <= MOST_REQUESTS).then_some(Command::Drill {
        seed,
        clients,
        count,
    })
}

/// The number that a word writes, if it is at least 1 and at most `most`.
fn small_within(word: &[u8], most: u32) -> Option<u32>
    requires { most ≤ 32768 }
    ensures value { result ≡ number_within 1 (most + 1) word.now }
    ensures least { IfSome result (λ number. 1 ≤ number) }
    ensures within { IfSome result (λ number. number ≤ most) }
{
    let number = number_within(word, 1, u64::from(most) + 1)?;
    Some(number as u32)
}
