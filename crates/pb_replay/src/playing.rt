//! A schedule that is being played.
ghost use Rattle.std.specs.Prelude.{◌≡◌, ℕ, ◌+◌, ◌<◌, ◌^◌, List, [], ◌∷◌, ◌++◌, true, length, IfOk, OnOk};
ghost use Rattle.pb_events.specs.declared.event.Event.{Event};
ghost use Rattle.pb_layout.specs.declared.header.Header.{Header};
ghost use Rattle.pb_script.specs.Events.{event_line};
ghost use Rattle.pb_script.specs.Script.{request_lines};
ghost use Rattle.pb_script.specs.Words.{lines, fields};
ghost use Rattle.pb_play.specs.Worlds.{IsShaped, HasRoom};
ghost use Rattle.pb_replay.specs.Playing.{HasMade, HasPlayed, HasRoomFor, TakesRoom, MakesEvent, MakesEvents, PlaysLine, Plays, event_times, IsAccepted};
ghost use Rattle.pb_replay.specs.Survey.{count_events};

use pb_events::{Event, Stepped};
use pb_layout::Header;
use pb_play::{World, step};
use pb_script::{EventLine, Repeat, ScriptFault, cut_line, read_event_line};
use std::alloc::{AllocError, Global};

/// A world, and the answers that it gave to clients.
#[derive(Drop)]
pub struct Playing {
    pub world: World,
    pub answers: Vec<Stepped>,
}

impl Playing {
    /// A world over a region that was just formatted, with room for so many events.
    pub fn fresh(alloc: Global, head: &Header, room: u32) -> Result<Self, AllocError>
        ensures shaped { IfOk result (λ playing. IsShaped playing.world) }
        ensures room { IfOk result (HasRoomFor room) }
        ensures made { IfOk result (HasMade head.now []) }
    {
        let world = World::fresh(alloc, head.kind, head.clients, head.size, room)?;
        Ok(Playing {
            world,
            answers: Vec::new(alloc),
        })
    }

    /// Plays the lines of a schedule, up to the first that is refused: one that names no event, or one that can't happen.
    pub fn play(&mut self, bytes: &[u8], head: &Header) -> Result<(), ScriptFault>
        requires shaped { IsShaped self.old.world }
        requires room { HasRoomFor (count_events head.now.kind head.now.clients (request_lines (lines bytes.now))) self.old }
        requires source { length bytes.now < 2 ^ 32 }
        ensures shaped { IsShaped self.new.world }
        ensures played { HasMade head.now [] self.old → Plays head.now bytes.now self.new result }
    {
        let mut number = 0;
        let mut rest = bytes;
        while !rest.is_empty() {
            let (line, after) = cut_line(rest);
            number += 1;
            self.play_line(line, number, head)?;
            rest = after;
        }
        Ok(())
    }

    // Plays a line with this number.
    fn play_line(&mut self, line: &[u8], number: u32, head: &Header) -> Result<(), ScriptFault>
        requires shaped { IsShaped self.old.world }
        requires room { HasRoomFor (event_times (event_line head.now.kind head.now.clients (fields line.now))) self.old }
        ensures shaped { IsShaped self.new.world }
        ensures room { TakesRoom (event_times (event_line head.now.kind head.now.clients (fields line.now))) self.old self.new }
        ensures accepted { OnOk result (IsAccepted (event_line head.now.kind head.now.clients (fields line.now))) }
        ensures played { (read : List (List ℕ)) → HasPlayed head.now read self.old → PlaysLine head.now read line.now number self.new result }
    {
        match read_event_line(line, head.kind, head.clients) {
            EventLine::Nothing => Ok(()),
            EventLine::Refused => Err(ScriptFault::Line { number }),
            EventLine::Events(repeat) => match self.make_all(&repeat) {
                Ok(true) => Ok(()),
                Ok(false) => Err(ScriptFault::Line { number }),
                Err(_) => Err(ScriptFault::Memory),
            },
        }
    }

    // An event happens so often, one time after the other. The answer is false where one of them can't happen.
    fn make_all(&mut self, repeat: &Repeat) -> Result<bool, AllocError>
        requires shaped { IsShaped self.old.world }
        requires room { HasRoomFor repeat.now.times self.old }
        ensures shaped { IsShaped self.new.world }
        ensures room { TakesRoom repeat.now.times self.old self.new }
        ensures made { (head : Header) (events : List Event) → HasMade head events self.old → MakesEvents head events repeat.now self.new result }
    {
        for _ in 0..repeat.times {
            if !self.make(&repeat.event)? {
                return Ok(false);
            }
        }
        Ok(true)
    }

    // An event happens. The answer is false where it can't.
    fn make(&mut self, event: &Event) -> Result<bool, AllocError>
        requires shaped { IsShaped self.old.world }
        requires room { HasRoom self.old.world }
        ensures shaped { IsShaped self.new.world }
        ensures room { TakesRoom 1 self.old self.new }
        ensures made { (head : Header) (events : List Event) → HasMade head events self.old → MakesEvent head events event.now self.new result }
    {
        let answer = step(&mut self.world, event);
        match answer {
            Stepped::Went => Ok(true),
            Stepped::Done { .. } => self.give(answer),
            Stepped::Busy { .. } => self.give(answer),
            Stepped::Fault { .. } => self.give(answer),
            Stepped::Impossible => Ok(false),
        }
    }

    fn give(&mut self, answer: Stepped) -> Result<bool, AllocError>
        ensures world { self.new.world ≡ self.old.world }
        ensures given { IfOk result (λ made. (made ≡ true) × (self.new.answers.items ≡ self.old.answers.items ++ answer ∷ [])) }
    {
        match self.answers.push(answer) {
            Ok(()) => Ok(true),
            Err(_) => Err(AllocError),
        }
    }
}
