//! A world that is played with.
ghost use Rattle.std.specs.Prelude.{◌<◌, ◌≤◌};
ghost use Rattle.pb_pmem.specs.declared.line.TheConstants.{LINES};

use pb_events::{Event, Stepped};
use pb_object::{Ask, Kind};
use pb_play::{World, step};
use pb_pmem::Line;
use pb_script::{EventLine, read_event_line};
use std::alloc::Global;
use std::marker::Model;
use std::process::Abort;

/// A world that began over a fresh region.
#[derive(Drop)]
pub struct Played {
    world: World,
}

impl Model for Played {
    ghost use Rattle.pb_play.specs.declared.world.World.{World};
    ghost use Rattle.pb_play.specs.Worlds.{IsShaped};

    ghost Value = { World };

    ghost view = { λ played. played.world };

    ghost invariant = { λ played. IsShaped played.world };
}

impl Played {
    /// A world with room for 4,096 operations of its device.
    pub fn fresh(rt: &impl Abort, alloc: Global, kind: Kind, clients: u32, size: u32) -> Self
        requires some_clients { 1 ≤ clients }
        requires few_clients { clients ≤ 16 }
        requires some_size { 1 ≤ size }
        requires small_size { size ≤ 1024 }
    {
        Played {
            world: World::fresh(alloc, kind, clients, size, 4096).expect(rt, "memory"),
        }
    }

    /// For how many more events there is room.
    pub fn spare(&self) -> u32 {
        self.world.spare()
    }

    /// A line of the device.
    pub fn line(&self, line: u32) -> Line
        requires { line < LINES }
    {
        self.world.line(line)
    }

    /// An event, for which there has to be room.
    pub fn make(&mut self, rt: &impl Abort, event: &Event) -> Stepped {
        assert!(rt; self.world.spare() > 0, "room");
        step(&mut self.world, event)
    }

    /// A client asks for something, and steps until it is answered.
    pub fn serve(&mut self, rt: &impl Abort, ask: &Ask) -> Stepped {
        let mut answer = self.make(rt, &Event::Ask(*ask));
        for _ in 0..2048 {
            if answer != Stepped::Went {
                return answer;
            }
            answer = self.make(rt, &Event::Step { client: ask.client });
        }
        answer
    }

    /// Plays the events of a schedule, and lists what was answered. Events that answer nobody aren't listed.
    pub fn play(
        &mut self,
        rt: &impl Abort,
        alloc: Global,
        kind: Kind,
        clients: u32,
        schedule: &str,
    ) -> Vec<Stepped> {
        let mut answers = Vec::new(alloc);
        for line in schedule.lines() {
            let EventLine::Events(repeat) = read_event_line(line.as_bytes(), kind, clients) else {
                panic!(rt; "events");
            };
            for _ in 0..repeat.times {
                let answer = self.make(rt, &repeat.event);
                if answer != Stepped::Went {
                    answers.push(answer).expect(rt, "memory");
                }
            }
        }
        answers
    }
}
