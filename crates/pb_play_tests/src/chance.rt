//! Events that are drawn by chance.
ghost use Rattle.std.specs.Prelude.{◌<◌};

use pb_crash::Leaves;
use pb_events::Event;
use pb_object::{Ask, Kind, Op};

/// How many clients there are.
pub const CLIENTS: u32 = 3;

/// Draws by a generator of Lehmer's.
#[derive(Drop)]
pub struct Chance {
    state: u32,
}

impl Chance {
    /// The draws from a seed on.
    pub fn new(seed: u32) -> Self {
        Chance { state: seed }
    }

    /// A number below a bound.
    fn below(&mut self, bound: u32) -> u32
        requires { 0 < bound }
        ensures { result < bound }
    {
        self.state = (u64::from(self.state) * 48271 % 2147483647) as u32;
        self.state % bound
    }

    fn how(&mut self) -> Leaves {
        match self.below(4) {
            0 => Leaves::Left,
            1 => Leaves::Done,
            2 => Leaves::Torn(9),
            _ => Leaves::Fenced,
        }
    }

    fn crash(&mut self) -> Event {
        Event::Crash {
            cut: self.below(12),
            pick: u64::from(self.below(4)),
        }
    }

    // Puts something into register 0 of a map, or into a queue, or takes something from that.
    fn op(&mut self, kind: Kind) -> Op {
        let value = u64::from(self.below(100)) + 1;
        let (code, a, b) = match kind {
            Kind::Queue => match self.below(2) {
                0 => (10, value, 0),
                _ => (11, 0, 0),
            },
            _ => (2, 0, value),
        };
        Op { code, a, b, c: 0 }
    }

    // A client asks for something.
    fn ask(&mut self, kind: Kind, client: u32, number: u64) -> Event {
        let op = self.op(kind);
        Event::Ask(Ask { client, number, op })
    }

    /// The next event for an object of a kind: mostly a step of some client, sometimes a failing call, and now and then a crash. The clients
    /// ask with these numbers.
    pub fn event(&mut self, kind: Kind, next: &[u64; 3]) -> Event {
        let client = self.below(CLIENTS);
        match self.below(64) {
            0 => self.crash(),
            1 => Event::Fail {
                client,
                how: self.how(),
            },
            2 => Event::ReopenFail { how: self.how() },
            3..=9 => Event::Reopen,
            10..=20 => self.ask(kind, client, next[client as usize]),
            _ => Event::Step { client },
        }
    }
}
