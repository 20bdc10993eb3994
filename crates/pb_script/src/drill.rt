//! The script of a drill.
ghost use Rattle.std.specs.Prelude.{◌≡◌, ◌<◌, All, IfOk};
ghost use Rattle.pb_object.specs.declared.kind.Kind.TheVariants.{Map};
ghost use Rattle.pb_script.specs.Command.{IsDrillWithin};
ghost use Rattle.pb_object.specs.Codes.{action_code};
ghost use Rattle.pb_script.specs.declared.drill.TheConstants.{MODULUS};
ghost use Rattle.pb_script.specs.Drill.{draw, drawn_op, drill_asks, next_draw};
ghost use Rattle.pb_script.specs.Script.{IsAskOf};

use pb_object::{Action, Ask, Op};
use std::alloc::{AllocError, Global};

/// How many registers the requests of a drill name.
pub const DRILL_SIZE: u32 = 64;

/// What a draw is multiplied with to give the next one.
const FACTOR: u64 = 48271;

/// Each draw is below this: 2^31 - 1, a prime.
const MODULUS: u64 = 2147483647;

/// Makes the script of a drill from a seed: so many requests of each client to a map of [`DRILL_SIZE`] registers, about one in four a
/// `get` and the others a `put`. The clients take turns, and each numbers its requests from 1 on. The same numbers make the same script.
pub fn generate(alloc: Global, seed: u64, clients: u32, count: u32) -> Result<Vec<Ask>, AllocError>
    requires { IsDrillWithin clients count }
    ensures asks { IfOk result (λ asks. asks.items ≡ drill_asks seed clients count) }
    ensures script { IfOk result (λ asks. All (IsAskOf Map clients) asks.items) }
{
    let requests = clients * count;
    let mut asks = Vec::with_capacity(alloc, requests as usize)?;
    let mut draws = Draws::new(seed);
    for place in 0..requests {
        let op = draws.next_op();
        asks.push(Ask {
            client: place % clients,
            number: u64::from(place / clients) + 1,
            op,
        })?;
    }
    Ok(asks)
}

/// The draws of a seed, one after the other.
#[derive(Drop)]
struct Draws {
    last: u64,
    ghost small: { last < MODULUS },
}

impl Draws {
    fn new(seed: u64) -> Draws
        ensures { result.last ≡ draw seed 0 }
    {
        Draws {
            last: seed % (MODULUS - 1) + 1,
        }
    }

    fn next(&mut self) -> u64
        ensures drawn { result ≡ next_draw self.old.last }
        ensures last { self.new.last ≡ result }
    {
        self.last = FACTOR * self.last % MODULUS;
        self.last
    }

    /// The operation of the next three draws.
    fn next_op(&mut self) -> Op
        ensures op { let choice = next_draw self.old.last in let key = next_draw choice in
            result ≡ drawn_op choice key (next_draw key) }
        ensures last { self.new.last ≡ next_draw (next_draw (next_draw self.old.last)) }
    {
        let choice = self.next();
        let key = self.next();
        let value = self.next();
        drawn_op(choice, key, value)
    }
}

/// The operation that three draws choose.
fn drawn_op(choice: u64, key: u64, value: u64) -> Op
    ensures { result ≡ drawn_op choice key value }
{
    let key = key % u64::from(DRILL_SIZE);
    if choice % 4 == 0 {
        operation(Action::Get, key, 0)
    } else {
        operation(Action::Put, key, value)
    }
}

fn operation(action: Action, a: u64, b: u64) -> Op
    ensures { result ≡ record { code = action_code action; a = a; b = b; c = 0 } }
{
    Op {
        code: action.code(),
        a,
        b,
        c: 0,
    }
}
