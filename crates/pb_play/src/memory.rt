ghost use Rattle.std.specs.Prelude.{◌≡◌};

use crate::work::{Knowledge, Owner, Part, Work};
use pb_layout::Header;
use pb_object::{Ask, Op};
use pb_round_play::{Rounds, Row, Seat};

/// What stands in memory: the words, the clients, the holder of the turn, and what is known of the device.
#[derive(Clone, Copy, Debug, PartialEq, Eq)]
pub struct Memory {
    pub head: Header,
    /// The clients: the first ones, as many as the header says.
    pub seats: [Seat; 16],
    /// The turn word, the device's count with which a holder last gave up, and that count.
    pub turn: u64,
    pub noted: u64,
    pub count: u64,
    pub owner: Owner,
    pub work: Work,
    /// The requests that were scanned so far: the first ones, as many as `met` says.
    pub seen: [Ask; 16],
    pub met: u32,
    pub knowledge: Knowledge,
    /// How many rounds are published, and the side of the round ahead.
    pub rounds: Rounds,
    pub ahead: Option<u32>,
}

impl Memory {
    ghost use Rattle.pb_play.specs.Seats.{formatted_memory};

    /// Memory over a region that was just formatted.
    pub fn fresh(head: Header) -> Self
        ensures { result ≡ formatted_memory head }
    {
        Memory {
            head,
            seats: [Seat::fresh(Row::default()); 16],
            turn: 0,
            noted: 0,
            count: 0,
            owner: Owner::Free,
            work: Work::NoWork,
            seen: [Ask::default(); 16],
            met: 0,
            knowledge: Knowledge::Resting,
            rounds: Rounds {
                first: 0,
                second: 0,
            },
            ahead: None,
        }
    }
}
