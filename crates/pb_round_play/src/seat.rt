ghost use Rattle.std.specs.Prelude.{◌≡◌, ◌%◌};

use pb_object::{Ask, Kept, Op, Reply};

/// Where a client stands with its request.
///
/// `turn` is the turn word that it found.
#[derive(Clone, Copy, Debug, PartialEq, Eq)]
pub enum Stage {
    /// It asks for nothing.
    Idle,
    /// So many of its request's words after the number are stored.
    Storing { count: u32 },
    /// It looks at the turn next.
    Looking,
    /// It loads the number in its published row next, ..
    LoadsNumber { turn: u64 },
    /// .. or the reply's code, ..
    LoadsCode { turn: u64 },
    /// .. or its value, ..
    LoadsValue { turn: u64, code: u64 },
    /// .. or what is left of it.
    LoadsExtra { turn: u64, code: u64, value: u64 },
    /// It has a reply, and looks at the turn again.
    Confirming { turn: u64, reply: Reply },
    /// Its row lacks its number and the turn was held: it looks at the turn again.
    Lacking { turn: u64, found: u64 },
    /// Its row lacks its number and the turn was free: it tries to take it.
    Taking { turn: u64, found: u64 },
    /// It holds the turn.
    Holding,
}

/// The words of a reply row: a number, and the reply to the request with that number.
#[derive(Clone, Copy, Debug, Default, PartialEq, Eq)]
pub struct Row {
    pub number: u64,
    pub reply: Reply,
}

impl Row {
    ghost use Rattle.pb_round_play.specs.Seats.{row_of_kept};

    /// The row of a kept request.
    pub fn of(kept: &Kept) -> Self
        ensures { result ≡ row_of_kept kept.now }
    {
        Row {
            number: kept.number,
            reply: kept.reply,
        }
    }
}

/// A client with its words.
#[derive(Clone, Copy, Debug, PartialEq, Eq)]
pub struct Seat {
    /// Where it stands.
    pub stage: Stage,
    /// What it asks for, unless it is idle.
    pub ask: Ask,
    /// The number of its last request that it knows to be recorded.
    pub last: u64,
    /// The words of its request, as they are stored.
    pub number: u64,
    pub op: Op,
    /// Its two reply rows.
    pub even: Row,
    pub odd: Row,
    /// What its row is to be once the round ahead is published.
    pub ahead: Row,
}

impl Seat {
    ghost use Rattle.pb_core.specs.Memory.{round_of_turn};
    ghost use Rattle.pb_round_play.specs.Seats.{fresh_seat};
    ghost use Rattle.pb_round_play.specs.Seats.{row_by};

    /// A client that has asked for nothing since the region was opened, and whose last recorded request is this.
    pub fn fresh(row: Row) -> Self
        ensures { result ≡ fresh_seat row }
    {
        Seat {
            stage: Stage::Idle,
            ask: Ask::default(),
            last: row.number,
            number: 0,
            op: Op::default(),
            even: row,
            odd: row,
            ahead: row,
        }
    }

    /// The row that is published at a turn word.
    pub fn row(&self, turn: u64) -> Row
        ensures { result ≡ row_by self.now (round_of_turn turn % 2) }
    {
        if turn / 2 % 2 == 0 {
            self.even
        } else {
            self.odd
        }
    }
}
