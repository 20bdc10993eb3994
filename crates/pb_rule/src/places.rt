//! Where the words lie.
ghost use Rattle.std.specs.Prelude.{◌≡◌, ◌/◌, ◌%◌, ◌<◌, ◌≤◌, ◌==◌};
ghost use Rattle.pb_rule.specs.Rule.{request_place, row_place, word_count};

/// The turn word: twice the number of rounds published in this session, and one more while somebody holds the turn.
pub const TURN: u32 = 0;

/// The count of the device's faults with which a holder last gave up.
pub const FAULTS: u32 = 1;

/// A word of a client's request: its number, its code, and its three arguments.
pub fn request_word(client: u32, w: u32) -> u32
    requires client { client < 16 }
    requires word { w < 5 }
    ensures { result ≡ request_place client w }
{
    2 + 13 * client + w
}

/// A word of one of a client's two reply rows: its number, and the three words of its reply.
pub fn row_word(client: u32, row: u32, w: u32) -> u32
    requires client { client < 16 }
    requires row { row < 2 }
    requires word { w < 4 }
    ensures { result ≡ row_place client row w }
{
    7 + 13 * client + 4 * row + w
}

/// How many words there are for so many clients.
pub fn words(clients: u32) -> u32
    requires { clients ≤ 16 }
    ensures { result ≡ word_count clients }
{
    2 + 13 * clients
}

/// How many rounds a turn word counts.
pub fn round_of(turn: u64) -> u64
    ensures { result ≡ turn / 2 }
{
    turn / 2
}

/// Whether somebody holds the turn.
pub fn held(turn: u64) -> bool
    ensures { result ≡ (turn % 2 == 1) }
{
    turn % 2 == 1
}
