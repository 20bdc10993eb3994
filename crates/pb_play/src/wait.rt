//! The steps of a client on words, until it has a reply or the turn.
ghost use Rattle.std.specs.Prelude.{◌≡◌, ◌≢◌, ◌↔◌, ◌%◌, ◌<◌, IsTrue};
ghost use Rattle.pb_core.specs.Memory.{round_of_turn, side_of_operation};
ghost use Rattle.pb_round_play.specs.Seats.{row_by};
ghost use Rattle.pb_play.specs.Seats.{goes_to, seat_of, stores, op_with_word, announces, is_answered, begins_asking, takes, first_work};
ghost use Rattle.pb_play.specs.Steps.{MakesWordStep, StepsWaiting};

use crate::memory::Memory;
use crate::work::{Knowledge, Owner, Part, Work};
use pb_events::Stepped;
use pb_object::{Action, Ask, Op, Reply};
use pb_round_play::{Row, Seat, Stage};

/// A client asks for something.
pub fn begin_asking(memory: &mut Memory, ask: &Ask)
    requires { ask.now.client < 16 }
    ensures { memory.new ≡ begins_asking ask.now memory.old }
{
    let place = ask.client as usize;
    let seat = memory.seats[place];
    memory.seats[place] = Seat {
        stage: Stage::Storing { count: 0 },
        ask: *ask,
        ..seat
    };
}

/// A client that doesn't hold the turn makes its next step.
pub fn wait(memory: &mut Memory, client: u32) -> Stepped
    requires { client < 16 }
    ensures { StepsWaiting memory.old client memory.new result }
{
    let seat = memory.seats[client as usize];
    match seat.stage {
        Stage::Idle => Stepped::Impossible,
        Stage::Storing { count } => store_word(memory, client, count),
        Stage::Looking => look(memory, client),
        Stage::LoadsNumber { turn } => load_number(memory, client, turn),
        Stage::LoadsCode { turn } => load_code(memory, client, turn),
        Stage::LoadsValue { turn, code } => load_value(memory, client, turn, code),
        Stage::LoadsExtra { turn, code, value } => load_extra(memory, client, turn, code, value),
        Stage::Confirming { turn, reply } => confirm(memory, client, turn, reply),
        Stage::Lacking { turn, found } => lack(memory, client, turn, found),
        Stage::Taking { turn, found } => take_turn(memory, client, turn, found),
        Stage::Holding => Stepped::Impossible,
    }
}

// It looks at the turn.
fn look(memory: &mut Memory, client: u32) -> Stepped
    requires there { client < 16 }
    requires at { (seat_of memory.old client).stage ≡ Stage.Looking }
    ensures { MakesWordStep memory.old client memory.new result }
{
    let turn = memory.turn;
    go_to(memory, client, Stage::LoadsNumber { turn })
}

// It loads the code of its reply, ..
fn load_code(memory: &mut Memory, client: u32, turn: u64) -> Stepped
    requires there { client < 16 }
    requires at { (seat_of memory.old client).stage ≡ Stage.LoadsCode turn }
    ensures { MakesWordStep memory.old client memory.new result }
{
    let code = row(memory, client, turn).reply.code;
    go_to(memory, client, Stage::LoadsValue { turn, code })
}

// .. its value, ..
fn load_value(memory: &mut Memory, client: u32, turn: u64, code: u64) -> Stepped
    requires there { client < 16 }
    requires at { (seat_of memory.old client).stage ≡ Stage.LoadsValue turn code }
    ensures { MakesWordStep memory.old client memory.new result }
{
    let value = row(memory, client, turn).reply.value;
    go_to(memory, client, Stage::LoadsExtra { turn, code, value })
}

// .. and what is left of it.
fn load_extra(memory: &mut Memory, client: u32, turn: u64, code: u64, value: u64) -> Stepped
    requires there { client < 16 }
    requires at { (seat_of memory.old client).stage ≡ Stage.LoadsExtra turn code value }
    ensures { MakesWordStep memory.old client memory.new result }
{
    let extra = row(memory, client, turn).reply.extra;
    let reply = Reply { code, value, extra };
    go_to(memory, client, Stage::Confirming { turn, reply })
}

/// A client's row that is published at a turn word.
pub fn row(memory: &Memory, client: u32, turn: u64) -> Row
    requires { client < 16 }
    ensures { result ≡ row_by (seat_of memory.now client) (round_of_turn turn % 2) }
{
    memory.seats[client as usize].row(turn)
}

/// A client goes on to a stage.
pub fn go_to(memory: &mut Memory, client: u32, stage: Stage) -> Stepped
    requires { client < 16 }
    ensures after { memory.new ≡ goes_to client stage memory.old }
    ensures says { result ≡ Stepped.Went }
{
    let seat = memory.seats[client as usize];
    memory.seats[client as usize] = Seat { stage, ..seat };
    Stepped::Went
}

// It stores the code and the arguments, and then the number, which announces the request.
fn store_word(memory: &mut Memory, client: u32, count: u32) -> Stepped
    requires there { client < 16 }
    requires at { (seat_of memory.old client).stage ≡ Stage.Storing count }
    ensures { MakesWordStep memory.old client memory.new result }
{
    if count < 4 {
        store_operation(memory, client, count)
    } else {
        announce(memory, client)
    }
}

fn store_operation(memory: &mut Memory, client: u32, count: u32) -> Stepped
    requires there { client < 16 }
    requires few { count < 4 }
    ensures after { memory.new ≡ stores client count memory.old }
    ensures says { result ≡ Stepped.Went }
{
    let seat = memory.seats[client as usize];
    memory.seats[client as usize] = Seat {
        stage: Stage::Storing { count: count + 1 },
        op: with_word(seat.op, count, &seat.ask.op),
        ..seat
    };
    Stepped::Went
}

// An operation with a word of another.
fn with_word(op: Op, place: u32, from: &Op) -> Op
    requires { place < 4 }
    ensures { result ≡ op_with_word place from.now op }
{
    match place {
        0 => Op {
            code: from.code,
            ..op
        },
        1 => Op { a: from.a, ..op },
        2 => Op { b: from.b, ..op },
        _ => Op { c: from.c, ..op },
    }
}

fn announce(memory: &mut Memory, client: u32) -> Stepped
    requires { client < 16 }
    ensures after { memory.new ≡ announces client memory.old }
    ensures says { result ≡ Stepped.Went }
{
    let seat = memory.seats[client as usize];
    memory.seats[client as usize] = Seat {
        stage: Stage::Looking,
        number: seat.ask.number,
        ..seat
    };
    Stepped::Went
}

// Its published row has its number, or lacks it.
fn load_number(memory: &mut Memory, client: u32, turn: u64) -> Stepped
    requires there { client < 16 }
    requires at { (seat_of memory.old client).stage ≡ Stage.LoadsNumber turn }
    ensures { MakesWordStep memory.old client memory.new result }
{
    let found = row(memory, client, turn).number;
    if found == memory.seats[client as usize].ask.number {
        return go_to(memory, client, Stage::LoadsCode { turn });
    }
    if turn % 2 == 1 {
        return go_to(memory, client, Stage::Lacking { turn, found });
    }
    go_to(memory, client, Stage::Taking { turn, found })
}

// It looks at the turn again: of the same round still, the reply counts.
fn confirm(memory: &mut Memory, client: u32, turn: u64, reply: Reply) -> Stepped
    requires there { client < 16 }
    requires at { (seat_of memory.old client).stage ≡ Stage.Confirming turn reply }
    ensures { MakesWordStep memory.old client memory.new result }
{
    if is_past(memory, turn) {
        return try_again(memory, client, turn);
    }
    let ask = memory.seats[client as usize].ask;
    answer(memory, client);
    Stepped::Done { ask, reply }
}

// Whether a round was published since the turn word was this.
fn is_past(memory: &Memory, turn: u64) -> bool
    ensures { IsTrue result ↔ (round_of_turn memory.now.turn ≢ round_of_turn turn) }
{
    memory.turn / 2 != turn / 2
}

/// A client knows that its request is recorded.
pub fn answer(memory: &mut Memory, client: u32)
    requires { client < 16 }
    ensures { memory.new ≡ is_answered client memory.old }
{
    let seat = memory.seats[client as usize];
    memory.seats[client as usize] = Seat {
        stage: Stage::Idle,
        last: seat.ask.number,
        ..seat
    };
}

// Its row lacked its number while the turn was held.
fn lack(memory: &mut Memory, client: u32, turn: u64, found: u64) -> Stepped
    requires there { client < 16 }
    requires at { (seat_of memory.old client).stage ≡ Stage.Lacking turn found }
    ensures { MakesWordStep memory.old client memory.new result }
{
    let _ = found;
    try_again(memory, client, turn)
}

// It is busy, and tries again.
fn try_again(memory: &mut Memory, client: u32, turn: u64) -> Stepped
    requires { client < 16 }
    ensures after { memory.new ≡ goes_to client Stage.Looking memory.old }
    ensures says { result ≡ Stepped.Busy (seat_of memory.old client).ask turn memory.old.turn }
{
    let ask = memory.seats[client as usize].ask;
    let to = memory.turn;
    go_to(memory, client, Stage::Looking);
    Stepped::Busy {
        ask,
        from: turn,
        to,
    }
}

// It takes the turn, where that is as it was found.
fn take_turn(memory: &mut Memory, client: u32, turn: u64, found: u64) -> Stepped
    requires there { client < 16 }
    requires at { (seat_of memory.old client).stage ≡ Stage.Taking turn found }
    ensures { MakesWordStep memory.old client memory.new result }
{
    let _ = found;
    if memory.turn != turn {
        return try_again(memory, client, turn);
    }
    hold_turn(memory, client, turn)
}

fn hold_turn(memory: &mut Memory, client: u32, turn: u64) -> Stepped
    requires { client < 16 }
    ensures after { memory.new ≡ takes client turn memory.old }
    ensures says { result ≡ Stepped.Went }
{
    let op = memory.seats[client as usize].ask.op;
    memory.turn = turn.saturating_add(1);
    memory.owner = Owner::Held {
        client,
        side: side_of(&op),
    };
    memory.met = 0;
    memory.work = first_work(memory.knowledge);
    go_to(memory, client, Stage::Holding)
}

// Where the device is known for sure the scan begins, and else settling does.
fn first_work(knowledge: Knowledge) -> Work
    ensures { result ≡ first_work knowledge }
{
    match knowledge {
        Knowledge::Resting => Work::Scanning {
            client: 0,
            part: Part::AtNumber,
        },
        Knowledge::Recorded => Work::Settling,
        Knowledge::Writing => Work::Settling,
        Knowledge::Doubtful => Work::Settling,
    }
}

/// The side of an operation, 0 for what is none.
pub fn side_of(op: &Op) -> u32
    ensures { result ≡ side_of_operation op.now }
{
    match Action::from_code(op.code) {
        Some(action) => action.side(),
        None => 0,
    }
}
