//! The format's codes: the one table of operations, and that of replies.
ghost use Rattle.std.specs.Prelude.{◌≡◌, ◌↔◌, ◌==◌, ◌&&◌, IsTrue, Contains, find};
ghost use Rattle.std.specs.Str.{bytes_eq};
ghost use Rattle.pb_object.specs.Codes.{kind_code, action_code, action_of, action_kind, action_side, argument_count, action_word, answer_code, answer_of, answer_word, answers_of, value_count, action_named, named_among};

use crate::kind::Kind;

/// What an operation asks for.
#[derive(Clone, Copy, Debug, PartialEq, Eq)]
pub enum Action {
    /// `get K`: a register's value and version.
    Get,
    /// `put K V`: writes a register.
    Put,
    /// `cas K VERSION V`: writes a register that has this version.
    Cas,
    /// `push V`: an item onto a stack.
    Push,
    /// `pop`: takes the top item of a stack.
    Pop,
    /// `top`: the top item of a stack.
    Top,
    /// `insert V`: an item into a heap.
    Insert,
    /// `removemin`: takes a least item of a heap.
    RemoveMin,
    /// `min`: a least item of a heap.
    Min,
    /// `put V`: an item into a queue.
    QueuePut,
    /// `take`: takes the first item of a queue.
    QueueTake,
}

/// What a reply says.
#[derive(Clone, Copy, Debug, PartialEq, Eq)]
pub enum Answer {
    /// `is VALUE VERSION`: what a register holds.
    Is,
    /// `was OLD VERSION`: a register was written; its value before, and its version now.
    Was,
    /// `stale VALUE VERSION`: a register has another version than the one asked for.
    Stale,
    /// `nokey`: there is no such register.
    NoKey,
    /// `worn`: a register's version, or a queue's position, stands at its last value.
    Worn,
    /// `depth D`: an item was pushed; the stack's depth now.
    Depth,
    /// `full`: there is no room.
    Full,
    /// `item V`, of a queue `item V POSITION`: the item.
    Item,
    /// `empty`: there is no item.
    Empty,
    /// `size S`: an item was inserted; the heap's length now.
    Size,
    /// `at POSITION`: an item was put into a queue.
    At,
}

/// What the format says of an operation.
#[derive(Clone, Copy)]
struct Row {
    word: &'static str,
    code: u64,
    kind: Kind,
    side: u32,
    arguments: usize,
    answers: &'static [Answer],
}

/// The operations in the order of their codes.
const ACTIONS: [Action; 11] = [
    Action::Get,
    Action::Put,
    Action::Cas,
    Action::Push,
    Action::Pop,
    Action::Top,
    Action::Insert,
    Action::RemoveMin,
    Action::Min,
    Action::QueuePut,
    Action::QueueTake,
];

impl Action {
    /// The table of operations: script word, code, kind, side, how many arguments are used, what a reply may say.
    fn row(self) -> Row
        ensures word { result.word.now ≡ action_word self }
        ensures code { result.code ≡ action_code self }
        ensures kind { result.kind ≡ action_kind self }
        ensures side { result.side ≡ action_side self }
        ensures arguments { result.arguments ≡ argument_count self }
        ensures answers { result.answers.now ≡ answers_of self }
    {
        use Answer::{At, Depth, Empty, Full, Is, Item, NoKey, Size, Stale, Was, Worn};
        use Kind::{Heap, Map, Queue, Stack};
        let (word, code, kind, side, arguments, answers): (_, _, _, _, _, &'static [Answer]) =
            match self {
                Action::Get => ("get", 1, Map, 0, 1, &[Is, NoKey]),
                Action::Put => ("put", 2, Map, 0, 2, &[Was, NoKey, Worn]),
                Action::Cas => ("cas", 3, Map, 0, 3, &[Was, Stale, NoKey, Worn]),
                Action::Push => ("push", 4, Stack, 0, 1, &[Depth, Full]),
                Action::Pop => ("pop", 5, Stack, 0, 0, &[Item, Empty]),
                Action::Top => ("top", 6, Stack, 0, 0, &[Item, Empty]),
                Action::Insert => ("insert", 7, Heap, 0, 1, &[Size, Full]),
                Action::RemoveMin => ("removemin", 8, Heap, 0, 0, &[Item, Empty]),
                Action::Min => ("min", 9, Heap, 0, 0, &[Item, Empty]),
                Action::QueuePut => ("put", 10, Queue, 0, 1, &[At, Full, Worn]),
                Action::QueueTake => ("take", 11, Queue, 1, 0, &[Item, Empty]),
            };
        Row {
            word,
            code,
            kind,
            side,
            arguments,
            answers,
        }
    }

    /// The operation's code.
    pub fn code(self) -> u64
        ensures { result ≡ action_code self }
    {
        self.row().code
    }

    /// The action that a code stands for, if there is one.
    #[tactic(auto, unfolding(crate::specs::Codes::action_of))]
    pub fn from_code(code: u64) -> Option<Action>
        ensures { result ≡ action_of code }
    {
        action_with_code(&ACTIONS, code)
    }

    /// The kind of object that the action is for.
    pub fn kind(self) -> Kind
        ensures { result ≡ action_kind self }
    {
        self.row().kind
    }

    /// The side of the object that the action belongs to: 1 for takes of a queue, else 0.
    pub fn side(self) -> u32
        ensures { result ≡ action_side self }
    {
        self.row().side
    }

    /// How many arguments the action uses.
    pub fn argument_count(self) -> usize
        ensures { result ≡ argument_count self }
    {
        self.row().arguments
    }

    /// The action's word in a script.
    pub fn word(self) -> &'static str
        ensures { result.now ≡ action_word self }
    {
        self.row().word
    }

    /// Whether a reply to the action may say this.
    pub fn may_answer(self, answer: Answer) -> bool
        ensures { IsTrue result ↔ Contains (answers_of self) answer }
    {
        self.row().answers.contains(&answer)
    }

    /// How many of its two numbers a reply to the action uses that says this.
    pub fn value_count(self, answer: Answer) -> usize
        ensures { result ≡ value_count self answer }
    {
        match answer {
            Answer::Is => 2,
            Answer::Was => 2,
            Answer::Stale => 2,
            Answer::Item => self.side() as usize + 1,
            Answer::Depth => 1,
            Answer::Size => 1,
            Answer::At => 1,
            Answer::NoKey => 0,
            Answer::Worn => 0,
            Answer::Full => 0,
            Answer::Empty => 0,
        }
    }

    /// The action of this kind that a word names, if it names one.
    #[tactic(auto, unfolding(crate::specs::Codes::action_named))]
    pub fn from_word(kind: Kind, word: &[u8]) -> Option<Action>
        ensures { result ≡ action_named kind word.now }
    {
        named_among(&ACTIONS, kind, word)
    }
}

/// The replies in the order of their codes.
const ANSWERS: [Answer; 11] = [
    Answer::Is,
    Answer::Was,
    Answer::Stale,
    Answer::NoKey,
    Answer::Worn,
    Answer::Depth,
    Answer::Full,
    Answer::Item,
    Answer::Empty,
    Answer::Size,
    Answer::At,
];

impl Answer {
    /// The table of replies: word in an outcome line, and code.
    fn row(self) -> (&'static str, u64)
        ensures word { result.0.now ≡ answer_word self }
        ensures code { result.1 ≡ answer_code self }
    {
        match self {
            Answer::Is => ("is", 1),
            Answer::Was => ("was", 2),
            Answer::Stale => ("stale", 3),
            Answer::NoKey => ("nokey", 4),
            Answer::Worn => ("worn", 5),
            Answer::Depth => ("depth", 6),
            Answer::Full => ("full", 7),
            Answer::Item => ("item", 8),
            Answer::Empty => ("empty", 9),
            Answer::Size => ("size", 10),
            Answer::At => ("at", 11),
        }
    }

    /// The reply's code.
    pub fn code(self) -> u64
        ensures { result ≡ answer_code self }
    {
        self.row().1
    }

    /// The answer that a code stands for, if there is one.
    #[tactic(auto, unfolding(crate::specs::Codes::answer_of))]
    pub fn from_code(code: u64) -> Option<Answer>
        ensures { result ≡ answer_of code }
    {
        answer_with_code(&ANSWERS, code)
    }

    /// The answer's word in an outcome line.
    pub fn word(self) -> &'static str
        ensures { result.now ≡ answer_word self }
    {
        self.row().0
    }
}

fn action_with_code(actions: &[Action], code: u64) -> Option<Action>
    ensures { result ≡ find (λ action. code == action_code action) actions.now }
{
    actions.iter().copied().find(|action| code == action.code())
}

fn answer_with_code(answers: &[Answer], code: u64) -> Option<Answer>
    ensures { result ≡ find (λ answer. code == answer_code answer) answers.now }
{
    answers.iter().copied().find(|answer| code == answer.code())
}

fn named_among(actions: &[Action], kind: Kind, word: &[u8]) -> Option<Action>
    ensures { result ≡ find
        (λ action. (kind_code (action_kind action) == kind_code kind) && bytes_eq (action_word action) word.now) actions.now }
{
    actions.iter().copied().find(|action| action.kind() == kind && action.word().as_bytes() == word)
}
