//! The kinds of objects.
ghost use Rattle.std.specs.Prelude.{◌≡◌};
ghost use Rattle.pb_object.specs.Codes.{kind_code, kind_of_code, kind_word, kind_named};
ghost use Rattle.pb_object.specs.Standing.{side_count};

/// What a shared object is.
#[derive(Clone, Copy, Debug, PartialEq, Eq)]
pub enum Kind {
    /// A map of registers, each with a value and a version that counts its writes.
    Map,
    /// A bounded stack.
    Stack,
    /// A bounded heap that gives a least item first.
    Heap,
    /// A bounded queue, whose puts and takes are combined apart.
    Queue,
}

const KINDS: [Kind; 4] = [Kind::Map, Kind::Stack, Kind::Heap, Kind::Queue];

impl Kind {
    /// The number that stands for the kind in a header.
    pub fn code(self) -> u64
        ensures { result ≡ kind_code self }
    {
        match self {
            Kind::Map => 1,
            Kind::Stack => 2,
            Kind::Heap => 3,
            Kind::Queue => 4,
        }
    }

    /// The kind that a number stands for, if there is one.
    pub fn from_code(code: u64) -> Option<Kind>
        ensures { result ≡ kind_of_code code }
    {
        KINDS.iter().copied().find(|kind| code == kind.code())
    }

    /// How many sides an object of the kind has: a queue's puts and takes are combined apart, and have records of their own.
    pub fn sides(self) -> u32
        ensures { result ≡ side_count self }
    {
        match self {
            Kind::Map => 1,
            Kind::Stack => 1,
            Kind::Heap => 1,
            Kind::Queue => 2,
        }
    }

    /// The word for the kind on a command line and in a report.
    pub fn word(self) -> &'static str
        ensures { result.now ≡ kind_word self }
    {
        match self {
            Kind::Map => "map",
            Kind::Stack => "stack",
            Kind::Heap => "heap",
            Kind::Queue => "queue",
        }
    }

    /// The kind that a word names, if it names one.
    #[tactic(auto, unfolding(crate::specs::Codes::kind_named))]
    pub fn from_word(word: &[u8]) -> Option<Kind>
        ensures { result ≡ kind_named word.now }
    {
        KINDS
            .iter()
            .copied()
            .find(|kind| kind.word().as_bytes() == word)
    }
}
