// The types of values, the faults of a library, and the shape of a block.
ghost use Rattle.std.specs.Prelude.{◌≡◌};
ghost use Rattle.blocks.specs.Letters.{letter_of};

// A block has at most this many pins, and a row this many places.
pub const PINS: usize = 8;

// The least num.
pub const NUM_LOW: i16 = -30000;

// The greatest num.
pub const NUM_HIGH: i16 = 30000;

// A library has at most this many kinds.
pub const KINDS: u32 = 65536;

// The type of a value: a bool is 0 or 1, a num lies from `NUM_LOW` to `NUM_HIGH`.
#[derive(Clone, Copy, Debug, PartialEq, Eq)]
pub enum ValueType {
    Truth,
    Num,
}

// Why a library declines a question: the kind is unknown (K), the kind has no such pin count (P), or
// the row is unlawful or a pin of the set is beyond the count (T).
#[derive(Clone, Copy, Debug, PartialEq, Eq)]
pub enum LibraryFault {
    UnknownKind,
    NoSuchCount,
    Unlawful,
}

// The letter of a fault.
impl From<LibraryFault> for char {
    ghost from_gives = { λ fault letter. letter ≡ letter_of fault };

    fn from(fault: LibraryFault) -> char {
        match fault {
            LibraryFault::UnknownKind => 'K',
            LibraryFault::NoSuchCount => 'P',
            LibraryFault::Unlawful => 'T',
        }
    }
}

// The pin types of a block, in the first `count` places, and its output type. The places beyond are `Truth`. It is an array
// with a count, since a shape is a plain value that is copied freely, and a vector is not `Copy`.
#[derive(Clone, Copy, Debug, PartialEq, Eq)]
pub struct Shape {
    pub pins: [ValueType; PINS],
    pub count: u8,
    pub output: ValueType,
}
