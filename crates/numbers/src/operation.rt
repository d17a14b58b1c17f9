// The operations on numbers.
ghost use Rattle.std.specs.Prelude.{◌≡◌};
ghost use Rattle.blocks.specs.declared.types.ValueType.TheVariants.{Num};
ghost use Rattle.numbers.specs.Numbers.{takes, output_type, number_result};
ghost use Rattle.numbers.specs.Outputs.{takes_few, output_lawful};

use crate::sums::{mean_of, stop, sum_of};
use blocks::operation::{self, Block, Forcing};
use blocks::types::{NUM_HIGH, NUM_LOW, PINS, ValueType};
use blocks::values::{pins_of, truth};

// The operations, in the order of their kind numbers.
#[derive(Clone, Copy, Debug, PartialEq, Eq)]
pub enum Operation {
    Sum,
    Max,
    Min,
    Mean,
    Ge,
    Eq,
}

pub(crate) const OPERATIONS: [Operation; 6] = [
    Operation::Sum,
    Operation::Max,
    Operation::Min,
    Operation::Mean,
    Operation::Ge,
    Operation::Eq,
];

// Their names, in the same order; apart from the operations, since a name is sought in a list of names.
pub(crate) const NAMES: [&[u8]; 6] = [b"sum", b"max", b"min", b"mean", b"ge", b"eq"];

// The ends of num at all pins, and at the first pin with the other end at the others.
const LOWS: [i16; PINS] = [NUM_LOW; PINS];

const HIGHS: [i16; PINS] = [NUM_HIGH; PINS];

const FIRST_LOW: [i16; PINS] = [
    NUM_LOW, NUM_HIGH, NUM_HIGH, NUM_HIGH, NUM_HIGH, NUM_HIGH, NUM_HIGH, NUM_HIGH,
];

const FIRST_HIGH: [i16; PINS] = [
    NUM_HIGH, NUM_LOW, NUM_LOW, NUM_LOW, NUM_LOW, NUM_LOW, NUM_LOW, NUM_LOW,
];

impl operation::Operation for Operation {
    ghost takes = { takes };

    ghost PIN = { Num };

    const PIN: ValueType = ValueType::Num;

    ghost output = { output_type };

    ghost function = { number_result };

    ghost few = { takes_few };

    ghost lawful = { output_lawful };

    fn takes_count(self, count: u8) -> bool {
        match self {
            Operation::Sum | Operation::Max | Operation::Min | Operation::Mean => 2 <= count
                && count <= 8,
            Operation::Ge | Operation::Eq => count == 2,
        }
    }

    fn output_type(self) -> ValueType {
        match self {
            Operation::Sum | Operation::Max | Operation::Min | Operation::Mean => ValueType::Num,
            Operation::Ge | Operation::Eq => ValueType::Truth,
        }
    }

    fn value(block: &Block<Operation>) -> i16 {
        let pins = pins_of(&block.row, block.count);
        match block.operation {
            Operation::Sum => stop(sum_of(pins)),
            Operation::Max => pins.iter().copied().fold(block.row[0], i16::max),
            Operation::Min => pins.iter().copied().fold(block.row[0], i16::min),
            Operation::Mean => mean_of(sum_of(pins), block.count),
            Operation::Ge => truth(block.row[0] >= block.row[1]),
            Operation::Eq => truth(block.row[0] == block.row[1]),
        }
    }
}

impl Forcing for Operation {
    // `eq` needs both its pins. Another operation's output is the same with the pins outside the set at the
    // ends that make it least and at those that make it greatest.
    fn forced(block: &Block<Operation>, pins: u8) -> bool {
        match block.operation {
            Operation::Sum | Operation::Max | Operation::Min | Operation::Mean => block.same_at(
                pins, LOWS, HIGHS,
            ),
            Operation::Ge => block.same_at(pins, FIRST_LOW, FIRST_HIGH),
            Operation::Eq => block.has_all(pins),
        }
    }
}
