// The largest diagram: 256 sources, 256 delays, and 512 blocks of eight pins; at even numbers bools, at odd ones nums.
ghost use Rattle.std.specs.Prelude.{◌<◌};

use blocks::types::ValueType;
use diagram::signals::{Pin, Signal};
use std::array;

// The numbers of its signals, of its pins and of its steps.
pub(crate) const SIGNALS: usize = 1024;

pub(crate) const PIN_LIST: usize = 4096;

pub(crate) const STEPS: usize = 64;

pub(crate) const ENTRIES: usize = SIGNALS * STEPS;

// The type of a signal.
fn type_of(s: usize) -> ValueType {
    if s % 2 == 0 {
        ValueType::Truth
    } else {
        ValueType::Num
    }
}

// The block at a signal: gates `and`, `or`, `xor` in turn on bools, and `sum`, `max`, `min`, `mean` on nums, in the numbers of
// the pair of gates and numbers.
fn kind_of(s: usize) -> u16 {
    let turn = s / 2;
    if s % 2 == 0 {
        [0, 1, 2][turn % 3]
    } else {
        [5, 6, 7, 8][turn % 4]
    }
}

// Signal s. Here and below each cast is of a number that fits; `try_from` would need a branch for what cannot be.
fn signal(s: usize) -> Signal
    requires { s < 1024 }
{
    if s < 256 {
        Signal::Source(type_of(s))
    } else if s < 512 {
        Signal::Delay {
            default: (s - 256) as u16,
            input: (s + 512) as u16,
        }
    } else {
        Signal::Block {
            kind: kind_of(s),
            first: ((s - 512) * 8) as u16,
            count: 8,
        }
    }
}

// The signals.
pub(crate) fn signals() -> [Signal; SIGNALS] {
    array::from_fn(signal)
}

// Pin k is one of the eight of block k / 8: the lower signals of its type, and every third bool pin inverted.
fn pin(k: usize) -> Pin
    requires { k < 4096 }
{
    let s = k / 8 + 512;
    Pin {
        signal: (s - 2 * (k % 8 + 1)) as u16,
        inverted: s % 2 == 0 && k % 3 == 0,
    }
}

// The pins.
pub(crate) fn pins() -> [Pin; PIN_LIST] {
    array::from_fn(pin)
}

// A value for an entry: of a source any of its type, of another signal 0, until it is filled.
fn value(e: usize) -> i16 {
    let (s, mixed) = (e % SIGNALS, e % 7919 * 7919);
    if s >= 256 {
        0
    } else if s % 2 == 0 {
        i16::from(mixed % 5 < 2)
    } else {
        (mixed % 30_001) as i16
    }
}

// The table with the sources' values.
pub(crate) fn sources() -> [i16; ENTRIES] {
    array::from_fn(value)
}
