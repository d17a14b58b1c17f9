// The record that a case file is read into.
ghost use Rattle.std.specs.Prelude.{◌≤◌};

use diagram::signals::{Pin, Signal};
use property::nodes::{NODES, Node};
use sentence::terms::Span;

// The most signals and steps of a file, and the most pins that its blocks can have.
pub const FILE_SIGNALS: usize = 128;

pub const FILE_STEPS: usize = 16;

pub const FILE_PINS: usize = 1024;

// The entries of the largest table of a file.
pub const FILE_ENTRIES: usize = 3072;

// A case as its file says it. The values of the rows are the front of the table. Names, and the words of the nodes, are
// kept as stretches of the file. The lists are of full size, with counts beside them, since a declined file leaves each of
// them whole and cleared. Names and places are lists of their own, since a diagram and a property are lent as lists of
// signals and of nodes.
#[derive(Clone, Copy)]
pub struct Record {
    pub signal_count: usize,
    pub signals: [Signal; FILE_SIGNALS],
    pub names: [Span; FILE_SIGNALS],
    pub pin_count: usize,
    pub pins: [Pin; FILE_PINS],
    pub steps: usize,
    pub back: usize,
    pub table: [i16; FILE_ENTRIES],
    pub node_count: usize,
    pub nodes: [Node<u16>; NODES],
    pub places: [Span; NODES],
    ghost few: { signal_count ≤ 128 },
    ghost brief: { pin_count ≤ 1024 },
    ghost short: { steps ≤ 16 },
    ghost small: { node_count ≤ 64 },
}

impl Record {
    ghost use Rattle.std.specs.Prelude.{◌≡◌};
    ghost use Rattle.casefile.specs.Passed.{signals_of, pins_of, nodes_of};

    // The signals in use.
    pub fn signals(&self) -> &[Signal]
        ensures { result.now ≡ signals_of self.now }
    {
        &self.signals[..self.signal_count]
    }

    // The pins in use.
    pub fn pins(&self) -> &[Pin]
        ensures { result.now ≡ pins_of self.now }
    {
        &self.pins[..self.pin_count]
    }

    // The nodes in use.
    pub fn nodes(&self) -> &[Node<u16>]
        ensures { result.now ≡ nodes_of self.now }
    {
        &self.nodes[..self.node_count]
    }
}
