// The record of a declined file.
ghost use Rattle.std.specs.Prelude.{◌≡◌};
ghost use Rattle.casefile.specs.Cleared.{Cleared};

use crate::record::{FILE_ENTRIES, FILE_PINS, FILE_SIGNALS, Record};
use blocks::types::ValueType;
use diagram::signals::{Pin, Signal};
use property::nodes::{Atom, NODES, Node};
use sentence::terms::Span;

// Bool sources, plain pins on signal 0, and zeros, in lists of full size as the record has them.
pub fn clear() -> Record
    ensures { Cleared result }
{
    let nowhere = Span::default();
    let plain = Pin {
        signal: 0,
        inverted: false,
    };
    Record {
        signal_count: 0,
        signals: [Signal::Source(ValueType::Truth); FILE_SIGNALS],
        names: [nowhere; FILE_SIGNALS],
        pin_count: 0,
        pins: [plain; FILE_PINS],
        steps: 0,
        back: 0,
        table: [0; FILE_ENTRIES],
        node_count: 0,
        nodes: [Node::Atom(Atom::Truth { signal: 0 }); NODES],
        places: [nowhere; NODES],
    }
}
