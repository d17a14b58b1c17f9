// Signals and pins.
use blocks::types::ValueType;

// The most pins of a diagram.
pub const PIN_LIST: usize = 4096;

// A signal: a source with a type, a constant with a type and a value, a delay that names a default and an input, or a
// block with a kind and a stretch of the pin list.
#[derive(Clone, Copy)]
pub enum Signal {
    Source(ValueType),
    Constant(ValueType, i16),
    Delay { default: u16, input: u16 },
    Block { kind: u16, first: u16, count: u8 },
}

// A pin names a signal; an inverted one shows 1 minus the signal.
#[derive(Clone, Copy)]
pub struct Pin {
    pub signal: u16,
    pub inverted: bool,
}
