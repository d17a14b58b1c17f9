// The values that a diagram makes.
ghost use Rattle.std.specs.Prelude.{◌≡◌, ℕ, ◌+◌, ◌*◌, ◌/◌, ◌%◌, ◌<◌, ◌≤◌, true, length, All, Decides, IfSome, MatchOption};
ghost use Rattle.blocks.specs.Blocks.{InType};
ghost use Rattle.blocks.specs.declared.types.ValueType.TheVariants.{Truth};
ghost use Rattle.run.specs.Values.{value_at, TypedBelow};
ghost use Rattle.run.specs.Making.{shown, pin_shows, padded, delay_reads, made_at, Is, AllMade, FirstUnmade};

use blocks::library::BlockLibrary;
use blocks::types::PINS;
use diagram::rules::Diagram;
use diagram::signals::{Pin, Signal};

// What a pin shows of a value: an inverted one shows 1 minus it.
fn turned(pin: Pin, v: i16) -> i16
    ensures { (pin.inverted ≡ true → InType Truth v) → result ≡ shown pin.inverted v }
{
    if pin.inverted {
        1i16.wrapping_sub(v)
    } else {
        v
    }
}

// The row that a block's pins show, at the step whose entries begin at `start`.
fn row_at(pins: &[Pin], table: &[i16], start: usize) -> [i16; PINS]
    requires few { length pins.now ≤ 8 }
    requires inside { All (λ pin. start + pin.signal < length table.now) pins.now }
    ensures { All (λ pin. pin.inverted ≡ true → InType Truth (value_at table.now (start + pin.signal))) pins.now → result ≡ padded (length pins.now) (pin_shows pins.now 0 table.now start) }
{
    let mut row = [0; PINS];
    // By place: the row is longer than the pins.
    for (k, pin) in pins.iter().enumerate() {
        row[k] = turned(*pin, table[start + usize::from(pin.signal)]);
    }
    row
}

// What a delay holds at the step whose entries begin at `start`: its default's value at the first step, else its input's one
// step earlier.
fn delayed(n: usize, table: &[i16], start: usize, default: u16, input: u16) -> i16
    requires whole { (0 < n) × (start / n * n ≡ start) }
    requires inside { delay_reads n (start / n) default input < length table.now }
    ensures { result ≡ value_at table.now (delay_reads n (start / n) default input) }
{
    if start == 0 {
        table[usize::from(default)]
    } else {
        table[start - n + usize::from(input)]
    }
}

// The library and the diagram stay two parameters in this crate, as in crate `diagram`: a case has both.
// The value that the diagram makes of signal s at the step whose entries begin at `start`, from those of lower entries; none
// for a source. An entry is told by these two, since finding them by a division costs more than a delay or a constant.
pub(crate) fn made<L: BlockLibrary>(
    lib: &L,
    d: &Diagram,
    table: &[i16],
    start: usize,
    s: usize,
) -> Option<i16>
    requires inside { start + s < length table.now }
    requires step { start ≡ (start + s) / length d.now.signals.now * length d.now.signals.now }
    ensures { TypedBelow (L.shape lib.now) d.now.signals.now d.now.pins.now table.now (start + s) → result ≡ made_at (L.function lib.now) d.now.signals.now d.now.pins.now table.now (start + s) }
{
    match d.signals[s] {
        Signal::Source(_) => None,
        Signal::Constant(_, v) => Some(v),
        Signal::Delay { default, input } => {
            Some(delayed(d.signals.len(), table, start, default, input))
        }
        Signal::Block { kind, first, count } => {
            let row = row_at(d.stretch_of(first, count), table, start);
            lib.value(kind, count, row).ok()
        }
    }
}

// Whether a value is the one that is made, if one is.
fn is_made(made: Option<i16>, v: i16) -> bool
    ensures { Decides result (Is made v) }
{
    made.is_none_or(|w| v == w)
}

// The signal of the entry after one of signal s, where there are n signals.
fn signal_after(s: usize, n: usize) -> usize
    requires { s < n }
    ensures { (e : ℕ) → s ≡ e % n → result ≡ (e + 1) % n }
{
    if s + 1 < n { s + 1 } else { 0 }
}

// Whether the value of entry e, which is one of signal s, is the one that the diagram makes, if it makes one.
fn keeps_made<L: BlockLibrary>(lib: &L, d: &Diagram, table: &[i16], e: usize, s: usize) -> bool
    requires inside { e < length table.now }
    requires signal { s ≡ e % length d.now.signals.now }
    ensures { TypedBelow (L.shape lib.now) d.now.signals.now d.now.pins.now table.now (length table.now) → Decides result (Is (made_at (L.function lib.now) d.now.signals.now d.now.pins.now table.now e) (value_at table.now e)) }
{
    is_made(made(lib, d, table, e - s, s), table[e])
}

// The lowest entry whose value is not the one that the diagram makes.
pub fn not_made<L: BlockLibrary>(lib: &L, d: &Diagram, table: &[i16]) -> Option<usize>
    ensures within { IfSome result (λ e. e < length table.now) }
    ensures exact { TypedBelow (L.shape lib.now) d.now.signals.now d.now.pins.now table.now (length table.now) → MatchOption result (AllMade (L.function lib.now) d.now.signals.now d.now.pins.now table.now (length table.now)) (λ e. FirstUnmade (L.function lib.now) d.now.signals.now d.now.pins.now table.now (length table.now) e) }
{
    // The signal is counted beside the entry: a division for each entry costs more than a delay or a constant, and with a
    // chain over a `cycle` the proof did not close.
    let mut s = 0;
    for e in 0..table.len() {
        if !keeps_made(lib, d, table, e, s) {
            return Some(e);
        }
        s = signal_after(s, d.signals.len());
    }
    None
}
