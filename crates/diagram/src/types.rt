// The types of signals: each has one, and pins, delays and constants fit.
ghost use Rattle.std.specs.Prelude.{◌≡◌, ℕ, ◌+◌, ◌<◌, ◌≤◌, length, Some, Decides, MatchResult, slice_index_or, All};
ghost use Rattle.blocks.specs.declared.types.ValueType.TheVariants.{Truth};
ghost use Rattle.diagram.specs.Rules.{signal_at, pin_at};
ghost use Rattle.diagram.specs.Typing.{HasType, Typed, missing, FirstMissing, PinFits, PinsFit, Fits, AllFit, FirstMisfit};

use crate::fault::BlockFault;
use crate::rules::Diagram;
use crate::signals::{Pin, Signal};
use blocks::library::BlockLibrary;
use blocks::types::{LibraryFault, Shape, ValueType};
use blocks::values::in_type;

// The type of a signal, where those of lower signals are known.
fn type_of<L: BlockLibrary>(
    lib: &L,
    signal: Signal,
    types: &[ValueType],
) -> Result<ValueType, LibraryFault>
    requires { (d i : ℕ) → signal ≡ Signal.Delay d i → d < length types.now }
    ensures { MatchResult result (λ t. HasType (L.shape lib.now) types.now signal t) (λ e. missing (L.shape lib.now) signal ≡ Some e) }
{
    match signal {
        Signal::Source(t) | Signal::Constant(t, _) => Ok(t),
        Signal::Delay { default, input: _ } => Ok(types[usize::from(default)]),
        Signal::Block {
            kind,
            first: _,
            count,
        } => Ok(lib.shape_of(kind, count)?.output),
    }
}

// Sets `types` to the types of all signals; declined at the lowest signal whose block the library does not have.
pub fn types_of<L: BlockLibrary>(
    lib: &L,
    d: &Diagram,
    types: &mut [ValueType],
) -> Result<(), BlockFault>
    requires { length d.now.signals.now ≤ length types.old }
    ensures { MatchResult result (λ _. Typed (L.shape lib.now) d.now.signals.now types.new (length d.now.signals.now)) (λ e. FirstMissing (L.shape lib.now) d.now.signals.now e) }
{
    // A delay has the type of a lower signal, so each type is set before the next is asked for.
    for (s, signal) in d.signals.iter().enumerate() {
        let t = type_of(lib, *signal, types).map_err(|fault| BlockFault { signal: s, fault })?;
        types[s] = t;
    }
    Ok(())
}

// Whether a pin fits the type that its block wants.
fn pin_fits(types: &[ValueType], pin: Pin, wanted: ValueType) -> bool
    requires { pin.signal < length types.now }
    ensures { Decides result (PinFits types.now pin wanted) }
{
    types[usize::from(pin.signal)] == wanted && (!pin.inverted || wanted == ValueType::Truth)
}

// Whether the pins of a block fit the types that its shape wants.
fn pins_fit(types: &[ValueType], pins: &[Pin], shape: Shape) -> bool
    requires few { length pins.now ≤ 8 }
    requires named { All (λ pin. pin.signal < length types.now) pins.now }
    ensures { Decides result ((p : ℕ) → p < length pins.now → PinFits types.now (pin_at pins.now p) (slice_index_or shape.pins p Truth)) }
{
    pins.iter()
        .zip(&shape.pins)
        .all(|(pin, wanted)| pin_fits(types, *pin, *wanted))
}

// A diagram with its library and the types of its signals.
#[derive(Drop)]
struct Typing<'t, L> {
    library: &'t L,
    diagram: &'t Diagram<'t, 't>,
    types: &'t [ValueType],
    ghost size: { length diagram.now.signals.now ≤ length types.now },
}

impl<'t, L: BlockLibrary> Typing<'t, L> {
    // Whether signal s fits the types.
    fn signal_fits(&self, s: usize) -> bool
        requires { s < length self.now.diagram.now.signals.now }
        ensures { let d = self.now.diagram.now in Decides result (Fits (L.shape self.now.library.now) self.now.types.now d.pins.now (signal_at d.signals.now s)) }
    {
        match self.diagram.signals[s] {
            Signal::Source(_) => true,
            Signal::Constant(t, v) => in_type(t, v),
            Signal::Delay { default, input } => {
                self.types[usize::from(input)] == self.types[usize::from(default)]
            }
            Signal::Block { kind, first, count } => {
                let pins = self.diagram.stretch_of(first, count);
                self.library
                    .shape_of(kind, count)
                    .is_ok_and(|shape| pins_fit(self.types, pins, shape))
            }
        }
    }
}

// Whether all signals fit the types; declined at the lowest that does not.
pub fn check_types<L: BlockLibrary>(
    lib: &L,
    d: &Diagram,
    types: &[ValueType],
) -> Result<(), BlockFault>
    requires { length d.now.signals.now ≤ length types.now }
    ensures { MatchResult result (λ _. AllFit (L.shape lib.now) types.now d.now.signals.now d.now.pins.now) (λ e. FirstMisfit (L.shape lib.now) types.now d.now.signals.now d.now.pins.now e) }
{
    let typing = Typing {
        library: lib,
        diagram: d,
        types,
    };
    let misfit = d
        .signals
        .iter()
        .enumerate()
        .position(|(s, _)| !typing.signal_fits(s));
    match misfit {
        None => Ok(()),
        Some(signal) => Err(BlockFault {
            signal,
            fault: LibraryFault::Unlawful,
        }),
    }
}
