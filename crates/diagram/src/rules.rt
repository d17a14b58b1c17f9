// Taking a diagram in: its rules are checked once, and hold for good.
ghost use Rattle.std.specs.Prelude.{◌≡◌, ℕ, ◌+◌, ◌<◌, ◌≤◌, true, length, Decides, MatchOption, MatchResult, slice_range};
ghost use Rattle.looping.specs.Limits.{signal_limit};
ghost use Rattle.diagram.specs.Rules.{count_of, first_of, sized, named, signal_at, pin_at, SignalRules, Keeps, Rules, FirstBroken, RulesFault};

use crate::fault::CaseFault;
use crate::signals::{PIN_LIST, Pin, Signal};
use blocks::types::PINS;
use looping::limits::SIGNALS;

// A diagram that keeps the rules.
#[derive(Clone, Copy)]
pub struct Diagram<'s, 'p> {
    pub signals: &'s [Signal],
    pub pins: &'p [Pin],
    ghost some: { 1 ≤ length signals.now },
    ghost few: { length signals.now ≤ signal_limit },
    ghost brief: { length pins.now ≤ 4096 },
    ghost sized: { (s : ℕ) → s < length signals.now → sized (signal_at signals.now s) ≡ true },
    ghost stretch: { (s : ℕ) → s < length signals.now → first_of (signal_at signals.now s) + count_of (signal_at signals.now s) ≤ length pins.now },
    ghost lower: { (s k : ℕ) → s < length signals.now → k < count_of (signal_at signals.now s) → (pin_at pins.now (first_of (signal_at signals.now s) + k)).signal < s },
    ghost named: { (s : ℕ) → s < length signals.now → named (length signals.now) s (signal_at signals.now s) ≡ true },
}

impl<'s, 'p> Diagram<'s, 'p> {
    // The diagram of signals and pins, where they keep the rules; else why they do not.
    pub fn new(signals: &'s [Signal], pins: &'p [Pin]) -> Result<Diagram<'s, 'p>, CaseFault>
        ensures { MatchResult result (λ d. Rules signals.now pins.now × (d.signals.now ≡ signals.now) × (d.pins.now ≡ pins.now)) (λ e. RulesFault signals.now pins.now e) }
    {
        check_rules(signals, pins)?;
        Ok(Diagram { signals, pins })
    }

    // The pins of a stretch of the list.
    pub fn stretch_of(&self, first: u16, count: u8) -> &'p [Pin]
        requires { first + count ≤ length self.now.pins.now }
        ensures { result.now ≡ slice_range self.now.pins.now first (first + count) }
    {
        let first = usize::from(first);
        &self.pins[first..first + usize::from(count)]
    }
}

// Whether pins all name signals below s.
fn all_below(pins: &[Pin], s: usize) -> bool
    ensures { Decides result ((k : ℕ) → k < length pins.now → (pin_at pins.now k).signal < s) }
{
    pins.iter().all(|pin| usize::from(pin.signal) < s)
}

// Whether signal s, one of n, keeps the rules.
fn keeps_rules(n: usize, pins: &[Pin], s: usize, signal: Signal) -> bool
    ensures { Decides result (SignalRules n pins.now s signal) }
{
    match signal {
        Signal::Source(_) | Signal::Constant(_, _) => true,
        Signal::Delay { default, input } => usize::from(default) < s && usize::from(input) < n,
        Signal::Block {
            kind: _,
            first,
            count,
        } => {
            let (first, count) = (usize::from(first), usize::from(count));
            if count < 1 || count > PINS || first + count > pins.len() {
                return false;
            }
            all_below(&pins[first..first + count], s)
        }
    }
}

// The lowest signal that breaks a rule.
fn first_broken(signals: &[Signal], pins: &[Pin]) -> Option<usize>
    ensures { MatchOption result ((s : ℕ) → s < length signals.now → Keeps signals.now pins.now s) (λ s. FirstBroken signals.now pins.now s) }
{
    let n = signals.len();
    signals
        .iter()
        .enumerate()
        .position(|(s, signal)| !keeps_rules(n, pins, s, *signal))
}

// Whether signals and pins keep the rules: `Size` where there are too few or too many, else `Rule` at the lowest signal
// that breaks one.
pub fn check_rules(signals: &[Signal], pins: &[Pin]) -> Result<(), CaseFault>
    ensures { MatchResult result (λ _. Rules signals.now pins.now) (λ e. RulesFault signals.now pins.now e) }
{
    if signals.is_empty() || signals.len() > SIGNALS || pins.len() > PIN_LIST {
        return Err(CaseFault::Size);
    }
    match first_broken(signals, pins) {
        None => Ok(()),
        Some(signal) => Err(CaseFault::Rule { signal }),
    }
}

// The diagram of signals and pins that keep the rules.
pub fn take_in<'s, 'p>(signals: &'s [Signal], pins: &'p [Pin]) -> Diagram<'s, 'p>
    requires { Rules signals.now pins.now }
    ensures signals { result.signals.now ≡ signals.now }
    ensures pins { result.pins.now ≡ pins.now }
{
    Diagram { signals, pins }
}
