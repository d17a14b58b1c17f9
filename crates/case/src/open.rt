// Opening a case: its checks, the truths of its nodes, and the root's truth at the first step.
ghost use Rattle.std.specs.Prelude.{◌≡◌, ℕ, ◌-◌, ◌<◌, ◌≤◌, length, pos, IfOk, Decides, MatchResult, OnErr, OnOk, List, slice_index};
ghost use Rattle.blocks.specs.declared.types.ValueType.{ValueType};
ghost use Rattle.property.specs.Meaning.{Filled, Fitting, value, node_entry};
ghost use Rattle.case.specs.Checks.{Checked, run_entries, signal_count, RunOf, RunFault, Passes, OpenFault};

use crate::Case;
use blocks::library::BlockLibrary;
use blocks::types::ValueType;
use diagram::fault::CaseFault;
use looping::Lasso;
use looping::limits::SIGNALS;
use property::fill;
use run::closing::open_at;
use run::making::not_made;
use run::values::outside_type;

// Whether a value is the truth that holds.
fn is_one(v: i16) -> bool
    ensures { Decides result (v ≡ pos 1) }
{
    v == 1
}

impl<L: BlockLibrary> Case<'_, L> {
    // Whether the first entries of a table are a run: their types, then what the diagram makes, then the loop.
    fn check_run(&self, types: &[ValueType], table: &[i16]) -> Result<(), CaseFault>
        requires typed { Checked (L.shape self.now.library.now) self.now types.now }
        requires table { run_entries self.now ≤ length table.now }
        ensures { MatchResult result (λ _. RunOf (L.function self.now.library.now) self.now types.now table.now) (λ e. RunFault (L.function self.now.library.now) self.now types.now table.now e) }
    {
        let n = self.diagram.signals.len();
        let run = &table[..n * self.steps];
        if let Some(entry) = outside_type(types, run) {
            return Err(CaseFault::Value { entry });
        }
        if let Some(entry) = not_made(self.library, self.diagram, run) {
            return Err(CaseFault::Made { entry });
        }
        let (back, last) = (n * (self.back - 1), n * (self.steps - 1));
        if let Some(signal) = open_at(self.diagram, table, back, last) {
            return Err(CaseFault::Loop { signal });
        }
        Ok(())
    }

    // All checks of a case. They set `types` to the types of the signals.
    fn check_all(
        &self,
        table: &[i16],
        marks: &[u8],
        types: &mut [ValueType],
    ) -> Result<(), CaseFault>
        requires { length types.old ≡ signal_count self.now }
        ensures { MatchResult result (λ _. Passes (L.shape self.now.library.now) (L.function self.now.library.now) self.now table.now marks.now types.new) (λ e. OpenFault (L.shape self.now.library.now) (L.function self.now.library.now) self.now table.now marks.now e) }
    {
        self.check(types)?;
        let entries = (self.diagram.signals.len() + self.nodes.len()) * self.steps;
        if table.len() != entries || marks.len() != entries {
            return Err(CaseFault::Length);
        }
        self.check_run(types, table)
    }

    // The truth of the root, the last node, at the first step.
    fn root_truth(&self, table: &[i16]) -> bool
        requires { Fitting self.now.nodes.now (signal_count self.now) self.now.steps self.now.back table.now }
        ensures { Decides result (value table.now (node_entry (signal_count self.now) (length self.now.nodes.now) self.now.steps (length self.now.nodes.now - 1) 1) ≡ pos 1) }
    {
        let root = self.diagram.signals.len() * self.steps + (self.nodes.len() - 1);
        is_one(table[root])
    }

    // Fills in the nodes' truths, clears the marks, and answers the root's truth at the first step. A declined call leaves
    // the table and the marks as they were.
    pub fn open(&self, table: &mut [i16], marks: &mut [u8]) -> Result<bool, CaseFault>
        ensures filled { OnOk result (Filled self.now.nodes.now (signal_count self.now) self.now.steps self.now.back table.new) }
        ensures root { IfOk result (λ b. Decides b (value table.new (node_entry (signal_count self.now) (length self.now.nodes.now) self.now.steps (length self.now.nodes.now - 1) 1) ≡ pos 1)) }
        ensures kept { (e : ℕ) → e < run_entries self.now → value table.new e ≡ value table.old e }
        ensures cleared { OnOk result ((k : ℕ) → k < length marks.new → slice_index marks.new k ≡ 0) }
        ensures declined { OnErr result ((table.new ≡ table.old) × (marks.new ≡ marks.old)) }
        ensures checked { MatchResult result (λ _. (types : List ValueType) × Passes (L.shape self.now.library.now) (L.function self.now.library.now) self.now table.old marks.old types) (λ e. OpenFault (L.shape self.now.library.now) (L.function self.now.library.now) self.now table.old marks.old e) }
    {
        let n = self.diagram.signals.len();
        let mut types = [ValueType::Truth; SIGNALS];
        self.check_all(table, marks, &mut types[..n])?;
        let lasso = Lasso {
            steps: self.steps,
            back: self.back,
        };
        fill(self.nodes, n, lasso, table);
        marks.fill(0);
        Ok(self.root_truth(table))
    }
}
