// The checks that every call on a case makes, in their order.
ghost use Rattle.std.specs.Prelude.{◌≡◌, length, Decides, MatchResult};
ghost use Rattle.property.specs.Numbering.{OneTree};
ghost use Rattle.case.specs.Atoms.{AtomFits, NodeFits, AllNodesFit, PropertyFault};
ghost use Rattle.case.specs.Checks.{signal_count, Checked, CheckFault};

use crate::Case;
use blocks::library::BlockLibrary;
use blocks::types::ValueType;
use blocks::values::in_type;
use diagram::fault::CaseFault;
use diagram::types::{check_types, types_of};
use property::nodes::{Atom, Node};
use property::one_tree;
use run::values::steps_fit;

// Whether an atom looks at a signal of its type, and compares with a num.
fn atom_fits(atom: Atom<u16>, types: &[ValueType]) -> bool
    ensures { Decides result (AtomFits types.now atom) }
{
    match atom {
        Atom::Truth { signal } => types.get(usize::from(signal)) == Some(&ValueType::Truth),
        Atom::Compare {
            signal,
            comparison: _,
            number,
        } => {
            types.get(usize::from(signal)) == Some(&ValueType::Num)
                && in_type(ValueType::Num, number)
        }
    }
}

// Whether a node is an operator, or an atom that fits.
fn node_fits(node: Node<u16>, types: &[ValueType]) -> bool
    ensures { Decides result (NodeFits types.now node) }
{
    match node {
        Node::Atom(atom) => atom_fits(atom, types),
        Node::One(_, _) | Node::Two(_, _, _) => true,
    }
}

// Whether the nodes are one tree in order whose atoms fit the signals of the types; declined at the lowest wrong atom.
pub(crate) fn check_property(nodes: &[Node<u16>], types: &[ValueType]) -> Result<(), CaseFault>
    ensures { MatchResult result (λ _. OneTree nodes.now × AllNodesFit types.now nodes.now) (λ e. PropertyFault types.now nodes.now e) }
{
    if !one_tree(nodes) {
        return Err(CaseFault::Tree);
    }
    match nodes.iter().position(|node| !node_fits(*node, types)) {
        None => Ok(()),
        Some(node) => Err(CaseFault::Atom { node }),
    }
}

impl<L: BlockLibrary> Case<'_, L> {
    // The checks of the library's answers and the types, of the property, and of the steps. They set `types` to the types
    // of the signals.
    pub fn check(&self, types: &mut [ValueType]) -> Result<(), CaseFault>
        requires { length types.old ≡ signal_count self.now }
        ensures { MatchResult result (λ _. Checked (L.shape self.now.library.now) self.now types.new) (λ e. CheckFault (L.shape self.now.library.now) self.now e) }
    {
        types_of(self.library, self.diagram, types)?;
        check_types(self.library, self.diagram, types)?;
        check_property(self.nodes, types)?;
        if !steps_fit(self.steps, self.back) {
            return Err(CaseFault::Steps);
        }
        Ok(())
    }
}
