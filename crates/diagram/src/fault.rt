// Why a call on a case is declined.
ghost use Rattle.std.specs.Prelude.{◌≡◌};
ghost use Rattle.diagram.specs.declared.fault.CaseFault.TheVariants.{Types};

use blocks::types::LibraryFault;

// A library's fault, with the signal at which it arose.
#[derive(Clone, Copy)]
pub struct BlockFault {
    pub signal: usize,
    pub fault: LibraryFault,
}

// A fault of a case, with its place where it has one.
#[derive(Clone, Copy)]
pub enum CaseFault {
    // Signals or pins are out of range.
    Size,
    // A pin count, a stretch or a named signal breaks the diagram rules.
    Rule { signal: usize },
    // The library declines a block, or a type, an inversion or a constant is wrong.
    Types(BlockFault),
    // The nodes are not 1 to 64, or not one tree in order.
    Tree,
    // An atom names no signal, or one of the wrong type, or its number is no num.
    Atom { node: usize },
    // The steps or the loop step are out of range.
    Steps,
    // The table or the marks have the wrong length.
    Length,
    // A signal's value is outside its type.
    Value { entry: usize },
    // A value is not the one that the diagram makes.
    Made { entry: usize },
    // The loop does not close.
    Loop { signal: usize },
}

impl From<BlockFault> for CaseFault {
    ghost from_gives = { λ e r. r ≡ Types e };

    fn from(fault: BlockFault) -> CaseFault {
        CaseFault::Types(fault)
    }
}
