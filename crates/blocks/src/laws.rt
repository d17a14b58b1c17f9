// What holds of forcing in every library.
ghost use Rattle.blocks.specs.Laws.{EachBlock, SupersetForces, FullForces, LooksAtSet};

use crate::library::BlockLibrary;

// A superset of a forcing set forces.
pub fn superset_forces<L: BlockLibrary>(library: &L)
    ensures { EachBlock (L.BlockLibrary.shape library.now) (L.BlockLibrary.function library.now) SupersetForces }
{}

// The set of all pins forces.
pub fn full_set_forces<L: BlockLibrary>(library: &L)
    ensures { EachBlock (L.BlockLibrary.shape library.now) (L.BlockLibrary.function library.now) FullForces }
{}

// Whether a set forces depends only on the values of the row at the pins of the set.
pub fn forcing_looks_at_set<L: BlockLibrary>(library: &L)
    ensures { EachBlock (L.BlockLibrary.shape library.now) (L.BlockLibrary.function library.now) LooksAtSet }
{}
