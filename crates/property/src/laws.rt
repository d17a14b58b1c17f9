// Laws of the truths of a property. Each function stands for the theorem that it ensures.
ghost use Rattle.property.specs.Laws.{EachEndsOneTree, TruthBySides, SignalsDecide};

// Each node of one tree is the last of exactly one tree.
pub fn each_ends_one_tree()
    ensures { EachEndsOneTree }
{}

// A table has its truths exactly if each node's entry says what the node makes of the entries of its sides.
pub fn truth_by_sides()
    ensures { TruthBySides }
{}

// The values of the signals decide a table that has its truths.
pub fn signals_decide()
    ensures { SignalsDecide }
{}
