// What a property's text is read into: nodes in their order, with the places of their words.
ghost use Rattle.std.specs.Prelude.{◌≡◌, ◌≤◌};
ghost use Rattle.property.specs.declared.nodes.Atom.TheVariants.{Truth};
ghost use Rattle.property.specs.declared.nodes.Node.TheVariants.{Atom as Leaf};

use property::nodes::{Atom, NODES, Node};

// A stretch of the file.
#[derive(Clone, Copy, Default)]
pub struct Span {
    pub start: usize,
    pub length: usize,
}

// A node that names its signal by a stretch of the file, with the place of its word.
#[derive(Clone, Copy)]
pub struct Placed {
    pub node: Node<Span>,
    pub place: Span,
}

// What stands in a place of a list that no node has taken yet.
impl Default for Placed {
    ghost is_default = { λ t. t ≡ record { node = Leaf (Truth (record { start = 0; length = 0 })); place = record { start = 0; length = 0 } } };

    fn default() -> Placed {
        let place = Span::default();
        let node = Node::Atom(Atom::Truth { signal: place });
        Placed { node, place }
    }
}

// The text is no sentence, or has more than NODES nodes.
#[derive(Clone, Copy)]
pub struct NoSentence;

// The nodes of a property, left side first, then the right side, then the node. An array with a count: they are a plain
// value that is copied freely, and a list of the library is not `Copy`.
#[derive(Clone, Copy)]
pub struct Terms {
    pub items: [Placed; NODES],
    pub count: usize,
    ghost few: { count ≤ 64 },
}

impl Terms {
    ghost use Rattle.std.specs.Prelude.{◌≡◌, ◌+◌, ◌≤◌, take, IfOk};

    // No nodes.
    pub(crate) fn none() -> Terms
        ensures { result.count ≡ 0 }
    {
        Terms {
            items: [Placed::default(); NODES],
            count: 0,
        }
    }

    // One node more, with its number; refused where there are NODES.
    pub(crate) fn add(&mut self, placed: Placed) -> Result<usize, NoSentence>
        ensures grown { self.old.count ≤ self.new.count }
        ensures last { IfOk result (λ f. f + 1 ≡ self.new.count) }
    {
        let f = self.count;
        if f >= NODES {
            return Err(NoSentence);
        }
        self.items[f] = placed;
        self.count = f + 1;
        Ok(f)
    }

    // The nodes that there are.
    pub fn as_slice(&self) -> &[Placed]
        ensures { result.now ≡ take self.now.count self.now.items }
    {
        &self.items[..self.count]
    }
}
