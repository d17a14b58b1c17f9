// The nodes of a property. A signal is named by an S: by its number where the truths are worked out.
ghost use Rattle.std.specs.Prelude.{◌≡◌};
ghost use Rattle.property.specs.Meaning.{compares, signal_of, holds_at};
ghost use Rattle.property.specs.Naming.{Renamed, RenamedAtom};

use looping::{Binary, Unary};

// The most nodes that a property has.
pub const NODES: usize = 64;

// How the value of a num signal stands to a number.
#[derive(Clone, Copy)]
pub enum Comparison {
    Equal,
    Less,
    Greater,
}

// What an atom says of the value of one signal: that it is 1, or how it compares with a number.
#[derive(Clone, Copy)]
pub enum Atom<S> {
    Truth {
        signal: S,
    },
    Compare {
        signal: S,
        comparison: Comparison,
        number: i16,
    },
}

// A node: an atom, or an operator with the numbers of its sides.
#[derive(Clone, Copy)]
pub enum Node<S> {
    Atom(Atom<S>),
    One(Unary, usize),
    Two(Binary, usize, usize),
}

impl Comparison {
    // Whether the given value stands so to the number.
    fn compare(self, given: i16, number: i16) -> bool
        ensures { result ≡ compares self given number }
    {
        match self {
            Comparison::Equal => given == number,
            Comparison::Less => given < number,
            Comparison::Greater => given > number,
        }
    }
}

impl Atom<u16> {
    // The signal that an atom looks at.
    pub(crate) fn signal(self) -> u16
        ensures { result ≡ signal_of self }
    {
        match self {
            Atom::Truth { signal } => signal,
            Atom::Compare { signal, .. } => signal,
        }
    }

    // Whether an atom holds where its signal has the given value; a bool signal's holds exactly at 1.
    pub(crate) fn holds_at(self, given: i16) -> bool
        ensures { result ≡ holds_at self given }
    {
        match self {
            Atom::Truth { .. } => given == 1,
            Atom::Compare {
                comparison,
                number,
                ..
            } => comparison.compare(given, number),
        }
    }
}

impl<S: Copy> Atom<S> {
    // The same atom of the signal that `name` makes of its own, or none where that makes none.
    fn try_map<R, F: Fn(S) -> Option<R>>(self, name: F) -> Option<Atom<R>>
        requires { F.IsAlwaysCallable name }
        ensures { RenamedAtom (λ s r. F.post name s r) self result }
    {
        match self {
            Atom::Truth { signal } => {
                let signal = name(signal)?;
                Some(Atom::Truth { signal })
            }
            Atom::Compare {
                signal,
                comparison,
                number,
            } => {
                let signal = name(signal)?;
                Some(Atom::Compare {
                    signal,
                    comparison,
                    number,
                })
            }
        }
    }
}

impl<S: Copy> Node<S> {
    // The same node, where an atom is of the signal that `name` makes of its own, or none where that makes none.
    pub fn try_map<R, F: Fn(S) -> Option<R>>(self, name: F) -> Option<Node<R>>
        requires { F.IsAlwaysCallable name }
        ensures { Renamed (λ s r. F.post name s r) self result }
    {
        match self {
            Node::Atom(atom) => {
                let atom = atom.try_map(name)?;
                Some(Node::Atom(atom))
            }
            Node::One(op, side) => Some(Node::One(op, side)),
            Node::Two(op, left, right) => Some(Node::Two(op, left, right)),
        }
    }
}
