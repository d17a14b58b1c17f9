// The property's grammar, one reader for each level:
//   whole   = either | either "->" whole
//   either  = both { "|" both }
//   both    = until { "&" until }
//   until   = single | single "U" until
//   single  = ( "!" | "X" | "F" | "G" ) single | "(" whole ")" | atom
//   atom    = name [ ( "=" | "<" | ">" ) number ]
ghost use Rattle.std.specs.Prelude.{◌<◌, ◌≤◌, length, IfOk};
ghost use Rattle.sentence.specs.Signs.{comparison_of, prefix_of, Takes};

use crate::terms::{NoSentence, Placed, Span, Terms};
use crate::token::{Operator, Token, skip_spaces};
use looping::{Binary, Unary};
use property::nodes::{Atom, Comparison, Node};
use text::cursor::Cursor;
use text::number::read_number;

// What a comparison sign says.
impl TryFrom<Operator> for Comparison {
    type Error = NoSentence;

    ghost try_from_gives = { λ o r. Takes (comparison_of o) r };

    fn try_from(operator: Operator) -> Result<Comparison, NoSentence> {
        match operator {
            Operator::Equal => Ok(Comparison::Equal),
            Operator::Less => Ok(Comparison::Less),
            Operator::Greater => Ok(Comparison::Greater),
            _ => Err(NoSentence),
        }
    }
}

// The operator that stands before one side.
impl TryFrom<Operator> for Unary {
    type Error = NoSentence;

    ghost try_from_gives = { λ o r. Takes (prefix_of o) r };

    fn try_from(operator: Operator) -> Result<Unary, NoSentence> {
        match operator {
            Operator::Not => Ok(Unary::Not),
            Operator::Next => Ok(Unary::Next),
            Operator::Finally => Ok(Unary::Finally),
            Operator::Globally => Ok(Unary::Globally),
            _ => Err(NoSentence),
        }
    }
}

// The place that the readers have come to, and the nodes so far. Each reader answers the number of its node.
#[derive(Drop)]
struct Parser<'a> {
    cursor: Cursor<'a>,
    terms: Terms,
}

impl<'a> Parser<'a> {
    ghost use Rattle.std.specs.Prelude.{◌≡◌, ◌+◌, ◌<◌, ◌≤◌, IfOk, IfSome};
    ghost use Rattle.sentence.specs.Steps.{Onward, Step};

    // One node more, with its number; refused where there are NODES.
    fn add(&mut self, node: Node<Span>, place: Span) -> Result<usize, NoSentence>
        ensures cursor { self.new.cursor ≡ self.old.cursor }
        ensures grown { self.old.terms.count ≤ self.new.terms.count }
        ensures last { IfOk result (λ f. f + 1 ≡ self.new.terms.count) }
    {
        self.terms.add(Placed { node, place })
    }

    // What the next token is taken as, with its place, and past it; none where it is no operator that is taken.
    fn accept<T: Copy, F: Fn(Operator) -> Option<T>>(&mut self, take: F) -> Option<(T, Span)>
        requires { F.IsAlwaysCallable take }
        ensures onward { Onward self.old self.new }
        ensures terms { self.new.terms ≡ self.old.terms }
        ensures on { IfSome result (λ _. self.old.cursor.at < self.new.cursor.at) }
    {
        let mut next = self.cursor;
        let Token::Operator(operator, word) = Token::next(&mut next)? else {
            return None;
        };
        let taken = take(operator)?;
        self.cursor = next;
        Some((taken, word.span()))
    }

    // The place of the operator wanted, and past it, where it is the next token.
    fn meet(&mut self, wanted: Operator) -> Option<Span>
        ensures onward { Onward self.old self.new }
        ensures terms { self.new.terms ≡ self.old.terms }
        ensures on { IfSome result (λ _. self.old.cursor.at < self.new.cursor.at) }
    {
        let (_, place) = self.accept(|operator| (operator == wanted).then_some(()))?;
        Some(place)
    }

    // The number that is the next token.
    fn number(&mut self) -> Result<i16, NoSentence>
        ensures { Onward self.old self.new }
    {
        match Token::next(&mut self.cursor) {
            Some(Token::Number(word)) => read_number(word.text).ok_or(NoSentence),
            _ => Err(NoSentence),
        }
    }

    // An atom whose name stands before the place come to: a comparison with a number where its sign comes next.
    fn atom(&mut self, name: Span) -> Result<usize, NoSentence>
        ensures onward { Onward self.old self.new }
        ensures last { IfOk result (λ node. node + 1 ≡ self.new.terms.count) }
    {
        let atom = match self.accept(|operator| Comparison::try_from(operator).ok()) {
            Some((comparison, _)) => Atom::Compare {
                signal: name,
                comparison,
                number: self.number()?,
            },
            None => Atom::Truth { signal: name },
        };
        self.add(Node::Atom(atom), name)
    }

    // By a rule of form each level of the grammar has a reader of its own, and they call each other. So `whole` and
    // `until`, and `either` and `both`, have one shape and are two.
    // An either, or an either, `->` and a whole.
    #[cycle(both_either_single_until_whole)]
    fn whole(&mut self) -> Result<usize, NoSentence>
        ensures onward { Onward self.old self.new }
        ensures step { IfOk result (λ node. Step self.old self.new node) }
    {
        let left = self.either()?;
        match self.meet(Operator::Implies) {
            Some(arrow) => {
                let right = self.whole()?;
                self.add(Node::Two(Binary::Implies, left, right), arrow)
            }
            None => Ok(left),
        }
    }

    // Boths joined by `|`, from the left.
    #[cycle(both_either_single_until_whole)]
    fn either(&mut self) -> Result<usize, NoSentence>
        ensures onward { Onward self.old self.new }
        ensures step { IfOk result (λ node. Step self.old self.new node) }
    {
        let mut left = self.both()?;
        while let Some(bar) = self.meet(Operator::Or) {
            let right = self.both()?;
            left = self.add(Node::Two(Binary::Or, left, right), bar)?;
        }
        Ok(left)
    }

    // Untils joined by `&`, from the left.
    #[cycle(both_either_single_until_whole)]
    fn both(&mut self) -> Result<usize, NoSentence>
        ensures onward { Onward self.old self.new }
        ensures step { IfOk result (λ node. Step self.old self.new node) }
    {
        let mut left = self.until()?;
        while let Some(ampersand) = self.meet(Operator::And) {
            let right = self.until()?;
            left = self.add(Node::Two(Binary::And, left, right), ampersand)?;
        }
        Ok(left)
    }

    // A single, or a single, `U` and an until.
    #[cycle(both_either_single_until_whole)]
    fn until(&mut self) -> Result<usize, NoSentence>
        ensures onward { Onward self.old self.new }
        ensures step { IfOk result (λ node. Step self.old self.new node) }
    {
        let left = self.single()?;
        match self.meet(Operator::Until) {
            Some(letter) => {
                let right = self.until()?;
                self.add(Node::Two(Binary::Until, left, right), letter)
            }
            None => Ok(left),
        }
    }

    // A prefix operator before a single, a bracketed whole, or an atom.
    #[cycle(both_either_single_until_whole)]
    fn single(&mut self) -> Result<usize, NoSentence>
        ensures onward { Onward self.old self.new }
        ensures step { IfOk result (λ node. Step self.old self.new node) }
    {
        match Token::next(&mut self.cursor).ok_or(NoSentence)? {
            Token::Name(word) => self.atom(word.span()),
            Token::Number(_) => Err(NoSentence),
            Token::Operator(Operator::Open, _) => {
                let inner = self.whole()?;
                self.meet(Operator::Close).ok_or(NoSentence)?;
                Ok(inner)
            }
            Token::Operator(operator, word) => {
                let prefix = Unary::try_from(operator)?;
                let inner = self.single()?;
                self.add(Node::One(prefix, inner), word.span())
            }
        }
    }
}

// The terms of the sentence that the bytes from `from` to their end are.
pub fn sentence(bytes: &[u8], from: usize) -> Result<Terms, NoSentence>
    ensures { IfOk result (λ t. (1 ≤ t.count) × (t.count ≤ 64) × (from < length bytes.now)) }
{
    let cursor = Cursor::new(bytes, from).ok_or(NoSentence)?;
    let terms = Terms::none();
    let mut parser = Parser { cursor, terms };
    parser.whole()?;
    skip_spaces(&mut parser.cursor);
    match parser.cursor.peek() {
        None => Ok(parser.terms),
        Some(_) => Err(NoSentence),
    }
}
