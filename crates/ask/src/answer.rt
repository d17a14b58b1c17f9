// Answers as they are printed: the shape, the value and the forcing, with one space between them.
use blocks::types::{LibraryFault, Shape, ValueType};
use std::fmt;

// One of the three as it is printed: what the library answers, or the letter with which it declines.
#[derive(Drop)]
struct Field<T>(Result<T, LibraryFault>);

impl<T: fmt::Display> fmt::Display for Field<T> {
    fn fmt<W: fmt::Write>(&self, f: &mut fmt::Formatter<W>) -> fmt::Result {
        match &self.0 {
            Ok(answer) => write!(f, "{answer}"),
            Err(fault) => write!(f, "{}", char::from(*fault)),
        }
    }
}

// A shape in letters: a letter for each pin, a colon, and the output's letter.
#[derive(Drop)]
struct Letters(Shape);

// The letter of a type: a function and no conversion, since a type has a letter in these answers alone.
fn letter(of: ValueType) -> char {
    match of {
        ValueType::Truth => 'b',
        ValueType::Num => 'n',
    }
}

impl fmt::Display for Letters {
    fn fmt<W: fmt::Write>(&self, f: &mut fmt::Formatter<W>) -> fmt::Result {
        let Letters(shape) = self;
        for pin in shape.pins.iter().take(usize::from(shape.count)) {
            f.write_char(letter(*pin))?;
        }
        write!(f, ":{}", letter(shape.output))
    }
}

// Whether a set of pins forces, in a word.
#[derive(Drop)]
struct Forcing(bool);

impl fmt::Display for Forcing {
    fn fmt<W: fmt::Write>(&self, f: &mut fmt::Formatter<W>) -> fmt::Result {
        f.write_str(if self.0 { "yes" } else { "no" })
    }
}

// What a library answers to a question.
#[derive(Drop)]
pub struct Answer {
    pub shape: Result<Shape, LibraryFault>,
    pub value: Result<i16, LibraryFault>,
    pub forces: Result<bool, LibraryFault>,
}

impl fmt::Display for Answer {
    fn fmt<W: fmt::Write>(&self, f: &mut fmt::Formatter<W>) -> fmt::Result {
        let shape = Field(self.shape.map(Letters));
        let value = Field(self.value);
        let forces = Field(self.forces.map(Forcing));
        write!(f, "{shape} {value} {forces}")
    }
}
