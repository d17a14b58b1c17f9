// Questions: a library, a block of it, a row and a set of pins, the words of a line with one space between them.
ghost use Rattle.ask.specs.Asked.{Answers, AnswersOf};

use crate::answer::Answer;
use blocks::gates::Gates;
use blocks::library::BlockLibrary;
use blocks::pair::Pair;
use blocks::types::PINS;
use numbers::Numbers;
use std::str::FromStr;
use std::{array, fmt};
use tables::held::Tables;

// The line is no question.
#[derive(Clone, Copy)]
pub struct Malformed;

impl fmt::Display for Malformed {
    fn fmt<W: fmt::Write>(&self, f: &mut fmt::Formatter<W>) -> fmt::Result {
        f.write_str("?")
    }
}

// The library that is asked: the gates, the numbers, the pair of them, or the sample of truth tables.
#[derive(Clone, Copy)]
enum Source {
    Gates,
    Numbers,
    Pair,
    Tables,
}

impl FromStr for Source {
    type Err = Malformed;

    fn from_str(word: &str) -> Result<Source, Malformed> {
        match word {
            "gates" => Ok(Source::Gates),
            "numbers" => Ok(Source::Numbers),
            "pair" => Ok(Source::Pair),
            "tables" => Ok(Source::Tables),
            _ => Err(Malformed),
        }
    }
}

// The three questions about a block: its shape, its value for the row, and whether the set of pins forces that.
#[derive(Clone, Copy)]
pub struct Question {
    source: Source,
    kind: u16,
    count: u8,
    row: [i16; PINS],
    pins: u8,
}

// The value that the next word spells.
fn read<T: FromStr>(word: Option<&str>) -> Result<T, Malformed>
where
    T::Err: Drop,
{
    word.ok_or(Malformed)?.parse().map_err(|_| Malformed)
}

impl FromStr for Question {
    type Err = Malformed;

    fn from_str(line: &str) -> Result<Question, Malformed> {
        let mut words = line.split(' ');
        let question = Question {
            source: read(words.next())?,
            kind: read(words.next())?,
            count: read(words.next())?,
            row: array::try_from_fn(|_| read(words.next()))?,
            pins: read(words.next())?,
        };
        match words.next() {
            None => Ok(question),
            Some(_) => Err(Malformed),
        }
    }
}

impl Question {
    // What a library answers.
    fn ask<L: BlockLibrary>(&self, library: &L) -> Answer
        ensures { Answers (L.BlockLibrary.shape library.now) (L.BlockLibrary.function library.now) self.now result }
    {
        Answer {
            shape: library.shape_of(self.kind, self.count),
            value: library.value(self.kind, self.count, self.row),
            forces: library.forces(self.kind, self.count, self.row, self.pins),
        }
    }

    // What the library that is asked answers.
    pub fn answer(&self, tables: &Tables) -> Answer
        ensures { AnswersOf self.now.source tables.now self.now result }
    {
        match self.source {
            Source::Gates => self.ask(&Gates),
            Source::Numbers => self.ask(&Numbers),
            Source::Pair => self.ask(&Pair {
                first: Gates,
                second: Numbers,
            }),
            Source::Tables => self.ask(tables),
        }
    }
}
