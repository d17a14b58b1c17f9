// Refusals as they are printed: a number, a place, and for the library's answers a letter.
ghost use Rattle.std.specs.Prelude.{◌≡◌, Some, None};
ghost use Rattle.answer.specs.Refusals.{refusal_of, case_refusal, refusal_text};

use casefile::fault::FileFault;
use diagram::fault::CaseFault;
use std::fmt;

// A refusal: its number, its place, and the library's letter where it has one. The number is a number since it is printed
// as one; the faults themselves are enums.
#[derive(Clone, Copy)]
pub struct Refusal {
    pub number: u8,
    pub place: usize,
    pub letter: Option<char>,
}

impl Refusal {
    // A refusal without a letter.
    fn plain(number: u8, place: usize) -> Refusal
        ensures { result ≡ record { number = number; place = place; letter = None } }
    {
        let letter = None;
        Refusal {
            number,
            place,
            letter,
        }
    }
}

impl From<CaseFault> for Refusal {
    ghost from_gives = { λ fault r. r ≡ case_refusal fault };

    fn from(fault: CaseFault) -> Refusal {
        match fault {
            CaseFault::Size => Refusal::plain(6, 0),
            CaseFault::Rule { signal } => Refusal::plain(7, signal),
            CaseFault::Types(at) => Refusal {
                number: 8,
                place: at.signal,
                letter: Some(at.fault.into()),
            },
            CaseFault::Tree => Refusal::plain(9, 0),
            CaseFault::Atom { node } => Refusal::plain(9, node),
            CaseFault::Steps => Refusal::plain(10, 0),
            CaseFault::Length => Refusal::plain(11, 0),
            CaseFault::Value { entry } => Refusal::plain(12, entry),
            CaseFault::Made { entry } => Refusal::plain(13, entry),
            CaseFault::Loop { signal } => Refusal::plain(14, signal),
        }
    }
}

impl From<FileFault> for Refusal {
    ghost from_gives = { λ fault r. r ≡ refusal_of fault };

    fn from(fault: FileFault) -> Refusal {
        match fault {
            FileFault::TooLong => Refusal::plain(1, 0),
            FileFault::Key { line } => Refusal::plain(2, line),
            FileFault::Form { line } => Refusal::plain(3, line),
            FileFault::Sentence { line } => Refusal::plain(4, line),
            FileFault::Name { line } => Refusal::plain(5, line),
            FileFault::Case(fault) => Refusal::from(fault),
        }
    }
}

impl fmt::Display for Refusal {
    ghost output = { λ r. Some (refusal_text r) };

    fn fmt<W: fmt::Write>(&self, f: &mut fmt::Formatter<W>) -> fmt::Result {
        let (number, place) = (self.number, self.place);
        match self.letter {
            None => write!(f, "refused={number},{place}"),
            Some(letter) => write!(f, "refused={number},{place},{letter}"),
        }
    }
}
