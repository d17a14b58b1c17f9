// Why a file is declined.
ghost use Rattle.std.specs.Prelude.{◌≡◌};
ghost use Rattle.casefile.specs.declared.fault.FileFault.TheVariants.{Case};

use diagram::fault::CaseFault;

// A fault of a file, with its line, counted from 1, where it has one.
#[derive(Clone, Copy)]
pub enum FileFault {
    // The file has more than FILE_LIMIT bytes.
    TooLong,
    // A line's key is not the expected one, or a line is missing, left over or not ended.
    Key { line: usize },
    // A line's value has not the form of its key.
    Form { line: usize },
    // The property is no sentence of the grammar, or has too many nodes.
    Sentence { line: usize },
    // A signal's name repeats an earlier one, or a name or kind is unknown.
    Name { line: usize },
    // The case that the file describes is declined.
    Case(CaseFault),
}

impl From<CaseFault> for FileFault {
    ghost from_gives = { λ e r. r ≡ Case e };

    fn from(fault: CaseFault) -> FileFault {
        FileFault::Case(fault)
    }
}
