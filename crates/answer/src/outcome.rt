// What is said of a property.
ghost use Rattle.std.specs.Prelude.{◌≡◌, Some};
ghost use Rattle.answer.specs.Verdicts.{verdict_of, verdict_text};

use std::fmt;

// Whether a property holds.
#[derive(Clone, Copy, PartialEq, Eq)]
pub enum Verdict {
    Holds,
    Fails,
}

impl From<bool> for Verdict {
    ghost from_gives = { λ holds r. r ≡ verdict_of holds };

    fn from(holds: bool) -> Verdict {
        if holds {
            Verdict::Holds
        } else {
            Verdict::Fails
        }
    }
}

impl fmt::Display for Verdict {
    ghost output = { λ v. Some (verdict_text v) };

    fn fmt<W: fmt::Write>(&self, f: &mut fmt::Formatter<W>) -> fmt::Result {
        f.write_str(match self {
            Verdict::Holds => "verdict=holds",
            Verdict::Fails => "verdict=fails",
        })
    }
}
