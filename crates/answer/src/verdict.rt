// The verdict of a case file.
ghost use Rattle.std.specs.Prelude.{◌≡◌, ◌+◌, ◌*◌, ◌<◌, ◌≤◌, length, Err};
ghost use Rattle.casefile.specs.Passed.{Passed};

use crate::outcome::Verdict;
use blocks::gates::Gates;
use blocks::pair::Pair;
use case::Case;
use casefile::cleared::clear;
use casefile::fault::FileFault;
use casefile::read::read;
use casefile::record::{FILE_ENTRIES, Record};
use diagram::fault::CaseFault;
use diagram::rules::take_in;
use numbers::Numbers;

// The library of files.
fn file_library() -> Pair<Gates, Numbers> {
    Pair {
        first: Gates,
        second: Numbers,
    }
}

// The length of the table of a file with n signals and m nodes.
fn entries(n: usize, m: usize, steps: usize) -> usize
    requires { (n ≤ 128) × ((m ≤ 64) × (steps ≤ 16)) }
    ensures { (result ≡ (n + m) * steps) × (result ≤ 3072) }
{
    (n + m) * steps
}

// Opens the case of a record that was read.
fn open_record(rec: &Record) -> Result<bool, CaseFault>
    requires { Passed rec.now }
{
    let diagram = take_in(rec.signals(), rec.pins());
    let case = Case {
        library: &file_library(),
        diagram: &diagram,
        nodes: rec.nodes(),
        steps: rec.steps,
        back: rec.back,
    };
    let count = entries(rec.signal_count, rec.node_count, rec.steps);
    let mut table = rec.table;
    let mut marks = [0; FILE_ENTRIES];
    case.open(&mut table[..count], &mut marks[..count])
}

// Whether the property of a case file holds.
pub fn verdict(bytes: &[u8]) -> Result<Verdict, FileFault>
    ensures { 32768 < length bytes.now → result ≡ Err FileFault.TooLong }
{
    let lib = file_library();
    let mut rec = clear();
    read(&lib, bytes, &mut rec)?;
    Ok(open_record(&rec)?.into())
}
