// Reading a case file: its lines in their order, then its names, then the checks of the case.
ghost use Rattle.std.specs.Prelude.{◌≡◌, ◌+◌, ◌*◌, ◌<◌, ◌≤◌, length, take, drop, map, IfOk, IfErr, Any, Err, MatchResult, OnOk};
ghost use Rattle.arrayvec.specs.ArrayVec.{array_vec_len};
ghost use Rattle.casefile.specs.Cleared.{Cleared};
ghost use Rattle.casefile.specs.Names.{node_of};
ghost use Rattle.casefile.specs.Passed.{Passed};

use crate::cleared::clear;
use crate::fault::FileFault;
use crate::form::{Draft, read_count, read_row, read_signal};
use crate::line::Lines;
use crate::names::Names;
use crate::pins::PinList;
use crate::record::{FILE_ENTRIES, FILE_PINS, FILE_SIGNALS, FILE_STEPS, Record};
use arrayvec::ArrayVec;
use blocks::named::NamedLibrary;
use blocks::types::ValueType;
use case::Case;
use diagram::fault::CaseFault;
use diagram::rules::Diagram;
use diagram::signals::{PIN_LIST, Signal};
use property::nodes::Node;
use sentence::grammar::sentence;
use sentence::terms::{Placed, Span, Terms};

// The most bytes of a file, and of its property.
pub const FILE_LIMIT: usize = 32_768;

pub const PROPERTY_LIMIT: usize = 512;

// The number of the first signal's line.
const FIRST_SIGNAL: usize = 3;

// The first line says which form of file this is.
fn read_version(lines: &mut Lines) -> Result<(), FileFault>
    ensures { lines.new.rest.bytes.now ≡ lines.old.rest.bytes.now }
{
    let value = lines.expect(b"case=")?;
    if value.text() != b"1".as_slice() {
        return Err(value.refusal());
    }
    Ok(())
}

// A line with a number from 1 to `high`.
fn read_number_line(lines: &mut Lines, key: &[u8], high: usize) -> Result<usize, FileFault>
    ensures range { IfOk result (λ n. (1 ≤ n) × (n ≤ high)) }
    ensures same { lines.new.rest.bytes.now ≡ lines.old.rest.bytes.now }
{
    let value = lines.expect(key)?;
    read_count(value.text(), high).ok_or(value.refusal())
}

// The lines of n signals.
fn read_signals(lines: &mut Lines, n: usize) -> Result<ArrayVec<Draft, FILE_SIGNALS>, FileFault>
    requires { n ≤ 128 }
    ensures count { IfOk result (λ drafts. array_vec_len drafts ≡ n) }
    ensures same { lines.new.rest.bytes.now ≡ lines.old.rest.bytes.now }
{
    let mut drafts = ArrayVec::new();
    for _ in 0..n {
        let value = lines.expect(b"signal=")?;
        drafts.push(read_signal(value.piece).ok_or(value.refusal())?);
    }
    Ok(drafts)
}

// The rows of the table, one of n values for each step.
fn read_rows(lines: &mut Lines, n: usize, steps: usize, table: &mut [i16]) -> Result<(), FileFault>
    requires few { (n ≤ 128) × (steps ≤ 16) }
    requires room { length table.old ≡ 3072 }
    ensures behind { OnOk result (drop (steps * n) table.new ≡ drop (steps * n) table.old) }
    ensures same { lines.new.rest.bytes.now ≡ lines.old.rest.bytes.now }
{
    // By index: of what is written through chunks the check knows nothing once the loop has ended.
    for j in 0..steps {
        let value = lines.expect(b"row=")?;
        read_row(value.text(), &mut table[j * n..j * n + n]).ok_or(value.refusal())?;
    }
    Ok(())
}

// The line of the property.
fn read_property(lines: &mut Lines) -> Result<Terms, FileFault>
    ensures some { IfOk result (λ terms. 1 ≤ terms.count) }
    ensures same { lines.new.rest.bytes.now ≡ lines.old.rest.bytes.now }
{
    let value = lines.expect(b"prop=")?;
    if value.text().len() > PROPERTY_LIMIT {
        return Err(value.refusal());
    }
    sentence(value.piece.bytes, value.piece.at).map_err(|_| FileFault::Sentence {
        line: value.line,
    })
}

// What the lines of a file say, while names are still stretches of the file.
#[derive(Drop)]
struct Sheet {
    drafts: ArrayVec<Draft, FILE_SIGNALS>,
    steps: usize,
    back: usize,
    table: [i16; FILE_ENTRIES],
    property_line: usize,
    terms: Terms,
    ghost some: { 1 ≤ array_vec_len drafts },
    ghost short: { steps ≤ 16 },
}

// Reads all lines; declined at the first bad one.
fn read_lines(bytes: &[u8]) -> Result<Sheet, FileFault> {
    let mut lines = Lines::new(bytes);
    read_version(&mut lines)?;
    let n = read_number_line(&mut lines, b"signals=", FILE_SIGNALS)?;
    let drafts = read_signals(&mut lines, n)?;
    let steps = read_number_line(&mut lines, b"steps=", FILE_STEPS)?;
    let back = read_number_line(&mut lines, b"loop=", FILE_STEPS)?;
    let mut table = [0; FILE_ENTRIES];
    read_rows(&mut lines, n, steps, &mut table)?;
    let property_line = lines.line;
    let terms = read_property(&mut lines)?;
    lines.end()?;
    Ok(Sheet {
        drafts,
        steps,
        back,
        table,
        property_line,
        terms,
    })
}

// The signals with the places of their names, and their pins, once names and kinds are known. Declined at the lowest line
// whose name repeats an earlier one, or that has a name or kind that is unknown.
fn resolve_signals<L: NamedLibrary>(
    lib: &L,
    names: &Names,
    signals: &mut [Signal],
    places: &mut [Span],
    pins: &mut PinList,
) -> Result<(), FileFault>
    requires signals { length signals.old ≡ length names.now.drafts.now }
    requires places { length places.old ≡ length names.now.drafts.now }
    ensures { OnOk result (places.new ≡ map (λ d. d.name) names.now.drafts.now) }
{
    // By place in what is written: of what is written through `zip` the check knows nothing once the loop has ended.
    for (s, draft) in names.drafts.iter().enumerate() {
        let line = s + FIRST_SIGNAL;
        signals[s] = names
            .signal(lib, s, *draft, pins)
            .ok_or(FileFault::Name { line })?;
        places[s] = draft.name;
    }
    Ok(())
}

// The nodes of the property, whose line is `line`, with the places of their words, once the names of their atoms are
// known. Declined where one is unknown.
fn resolve_nodes(
    names: &Names,
    terms: &[Placed],
    line: usize,
    nodes: &mut [Node<u16>],
    places: &mut [Span],
) -> Result<(), FileFault>
    requires nodes { length nodes.old ≡ length terms.now }
    requires places { length places.old ≡ length terms.now }
    ensures nodes { OnOk result (map Some nodes.new
        ≡ map (λ t. node_of names.now.bytes.now names.now.drafts.now t.node) terms.now) }
    ensures places { OnOk result (places.new ≡ map (λ t. t.place) terms.now) }
    ensures unknown { IfErr result (λ e. (e ≡ FileFault.Name line)
        × Any (λ t. node_of names.now.bytes.now names.now.drafts.now t.node ≡ None) terms.now) }
{
    // By place in what is written, as above.
    for (f, term) in terms.iter().enumerate() {
        nodes[f] = names.node(term.node).ok_or(FileFault::Name { line })?;
        places[f] = term.place;
    }
    Ok(())
}

// The record that the lines describe, once names and kinds are known. A file with too many pins is declined after its
// names; of a block with too many pins, as many are stored as fit, since such a block is declined next.
fn resolve<L: NamedLibrary>(lib: &L, bytes: &[u8], sheet: &Sheet) -> Result<Record, FileFault> {
    let blank = clear();
    let mut signals = blank.signals;
    let mut nodes = blank.nodes;
    let mut signal_places = blank.names;
    let mut node_places = blank.places;
    let pins = blank.pins;
    let mut list = PinList { pins, met: 0 };
    let drafts = sheet.drafts.as_slice();
    let signal_count = drafts.len();
    let names = Names { bytes, drafts };
    resolve_signals(
        lib,
        &names,
        &mut signals[..signal_count],
        &mut signal_places[..signal_count],
        &mut list,
    )?;
    let terms = sheet.terms.as_slice();
    let node_count = terms.len();
    resolve_nodes(
        &names,
        terms,
        sheet.property_line,
        &mut nodes[..node_count],
        &mut node_places[..node_count],
    )?;
    let PinList { pins, met } = list;
    if met > PIN_LIST {
        return Err(FileFault::Case(CaseFault::Size));
    }
    Ok(Record {
        signal_count,
        signals,
        names: signal_places,
        pin_count: met.min(FILE_PINS),
        pins,
        steps: sheet.steps,
        back: sheet.back,
        table: sheet.table,
        node_count,
        nodes,
        places: node_places,
    })
}

// The checks of the diagram, the types, the property and the steps.
fn check_record<L: NamedLibrary>(lib: &L, rec: &Record) -> Result<(), CaseFault>
    ensures { OnOk result (Passed rec.now) }
{
    let (signals, pins) = (rec.signals(), rec.pins());
    let d = Diagram::new(signals, pins)?;
    let mut types = [ValueType::Truth; FILE_SIGNALS];
    let case = Case {
        library: lib,
        diagram: &d,
        nodes: rec.nodes(),
        steps: rec.steps,
        back: rec.back,
    };
    case.check(&mut types[..rec.signal_count])
}

// The record of a file.
fn parse<L: NamedLibrary>(lib: &L, bytes: &[u8]) -> Result<Record, FileFault>
    ensures { IfOk result (λ rec. Passed rec) }
{
    let sheet = read_lines(bytes)?;
    let rec = resolve(lib, bytes, &sheet)?;
    check_record(lib, &rec)?;
    Ok(rec)
}

// Reads a file into the record: what was read passes the checks of a case up to the steps, and a declined file leaves the
// record cleared.
pub fn read<L: NamedLibrary>(lib: &L, bytes: &[u8], rec: &mut Record) -> Result<(), FileFault>
    ensures left { MatchResult result (λ _. Passed rec.new) (λ _. Cleared rec.new) }
    ensures long { 32768 < length bytes.now → result ≡ Err FileFault.TooLong }
{
    *rec = clear();
    if bytes.len() > FILE_LIMIT {
        return Err(FileFault::TooLong);
    }
    *rec = parse(lib, bytes)?;
    Ok(())
}
