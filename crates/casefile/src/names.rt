// Names: which signal has a name, and what the drafts and nodes of a file say once their names are known.
ghost use Rattle.std.specs.Prelude.{◌≤◌, length};

use crate::form::{Draft, Make, WrittenPin};
use crate::piece::is_comma;
use crate::pins::PinList;
use blocks::named::NamedLibrary;
use diagram::signals::{Pin, Signal};
use property::nodes::Node;
use sentence::terms::Span;

// The signals of a file, by their drafts, and the file that they are stretches of.
#[derive(Clone, Copy)]
pub(crate) struct Names<'b, 'd> {
    pub bytes: &'b [u8],
    pub drafts: &'d [Draft],
    ghost few: { length drafts.now ≤ 128 },
}

impl<'b, 'd> Names<'b, 'd> {
    ghost use Rattle.std.specs.Prelude.{◌≡◌, ◌<◌, ℕ, Bool, List, Decides, IfSome, MatchOption};
    ghost use Rattle.casefile.specs.Names.{part, first_named, Repeats, node_of};
    ghost use Rattle.casefile.specs.Pins.{Writes};

    // The bytes of a stretch, as far as the file goes.
    fn text(&self, span: Span) -> &'b [u8]
        ensures { result.now ≡ part self.now.bytes.now span }
    {
        let rest = &self.bytes[span.start.min(self.bytes.len())..];
        &rest[..span.length.min(rest.len())]
    }

    // The index of the first draft of that name.
    fn index_of(&self, name: &[u8]) -> Option<usize>
        ensures first { result ≡ first_named self.now.bytes.now self.now.drafts.now name.now }
        ensures below { IfSome result (λ s. s < length self.now.drafts.now) }
    {
        self.drafts
            .iter()
            .position(|draft| self.text(draft.name) == name)
    }

    // The first signal of that name.
    fn find(&self, name: &[u8]) -> Option<u16>
        ensures { result ≡ first_named self.now.bytes.now self.now.drafts.now name.now }
    {
        let s = self.index_of(name)?;
        u16::try_from(s).ok()
    }

    // The first signal whose name stands there.
    fn named(&self, place: Span) -> Option<u16>
        ensures { result
            ≡ first_named self.now.bytes.now self.now.drafts.now (part self.now.bytes.now place) }
    {
        self.find(self.text(place))
    }

    // Whether the name of signal s is that of an earlier one.
    fn repeats(&self, s: usize, draft: Draft) -> bool
        ensures { Decides result (Repeats self.now.bytes.now self.now.drafts.now s draft) }
    {
        self.named(draft.name)
            .is_some_and(|first| usize::from(first) < s)
    }

    // The pin that a field says: none where its name is unknown.
    fn pin(&self, field: &[u8]) -> Option<Pin>
        ensures { MatchOption result
            ((inverted : Bool) (name : List ℕ) → Writes field.now inverted name
            → first_named self.now.bytes.now self.now.drafts.now name ≡ None)
            (λ p. (name : List ℕ) × Writes field.now p.inverted name
            × (first_named self.now.bytes.now self.now.drafts.now name ≡ Some p.signal)) }
    {
        let WrittenPin { name, inverted } = field.into();
        let signal = self.find(name)?;
        Some(Pin { signal, inverted })
    }

    // Adds the pins that the text lists: none where a name is unknown, as of every name.
    fn add_pins(&self, text: &[u8], list: &mut PinList) -> Option<()>
        ensures { list.old.met ≤ list.new.met }
    {
        for field in text.split(is_comma) {
            list.add(self.pin(field)?);
        }
        Some(())
    }

    // A block once its kind and its names are known: none where one is unknown. Its pins are added to the list.
    fn block<L: NamedLibrary>(
        &self,
        lib: &L,
        kind: Span,
        pins: Span,
        list: &mut PinList,
    ) -> Option<Signal> {
        let kind = lib.find(self.text(kind))?;
        let before = list.met;
        self.add_pins(self.text(pins), list)?;
        let first = u16::try_from(before).unwrap_or(u16::MAX);
        let count = u8::try_from(list.met - before).unwrap_or(u8::MAX);
        Some(Signal::Block { kind, first, count })
    }

    // The library stays a parameter beside the names: only blocks ask it.
    // Signal s once its names are known: none where its name repeats an earlier one, or where a name or its kind is
    // unknown.
    pub(crate) fn signal<L: NamedLibrary>(
        &self,
        lib: &L,
        s: usize,
        draft: Draft,
        list: &mut PinList,
    ) -> Option<Signal> {
        if self.repeats(s, draft) {
            return None;
        }
        match draft.make {
            Make::Source(of) => Some(Signal::Source(of)),
            Make::Constant(of, v) => Some(Signal::Constant(of, v)),
            Make::Delay { default, input } => Some(Signal::Delay {
                default: self.named(default)?,
                input: self.named(input)?,
            }),
            Make::Block { kind, pins } => self.block(lib, kind, pins, list),
        }
    }

    // A node once its name is known: none where it is unknown.
    pub(crate) fn node(&self, node: Node<Span>) -> Option<Node<u16>>
        ensures { result ≡ node_of self.now.bytes.now self.now.drafts.now node }
    {
        node.try_map(|name| self.named(name))
    }
}
