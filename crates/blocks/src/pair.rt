// Two libraries as one.
ghost use Rattle.std.specs.Prelude.{◌≡◌, ◌-◌, cond, nat_lt};
ghost use Rattle.blocks.specs.Pair.{pair_size, pair_shape, pair_function, pair_named};
ghost use Rattle.blocks.specs.Paired.{paired_size, paired_counted, paired_lawful, paired_known};

use crate::library::BlockLibrary;
use crate::named::NamedLibrary;
use crate::types::{KINDS, LibraryFault, PINS, Shape};

// The kinds of `first`, then those of `second`, as far as kind numbers reach.
#[derive(Clone, Copy)]
pub struct Pair<X, Y> {
    pub first: X,
    pub second: Y,
}

impl<X: BlockLibrary, Y> Pair<X, Y> {
    // The second's kind that a kind stands for, where it is not one of the first's.
    fn past_first(&self, kind: u16) -> Option<u16>
        ensures { result ≡ cond (nat_lt kind (X.BlockLibrary.size self.now.first)) None (Some (kind - X.BlockLibrary.size self.now.first)) }
    {
        let past = u32::from(kind).checked_sub(self.first.kinds())?;
        u16::try_from(past).ok()
    }
}

impl<X: BlockLibrary, Y: BlockLibrary> BlockLibrary for Pair<X, Y> {
    ghost size = { λ p. pair_size (X.BlockLibrary.size p.first) (Y.BlockLibrary.size p.second) };

    ghost shape = { λ p k c. pair_shape (X.BlockLibrary.size p.first) (X.BlockLibrary.shape p.first) (Y.BlockLibrary.shape p.second) k c };

    ghost function = { λ p k c row. pair_function (X.BlockLibrary.size p.first) (X.BlockLibrary.function p.first) (Y.BlockLibrary.function p.second) k c row };

    ghost sized = { λ s. paired_size _ _ _ (X.BlockLibrary.function s.first) (Y.BlockLibrary.function s.second) _ (X.BlockLibrary.sized s.first) (Y.BlockLibrary.sized s.second) };

    ghost counted = { λ s k c pins out.
        paired_counted _ (X.BlockLibrary.shape s.first) (Y.BlockLibrary.shape s.second) (X.BlockLibrary.function s.first) (Y.BlockLibrary.function s.second) k c pins out
        (X.BlockLibrary.counted s.first k c pins out) (Y.BlockLibrary.counted s.second _ c pins out) };

    ghost lawful = { λ s k c pins out row e good.
        paired_lawful _ (X.BlockLibrary.shape s.first) (Y.BlockLibrary.shape s.second) (X.BlockLibrary.function s.first) (Y.BlockLibrary.function s.second) k c pins out row
        (λ e. X.BlockLibrary.lawful s.first k c pins out row e good) (λ e. Y.BlockLibrary.lawful s.second _ c pins out row e good) e };

    fn kinds(&self) -> u32 {
        (self.first.kinds() + self.second.kinds()).min(KINDS)
    }

    fn shape_of(&self, kind: u16, count: u8) -> Result<Shape, LibraryFault> {
        match self.past_first(kind) {
            None => self.first.shape_of(kind, count),
            Some(kind) => self.second.shape_of(kind, count),
        }
    }

    fn value(&self, kind: u16, count: u8, row: [i16; PINS]) -> Result<i16, LibraryFault> {
        match self.past_first(kind) {
            None => self.first.value(kind, count, row),
            Some(kind) => self.second.value(kind, count, row),
        }
    }

    fn forces(
        &self,
        kind: u16,
        count: u8,
        row: [i16; PINS],
        pins: u8,
    ) -> Result<bool, LibraryFault> {
        match self.past_first(kind) {
            None => self.first.forces(kind, count, row, pins),
            Some(kind) => self.second.forces(kind, count, row, pins),
        }
    }
}

impl<X: NamedLibrary, Y: NamedLibrary> NamedLibrary for Pair<X, Y> {
    ghost named = { λ p name. pair_named (X.BlockLibrary.size p.first) (X.NamedLibrary.named p.first name) (Y.NamedLibrary.named p.second name) };

    ghost known = { λ s name k e.
        paired_known (X.BlockLibrary.size s.first) (Y.BlockLibrary.size s.second) (X.NamedLibrary.named s.first name) (Y.NamedLibrary.named s.second name) k
        (X.BlockLibrary.sized s.first).most (X.NamedLibrary.known s.first name) (Y.NamedLibrary.known s.second name) e };

    fn find(&self, name: &[u8]) -> Option<u16> {
        self.first.find(name).or_else(|| {
            let kind = self.second.find(name)?;
            u16::try_from(self.first.kinds() + u32::from(kind)).ok()
        })
    }
}
