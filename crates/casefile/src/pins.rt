// The pins of a file.
ghost use Rattle.std.specs.Prelude.{◌≡◌, ◌+◌, ◌<◌, ◌≤◌, min, slice_set};

use crate::record::FILE_PINS;
use diagram::signals::Pin;

// The pins that the blocks of a file list: all are counted, and the first FILE_PINS stored. The array is of full size,
// since the record takes it over, and the count goes past its room.
#[derive(Clone, Copy)]
pub(crate) struct PinList {
    pub pins: [Pin; FILE_PINS],
    pub met: usize,
}

impl PinList {
    // Adds a pin, which is stored where there is room.
    pub(crate) fn add(&mut self, pin: Pin)
        ensures stored { self.old.met < 1024 → self.new.pins ≡ slice_set self.old.pins self.old.met pin }
        ensures full { 1024 ≤ self.old.met → self.new.pins ≡ self.old.pins }
        ensures counted { self.new.met ≡ min (self.old.met + 1) usize.MAX }
        ensures grown { self.old.met ≤ self.new.met }
    {
        if self.met < FILE_PINS {
            self.pins[self.met] = pin;
        }
        self.met = self.met.saturating_add(1);
    }
}
