// What holds of the operations on numbers.
ghost use Rattle.numbers.specs.Laws.{MaxIsGreatest, MinIsLeast, MeanNeedsAll};

// `max` is a pin's value, and no pin has a greater one.
pub fn max_is_greatest()
    ensures { MaxIsGreatest }
{}

// `min` is a pin's value, and no pin has a lesser one.
pub fn min_is_least()
    ensures { MinIsLeast }
{}

// A set of pins that forces `mean` has every pin.
pub fn mean_needs_all()
    ensures { MeanNeedsAll }
{}
