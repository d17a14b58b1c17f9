// Sums of nums and their means.
ghost use Rattle.std.specs.Prelude.{◌≡◌, ◌≤◌, length, pos, ◌+ℤ◌, fold};
ghost use Rattle.numbers.specs.Numbers.{stopped, mean_of, Spread};

use blocks::types::{NUM_HIGH, NUM_LOW};

// The sum of the pins.
pub fn sum_of(pins: &[i16]) -> i32
    requires { length pins.now ≤ 8 }
    ensures { result ≡ fold ◌+ℤ◌ (pos 0) pins.now }
{
    let mut sum = 0;
    for v in pins {
        sum += i32::from(*v);
    }
    sum
}

// A sum, stopped at the ends of num.
pub fn stop(sum: i32) -> i16
    ensures { result ≡ stopped sum }
{
    // A cast: `try_from` would need a branch for what cannot be.
    sum.clamp(i32::from(NUM_LOW), i32::from(NUM_HIGH)) as i16
}

// The mean of `count` nums with this sum.
#[tactic(auto, using(crate::specs::Means::mean_made, crate::specs::Means::mean_fits))]
pub fn mean_of(sum: i32, count: u8) -> i16
    requires { Spread sum count }
    ensures { result ≡ mean_of sum count }
{
    // A cast: `try_from` would need a branch for what cannot be.
    (sum / i32::from(count)) as i16
}
