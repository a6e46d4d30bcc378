// A test's distance, and what a sample is worth in a place.
ghost use Rattle.std.specs.Prelude.{◌≡◌};
ghost use Rattle.pattern.specs.Distance.{reading_of, distance_from, band_distance, distance_of, place_worth, Measured};

use super::clocks::in_use;
use super::{Place, Sign, Test};
use weighting::{Weighing, combine, unit};

// i32 values and bounds become i64 distances: subtracted, and negated for `<` and `<=`.
fn side_distance(s: Sign, bound: i32, value: i32) -> i64
    ensures { result ≡ distance_from s bound value }
{
    let above = i64::from(value) - i64::from(bound);
    match s {
        Sign::Less | Sign::AtMost => -above,
        Sign::More | Sign::AtLeast => above,
    }
}

// The smaller of value - low and high - value.
fn band_distance(low: i32, high: i32, value: i32) -> i64
    ensures { result ≡ band_distance low high value }
{
    let above = i64::from(value) - i64::from(low);
    let below = i64::from(high) - i64::from(value);
    above.min(below)
}

// A test's distance.
pub fn distance(t: Test, value: i32) -> i64
    ensures { result ≡ distance_of t value }
{
    if t.band {
        band_distance(t.bound, t.high, value)
    } else {
        side_distance(t.sign, t.bound, value)
    }
}

// What the channel reads; 0 past the sample's end.
pub fn reading(sample: &[i32], channel: u8) -> i32
    ensures { result ≡ reading_of sample.now channel }
{
    sample.get(usize::from(channel)).copied().unwrap_or(0)
}

// One test's distance in a sample, and its size, which any i32 value and bound keep.
pub fn distance_in(t: Test, sample: &[i32]) -> i64
    ensures { Measured t sample.now result }
{
    distance(t, reading(sample, t.channel))
}

// What one observation of the sample is worth in the place.
pub fn place_worth(w: Weighing, l: Place, sample: &[i32]) -> i64
    ensures { result ≡ place_worth w l sample.now }
{
    let mut worth = unit(w);
    for t in in_use(&l.tests, l.count) {
        worth = combine(w, worth, distance_in(*t, sample));
    }
    worth
}
