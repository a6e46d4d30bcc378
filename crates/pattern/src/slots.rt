// Whether each slot of a pattern value is as a text can have it: in use and in range, or unused and zeros.
ghost use Rattle.std.specs.Prelude.{◌≡◌, not, ◌&&◌, Bool, length};
ghost use Rattle.pattern.specs.Slots.{slots, anything};
ghost use Rattle.pattern.specs.Sound.{test_unused, guard_unused, place_unused, edge_unused};
ghost use Rattle.pattern.specs.Sound.{bound_in_range, band_in_range, unsaid_zero, test_in_range, test_sound};
ghost use Rattle.pattern.specs.Sound.{guard_in_range, guard_known, place_sound, edge_sound};
ghost use Rattle.std.specs.Fn.{FnReturnsAt};

use super::{Edge, Guard, Kind, NO_GUARD, NO_TEST, Place, Sign, Test};

// Whether an array has its first `count` slots in use, each as `used` has it, and the others as `unused` has them.
pub fn sound<T, U: Fn(&T) -> bool, N: Fn(&T) -> bool>(
    xs: &[T],
    count: u8,
    used: U,
    unused: N,
) -> bool
    requires used { U.IsAlwaysCallable used }
    requires unused { N.IsAlwaysCallable unused }
    ensures { (p q : T → Bool)
        → ((x : T) (r : Bool) → FnReturnsAt U.Fn used x r → r ≡ p x)
        → ((x : T) (r : Bool) → FnReturnsAt N.Fn unused x r → r ≡ q x)
        → result ≡ slots p q (length xs.now) count xs.now }
{
    let n = usize::from(count);
    n <= xs.len() && xs[..n].iter().all(used) && xs[n..].iter().all(unused)
}

pub fn test_unused(t: Test) -> bool
    ensures { result ≡ test_unused t }
{
    t == NO_TEST
}

pub fn guard_unused(g: Guard) -> bool
    ensures { result ≡ guard_unused g }
{
    g == NO_GUARD
}

// "a bound from -1,000,000 to 1,000,000"
fn bound_in_range(b: i32) -> bool
    ensures { result ≡ bound_in_range b }
{
    (-1_000_000..=1_000_000).contains(&b)
}

// Both ends in a bound's range, the low not above the high.
fn band_in_range(low: i32, high: i32) -> bool
    ensures { result ≡ band_in_range low high }
{
    bound_in_range(low) & bound_in_range(high) & (low <= high)
}

// The numbers of a test.
pub fn test_in_range(t: Test) -> bool
    ensures { result ≡ test_in_range t }
{
    if t.band {
        band_in_range(t.bound, t.high)
    } else {
        bound_in_range(t.bound)
    }
}

// What a test in use leaves unsaid is zeros.
fn unsaid_zero(t: Test) -> bool
    ensures { result ≡ unsaid_zero t }
{
    if t.band {
        t.sign == Sign::Less
    } else {
        t.high == 0
    }
}

// In range, of a channel of the pattern's, and silent on the rest.
pub fn test_sound(t: Test, channels: u8) -> bool
    ensures { result ≡ test_sound channels t }
{
    test_in_range(t) & (t.channel < channels) & unsaid_zero(t)
}

// "a bound 0 to 1,000"
#[tactic(auto, unfolding(crate::specs::Sound::guard_in_range))]
pub fn guard_in_range(g: Guard) -> bool
    ensures { result ≡ guard_in_range g }
{
    g.bound <= 1_000
}

// In range, and on a clock of the pattern's.
#[tactic(auto, unfolding(crate::specs::Sound::guard_known))]
pub fn guard_sound(g: Guard, clocks: u8) -> bool
    ensures { result ≡ guard_in_range g && guard_known clocks g }
{
    guard_in_range(g) & (g.clock < clocks)
}

// Also whether the slots of a place's tests are as they should be.
pub fn place_sound(l: Place, channels: u8) -> bool
    ensures { result ≡ place_sound channels l }
{
    sound(
        &l.tests,
        l.count,
        |t| test_sound(*t, channels),
        |t| test_unused(*t),
    )
}

// Where no slot is in use, what a slot in use would have to be does not matter.
pub fn place_unused(l: Place) -> bool
    ensures { result ≡ place_unused l }
{
    (l.kind == Kind::Plain) & (l.count == 0) & place_sound(l, 0)
}

pub fn guards_sound(e: Edge, clocks: u8) -> bool
    ensures { result ≡ slots (λ g. guard_in_range g && guard_known clocks g) guard_unused 4 e.count e.guards }
{
    sound(
        &e.guards,
        e.count,
        |g| guard_sound(*g, clocks),
        |g| guard_unused(*g),
    )
}

// A flag may be set only for a clock that the pattern has.
pub fn resets_sound(resets: [bool; 4], clocks: u8) -> bool
    ensures { result ≡ slots anything not 4 clocks resets }
{
    sound(&resets, clocks, |_| true, |reset| !*reset)
}

pub fn edge_sound(e: Edge, clocks: u8, places: u8) -> bool
    ensures { result ≡ edge_sound clocks places e }
{
    (e.from < places) & (e.to < places) & guards_sound(e, clocks) & resets_sound(e.resets, clocks)
}

pub fn edge_unused(e: Edge) -> bool
    ensures { result ≡ edge_unused e }
{
    (e.from == 0) & (e.to == 0) & (e.count == 0) & guards_sound(e, 0) & resets_sound(e.resets, 0)
}
