// Clocks: guards, resets and ceilings. What a count past an array's end or an index past its slots would name is
// read as the definitions read it (nothing, 0), so that any value is answered.
ghost use Rattle.std.specs.Prelude.{◌≡◌, [], ◌∷◌, take, max};
ghost use Rattle.pattern.specs.InUse.{guards_of};
ghost use Rattle.pattern.specs.Clocks.{clock_at, on_side, guard_holds, guards_hold, after_resets};
ghost use Rattle.pattern.specs.Cells.{bounds_on, largest, ceiling_of, radix_of};

use super::{Edge, Guard, Pattern, Sign};

// The slots of an array that a count names.
pub fn in_use<T>(all: &[T], count: u8) -> &[T]
    ensures { result.now ≡ take count all.now }
{
    &all[..all.len().min(usize::from(count))]
}

// Whether the value is on the side of the bound that the sign names.
pub fn on_side(s: Sign, value: u32, bound: u32) -> bool
    ensures { result ≡ on_side s value bound }
{
    match s {
        Sign::Less => value < bound,
        Sign::AtMost => value <= bound,
        Sign::More => bound < value,
        Sign::AtLeast => bound <= value,
    }
}

// One call of the library's, as `distance::reading` of another array: a function for both would be as long.
pub fn clock_at(clocks: [u32; 4], clock: u8) -> u32
    ensures { result ≡ clock_at clocks clock }
{
    clocks.get(usize::from(clock)).copied().unwrap_or(0)
}

pub fn guard_holds(g: Guard, clocks: [u32; 4]) -> bool
    ensures { result ≡ guard_holds clocks g }
{
    on_side(g.sign, clock_at(clocks, g.clock), u32::from(g.bound))
}

// Whether all guards of the edge hold.
pub fn guards_hold(e: Edge, clocks: [u32; 4]) -> bool
    ensures { result ≡ guards_hold clocks e }
{
    in_use(&e.guards, e.count)
        .iter()
        .all(|g| guard_holds(*g, clocks))
}

// The clocks once the edge's reset clocks are set to 0.
pub fn after_resets(e: Edge, clocks: [u32; 4]) -> [u32; 4]
    ensures { result ≡ after_resets e clocks }
{
    std::array::from_fn(|k| if e.resets[k] { 0 } else { clocks[k] })
}

// The larger of `most` and the guard's bound, where the guard is on the clock.
pub fn larger_bound(g: Guard, clock: u8, most: u16) -> u16
    ensures { result ≡ max most (largest (bounds_on clock (g ∷ []))) }
{
    if g.clock == clock {
        most.max(g.bound)
    } else {
        most
    }
}

// The largest of `most` and the bounds that the edge's guards put on the clock.
pub fn largest_bound(e: Edge, clock: u8, most: u16) -> u16
    ensures { result ≡ max most (largest (bounds_on clock (guards_of e))) }
{
    let mut found = most;
    for g in in_use(&e.guards, e.count) {
        found = larger_bound(*g, clock, found);
    }
    found
}

// "1 + its largest guard bound (1 if it has no guard)"
pub fn ceiling(p: Pattern, clock: u8) -> u32
    ensures { result ≡ ceiling_of p clock }
{
    let mut most: u16 = 0;
    for e in in_use(&p.edges, p.edgecount) {
        most = largest_bound(*e, clock, most);
    }
    u32::from(most) + 1
}

// How many values of the clock a table tells apart.
pub fn radix(p: Pattern, clock: u8) -> u64
    ensures { result ≡ radix_of p clock }
{
    if clock < p.clocks {
        u64::from(ceiling(p, clock)) + 1
    } else {
        1
    }
}
