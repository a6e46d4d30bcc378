// Where a cell stands in a monitor's table, and which clocks it has (document 01, 'Monitor tables').
#![tactic(auto)]

ghost use Rattle.std.specs.Prelude.{◌≡◌, ◌+◌, ◌-◌, ◌≤◌, ◌<◌, min};
ghost use Rattle.cells.specs.Layout.{layout_of, cells_in};
ghost use Rattle.cells.specs.Index.{code_of, clocks_at, ticked, Within, block_at, Placed};

use pattern::clocks::radix;
use pattern::sound_pattern::SoundPattern;
use std::marker::Model;

// What the index needs: the greatest length, the places, a radix for each of four clocks; then the cells of a block
// (one length, stage and place) and of a row (one length). In a clause it is its `Shape`, as the name
// `Layout` is in definitions, which speak of that of any pattern.
#[derive(Clone, Copy)]
pub struct Layout {
    pub high: usize,
    pub places: usize,
    pub radices: [usize; 4],
    pub block: usize,
    pub row: usize,
}

impl Model for Layout {
    ghost use Rattle.cells.specs.Shape.{Shape};

    ghost Value = { Shape };

    ghost use Rattle.cells.specs.Laid.{Laid};

    ghost view = { λ a. record { high = a.high; places = a.places; radices = a.radices; block = a.block; row = a.row } };

    ghost invariant = { λ a. Laid (record { high = a.high; places = a.places; radices = a.radices; block = a.block; row = a.row }) };

    ghost inverse = { λ s. record { high = s.high; places = s.places; radices = s.radices; block = s.block; row = s.row } };
}

impl Layout {
    // The cells of a table that is laid out so.
    pub fn cells(self) -> usize
        ensures { result ≡ cells_in self }
    {
        (self.high + 1) * self.row
    }
}

// A pattern's layout for runs of up to `longest` ticks. Radix by radix, since the product names each (tried by `map`: the proof then tells
// them apart again, one by one).
pub fn layout_of(p: SoundPattern, longest: u16) -> Layout
    ensures { result ≡ layout_of p longest }
{
    let a = radix(p.pattern, 0);
    let b = radix(p.pattern, 1);
    let c = radix(p.pattern, 2);
    let d = radix(p.pattern, 3);
    let places = usize::from(p.pattern.placecount);
    // A number of 64 bits, and std has no `From` for it.
    let block = (a * b * c * d) as usize;
    let radices = [a as usize, b as usize, c as usize, d as usize];
    Layout {
        high: usize::from(longest),
        places,
        radices,
        block,
        row: 2 * places * block,
    }
}

// A clock one tick later, held at its ceiling. Not `(clock + 1).min(..)`: that sum wraps at the largest number. With
// `clock.saturating_add(1).min(..)` a tick takes up to 2.5% more instructions (measured).
pub fn tick_clock(radix: usize, clock: usize) -> usize
    requires { 0 < radix }
    ensures { result ≡ min (clock + 1) (radix - 1) }
{
    let ceiling = radix - 1;
    if clock < ceiling { clock + 1 } else { ceiling }
}

// All clocks one tick later.
pub fn tick_clocks(l: Layout, clocks: [usize; 4]) -> [usize; 4]
    ensures { result ≡ ticked l.radices clocks }
{
    std::array::from_fn(|k| tick_clock(l.radices[k], clocks[k]))
}

// The clocks of the next cell of a block, from those of cell k: no division.
fn next_clocks(l: Layout, clocks: [usize; 4], k: usize) -> [usize; 4]
    requires { (k < l.block) × (clocks ≡ clocks_at l.radices k) }
    ensures { result ≡ clocks_at l.radices (k + 1) }
{
    let [_, s, t, u] = l.radices;
    let [a, b, c, d] = clocks;
    if d + 1 < u {
        [a, b, c, d + 1]
    } else if c + 1 < t {
        [a, b, c + 1, 0]
    } else if b + 1 < s {
        [a, b + 1, 0, 0]
    } else {
        [a + 1, 0, 0, 0]
    }
}

// The clocks of cell k of a block. One by one, as the definition has them (`clocks_at`); so `code` (`code_of`).
fn clocks_at(l: Layout, k: usize) -> [usize; 4]
    requires { k < l.block }
    ensures { result ≡ clocks_at l.radices k }
{
    let [_, s, t, u] = l.radices;
    let c = k / u;
    let b = c / t;
    let a = b / s;
    [a, b % s, c % t, k % u]
}

// The clocks of cell `to` of a block, from those of cell k: a division only where cells were left out.
pub fn clocks_to(l: Layout, clocks: [usize; 4], k: usize, to: usize) -> [usize; 4]
    requires { (k ≤ to) × (to < l.block) × (clocks ≡ clocks_at l.radices k) }
    ensures { result ≡ clocks_at l.radices to }
{
    if to == k {
        clocks
    } else if to == k + 1 {
        next_clocks(l, clocks, k)
    } else {
        clocks_at(l, to)
    }
}

// The cell of a block that has these clocks.
pub fn code(l: Layout, clocks: [usize; 4]) -> usize
    requires { Within l.radices clocks }
    ensures { result ≡ code_of l.radices clocks }
{
    let [a, b, c, d] = clocks;
    let [_, s, t, u] = l.radices;
    ((a * s + b) * t + c) * u + d
}

// Where the block of a length, a stage and a place starts.
// The stage is a number, 0 just entered and 1 staying: it is a factor of the index.
pub fn block_at(l: Layout, n: usize, stage: usize, p: usize) -> usize
    requires { Placed l n stage p }
    ensures { result ≡ block_at l n stage p }
{
    n * l.row + (stage * l.places + p) * l.block
}
