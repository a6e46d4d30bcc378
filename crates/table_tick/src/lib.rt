// One tick over a monitor's table in place, with its report, and the opening of a table (document 01, 'Monitor tables').
// A tick moves length n to n + 1, so row n + 1 is cleared and row n offered into it, from the longest to the shortest.
#![tactic(auto)]

ghost use Rattle.std.specs.Prelude.{◌≡◌, ◌+◌, ◌*◌, ◌≤◌, ◌<◌, length};
ghost use Rattle.cells.specs.Layout.{cells_in};
ghost use Rattle.table.specs.Moves.{marked, cleared, gain_in, starts_of, begun, open_of};
ghost use Rattle.table.specs.Reports.{tells_at};
ghost use Rattle.table.specs.Calls.{place_in, told_place_in, places_in, told_places_in, row_in, told_row_in, rows_in, tick_in, told_in};
ghost use Rattle.table.specs.Asks.{Gains, Whole, Filed, Placing, Ready, Rows};
ghost use Rattle.flags.specs.Flags.{RowFlagged, Flagged, Grown};

use cells::{Layout, block_at};
use flags::{has_bit, raise_starts};
use table::fixed::Ground;
use table::report::Report;
use table::{Block, View};
use table_blocks::pass;
use weighting::{MARK, Weighing, unit};

// The mark in the cells from `from` to `to`.
// By offsets, as the definition `cleared` has them.
pub fn clear(table: &mut [i64], from: usize, to: usize)
    requires { (from ≤ to) × (to ≤ length table.old) }
    ensures { table.new ≡ cleared table.old from to }
{
    table[from..to].fill(MARK);
}

// What a tick gains in a stage, a number as in an index (`cells::block_at`), and by it, as the definition has it.
fn gain_in(entered: i64, staying: i64, stage: usize) -> i64
    ensures { result ≡ gain_in entered staying stage }
{
    if stage == 0 { entered } else { staying }
}

// The cells of length n in place p, of both stages: a block without a flag holds only marks. One call of `pass`, so that the compiler puts it
// into the loop. The report so far, the length and where a run may end change from call to call, so they are no part of what never changes.
fn place(
    table: &mut [i64],
    flags: &mut [u32],
    g: &Ground,
    tells: &[bool; 16],
    entered: i64,
    staying: i64,
    n: usize,
    p: usize,
    r: Option<Report>,
) -> Option<Report>
    requires { (Placing table.old g.now.layout entered staying n p) × (Flagged g.now.layout table.old flags.old) }
    ensures value { result ≡ told_place_in g.now tells.now entered staying n p table.old r }
    ensures table_after { table.new ≡ place_in g.now entered staying n p table.old }
    ensures grown { Grown g.now.layout table.new flags.old flags.new }
{
    let mut best = r;
    for stage in 0..2 {
        let b = Block {
            len: n,
            place: p,
            start: block_at(g.layout, n, stage, p),
            gain: gain_in(entered, staying, stage),
        };
        if has_bit(flags[n], stage * g.layout.places + p) {
            best = pass(table, flags, g, tells, b, best);
        }
    }
    best
}

// Row n into row n + 1, place by place: each cell of those blocks of row n that have a flag is looked at once.
// That its gains are in range is asked of the view and the layout: it speaks of the places that the layout has.
fn row(
    table: &mut [i64],
    flags: &mut [u32],
    g: &Ground,
    v: &View,
    tells: &[bool; 16],
    n: usize,
    r: Option<Report>,
) -> Option<Report>
    requires { (Gains g.now.layout v.now) × (Ready table.old g.now.layout n)
        × (Flagged g.now.layout table.old flags.old) }
    ensures value { result ≡ told_places_in g.now v.now tells.now n table.old r }
    ensures table_after { table.new ≡ places_in g.now v.now n table.old }
    ensures grown { Grown g.now.layout table.new flags.old flags.new }
{
    let mut best = r;
    for p in 0..g.layout.places {
        best = place(
            table,
            flags,
            g,
            tells,
            v.entered[p],
            v.staying[p],
            n,
            p,
            best,
        );
    }
    best
}

// Where a run of this length may end: in the end places, if it is long enough.
fn tells_at(ends: [bool; 16], low: usize, ticks: usize) -> [bool; 16]
    ensures { result ≡ tells_at ends low ticks }
{
    if ticks < low { [false; 16] } else { ends }
}

// The mark in all cells of row n, whose flags are given: a block without one holds only marks. By the row's number, as the
// definitions of its cells and flags are; so below.
fn wipe_blocks(table: &mut [i64], g: &Ground, n: usize, flags: u32)
    requires { (cells_in g.now.layout ≤ length table.old) × (n ≤ g.now.layout.high)
        × (RowFlagged g.now.layout table.old flags n) }
    ensures { table.new ≡ marked table.old (n * g.now.layout.row) g.now.layout.row }
{
    let size = g.layout.block;
    let from = n * g.layout.row;
    for i in 0..2 * g.layout.places {
        if has_bit(flags, i) {
            let at = from + i * size;
            clear(table, at, at + size);
        }
    }
}

// The mark in all cells of row n. A row without a flag holds only marks.
fn wipe_row(table: &mut [i64], flags: &mut [u32], g: &Ground, n: usize)
    requires { (cells_in g.now.layout ≤ length table.old) × (Flagged g.now.layout table.old flags.old)
        × (n ≤ g.now.layout.high) }
    ensures table_after { table.new
        ≡ cleared table.old (n * g.now.layout.row) (n * g.now.layout.row + g.now.layout.row) }
    ensures flagged { Flagged g.now.layout table.new flags.new }
{
    let f = flags[n];
    if 0 < f {
        wipe_blocks(table, g, n, f);
        flags[n] = 0;
    }
}

// Row n + 1 anew, from row n, of which nothing is looked at if it has no flag.
fn advance(
    table: &mut [i64],
    flags: &mut [u32],
    g: &Ground,
    v: &View,
    n: usize,
    r: Option<Report>,
) -> Option<Report>
    requires { (Gains g.now.layout v.now) × (Ready table.old g.now.layout n)
        × (Flagged g.now.layout table.old flags.old) }
    ensures value { result ≡ told_row_in g.now v.now n table.old r }
    ensures table_after { table.new ≡ row_in g.now v.now n table.old }
    ensures flagged { Flagged g.now.layout table.new flags.new }
{
    wipe_row(table, flags, g, n + 1);
    if flags[n] == 0 {
        return r;
    }
    let tells = tells_at(g.ends, g.low, n + 1);
    row(table, flags, g, v, &tells, n, r)
}

// All rows, the longest first.
fn rows(table: &mut [i64], flags: &mut [u32], g: &Ground, v: &View) -> Option<Report>
    requires { (Gains g.now.layout v.now) × (Rows table.old g.now.layout) × (Flagged g.now.layout table.old flags.old) }
    ensures value { result ≡ told_in g.now v.now table.old }
    ensures table_after { table.new ≡ rows_in g.now v.now table.old }
    ensures flagged { Flagged g.now.layout table.new flags.new }
{
    let mut best = None;
    for n in (0..g.layout.high).rev() {
        best = advance(table, flags, g, v, n, best);
    }
    best
}

// The same worth where each start place's cells begin, of which there are `size`.
// With a count, as the definition has it (`starts_of`).
fn seeds(table: &mut [i64], starts: [bool; 16], count: usize, size: usize, worth: i64)
    requires { (count ≤ 16) × (0 < size) × (count * size ≤ length table.old) }
    ensures { table.new ≡ starts_of size worth starts count table.old }
{
    for (p, on) in starts[..count].iter().enumerate() {
        if *on {
            table[p * size] = worth;
        }
    }
}

// The empty run in each start place.
fn begin(table: &mut [i64], l: Layout, w: Weighing, starts: [bool; 16])
    requires { Filed table.old l }
    ensures { table.new ≡ begun l w starts table.old }
{
    seeds(table, starts, l.places, l.block, unit(w));
}

// The table one tick later, and the report of its ends. Cells past those needed are untouched.
pub fn tick(table: &mut [i64], flags: &mut [u32], g: &Ground, v: &View) -> Option<Report>
    requires { (Gains g.now.layout v.now) × (Whole table.old g.now.layout) × (Flagged g.now.layout table.old flags.old) }
    ensures value { result ≡ told_in g.now v.now table.old }
    ensures table_after { table.new ≡ tick_in g.now v.now table.old }
    ensures flagged { Flagged g.now.layout table.new flags.new }
{
    let told = rows(table, flags, g, v);
    wipe_row(table, flags, g, 0);
    begin(table, g.layout, g.weighing, g.starts);
    raise_starts(flags, g.starts, g.layout.places);
    told
}

// All cells needed are marks, but for the empty runs.
pub fn open(table: &mut [i64], l: Layout, w: Weighing, starts: [bool; 16])
    requires { Filed table.old l }
    ensures { table.new ≡ open_of l w starts table.old }
{
    clear(table, 0, l.cells());
    begin(table, l, w, starts);
}
