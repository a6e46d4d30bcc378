// The moves of all occupied cells of a block (one length, stage and place) of a monitor's table in a tick.
#![tactic(auto)]

ghost use Rattle.std.specs.Prelude.{◌≡◌, true, ◌+◌, ◌≤◌, ◌<◌, length};
ghost use Rattle.std.specs.Int.Signed.{lt_z};
ghost use Rattle.weighting.specs.Cell.{mark};
ghost use Rattle.flags.specs.Flags.{flag_at, Flagged, IsRaised, Grown};
ghost use Rattle.table.specs.Calls.{leaves_in, told_leaves_in, visits_in, told_visits_in, pass_in, told_pass_in};
ghost use Rattle.table.specs.Asks.{Moving, Passing, Occupied};

use cells::clocks_to;
use flags::raise;
use table::fixed::Ground;
use table::report::Report;
use table::{Block, Sent, Spot, leave, visit};
use weighting::MARK;

// The first occupied cell of the block at `at` from cell k on, if there is one. Each cell up to it is looked at once.
// By offsets: the definitions speak of a block's cells in the whole table (`Occupied`).
pub fn occupied(table: &[i64], at: usize, k: usize, size: usize) -> Option<Spot>
    requires { (at + size ≤ length table.now) × (k ≤ size) }
    ensures { Occupied table.now at size k result }
{
    for cell in k..size {
        let worth = table[at + cell];
        if MARK < worth {
            return Some(Spot { cell, worth });
        }
    }
    None
}

// A worth, both it and its clocks a tick later, along each edge out of p. By `while`: the next index is read in the links, and by
// `successors` a closure would read it, in as many lines.
// What the report is so far and where a run may end change from row to row, here and below.
fn leaves(
    table: &mut [i64],
    flags: &mut [u32],
    g: &Ground,
    tells: &[bool; 16],
    n: usize,
    p: usize,
    sent: Sent,
    r: Option<Report>,
) -> Option<Report>
    requires { (Moving table.old g.now.layout n sent.clocks) × (p < g.now.layout.places)
        × (Flagged g.now.layout table.old flags.old) }
    ensures value { result ≡ told_leaves_in g.now tells.now n p sent r }
    ensures table_after { table.new ≡ leaves_in g.now n p sent table.old }
    ensures grown { Grown g.now.layout table.new flags.old flags.new }
{
    let mut best = r;
    let mut i = usize::from(g.links.firsts[p]);
    while i < g.count {
        best = leave(table, flags, g, tells, n, i, sent, best);
        i = usize::from(g.links.nexts[i]);
    }
    best
}

// All occupied cells of the block, from the first one on, each with its clocks. The flag of the block that they stay in is
// raised already, once for all of them.
fn visits(
    table: &mut [i64],
    flags: &mut [u32],
    g: &Ground,
    tells: &[bool; 16],
    b: Block,
    first: Option<Spot>,
    r: Option<Report>,
) -> Option<Report>
    requires { (Passing table.old g.now.layout b) × (lt_z mark b.gain ≡ true)
        × (Occupied table.old b.start g.now.layout.block 0 first) × (Flagged g.now.layout table.old flags.old)
        × (IsRaised flags.old (b.len + 1) (flag_at g.now.layout 1 b.place)) }
    ensures value { result ≡ told_visits_in g.now tells.now b table.old r }
    ensures table_after { table.new ≡ visits_in g.now b table.old }
    ensures grown { Grown g.now.layout table.new flags.old flags.new }
{
    let mut best = r;
    let mut last: usize = 0;
    let mut clocks: [usize; 4] = [0; 4];
    let mut next = first;
    while let Some(spot) = next {
        let here = clocks_to(g.layout, clocks, last, spot.cell);
        let sent = visit(table, g, b, here, spot.worth);
        best = leaves(table, flags, g, tells, b.len, b.place, sent, best);
        last = spot.cell;
        clocks = here;
        next = occupied(table, b.start, last + 1, g.layout.block);
    }
    best
}

// The block, unless its place cannot be stayed in.
pub fn pass(
    table: &mut [i64],
    flags: &mut [u32],
    g: &Ground,
    tells: &[bool; 16],
    b: Block,
    r: Option<Report>,
) -> Option<Report>
    requires { (Passing table.old g.now.layout b) × (Flagged g.now.layout table.old flags.old) }
    ensures value { result ≡ told_pass_in g.now tells.now b table.old r }
    ensures table_after { table.new ≡ pass_in g.now b table.old }
    ensures grown { Grown g.now.layout table.new flags.old flags.new }
{
    if MARK < b.gain {
        let first = occupied(table, b.start, 0, g.layout.block);
        raise(flags, b.len + 1, g.layout.places + b.place);
        return visits(table, flags, g, tells, b, first, r);
    }
    r
}
