// The moves of one occupied cell of a monitor's table in a tick (document 01, 'Monitor tables'): its clocks and its worth are
// moved by a tick; it stays, and goes along the edges out of its place whose guards hold. What is offered to an end place
// just entered is noted for the report as it is offered. A block that a worth enters along an edge has its flag raised; that
// of the block that it stays in was raised before, once for all worths of a block (`table_blocks`, `pass`). The table and its
// flags are passed apart, with what is known of both (`Flagged`). A struct of both with that fact would be lent by `&mut`, and each
// contract would say in its place that it still holds the same two references, as `Puts` of `text_put` does (tried: else a caller
// knows nothing of its table).
#![tactic(auto)]

pub mod fixed;
pub mod report;

ghost use Rattle.std.specs.Prelude.{◌≡◌, ◌≤◌, ◌<◌, length};
ghost use Rattle.flags.specs.Flags.{Flagged, Grown};
ghost use Rattle.table.specs.Moves.{offered};
ghost use Rattle.table.specs.Calls.{leave_in, told_leave_in, stay_in, sent_in};
ghost use Rattle.table.specs.Edges.{Sourced, Linked};
ghost use Rattle.table.specs.Asks.{Moving, Staying};

use self::fixed::Ground;
use self::report::{Report, note_if};
use cells::{block_at, code, tick_clocks};
use flags::raise;
use pattern::Edge;
use weighting::{Weighing, choose, combine};

// What one tick gains in each place, by stage: just entered, or staying. MARK where the place cannot be stayed in.
// A number and no Option, as in the cells, which a host in C lends. An array for each stage, as the theorems of `table_laws`
// speak of each (`Known`: entered, staying).
#[derive(Clone, Copy)]
pub struct View {
    pub entered: [i64; 16],
    pub staying: [i64; 16],
}

// A block in hand: the length and the place of its cells, where it starts, and what the tick gains in it.
#[derive(Clone, Copy)]
pub struct Block {
    pub len: usize,
    pub place: usize,
    pub start: usize,
    pub gain: i64,
}

// An occupied cell of a block, and its worth.
#[derive(Clone, Copy)]
pub struct Spot {
    pub cell: usize,
    pub worth: i64,
}

// What an occupied cell sends along the edges out of its place: its clocks and its worth a tick later.
#[derive(Clone, Copy)]
pub struct Sent {
    pub clocks: [usize; 4],
    pub worth: i64,
}

// The edges out of each place, as lists: the first edge out of each place, and the next one after each edge out of the same
// place. The edges' count ends a list, and no Option does: one test is then a list's end and an index's bound.
#[derive(Clone, Copy)]
pub struct Links {
    pub firsts: [u8; 16],
    pub nexts: [u8; 32],
}

// With a count, as the definition has it (`Linked`). It narrows by `as`: both numbers are at most 32, and `try_from` would need an answer
// for a refusal that cannot come.
pub fn links_of(edges: [Edge; 32], count: usize) -> Links
    requires { Sourced edges count }
    ensures { Linked edges count result }
{
    let none = count as u8;
    let mut firsts = [none; 16];
    let mut nexts = [none; 32];
    for i in (0..count).rev() {
        let place = usize::from(edges[i].from);
        nexts[i] = firsts[place];
        firsts[place] = i as u8;
    }
    Links { firsts, nexts }
}

// One more worth, offered to cell j.
fn offer(table: &mut [i64], w: Weighing, j: usize, worth: i64)
    requires { j < length table.old }
    ensures { table.new ≡ offered w table.old j worth }
{
    table[j] = choose(w, table[j], worth);
}

// Along edge i into length n + 1, just entered, if it can be taken, and into the report if a run of this length may end
// there. Only the contract speaks of the edge: the code goes by its step.
// What the report is so far, the length and where it may end change from row to row, so they are no part of what never changes; nor
// are they a struct, since the report is handed on and back and the others are only read.
pub fn leave(
    table: &mut [i64],
    flags: &mut [u32],
    g: &Ground,
    tells: &[bool; 16],
    n: usize,
    i: usize,
    sent: Sent,
    r: Option<Report>,
) -> Option<Report>
    requires { (Moving table.old g.now.layout n sent.clocks) × (i < g.now.count)
        × (Flagged g.now.layout table.old flags.old) }
    ensures value { result ≡ told_leave_in g.now tells.now n i sent r }
    ensures table_after { table.new ≡ leave_in g.now n i sent table.old }
    ensures grown { Grown g.now.layout table.new flags.old flags.new }
{
    let step = &g.steps[i];
    if !step.goes(sent.clocks) {
        return r;
    }
    let to = block_at(g.layout, n + 1, 0, step.to);
    let cell = code(g.layout, step.after(sent.clocks));
    offer(table, g.weighing, to + cell, sent.worth);
    raise(flags, n + 1, step.to);
    let told = tells[step.to];
    note_if(g.weighing, told, r, sent.worth, n + 1)
}

// A worth with these clocks, in the block: a tick later it stays in its place, and is then sent along edges.
pub fn visit(table: &mut [i64], g: &Ground, b: Block, clocks: [usize; 4], worth: i64) -> Sent
    requires { Staying table.old g.now.layout b worth }
    ensures value { result ≡ sent_in g.now b clocks worth }
    ensures table_after { table.new ≡ stay_in g.now b clocks worth table.old }
{
    let clocks = tick_clocks(g.layout, clocks);
    let worth = combine(g.weighing, worth, b.gain);
    let to = block_at(g.layout, b.len + 1, 1, b.place);
    let cell = code(g.layout, clocks);
    offer(table, g.weighing, to + cell, worth);
    Sent { clocks, worth }
}
