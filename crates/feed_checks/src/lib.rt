// What opening and feeding are refused for (document 01, 'Open', 'Feed a piece'): each cause, and the first of them. The
// look at a table's cells also finds which of its blocks hold a worth.
#![tactic(auto)]

ghost use Rattle.std.specs.Prelude.{◌≡◌, true, not, cond, ◌&&◌, ◌||◌, ◌+◌, ◌*◌, ◌≤◌, ◌<◌, ltb, length, take, drop, Ok, Err};
ghost use Rattle.std.proofs.Math.Option.{none};
ghost use Rattle.pattern.specs.Slots.{all};
ghost use Rattle.pattern.specs.declared.Refusal.TheVariants.{BrokenCell};
ghost use Rattle.pattern.specs.Sound.{is_null, sound_of};
ghost use Rattle.pattern.specs.Cells.{cells_needed};
ghost use Rattle.record.specs.Record.{value_in_range};
ghost use Rattle.cells.specs.Layout.{cells_in};
ghost use Rattle.flags.specs.Flags.{RowFlagged, Flagged};
ghost use Rattle.monitor.specs.Cells.{layout};
ghost use Rattle.monitor.specs.State.{state_sound};
ghost use Rattle.monitor.specs.Open.{answer_of, open_refusal};
ghost use Rattle.monitor.specs.Feed.{cell_fine, piece_broken, cells_broken, feed_cause};
ghost use Rattle.feed_checks.specs.Mark.{is_mark};

use cells::Layout;
use flags::with_bit;
use monitor::State;
use monitor::plan::Plan;
use pattern::{Pattern, Refusal};
use record::rules::all_in_range;
use table_blocks::occupied;
use weighting::MARK;

// Whether all values are zero.
fn all_null(values: &[i32]) -> bool
    ensures { result ≡ all is_null values.now }
{
    values.iter().all(|value| *value == 0)
}

// The last values of a state, of which the first `channels` are in use: these are in range, the others zero. More channels
// than values use them all.
fn last_fine(last: [i32; 8], channels: u8) -> bool
    ensures { result ≡ all value_in_range (take channels last) && all is_null (drop channels last) }
{
    let used = usize::from(channels).min(8);
    all_in_range(&last[..used]) && all_null(&last[used..])
}

// Before the first piece no channel is in use yet.
#[tactic(auto, unfolding(monitor::specs::State::state_sound))]
pub fn state_sound(p: Pattern, s: State) -> bool
    ensures { result ≡ state_sound p s }
{
    s.ticks <= 2147483647 && last_fine(s.last, p.channels) && (s.ticks != 0 || last_fine(s.last, 0))
}

// "duration 0 or over 65,535, a wrong count of values, a value out of range"
#[tactic(auto, unfolding(monitor::specs::Feed::piece_broken))]
pub fn piece_broken(p: Pattern, duration: u32, values: &[i32]) -> bool
    ensures { result ≡ piece_broken p duration values.now }
{
    !((1..=65535).contains(&duration)
        && values.len() == usize::from(p.channels)
        && all_in_range(values))
}

// "the mark" or "within ±32,760,000,000"
fn cell_fine(cell: i64) -> bool
    ensures { result ≡ cell_fine cell }
{
    (cell == MARK) | (cell.unsigned_abs() <= 32760000000)
}

// What a look at the cells of a block finds: whether all are fine, and whether one holds a worth. Each is told whatever the
// other is, so neither stands for the other's absence.
#[derive(Clone, Copy)]
pub struct Look {
    pub fine: bool,
    pub held: bool,
}

// Whether all are fine. Each is looked at, also after one that is not, without a branch for each (decision 50). With `all` a look at a
// full table of 100,130 cells takes 2.5 times as long, and with `fold` a call on a small one 2% more instructions (measured).
fn all_fine(cells: &[i64]) -> bool
    ensures { result ≡ all cell_fine cells.now }
{
    let mut fine = true;
    for cell in cells {
        fine &= cell_fine(*cell);
    }
    fine
}

// The cells of one block. The marks before its first worth are passed over, as a tick passes over them.
// By offsets, as the definitions of a table's rows and flags have them; so the two below.
fn look_block(table: &[i64], at: usize, size: usize) -> Look
    requires { at + size ≤ length table.now }
    ensures fine_value { result.fine ≡ all cell_fine (take size (drop at table.now)) }
    ensures held_value { result.held ≡ not (all is_mark (take size (drop at table.now))) }
{
    match occupied(table, at, 0, size) {
        Some(first) => Look {
            fine: all_fine(&table[at + first.cell..at + size]),
            held: true,
        },
        None => Look {
            fine: true,
            held: false,
        },
    }
}

// A row: whether all its cells are fine, and a flag for each block that holds a worth.
#[derive(Clone, Copy)]
pub struct RowLook {
    pub fine: bool,
    pub flags: u32,
}

// A row whose blocks have one cell each, as in a pattern without clocks: one loop over its cells. That they are there is asked of the
// table, here and below, since a host in C lends one of any length.
fn look_cells(table: &[i64], l: Layout, n: usize) -> RowLook
    requires { (cells_in l ≤ length table.now) × (n ≤ l.high) × (l.block ≡ 1) }
    ensures fine_value { result.fine ≡ all cell_fine (take l.row (drop (n * l.row) table.now)) }
    ensures row_flagged { RowFlagged l table.now result.flags n }
{
    let from = n * l.row;
    let mut fine = true;
    let mut flags = 0;
    for i in 0..l.row {
        let v = table[from + i];
        fine &= cell_fine(v);
        flags = with_bit(flags, i, v != MARK);
    }
    RowLook { fine, flags }
}

// A row, block by block.
fn look_row(table: &[i64], l: Layout, n: usize) -> RowLook
    requires { (cells_in l ≤ length table.now) × (n ≤ l.high) }
    ensures fine_value { result.fine ≡ all cell_fine (take l.row (drop (n * l.row) table.now)) }
    ensures row_flagged { RowFlagged l table.now result.flags n }
{
    if l.block == 1 {
        return look_cells(table, l, n);
    }
    let size = l.block;
    let from = n * l.row;
    let mut fine = true;
    let mut flags = 0;
    for i in 0..2 * l.places {
        let b = look_block(table, from + i * size, size);
        fine &= b.fine;
        flags = with_bit(flags, i, b.held);
    }
    RowLook { fine, flags }
}

// Of a table only the needed cells count. They are looked at row by row, which also finds the flags of their blocks.
// That the cells are there, as above.
pub fn cells_broken(table: &[i64], l: Layout, flags: &mut [u32]) -> bool
    requires { (cells_in l ≤ length table.now) × (l.high < length flags.old) }
    ensures value { result ≡ not (all cell_fine (take (cells_in l) table.now)) }
    ensures flagged { Flagged l table.now flags.new }
{
    let mut fine = true;
    for n in 0..l.high + 1 {
        let r = look_row(table, l, n);
        fine &= r.fine;
        flags[n] = r.flags;
    }
    !fine
}

// A first table that is long enough: 14, or the flags of its blocks that hold a worth.
#[tactic(auto, using(crate::proofs::Counts::broken_is))]
fn flag_cells(p: Plan, first: &[i64], flags: &mut [u32]) -> Result<(), Refusal>
    requires { (cells_needed p ≤ length first.now) × (p.high < length flags.old) }
    ensures value { result ≡ cond (cells_broken p first.now) (Err BrokenCell) (Ok tt) }
    ensures flagged { Flagged (layout p) first.now flags.new }
{
    if cells_broken(first, p.layout, flags) {
        Err(Refusal::BrokenCell)
    } else {
        Ok(())
    }
}

// Either of two lengths is below what is needed.
fn too_short(first: usize, second: usize, needed: usize) -> bool
    ensures { result ≡ ltb first needed || ltb second needed }
{
    first < needed || second < needed
}

// Opening: 7, then 11; else the plan that the opening goes by. The tables' lengths are all that counts of them.
#[tactic(auto, unfolding(monitor::specs::Open::open_refusal), using(pattern::proofs::Judged::accepted, pattern::proofs::Judged::refused))]
pub fn open_refusal(p: Pattern, first: usize, second: usize) -> Result<Plan, Refusal>
    ensures { result ≡ answer_of p (open_refusal p first second) }
{
    let plan = Plan::new(p)?;
    if too_short(first, second, plan.cells()) {
        Err(Refusal::TableTooShort)
    } else {
        Ok(plan)
    }
}

// Feeding: 7, 12, 11, 8, 13, 14, 6, each looked for only where the ones before it give no cause; else the plan that the feed goes by.
// Of the second table and of the report slices only the lengths count. Where there is no cause, the flags are right for the first table.
// The lent values come one by one, as a host in C lends them.
#[tactic(auto, unfolding(monitor::specs::Feed::feed_cause), using(pattern::proofs::Judged::accepted, pattern::proofs::Judged::refused))]
pub fn feed_refusal(
    p: Pattern,
    s: State,
    first: &[i64],
    second: usize,
    duration: u32,
    values: &[i32],
    scores: usize,
    lengths: usize,
    flags: &mut [u32],
) -> Result<Plan, Refusal>
    requires { sound_of p ≡ true → p.high < length flags.old }
    ensures value { result ≡ answer_of p
        (feed_cause p s first.now second duration values.now scores lengths) }
    ensures flagged { feed_cause p s first.now second duration values.now scores lengths ≡ none
        → Flagged (layout p) first.now flags.new }
{
    let plan = Plan::new(p)?;
    if !state_sound(p, s) {
        return Err(Refusal::BrokenState);
    }
    if too_short(first.len(), second, plan.cells()) {
        return Err(Refusal::TableTooShort);
    }
    if piece_broken(p, duration, values) {
        return Err(Refusal::BrokenRecord);
    }
    if 2147483647 < u64::from(s.ticks) + u64::from(duration) {
        return Err(Refusal::TooManyTicks);
    }
    flag_cells(plan, first, flags)?;
    if too_short(scores, lengths, duration as usize) {
        return Err(Refusal::OutputTooShort);
    }
    Ok(plan)
}
