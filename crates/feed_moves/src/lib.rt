// What an opening and a feed do to the tables, the reports and the state where they are not refused.
#![tactic(auto)]

ghost use Rattle.std.specs.Prelude.{◌≡◌, true, false, ◌≤◌, ◌<◌, List, ◌++◌, length, take, drop, ℤ};
ghost use Rattle.std.proofs.Math.Option.{none};
ghost use Rattle.pattern.specs.Cells.{cells_needed};
ghost use Rattle.pattern.specs.Slots.{all};
ghost use Rattle.record.specs.Record.{value_in_range};
ghost use Rattle.flags.specs.Flags.{Flagged};
ghost use Rattle.monitor.specs.Cells.{layout, written};
ghost use Rattle.monitor.specs.Tick.{open_table};
ghost use Rattle.monitor.specs.State.{last_sample, piece_later};
ghost use Rattle.monitor.specs.Open.{marks};
ghost use Rattle.monitor.specs.Feed.{cell_fine, feed_cause, table_after};
ghost use Rattle.feed_moves.specs.Piece.{table_in, scores_in, lengths_in};

use feed_ticks::{ground_of, kind_flags, repeat_last, tell_all, view_in};
use flags::raise_starts;
use monitor::State;
use monitor::plan::Plan;
use pattern::clocks::in_use;
use table_tick::clear;

// The needed cells of the second table are all marks.
pub fn mark_all(p: Plan, second: &mut [i64])
    requires { cells_needed p ≤ length second.old }
    ensures { second.new ≡ marks p second.old }
{
    clear(second, 0, p.cells());
}

// What opening does when it is not refused.
// Both tables, as a host in C lends them.
pub fn open_both(p: Plan, first: &mut [i64], second: &mut [i64])
    requires p_in_bounds { cells_needed p ≤ length first.old }
    requires p_in_bounds_2 { cells_needed p ≤ length second.old }
    ensures first_after { first.new ≡ written p (open_table p) first.old }
    ensures second_after { second.new ≡ marks p second.old }
{
    let starts = kind_flags(false, p.pattern);
    table_tick::open(first, p.layout, p.pattern.weighing, starts);
    mark_all(p, second);
}

// The flags of the table that an opening leaves.
pub fn flag_opened(p: Plan, flags: &mut [u32])
    requires { 4096 ≤ length flags.old }
    ensures { (t : List ℤ) → cells_needed p ≤ length t
        → Flagged (layout p) (written p (open_table p) t) flags.new }
{
    let starts = kind_flags(false, p.pattern);
    raise_starts(flags, starts, usize::from(p.pattern.placecount));
}

// The piece's values, then what stood behind them.
fn last_after(last: [i32; 8], values: &[i32]) -> [i32; 8]
    requires { length values.now ≤ 8 }
    ensures { result ≡ values.now ++ drop (length values.now) last }
{
    let mut kept = last;
    kept[..values.len()].copy_from_slice(values);
    kept
}

// The ticks of a piece, each with its report. All its ticks but the first are alike, so that after high + 1 ticks the table
// stands still: the rest of the reports is the last one again.
// The slices come one by one, as a host in C lends them.
fn tell_piece(
    p: &Plan,
    last: &[i32],
    duration: u32,
    values: &[i32],
    first: &mut [i64],
    flags: &mut [u32],
    scores: &mut [i64],
    lengths: &mut [u32],
)
    requires { (all value_in_range values.now ≡ true)
        × (cells_needed p.now ≤ length first.old) × (all cell_fine (take (cells_needed p.now) first.old) ≡ true)
        × (duration ≤ length scores.old) × (duration ≤ length lengths.old) × (Flagged (layout p.now) first.old flags.old) }
    ensures first_after { first.new
        ≡ written p.now (table_in p.now last.now values.now first.old duration) first.old }
    ensures scores_after { scores.new
        ≡ scores_in p.now last.now values.now first.old duration scores.old }
    ensures lengths_after { lengths.new
        ≡ lengths_in p.now last.now values.now first.old duration lengths.old }
    ensures flagged { Flagged (layout p.now) first.new flags.new }
{
    let v = view_in(&p.pattern, last, values);
    let u = view_in(&p.pattern, values, values);
    let still = u32::from(p.pattern.high) + 1;
    let moved = duration.min(still) as usize;
    tell_all(first, flags, scores, lengths, moved, &ground_of(p), &v, &u);
    repeat_last(scores, lengths, moved, duration as usize);
}

// What feeding does to the first table and the report slices when it is not refused.
// The slices come one by one, as in `tell_piece`.
pub fn feed_piece(
    s: State,
    p: &Plan,
    first: &mut [i64],
    flags: &mut [u32],
    duration: u32,
    values: &[i32],
    scores: &mut [i64],
    lengths: &mut [u32],
) -> State
    requires { (feed_cause p.now s first.old (length first.old) duration values.now
        (length scores.old) (length lengths.old) ≡ none)
        × (Flagged (layout p.now) first.old flags.old) }
    ensures value { result ≡ piece_later p.now s duration values.now }
    ensures first_after { first.new
        ≡ written p.now (table_after p.now s first.old values.now duration) first.old }
    ensures scores_after { scores.new ≡ scores_in p.now (last_sample p.now s) values.now
        first.old duration scores.old }
    ensures lengths_after { lengths.new ≡ lengths_in p.now (last_sample p.now s) values.now
        first.old duration lengths.old }
    ensures flagged { Flagged (layout p.now) first.new flags.new }
{
    let last = s.last;
    let used = in_use(&last, p.pattern.channels);
    tell_piece(p, used, duration, values, first, flags, scores, lengths);
    let after = last_after(last, values);
    State {
        ticks: s.ticks + duration,
        last: after,
    }
}
