// The ticks of a piece over the cells: what a tick gains in each place, in the first tick and in later ones; each tick told;
// and a last report told again.
#![tactic(auto)]

ghost use Rattle.std.specs.Prelude.{◌≡◌, not, ◌-◌, ◌≤◌, ◌<◌, Bool, map, length, get_or, set, pos};
ghost use Rattle.record.specs.Joined.{agrees};
ghost use Rattle.book.specs.View.{counts, gain_in};
ghost use Rattle.flags.specs.Flags.{Flagged};
ghost use Rattle.table.specs.Calls.{tick_in, told_in};
ghost use Rattle.table.specs.Asks.{Gains, Whole};
ghost use Rattle.feed_ticks.specs.Ticks.{kind_flags, view_in, view_at, common, common_of, score_of, length_of};
ghost use Rattle.feed_ticks.specs.Ticks.{Telling, table_to, scores_to, lengths_to, repeated};

use monitor::plan::Plan;
use pattern::distance::place_worth;
use pattern::{Kind, Pattern, Place, is_end, is_start};
use record::samples::agree_in;
use steps::steps_of;
use table::fixed::Ground;
use table::{View, links_of};
use table_tick::tick;
use weighting::{Weighing, unit};

// For each place what the test says of its kind.
pub fn flags_by<F: Fn(Kind) -> bool>(p: &Pattern, test: F) -> [bool; 16]
    requires { F.IsAlwaysCallable test }
    ensures { (f : Kind → Bool) → ((k : Kind) (r : Bool) → F.post test k r → r ≡ f k)
        → result ≡ map (λ l. f l.kind) p.now.places }
{
    std::array::from_fn(|i| test(p.places[i].kind))
}

// For each place whether a run may end there, or else whether one may begin there. The flag is the definition's.
pub fn kind_flags(ending: bool, p: Pattern) -> [bool; 16]
    ensures { result ≡ kind_flags ending p }
{
    if ending {
        flags_by(&p, is_end)
    } else {
        flags_by(&p, is_start)
    }
}

// What never changes in a call that feeds the pattern. It is no part of its caller's code, so that what it makes on the way is gone from
// the stack before the ticks; and the plan is lent, so that it is not copied once more for each call (measured: docs/DESIGN-PASS.md).
#[inline(never)]
pub fn ground_of(p: &Plan) -> Ground
    ensures { common result ≡ common_of p.now }
{
    let edges = p.pattern.edges;
    let count = usize::from(p.pattern.edgecount);
    let links = links_of(edges, count);
    let steps = steps_of(edges, count);
    let starts = flags_by(&p.pattern, is_start);
    let ends = flags_by(&p.pattern, is_end);
    Ground {
        layout: p.layout,
        weighing: p.pattern.weighing,
        edges,
        count,
        links,
        steps,
        starts,
        ends,
        low: usize::from(p.pattern.low),
    }
}

// Does a tick count in a place: in margin always, in sum if the place was just entered or the tick is a new observation there.
// The values before and the tick's own are two lent slices, here and below. The flag `entered` is the definitions' (`counts`, `gain_in`).
fn tick_counts(w: Weighing, l: Place, last: &[i32], values: &[i32], entered: bool) -> bool
    ensures { result ≡ counts w (not (agrees l last.now values.now)) entered }
{
    w == Weighing::Margin || entered || !agree_in(l, last, values)
}

// What a tick gains in a place, by the values of the tick before and its own.
fn gain(w: Weighing, l: Place, last: &[i32], values: &[i32], entered: bool) -> i64
    ensures { result ≡ gain_in w l last.now values.now entered }
{
    if tick_counts(w, l, last, values, entered) {
        place_worth(w, l, values)
    } else {
        unit(w)
    }
}

// What a tick gains in each place: in those just entered, and in those stayed in.
pub fn view_in(p: &Pattern, last: &[i32], values: &[i32]) -> View
    ensures { result ≡ view_in p.now last.now values.now }
{
    let w = p.weighing;
    let entered = std::array::from_fn(|i| gain(w, p.places[i], last, values, true));
    let staying = std::array::from_fn(|i| gain(w, p.places[i], last, values, false));
    View { entered, staying }
}

// The first tick sees one view, the later ones another: by the tick's number, as the definition `view_at` has it.
fn view_at<'a>(first: &'a View, later: &'a View, i: usize) -> &'a View
    ensures { result.now ≡ view_at first.now later.now i }
{
    if i == 0 { first } else { later }
}

// One tick over the table, and its report in place i.
// Both report slices have a place for each tick, as a host in C lends them. What the view and the table are asked is what `tick` asks.
fn tell(
    first: &mut [i64],
    flags: &mut [u32],
    scores: &mut [i64],
    lengths: &mut [u32],
    i: usize,
    g: &Ground,
    v: &View,
)
    requires { (Gains g.now.layout v.now) × (Whole first.old g.now.layout) × (i < length scores.old)
        × (i < length lengths.old) × (Flagged g.now.layout first.old flags.old) }
    ensures first_after { first.new ≡ tick_in g.now v.now first.old }
    ensures scores_after { scores.new ≡ set scores.old i (score_of (told_in g.now v.now first.old)) }
    ensures lengths_after { lengths.new ≡ set lengths.old i (length_of (told_in g.now v.now first.old)) }
    ensures flagged { Flagged g.now.layout first.new flags.new }
{
    // A length narrows by `as`: it is at most the window's high.
    let (score, ticks) = match tick(first, flags, g, v) {
        Some(r) => (r.score, r.length as u32),
        None => (0, 0),
    };
    scores[i] = score;
    lengths[i] = ticks;
}

// All ticks of a piece, each with its report: the first sees the view v, the later ones u.
// Both report slices, as in `tell`.
pub fn tell_all(
    first: &mut [i64],
    flags: &mut [u32],
    scores: &mut [i64],
    lengths: &mut [u32],
    duration: usize,
    g: &Ground,
    v: &View,
    u: &View,
)
    requires { (Telling g.now.layout v.now u.now first.old (length scores.old) (length lengths.old) duration)
        × (Flagged g.now.layout first.old flags.old) }
    ensures first_after { first.new ≡ table_to (common g.now) v.now u.now first.old duration }
    ensures scores_after { scores.new ≡ scores_to (common g.now) v.now u.now first.old scores.old duration }
    ensures lengths_after { lengths.new ≡ lengths_to (common g.now) v.now u.now first.old lengths.old duration }
    ensures flagged { Flagged g.now.layout first.new flags.new }
{
    for i in 0..duration {
        tell(first, flags, scores, lengths, i, g, view_at(v, u, i));
    }
}

// The last report that was told, once more for each tick through which the table stands still.
// Both report slices, as in `tell`.
pub fn repeat_last(scores: &mut [i64], lengths: &mut [u32], from: usize, to: usize)
    requires { (from ≤ to) × (to ≤ length scores.old) × (to ≤ length lengths.old) × (from < to → 1 ≤ from) }
    ensures scores_after { scores.new
        ≡ repeated scores.old from (to - from) (get_or scores.old (from - 1) (pos 0)) }
    ensures lengths_after { lengths.new
        ≡ repeated lengths.old from (to - from) (get_or lengths.old (from - 1) 0) }
{
    if from < to {
        let score = scores[from - 1];
        let ticks = lengths[from - 1];
        scores[from..to].fill(score);
        lengths[from..to].fill(ticks);
    }
}
