// Best of a record: the record is fed to a monitor in chunks, and the best of the reports is kept.
#![tactic(auto)]

ghost use Rattle.std.specs.Prelude.{◌≡◌, ◌+◌, ◌≤◌, ◌<◌, length, take, get_or, IfSome};
ghost use Rattle.std.proofs.Math.Option.{none};
ghost use Rattle.record.specs.Record.{total};
ghost use Rattle.flags.specs.Flags.{Flagged};
ghost use Rattle.monitor.specs.Cells.{layout, written};
ghost use Rattle.monitor.specs.Feed.{feed_refusal, feed_state, feed_first, feed_scores, feed_lengths};
ghost use Rattle.best.specs.Best.{chosen_with, run_of, best_of, found_as, best_numbers};
ghost use Rattle.best.specs.Best.{best_first, best_second};
ghost use Rattle.best.specs.Search.{book_in, table_to, chosen_in, chosen_past, chunk_of, SearchedTo, passed, Fit};

use feed::open;
use feed_moves::{feed_piece, flag_opened};
use monitor::State;
use monitor::plan::Plan;
use pattern::{Pattern, Refusal};
use record::Record;
use record::rules::record_sound;
use weighting::at_least;

// The best run's end, begin and score.
#[derive(Clone, Copy, Debug, PartialEq, Eq)]
pub struct Run {
    pub end: u32,
    pub begin: u32,
    pub score: i64,
}

// The best of the reports so far, where one of them is a run's. A choice has its length: that end - length
// does not wrap is known only where it is told.
#[derive(Clone, Copy, Debug, PartialEq, Eq)]
pub struct Choice {
    pub end: u32,
    pub length: u32,
    pub score: i64,
}

// Where the monitor stands in the record, and the choice so far.
#[derive(Clone, Copy, PartialEq, Eq)]
pub struct Search {
    pub state: State,
    pub choice: Option<Choice>,
}

// One report more; length 0 is no run's. A later end is chosen only if its score is better.
fn choose(p: Pattern, so_far: Option<Choice>, end: u32, score: i64, length: u32) -> Option<Choice>
    ensures { chosen_in result ≡ chosen_with p (chosen_in so_far) end score length }
{
    if length == 0 {
        return so_far;
    }
    match so_far {
        Some(best) if at_least(p.weighing, best.score, score) => so_far,
        _ => Some(Choice { end, length, score }),
    }
}

// The first `count` reports of a stretch that begins after `ticks` ticks.
// Both report slices, of which the first `count` places are of these ticks: the definition `chosen_past` has it so, by which the search is
// said.
pub fn choose_all(
    p: Pattern,
    so_far: Option<Choice>,
    ticks: u32,
    count: u32,
    scores: &[i64],
    lengths: &[u32],
) -> Option<Choice>
    requires { (count ≤ length scores.now) × (count ≤ length lengths.now) × (ticks + count ≤ 2147483647) }
    ensures { chosen_in result
        ≡ chosen_past p (chosen_in so_far) ticks scores.now lengths.now count }
{
    let mut best = so_far;
    for ((tick, score), length) in (ticks..ticks + count).zip(scores).zip(lengths) {
        best = choose(p, best, tick + 1, *score, *length);
    }
    best
}

// Up to 64 ticks with the same values. Of a second table only the length would count, so the first stands for it.
// The table and its flags come apart, here and below, as in crate `table`.
fn feed_some(
    p: &Plan,
    ticks: u32,
    values: &[i32],
    s: Search,
    first: &mut [i64],
    flags: &mut [u32],
) -> Search
    requires { (ticks ≤ 64) × (s.state.ticks + ticks ≤ 2147483647)
        × (feed_refusal p.now s.state first.old first.old (chunk_of ticks values.now) ≡ none)
        × (Flagged (layout p.now) first.old flags.old) }
    ensures state_value { result.state
        ≡ feed_state p.now s.state first.old first.old (chunk_of ticks values.now) }
    ensures choice_value { chosen_in result.choice ≡ chosen_past p.now (chosen_in s.choice) s.state.ticks
        (feed_scores p.now s.state first.old first.old (chunk_of ticks values.now))
        (feed_lengths p.now s.state first.old first.old (chunk_of ticks values.now)) ticks }
    ensures first_after { first.new
        ≡ feed_first p.now s.state first.old first.old (chunk_of ticks values.now) }
    ensures flagged { Flagged (layout p.now) first.new flags.new }
{
    let mut scores = [0; 64];
    let mut lengths = [0; 64];
    let state = feed_piece(
        s.state,
        p,
        first,
        flags,
        ticks,
        values,
        &mut scores,
        &mut lengths,
    );
    let choice = choose_all(p.pattern, s.choice, s.state.ticks, ticks, &scores, &lengths);
    Search { state, choice }
}

// The first `count` ticks of a piece, in chunks. What is left decides each: steps of 64 would need the same `min`.
fn feed_part(
    p: &Plan,
    lent: Record,
    piece: usize,
    count: u32,
    s: Search,
    first: &mut [i64],
    flags: &mut [u32],
) -> Search
    requires { (Fit p.now lent.durations.now lent.values.now piece s first.old) × (Flagged (layout p.now) first.old flags.old)
        × (piece < length lent.durations.now) × (count ≤ get_or lent.durations.now piece 0) }
    ensures searched_to { SearchedTo p.now (book_in p.now lent.entry)
        (total (take piece lent.entry.durations.now) + count) result }
    ensures first_after { first.new
        ≡ written p.now (table_to p.now (book_in p.now lent.entry)
        (total (take piece lent.entry.durations.now) + count)) first.old }
    ensures flagged { Flagged (layout p.now) first.new flags.new }
{
    let channels = usize::from(p.pattern.channels);
    let at = piece * channels;
    let sample = &lent.values[at..at + channels];
    let mut left = count;
    let mut search = s;
    while 0 < left {
        let ticks = left.min(64);
        search = feed_some(p, ticks, sample, search, first, flags);
        left -= ticks;
    }
    search
}

// The rest of a piece whose table stands still: its reports are the last one again, and of equals the earliest end stays.
fn pass_rest(s: Search, rest: u32) -> Search
    requires { s.state.ticks + rest ≤ 2147483647 }
    ensures { result ≡ passed s rest }
{
    let state = State {
        ticks: s.state.ticks + rest,
        ..s.state
    };
    Search { state, ..s }
}

// One piece. All its ticks but the first are alike, so after high + 1 ticks the table stands still, and the rest passes.
fn feed_whole(
    p: &Plan,
    lent: Record,
    piece: usize,
    s: Search,
    first: &mut [i64],
    flags: &mut [u32],
) -> Search
    requires { (Fit p.now lent.durations.now lent.values.now piece s first.old) × (Flagged (layout p.now) first.old flags.old)
        × (piece < length lent.durations.now) }
    ensures searched_to { SearchedTo p.now (book_in p.now lent.entry)
        (total (take (piece + 1) lent.entry.durations.now)) result }
    ensures first_after { first.new
        ≡ written p.now (table_to p.now (book_in p.now lent.entry)
        (total (take (piece + 1) lent.entry.durations.now))) first.old }
    ensures flagged { Flagged (layout p.now) first.new flags.new }
{
    let duration = lent.durations[piece];
    let moved = duration.min(u32::from(p.pattern.high) + 1);
    let search = feed_part(p, lent, piece, moved, s, first, flags);
    pass_rest(search, duration - moved)
}

// All pieces. By the piece's number, as the definition `Fit` has it.
fn feed_all(p: &Plan, lent: Record, s: Search, first: &mut [i64], flags: &mut [u32]) -> Search
    requires { (Fit p.now lent.durations.now lent.values.now 0 s first.old) × (Flagged (layout p.now) first.old flags.old) }
    ensures searched_to { SearchedTo p.now (book_in p.now lent.entry)
        (total lent.entry.durations.now) result }
    ensures first_after { first.new
        ≡ written p.now (table_to p.now (book_in p.now lent.entry)
        (total lent.entry.durations.now)) first.old }
    ensures flagged { Flagged (layout p.now) first.new flags.new }
{
    let mut search = s;
    for piece in 0..lent.durations.len() {
        search = feed_whole(p, lent, piece, search, first, flags);
    }
    search
}

// The choice as it is told: the begin is the end less the length.
fn told(choice: Option<Choice>) -> Option<Run>
    requires { IfSome choice (λ c. c.length ≤ c.end) }
    ensures { result ≡ run_of (chosen_in choice) }
{
    let Choice { end, length, score } = choice?;
    Some(Run {
        end,
        begin: end - length,
        score,
    })
}

// The best of a record: 7, 8, 11; else the best run over all ends, or none. The tables are left as opening and feeding
// the whole record leaves them.
// The lent slices come one by one, as a host in C lends them.
#[tactic(auto, unfolding(crate::specs::Best::best_refusal))]
pub fn best(
    p: Pattern,
    durations: &[u32],
    values: &[i32],
    first: &mut [i64],
    second: &mut [i64],
) -> Result<Option<Run>, Refusal>
    ensures value { result
        ≡ best_of p durations.now values.now first.old second.old }
    ensures result_value { found_as result
        ≡ best_numbers p durations.now values.now first.old second.old }
    ensures first_after { first.new
        ≡ best_first p durations.now values.now first.old second.old }
    ensures second_after { second.new
        ≡ best_second p durations.now values.now first.old second.old }
{
    let plan = Plan::new(p)?;
    let lent = Record { durations, values };
    if !record_sound(p.channels, lent) {
        return Err(Refusal::BrokenRecord);
    }
    let state = open(p, first, second)?;
    let mut flags = [0; 4096];
    flag_opened(plan, &mut flags);
    let start = Search {
        state,
        choice: None,
    };
    let end = feed_all(&plan, lent, start, first, &mut flags);
    Ok(told(end.choice))
}
