// What a host program written in C calls: the pattern check and the cell count (document 01, 'Monitor tables'); opening,
// feeding, pricing and the best of a record (document 01, 'Operations and refusals'). A pattern is given by its text, the
// monitor's state is a lent slice of numbers (crate state_slice), and answers are plain numbers or structs of numbers.
// include/bench_margin.h declares all of them for C.
#![tactic(auto)]

ghost use Rattle.std.specs.Prelude.{◌≡◌};
ghost use Rattle.pattern_text.specs.Text.{read_of};
ghost use Rattle.feed.specs.After.{call_of};
ghost use Rattle.host.specs.Numbers.{check_of, count_of};
ghost use Rattle.host_monitor.specs.Calls.{opened_number, opened_state, opened_first, opened_second};
ghost use Rattle.host_monitor.specs.Calls.{fed_number, fed_state, fed_first, fed_second, fed_scores, fed_lengths};
ghost use Rattle.host.specs.Answers.{run_price, record_best, record_first, record_second};

use best::best;
use host_monitor::{feed_pattern, open_pattern};
use host_told::{RecordBest, RunPrice, answer_number, cause_number, counted_cells};
use pattern::cells;
use pattern_read::read;
use price::price;

// "0 or the refusal from the check"
#[unsafe(no_mangle)]
pub extern "C" fn pattern_check(text: &[u8]) -> u32
    ensures { result ≡ check_of (read_of text.now) }
{
    answer_number(&read(text))
}

// "the cells or 0 for a refused text from the count"
#[unsafe(no_mangle)]
pub extern "C" fn pattern_cells(text: &[u8]) -> u64
    ensures { result ≡ count_of (read_of text.now) }
{
    counted_cells(read(text).and_then(cells))
}

// Opening: 1 to 5, 11, then 12 for a state's slice of fewer than 9 entries.
#[unsafe(no_mangle)]
pub extern "C" fn monitor_open(
    text: &[u8],
    state: &mut [i64],
    first: &mut [i64],
    second: &mut [i64],
) -> u32
    ensures value { result ≡ opened_number (read_of text.now)
        state.old first.old second.old }
    ensures state_after { state.new ≡ opened_state (read_of text.now)
        state.old first.old second.old }
    ensures first_after { first.new ≡ opened_first (read_of text.now)
        state.old first.old second.old }
    ensures second_after { second.new ≡ opened_second (read_of text.now)
        state.old first.old second.old }
{
    // By `match`: `and_then` was tried, and the proof did not close, since what its closure leaves behind a captured `&mut` has no name.
    match read(text) {
        Ok(p) => answer_number(&open_pattern(p, state, first, second)),
        Err(cause) => cause_number(cause),
    }
}

// Feeding a piece: 1 to 5, then 12, 11, 8, 13, 14, 6.
#[unsafe(no_mangle)]
pub extern "C" fn monitor_feed(
    text: &[u8],
    state: &mut [i64],
    first: &mut [i64],
    second: &mut [i64],
    duration: u32,
    values: &[i32],
    scores: &mut [i64],
    lengths: &mut [u32],
) -> u32
    ensures value { result ≡ fed_number (read_of text.now) state.old first.old second.old
        (call_of duration values.now scores.old lengths.old) }
    ensures state_after { state.new
        ≡ fed_state (read_of text.now) state.old first.old second.old
        (call_of duration values.now scores.old lengths.old) }
    ensures first_after { first.new
        ≡ fed_first (read_of text.now) state.old first.old second.old
        (call_of duration values.now scores.old lengths.old) }
    ensures second_after { second.new
        ≡ fed_second (read_of text.now) state.old first.old second.old
        (call_of duration values.now scores.old lengths.old) }
    ensures scores_after { scores.new
        ≡ fed_scores (read_of text.now) state.old first.old second.old
        (call_of duration values.now scores.old lengths.old) }
    ensures lengths_after { lengths.new
        ≡ fed_lengths (read_of text.now) state.old first.old second.old
        (call_of duration values.now scores.old lengths.old) }
{
    // By `match`, as in `monitor_open`.
    match read(text) {
        Ok(p) => answer_number(&feed_pattern(
            p, state, first, second, duration, values, scores, lengths,
        )),
        Err(cause) => cause_number(cause),
    }
}

// Pricing a run: 1 to 5, then 8, 9, 10. Nothing lent is written.
#[unsafe(no_mangle)]
pub extern "C" fn run_price(
    text: &[u8],
    durations: &[u32],
    values: &[i32],
    begin: u32,
    edges: &[u32],
    stays: &[u32],
) -> RunPrice
    ensures { result ≡ run_price (read_of text.now) durations.now values.now begin
        edges.now stays.now }
{
    RunPrice::from(read(text).and_then(|p| price(p, durations, values, begin, edges, stays)))
}

// The best of a record: 1 to 5, then 8, 11.
#[unsafe(no_mangle)]
pub extern "C" fn record_best(
    text: &[u8],
    durations: &[u32],
    values: &[i32],
    first: &mut [i64],
    second: &mut [i64],
) -> RecordBest
    ensures value { result ≡ record_best (read_of text.now) durations.now values.now
        first.old second.old }
    ensures first_after { first.new ≡ record_first (read_of text.now) durations.now values.now
        first.old second.old }
    ensures second_after { second.new ≡ record_second (read_of text.now) durations.now values.now
        first.old second.old }
{
    // By `match`, as in `monitor_open`.
    match read(text) {
        Ok(p) => RecordBest::from(best(p, durations, values, first, second)),
        Err(cause) => RecordBest::from(Err(cause)),
    }
}
