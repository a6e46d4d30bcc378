// The monitor's state lent by the caller: `open` and `feed` over a `&mut State`, thin over the crate feed, whose functions take
// the state by value. At a refusal the state is as it was.
#![tactic(auto)]

ghost use Rattle.std.specs.Prelude.{◌≡◌};
ghost use Rattle.monitor.specs.Open.{answer_number, open_answer, open_number, open_state, open_first, open_second};
ghost use Rattle.monitor.specs.Feed.{feed_answer, feed_number, feed_state, feed_first, feed_second, feed_scores, feed_lengths};
ghost use Rattle.feed.specs.After.{call_of};

use monitor::State;
use pattern::{Pattern, Refusal};

// Opening: 7, 11; else no ticks, the empty runs, and marks.
// Both tables come one by one, as document 01 and a host in C lend them.
pub fn open(
    state: &mut State,
    p: Pattern,
    first: &mut [i64],
    second: &mut [i64],
) -> Result<(), Refusal>
    ensures value { result ≡ open_answer p first.old second.old }
    ensures result_value { answer_number result ≡ open_number p first.old second.old }
    ensures state_after { state.new ≡ open_state p first.old second.old state.old }
    ensures first_after { first.new ≡ open_first p first.old second.old }
    ensures second_after { second.new ≡ open_second p first.old second.old }
{
    *state = feed::open(p, first, second)?;
    Ok(())
}

// Feeding a piece: 7, 12, 11, 8, 13, 14, 6; else a score and a length for each tick. The tables and slices come one by one, as in `open`.
pub fn feed(
    state: &mut State,
    p: Pattern,
    first: &mut [i64],
    second: &mut [i64],
    duration: u32,
    values: &[i32],
    scores: &mut [i64],
    lengths: &mut [u32],
) -> Result<(), Refusal>
    ensures value { result ≡ feed_answer p state.old first.old second.old
        (call_of duration values.now scores.old lengths.old) }
    ensures result_value { answer_number result ≡ feed_number p state.old first.old second.old
        (call_of duration values.now scores.old lengths.old) }
    ensures state_after { state.new ≡ feed_state p state.old first.old second.old
        (call_of duration values.now scores.old lengths.old) }
    ensures first_after { first.new ≡ feed_first p state.old first.old second.old
        (call_of duration values.now scores.old lengths.old) }
    ensures second_after { second.new ≡ feed_second p state.old first.old second.old
        (call_of duration values.now scores.old lengths.old) }
    ensures scores_after { scores.new ≡ feed_scores p state.old first.old second.old
        (call_of duration values.now scores.old lengths.old) }
    ensures lengths_after { lengths.new ≡ feed_lengths p state.old first.old second.old
        (call_of duration values.now scores.old lengths.old) }
{
    *state = feed::feed(*state, p, first, second, duration, values, scores, lengths)?;
    Ok(())
}
