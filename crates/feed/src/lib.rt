// Opening a monitor and feeding it a piece. The state goes in by value, and the state after the call comes back, or the refusal.
#![tactic(auto)]

ghost use Rattle.std.specs.Prelude.{◌≡◌, true, ◌<◌, length};
ghost use Rattle.pattern.specs.Sound.{sound_of};
ghost use Rattle.monitor.specs.Open.{answer_number, open_number, open_first, open_second};
ghost use Rattle.monitor.specs.Feed.{feed_number, feed_first, feed_second, feed_scores, feed_lengths};
ghost use Rattle.feed.specs.After.{opened_of, call_of, fed_of};

use feed_checks::{feed_refusal, open_refusal};
use feed_moves::{feed_piece, mark_all, open_both};
use monitor::State;
use pattern::{Pattern, Refusal};

// Opening: 7, 11; else no ticks, the empty runs, and marks.
// Both tables come one by one, as document 01 and a host in C lend them.
pub fn open(p: Pattern, first: &mut [i64], second: &mut [i64]) -> Result<State, Refusal>
    ensures value { result ≡ opened_of p first.old second.old }
    ensures answer_value { answer_number result ≡ open_number p first.old second.old }
    ensures first_after { first.new ≡ open_first p first.old second.old }
    ensures second_after { second.new ≡ open_second p first.old second.old }
{
    let plan = open_refusal(p, first.len(), second.len())?;
    open_both(plan, first, second);
    Ok(State::no_ticks())
}

// Feeding a piece, with flags lent for it, at least one number for each row. What they hold before does not matter.
// The slices and the two tables come one by one, as document 01 and a host in C lend them.
fn feed_with(
    s: State,
    p: Pattern,
    first: &mut [i64],
    second: &mut [i64],
    duration: u32,
    values: &[i32],
    scores: &mut [i64],
    lengths: &mut [u32],
    flags: &mut [u32],
) -> Result<State, Refusal>
    requires { sound_of p ≡ true → p.high < length flags.old }
    ensures value { result ≡ fed_of p s first.old second.old
        (call_of duration values.now scores.old lengths.old) }
    ensures first_after { first.new ≡ feed_first p s first.old second.old
        (call_of duration values.now scores.old lengths.old) }
    ensures second_after { second.new ≡ feed_second p s first.old second.old
        (call_of duration values.now scores.old lengths.old) }
    ensures scores_after { scores.new ≡ feed_scores p s first.old second.old
        (call_of duration values.now scores.old lengths.old) }
    ensures lengths_after { lengths.new ≡ feed_lengths p s first.old second.old
        (call_of duration values.now scores.old lengths.old) }
{
    let plan = feed_refusal(
        p,
        s,
        first,
        second.len(),
        duration,
        values,
        scores.len(),
        lengths.len(),
        flags,
    )?;
    let later = feed_piece(s, &plan, first, flags, duration, values, scores, lengths);
    mark_all(plan, second);
    Ok(later)
}

// Feeding a piece: 7, 12, 11, 8, 13, 14, 6; else a score and a length for each tick. A table of few rows gets few flags: with
// those of the highest window a call of one tick on a table with the window 4 takes 15% longer (measured: OVERSHOOT).
// The slices come one by one, as in `feed_with`.
pub fn feed(
    s: State,
    p: Pattern,
    first: &mut [i64],
    second: &mut [i64],
    duration: u32,
    values: &[i32],
    scores: &mut [i64],
    lengths: &mut [u32],
) -> Result<State, Refusal>
    ensures value { result ≡ fed_of p s first.old second.old
        (call_of duration values.now scores.old lengths.old) }
    ensures answer_value { answer_number result ≡ feed_number p s first.old second.old
        (call_of duration values.now scores.old lengths.old) }
    ensures first_after { first.new ≡ feed_first p s first.old second.old
        (call_of duration values.now scores.old lengths.old) }
    ensures second_after { second.new ≡ feed_second p s first.old second.old
        (call_of duration values.now scores.old lengths.old) }
    ensures scores_after { scores.new ≡ feed_scores p s first.old second.old
        (call_of duration values.now scores.old lengths.old) }
    ensures lengths_after { lengths.new ≡ feed_lengths p s first.old second.old
        (call_of duration values.now scores.old lengths.old) }
{
    if p.high < 128 {
        feed_with(
            s,
            p,
            first,
            second,
            duration,
            values,
            scores,
            lengths,
            &mut [0; 128],
        )
    } else {
        feed_with(
            s,
            p,
            first,
            second,
            duration,
            values,
            scores,
            lengths,
            &mut [0; 4096],
        )
    }
}
