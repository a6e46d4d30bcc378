// Opening and feeding for a host in C, once the pattern's text is read: the state is in a lent slice.
#![tactic(auto)]

ghost use Rattle.std.specs.Prelude.{◌≡◌};
ghost use Rattle.pattern_text.specs.Text.{accepted};
ghost use Rattle.monitor.specs.Open.{answer_number};
ghost use Rattle.feed.specs.After.{call_of};
ghost use Rattle.host_monitor.specs.Calls.{opened_number, opened_state, opened_first, opened_second};
ghost use Rattle.host_monitor.specs.Calls.{fed_number, fed_state, fed_first, fed_second, fed_scores, fed_lengths};

use feed_checks::open_refusal;
use monitor::State;
use pattern::{Pattern, Refusal};
use state_slice::{held_state, put_state};

// What the slice held does not matter, but it must have room for a state. Both tables come one by one, as a host in C lends them.
pub fn open_pattern(
    p: Pattern,
    state: &mut [i64],
    first: &mut [i64],
    second: &mut [i64],
) -> Result<(), Refusal>
    ensures value { answer_number result
        ≡ opened_number (accepted p) state.old first.old second.old }
    ensures state_after { state.new
        ≡ opened_state (accepted p) state.old first.old second.old }
    ensures first_after { first.new
        ≡ opened_first (accepted p) state.old first.old second.old }
    ensures second_after { second.new
        ≡ opened_second (accepted p) state.old first.old second.old }
{
    if state.len() < 9 {
        open_refusal(p, first.len(), second.len())?;
        return Err(Refusal::BrokenState);
    }
    let mut opened = State::no_ticks();
    lent_state::open(&mut opened, p, first, second)?;
    put_state(state, opened);
    Ok(())
}

// 12 if the slice holds no state at all; else the feed, with the state that it holds.
// The slices and the two tables come one by one, as document 01 and a host in C lend them.
pub fn feed_pattern(
    p: Pattern,
    state: &mut [i64],
    first: &mut [i64],
    second: &mut [i64],
    duration: u32,
    values: &[i32],
    scores: &mut [i64],
    lengths: &mut [u32],
) -> Result<(), Refusal>
    ensures value { answer_number result ≡ fed_number (accepted p) state.old first.old second.old
        (call_of duration values.now scores.old lengths.old) }
    ensures state_after { state.new ≡ fed_state (accepted p) state.old first.old second.old
        (call_of duration values.now scores.old lengths.old) }
    ensures first_after { first.new ≡ fed_first (accepted p) state.old first.old second.old
        (call_of duration values.now scores.old lengths.old) }
    ensures second_after { second.new ≡ fed_second (accepted p) state.old first.old second.old
        (call_of duration values.now scores.old lengths.old) }
    ensures scores_after { scores.new ≡ fed_scores (accepted p) state.old first.old second.old
        (call_of duration values.now scores.old lengths.old) }
    ensures lengths_after { lengths.new ≡ fed_lengths (accepted p) state.old first.old second.old
        (call_of duration values.now scores.old lengths.old) }
{
    let mut held = held_state(state).ok_or(Refusal::BrokenState)?;
    lent_state::feed(
        &mut held, p, first, second, duration, values, scores, lengths,
    )?;
    put_state(state, held);
    Ok(())
}
