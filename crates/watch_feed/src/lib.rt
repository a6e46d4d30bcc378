// A chunk of a record fed to the monitor, and the lines of its ends put into a buffer.
#![tactic(auto)]

ghost use Rattle.std.specs.Prelude.{◌≡◌, ℕ, ◌+◌, ◌*◌, ◌≤◌, ◌<◌, length, get_or};
ghost use Rattle.monitor.specs.Feed.{feed_state, feed_first, feed_second, feed_scores, feed_lengths};
ghost use Rattle.best.specs.Search.{chosen_in, chosen_past, chunk_of};
ghost use Rattle.text_put.specs.Put.{Puts};
ghost use Rattle.watch_text.specs.Shown.{rows_past};

use best::{Search, choose_all};
use feed::feed;
use pattern::Pattern;
use text_put::Writer;
use watch_text::put_reports;

// Up to 64 ticks with the same values: the monitor and the choice after them, and their lines put.
// Both tables, as `feed` takes them.
pub fn feed_rows(
    p: Pattern,
    ticks: u32,
    values: &[i32],
    s: Search,
    first: &mut [i64],
    second: &mut [i64],
    out: &mut Writer,
) -> Search
    requires { (ticks ≤ 64) × (s.state.ticks + ticks ≤ 2147483647)
        × ((i : ℕ) → i < ticks → get_or (feed_lengths p s.state first.old second.old (chunk_of ticks values.now)) i 0
        ≤ s.state.ticks + i + 1) }
    ensures state_value { result.state
        ≡ feed_state p s.state first.old second.old (chunk_of ticks values.now) }
    ensures choice_value { chosen_in result.choice ≡ chosen_past p (chosen_in s.choice) s.state.ticks
        (feed_scores p s.state first.old second.old (chunk_of ticks values.now))
        (feed_lengths p s.state first.old second.old (chunk_of ticks values.now)) ticks }
    ensures first_after { first.new
        ≡ feed_first p s.state first.old second.old (chunk_of ticks values.now) }
    ensures second_after { second.new
        ≡ feed_second p s.state first.old second.old (chunk_of ticks values.now) }
    ensures put { Puts out.old out.new (rows_past s.state.ticks
        (feed_scores p s.state first.old second.old (chunk_of ticks values.now))
        (feed_lengths p s.state first.old second.old (chunk_of ticks values.now)) ticks) }
    ensures ticks_len_bound { length (rows_past s.state.ticks
        (feed_scores p s.state first.old second.old (chunk_of ticks values.now))
        (feed_lengths p s.state first.old second.old (chunk_of ticks values.now)) ticks)
        ≤ 64 * ticks }
{
    let mut scores = [0; 64];
    let mut lengths = [0; 64];
    let fed = feed(
        s.state,
        p,
        first,
        second,
        ticks,
        values,
        &mut scores,
        &mut lengths,
    );
    let choice = choose_all(p, s.choice, s.state.ticks, ticks, &scores, &lengths);
    put_reports(out, s.state.ticks, ticks, &scores, &lengths);
    // A feed that is refused leaves the state as it was.
    let state = fed.unwrap_or(s.state);
    Search { state, choice }
}
