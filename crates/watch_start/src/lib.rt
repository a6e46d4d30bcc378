// How `watch` starts: both texts are judged and the tables opened, and then what is due is printed step by step (watch_steps).
#![tactic(auto)]

ghost use Rattle.std.specs.Prelude.{◌≡◌, length};
ghost use Rattle.pattern_text.specs.Text.{accepted, read_of};
ghost use Rattle.monitor.specs.State.{no_ticks};
ghost use Rattle.monitor.specs.Open.{answer_of};
ghost use Rattle.watch_steps.specs.Watch.{refusal_for};
ghost use Rattle.watch_steps.specs.Steps.{Standing, start_with, start_watch, start_first, start_second};

use best::Search;
use feed::open;
use monitor::State;
use pattern::sound_pattern::SoundPattern;
use pattern::{NO_PATTERN, Pattern, Refusal};
use pattern_read::read;
use record_read::check;
use watch_steps::{Cursor, Stage, Watch};

// Nothing read, nothing chosen: before the heading, or before the line of a refusal.
fn start_at(p: Pattern, opened: Result<State, Refusal>) -> Watch
    ensures { result ≡ start_with p opened }
{
    let (stage, state) = match opened {
        Ok(state) => (Stage::Heading, state),
        Err(cause) => (Stage::Refused(cause), State::no_ticks()),
    };
    Watch {
        stage,
        pattern: p,
        cursor: Cursor {
            at: 0,
            left: 0,
            values: [0; 8],
        },
        search: Search {
            state,
            choice: None,
        },
    }
}

// The record's text judged, then the tables, which the opening may be refused for.
// Both tables, as `feed::open` takes them; so `start`.
fn opened(
    p: SoundPattern,
    text: &[u8],
    first: &mut [i64],
    second: &mut [i64],
) -> Result<State, Refusal>
    requires { (length first.old ≡ 2048) × (length second.old ≡ 2048) }
    ensures value { result ≡ answer_of no_ticks (refusal_for (accepted p) text.now) }
    ensures first_after { first.new
        ≡ start_first (accepted p) text.now first.old second.old }
    ensures second_after { second.new
        ≡ start_second (accepted p) text.now first.old second.old }
{
    check(text, p.pattern.channels)?;
    open(p.pattern, first, second)
}

// The start: the pattern's text is judged first.
pub fn start(pattern: &[u8], text: &[u8], first: &mut [i64], second: &mut [i64]) -> Watch
    requires { (length first.old ≡ 2048) × (length second.old ≡ 2048) }
    ensures value { result ≡ start_watch (read_of pattern.now) text.now }
    ensures first_after { first.new ≡ start_first (read_of pattern.now) text.now
        first.old second.old }
    ensures second_after { second.new ≡ start_second (read_of pattern.now) text.now
        first.old second.old }
    ensures standing { Standing text.now result first.new second.new }
{
    match read(pattern) {
        Ok(p) => start_at(p, opened(SoundPattern { pattern: p }, text, first, second)),
        Err(cause) => start_at(NO_PATTERN, Err(cause)),
    }
}
