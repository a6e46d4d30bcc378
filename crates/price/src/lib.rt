// Pricing a run laid out edge by edge: what it is refused for, where it begins, its steps, and what it comes to.
#![tactic(auto)]

ghost use Rattle.std.specs.Prelude.{◌≡◌, ◌≤◌, ◌<◌, length, Some, true};
ghost use Rattle.pattern.specs.InUse.{place_at, edge_at};
ghost use Rattle.record.specs.Record.{total};
ghost use Rattle.record.specs.Run.{steps_of};
ghost use Rattle.record.specs.Worth.{price_of};
ghost use Rattle.price_runs.specs.Within.{book_in, outcome_in, HeldIn};
ghost use Rattle.price.specs.Price.{steps_fit, scored, priced_of, priced_as, priced_numbers};
ghost use Rattle.price.specs.Whole.{Found, start_of};

use pattern::sound_pattern::SoundPattern;
use pattern::{Kind, Pattern, Refusal, is_end, is_start};
use price_runs::{Course, Stand};
use record::Record;
use record::rules::{record_sound, ticks};
use weighting::unit;

// Where a run begins: a piece, and the ticks of it that lie before the begin.
#[derive(Clone, Copy)]
pub struct Begin {
    pub piece: usize,
    pub used: u32,
}

// What 9 asks of the lists and the begin.
// Edges and stays come as two slices, here and below: packed they would only be taken apart by `price_runs::Course::run`.
fn steps_fit(durations: &[u32], begin: u32, edges: &[u32], stays: &[u32]) -> bool
    requires { length durations.now ≤ 4096 }
    ensures { result ≡ steps_fit durations.now begin edges.now stays.now }
{
    (edges.len() == stays.len())
        & (1 <= edges.len())
        & (edges.len() <= 4095)
        & (u64::from(begin) < ticks(durations))
}

// The begin's piece, and the ticks of it that lie before the begin.
fn find(durations: &[u32], begin: u32) -> Begin
    requires { begin < total durations.now }
    ensures { Found durations.now begin result }
{
    let mut used = begin;
    for (piece, duration) in durations.iter().enumerate() {
        if used < *duration {
            return Begin { piece, used };
        }
        used -= *duration;
    }
    unreachable!()
}

// The place that an edge leaves; 0 past the last slot.
fn left_by(p: Pattern, edge: u32) -> u8
    ensures { result ≡ (edge_at p edge).from }
{
    p.edges.get(edge as usize).map_or(0, |e| e.from)
}

// A place's kind; plain past the last slot.
fn kind_at(p: Pattern, place: u8) -> Kind
    ensures { result ≡ (place_at p place).kind }
{
    p.places
        .get(usize::from(place))
        .map_or(Kind::Plain, |l| l.kind)
}

// "It enters a start place at b, all clocks 0."
fn start(p: Pattern, edge: u32, used: u32, left: u32) -> Option<Stand>
    ensures { result ≡ start_of p edge used left }
{
    let place = left_by(p, edge);
    if !is_start(kind_at(p, place)) {
        return None;
    }
    Some(Stand {
        place,
        clocks: [0; 4],
        piece: 0,
        used,
        left,
        worth: unit(p.weighing),
    })
}

// The steps, and "the last edge enters an end place".
fn score_from(course: &Course, s: Stand, edges: &[u32], stays: &[u32]) -> Result<i64, Refusal>
    requires { HeldIn course.now s }
    ensures { result ≡ scored (outcome_in course.now (Some s) (steps_of edges.now stays.now)) }
{
    let end = course.run(s, edges, stays).ok_or(Refusal::NotARun)?;
    if !is_end(kind_at(course.pattern, end.place)) {
        return Err(Refusal::NotARun);
    }
    Ok(end.worth)
}

// The run from the begin's piece onward.
fn score(course: &Course, begin: u32, edges: &[u32], stays: &[u32]) -> Result<i64, Refusal>
    requires { steps_fit course.now.lent.durations.now begin edges.now stays.now ≡ true }
    ensures { result ≡ scored (price_of course.now.pattern (book_in course.now) begin (steps_of edges.now stays.now)) }
{
    let p = course.pattern;
    let Record { durations, values } = course.lent;
    let found = find(durations, begin);
    let at = found.piece * usize::from(p.channels);
    // A sound record's ticks narrow by `as`.
    let left = ticks(durations) as u32 - begin;
    let s = start(p, edges[0], found.used, left).ok_or(Refusal::NotARun)?;
    let lent = Record {
        durations: &durations[found.piece..],
        values: &values[at..],
    };
    score_from(&Course { pattern: p, lent }, s, edges, stays)
}

// What the run is worth, or refusal 7, 8, 9 or 10. Any slices are answered, and none is written. They come one by one, as a host
// in C lends them.
pub fn price(
    p: Pattern,
    durations: &[u32],
    values: &[i32],
    begin: u32,
    edges: &[u32],
    stays: &[u32],
) -> Result<i64, Refusal>
    ensures value { result ≡ priced_of p durations.now values.now begin
        edges.now stays.now }
    ensures result_value { priced_as result ≡ priced_numbers p durations.now values.now begin
        edges.now stays.now }
{
    let sound = SoundPattern::new(p)?;
    let lent = Record { durations, values };
    if !record_sound(p.channels, lent) {
        return Err(Refusal::BrokenRecord);
    }
    if !steps_fit(durations, begin, edges, stays) {
        return Err(Refusal::BrokenSteps);
    }
    let course = Course {
        pattern: sound.pattern,
        lent,
    };
    score(&course, begin, edges, stays)
}
