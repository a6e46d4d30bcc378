// The lines of a pattern text (document 01, 'Read a pattern'): the line at the front of a text is judged by what the lines above
// it gave, and then what it holds is put into the pattern. The walk over all lines is the crate pattern_read's.
#![tactic(auto)]

ghost use Rattle.std.specs.Prelude.{◌≡◌};
ghost use Rattle.pattern_lines.specs.Turn.{
  verdict_of,
  header_fine,
  header_alone,
  place_verdict,
  place_from,
  edge_verdict,
  edge_from,
  put_if,
  put_place,
  put_edge,
  begun,
  header_turn,
  left_by,
  edge_turn,
  line_turn,
};

use line_lists::Parts;
use line_read::{EdgeLine, Header, PlaceLine, read_edge, read_header, read_place};
use pattern::{Edge, NO_PATTERN, Pattern, Place, Refusal, Test};

// 4, 3, 5, in this order.
#[tactic(auto, unfolding(crate::specs::Turn::verdict_of, pattern_text::specs::Fault::judged))]
fn judge(few: bool, in_range: bool, known: bool) -> Result<(), Refusal>
    ensures { result ≡ verdict_of few in_range known }
{
    if !few {
        return Err(Refusal::TooMany);
    }
    if !in_range {
        return Err(Refusal::OutOfRange);
    }
    if !known {
        return Err(Refusal::UnknownIndex);
    }
    Ok(())
}

// Channels 1 to 8; clocks 0 to 4; the window's low, 1 to 4,095; its high, low to 4,095.
#[tactic(auto, unfolding(crate::specs::Turn::header_fine, pattern::specs::Sound::header_in_range))]
fn header_fine(h: Header) -> bool
    ensures { result ≡ header_fine h }
{
    (1..=8).contains(&h.channels)
        && h.clocks <= 4
        && (1..=4_095).contains(&h.low)
        && (h.low..=4_095).contains(&h.high)
}

// A pattern of a header alone.
// No `From`: both types are of other crates, and the numbers are held, so that they narrow by `as`, here and below.
#[tactic(auto, unfolding(crate::specs::Turn::header_alone))]
fn header_alone(h: Header) -> Pattern
    ensures { result ≡ header_alone h }
{
    Pattern {
        weighing: h.weighing,
        channels: h.channels.min(255) as u8,
        clocks: h.clocks.min(255) as u8,
        low: h.low.min(65_535) as u16,
        high: h.high.min(65_535) as u16,
        ..NO_PATTERN
    }
}

// The header's line: the pattern that it begins, and what is left of the text.
pub fn first_line(text: &[u8]) -> Result<(Pattern, &[u8]), Refusal>
    ensures { begun result ≡ header_turn text.now }
{
    let (header, rest) = read_header(text).ok_or(Refusal::BrokenForm)?;
    if !header_fine(header) {
        return Err(Refusal::OutOfRange);
    }
    Ok((header_alone(header), rest))
}

// No `From`, as above; so `edge_of`.
#[tactic(auto, unfolding(crate::specs::Turn::place_from))]
fn place_of(line: PlaceLine) -> Place
    ensures { result ≡ place_from line }
{
    let tests = line.tests.parts;
    Place {
        kind: line.kind,
        tests,
        count: line.tests.count.min(255) as u8,
    }
}

// A place's line in a pattern with `count` places.
#[tactic(auto, unfolding(crate::specs::Turn::place_verdict))]
fn place_verdict(count: u8, tests: Parts<Test, 4>) -> Result<(), Refusal>
    ensures { result ≡ place_verdict count tests }
{
    judge(count < 16 && tests.count < 5, tests.in_range, tests.known)
}

// One place more, if its line has no fault.
fn add_place(p: &mut Pattern, line: PlaceLine) -> Result<(), Refusal>
    ensures verdict { result ≡ place_verdict p.old.placecount line.tests }
    ensures put { p.new ≡ put_if result (put_place p.old (place_from line)) p.old }
{
    place_verdict(p.placecount, line.tests)?;
    p.places[usize::from(p.placecount)] = place_of(line);
    p.placecount += 1;
    Ok(())
}

#[tactic(auto, unfolding(crate::specs::Turn::edge_from))]
fn edge_of(line: EdgeLine) -> Edge
    ensures { result ≡ edge_from line }
{
    let guards = line.guards.parts;
    let resets = line.resets.flags;
    Edge {
        from: line.from.min(255) as u8,
        to: line.to.min(255) as u8,
        guards,
        count: line.guards.count.min(255) as u8,
        resets,
    }
}

// An edge's line in a pattern with `places` places and `count` edges.
#[tactic(auto, unfolding(crate::specs::Turn::edge_verdict))]
fn edge_verdict(places: u8, count: u8, line: EdgeLine) -> Result<(), Refusal>
    ensures { result ≡ edge_verdict places count line }
{
    let limit = u32::from(places);
    let ends_known = line.from < limit && line.to < limit;
    judge(
        count < 32 && line.guards.count < 5,
        line.guards.in_range,
        ends_known && line.guards.known && line.resets.known,
    )
}

// One edge more, if its line has no fault. (A function for this and `add_place` would only take an array and its count apart.)
fn add_edge(p: &mut Pattern, line: EdgeLine) -> Result<(), Refusal>
    ensures verdict { result ≡ edge_verdict p.old.placecount p.old.edgecount line }
    ensures put { p.new ≡ put_if result (put_edge p.old (edge_from line)) p.old }
{
    edge_verdict(p.placecount, p.edgecount, line)?;
    p.edges[usize::from(p.edgecount)] = edge_of(line);
    p.edgecount += 1;
    Ok(())
}

// An edge's line, put into the pattern, or 2: there must be a place above it. What is left of the text.
fn edge_line<'a>(text: &'a [u8], p: &mut Pattern) -> Result<&'a [u8], Refusal>
    ensures left { left_by result ≡ (edge_turn p.old text.now).0 }
    ensures pattern { p.new ≡ (edge_turn p.old text.now).1 }
{
    let (line, rest) = read_edge(text, p.clocks).ok_or(Refusal::BrokenForm)?;
    if p.placecount < 1 {
        return Err(Refusal::BrokenForm);
    }
    add_edge(p, line)?;
    Ok(rest)
}

// A place's line, or an edge's, put into the pattern; after an edge no place may come. What is left of the text. At a refusal
// the pattern stays as it was.
pub fn further_line<'a>(text: &'a [u8], p: &mut Pattern) -> Result<&'a [u8], Refusal>
    ensures left { left_by result ≡ (line_turn p.old text.now).0 }
    ensures pattern { p.new ≡ (line_turn p.old text.now).1 }
{
    if p.edgecount == 0
        && let Some((line, rest)) = read_place(text, p.channels)
    {
        add_place(p, line)?;
        return Ok(rest);
    }
    edge_line(text, p)
}
