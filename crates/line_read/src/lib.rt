// The three kinds of line of a pattern text at the front of a text, each with its line feed.
#![tactic(auto)]

ghost use Rattle.std.specs.Prelude.{◌≡◌};
ghost use Rattle.pattern_text.specs.Form.{giving, ◌◂◌};
ghost use Rattle.pattern_text.specs.Line.{header_line, place_line, edge_line};
ghost use Rattle.text_scan.specs.Scan.{read_of};
ghost use Rattle.line_read.specs.Lines.{held_header, held_place, held_edge};

use line_lists::{Parts, Resets, read_guards, read_resets, read_tests};
use line_parts::{read_kind, read_spaced, read_weighing};
use pattern::{Guard, Kind, Test};
use text_scan::{read_number, read_word};
use weighting::Weighing;

// A header's numbers, held.
#[derive(Clone, Copy)]
pub struct Header {
    pub weighing: Weighing,
    pub channels: u32,
    pub clocks: u32,
    pub low: u32,
    pub high: u32,
}

// A place's line.
#[derive(Clone, Copy)]
pub struct PlaceLine {
    pub kind: Kind,
    pub tests: Parts<Test, 4>,
}

// An edge's line; its ends are held.
#[derive(Clone, Copy)]
pub struct EdgeLine {
    pub from: u32,
    pub to: u32,
    pub guards: Parts<Guard, 4>,
    pub resets: Resets,
}

// Line 1, with its line feed.
pub fn read_header(text: &[u8]) -> Option<(Header, &[u8])>
    ensures { read_of result ≡ giving held_header ((header_line ◂ "\n").read text.now) }
{
    let rest = read_word(text, b"(pattern ")?;
    let (weighing, rest) = read_weighing(rest)?;
    let (channels, rest) = read_number(rest)?;
    let (clocks, rest) = read_spaced(rest)?;
    let (low, rest) = read_spaced(rest)?;
    let (high, rest) = read_spaced(rest)?;
    let rest = read_word(rest, b")")?;
    let rest = read_word(rest, b"\n")?;
    Some((
        Header {
            weighing,
            channels,
            clocks,
            low,
            high,
        },
        rest,
    ))
}

// A place's line, with its line feed.
pub fn read_place(text: &[u8], channels: u8) -> Option<(PlaceLine, &[u8])>
    ensures { read_of result ≡ giving (held_place channels) ((place_line ◂ "\n").read text.now) }
{
    let rest = read_word(text, b"(place ")?;
    let (kind, rest) = read_kind(rest)?;
    let (tests, rest) = read_tests(rest, channels);
    let rest = read_word(rest, b")")?;
    let rest = read_word(rest, b"\n")?;
    Some((PlaceLine { kind, tests }, rest))
}

// An edge's line, with its line feed.
pub fn read_edge(text: &[u8], clocks: u8) -> Option<(EdgeLine, &[u8])>
    ensures { read_of result ≡ giving (held_edge clocks) ((edge_line ◂ "\n").read text.now) }
{
    let rest = read_word(text, b"(edge ")?;
    let (from, rest) = read_number(rest)?;
    let (to, rest) = read_spaced(rest)?;
    let (guards, rest) = read_guards(rest, clocks);
    let (resets, rest) = read_resets(rest, clocks);
    let rest = read_word(rest, b")")?;
    let rest = read_word(rest, b"\n")?;
    Some((
        EdgeLine {
            from,
            to,
            guards,
            resets,
        },
        rest,
    ))
}
