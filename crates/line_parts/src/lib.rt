// The parts of a line of a pattern text at the front of a text: signs, kinds, weighings, tests, guards.
#![tactic(auto)]

ghost use Rattle.std.specs.Prelude.{◌≡◌};
ghost use Rattle.pattern_text.specs.Form.{giving, ◌▸◌, first_of, number};
ghost use Rattle.pattern_text.specs.Line.{
  sign,
  kind,
  weighing,
  side_of,
  inside_of,
  test_of,
  side_test,
  band_test,
  test,
  guard,
};
ghost use Rattle.text_scan.specs.Scan.{read_of, held_number};
ghost use Rattle.line_parts.specs.Parts.{held_raw, held_guard};

use pattern::{Guard, Kind, Sign, Test};
use pattern_text::Word;
use text_scan::{read_integer, read_number, read_word};
use weighting::Weighing;

// The first of some values whose word stands there.
fn read_first<'a, T: Word>(text: &'a [u8], values: &[T]) -> Option<(T, &'a [u8])>
    ensures { read_of result ≡ first_of T.spelled values.now text.now }
{
    for value in values {
        if let Some(rest) = read_word(text, value.word()) {
            return Some((*value, rest));
        }
    }
    None
}

#[tactic(auto, unfolding(pattern_text::specs::Line::sign, pattern_text::specs::Form::one_of))]
pub fn read_sign(text: &[u8]) -> Option<(Sign, &[u8])>
    ensures { read_of result ≡ sign.read text.now }
{
    read_first(text, &[Sign::Less, Sign::AtMost, Sign::More, Sign::AtLeast])
}

#[tactic(auto, unfolding(pattern_text::specs::Line::kind, pattern_text::specs::Form::one_of))]
pub fn read_kind(text: &[u8]) -> Option<(Kind, &[u8])>
    ensures { read_of result ≡ kind.read text.now }
{
    read_first(text, &[Kind::Start, Kind::Plain, Kind::End, Kind::Both])
}

#[tactic(auto, unfolding(pattern_text::specs::Line::weighing, pattern_text::specs::Form::one_of))]
pub fn read_weighing(text: &[u8]) -> Option<(Weighing, &[u8])>
    ensures { read_of result ≡ weighing.read text.now }
{
    read_first(text, &[Weighing::Margin, Weighing::Sum])
}

// A space and a number, as a number stands behind another.
pub fn read_spaced(text: &[u8]) -> Option<(u32, &[u8])>
    ensures { read_of result ≡ giving held_number ((" " ▸ number).read text.now) }
{
    read_number(read_word(text, b" ")?)
}

// A test by its sign: a sign, a channel, a bound. A number held at the type's limit narrows by `as`, here and below.
fn read_side(text: &[u8]) -> Option<(Test, &[u8])>
    ensures { read_of result ≡ giving (λ x. held_raw (side_of x)) (side_test.read text.now) }
{
    let (sign, rest) = read_sign(text)?;
    let (channel, rest) = read_number(rest)?;
    let rest = read_word(rest, b" ")?;
    let (bound, rest) = read_integer(rest)?;
    let rest = read_word(rest, b")")?;
    let channel = channel.min(255) as u8;
    Some((
        Test {
            sign,
            channel,
            band: false,
            bound,
            high: 0,
        },
        rest,
    ))
}

// A band: a channel, a low, a high.
fn read_band(text: &[u8]) -> Option<(Test, &[u8])>
    ensures { read_of result ≡ giving (λ x. held_raw (inside_of x)) (band_test.read text.now) }
{
    let rest = read_word(text, b" (in ")?;
    let (channel, rest) = read_number(rest)?;
    let rest = read_word(rest, b" ")?;
    let (low, rest) = read_integer(rest)?;
    let rest = read_word(rest, b" ")?;
    let (high, rest) = read_integer(rest)?;
    let rest = read_word(rest, b")")?;
    let channel = channel.min(255) as u8;
    Some((
        Test {
            sign: Sign::Less,
            channel,
            band: true,
            bound: low,
            high,
        },
        rest,
    ))
}

// A test of either kind.
pub fn read_test(text: &[u8]) -> Option<(Test, &[u8])>
    ensures { read_of result ≡ giving held_raw (test.read text.now) }
{
    read_side(text).or_else(|| read_band(text))
}

// A guard: a sign, a clock, a bound.
pub fn read_guard(text: &[u8]) -> Option<(Guard, &[u8])>
    ensures { read_of result ≡ giving held_guard (guard.read text.now) }
{
    let (sign, rest) = read_sign(text)?;
    let (clock, rest) = read_number(rest)?;
    let (bound, rest) = read_spaced(rest)?;
    let rest = read_word(rest, b")")?;
    let clock = clock.min(255) as u8;
    let bound = bound.min(65_535) as u16;
    Some((Guard { sign, clock, bound }, rest))
}
