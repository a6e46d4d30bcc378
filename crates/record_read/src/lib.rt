// Read a record's text (document 01, 'The watch program'): check it whole, then walk it piece by piece.
#![tactic(auto)]

ghost use Rattle.std.specs.Prelude.{◌≡◌, ◌≤◌, length, true};
ghost use Rattle.pattern_text.specs.Bytes.{got};
ghost use Rattle.pattern_text.specs.Form.{giving, many, ◌◂◌};
ghost use Rattle.text_scan.specs.Scan.{read_of};
ghost use Rattle.record.specs.Record.{value_in_range};
ghost use Rattle.record_text.specs.Piece.{value, piece_line};
ghost use Rattle.record_text.specs.Text.{read_record, pieces_refusal, record_refusal};
ghost use Rattle.record_read.specs.Line.{held_value, no_value, gathered_values, held_line, piece_at};
ghost use Rattle.record_read.specs.Check.{checked_of, checked_as, check_number, line_sound, turned};
ghost use Rattle.record_read.specs.Shorter.{value_shorter};

use line_lists::{Part, Parts, read_parts};
use pattern::Refusal;
use text_reader::Reader;
use text_scan::{read_held, read_integer, read_word};

// A piece, and where the next one begins. Channels that the record lacks are zeros.
// Where no line stands it is 0 ticks, zeros and the text's end, as the definition `piece_at` has it.
#[derive(Clone, Copy)]
pub struct PieceRead {
    pub duration: u32,
    pub values: [i32; 8],
    pub next: usize,
}

// A value of a line, which names nothing.
#[derive(Clone, Copy)]
pub struct Value(pub i32);

// A piece's line; its duration is held at 2,147,483,648.
#[derive(Clone, Copy)]
pub struct PieceLine {
    pub duration: u32,
    pub values: Parts<Value, 8>,
}

// The lines so far: whether they keep the rules; their ticks, held at 2,147,483,648.
#[derive(Clone, Copy)]
pub struct Walk {
    pub sound: bool,
    pub ticks: u32,
}

impl Part for Value {
    ghost reads = { λ b. giving held_value (value.read b) };

    ghost unused = { no_value };

    ghost in_range = { λ v. value_in_range v.0 };

    ghost known = { λ _ _. true };

    fn read(text: &[u8]) -> Option<(Value, &[u8])> {
        let (value, rest) = read_integer(read_word(text, b" ")?)?;
        Some((Value(value), rest))
    }

    fn unused() -> Value {
        Value(0)
    }

    fn is_in_range(self) -> bool {
        record::rules::in_range(self.0)
    }

    fn is_known(self, _count: u8) -> bool {
        true
    }

    ghost shorter = { value_shorter };
}

// As many values as stand there.
fn read_values(text: &[u8]) -> (Parts<Value, 8>, &[u8])
    ensures { got result.0 result.1.now ≡ giving gathered_values ((many value).read text.now) }
{
    read_parts(text, 0)
}

// A piece's line, with its line feed: a duration, then one or more values.
fn read_line(text: &[u8]) -> Option<(PieceLine, &[u8])>
    ensures { read_of result ≡ giving held_line ((piece_line ◂ "\n").read text.now) }
{
    let rest = read_word(text, b"(piece ")?;
    let (duration, rest) = read_held(rest, 2_147_483_648)?;
    let (values, rest) = read_values(rest);
    if values.count < 1 {
        return None;
    }
    let rest = read_word(rest, b")")?;
    let rest = read_word(rest, b"\n")?;
    Some((PieceLine { duration, values }, rest))
}

// The piece whose line begins at a position; where there is none, it ends with the text.
// At an offset, as document 01's reader has one.
pub fn piece_at(text: &[u8], at: usize) -> PieceRead
    requires { at ≤ length text.now }
    ensures { result ≡ piece_at text.now at }
{
    let r = Reader::new(text, at);
    let Some((line, rest)) = read_line(r.left()) else {
        return PieceRead {
            duration: 0,
            values: [0; 8],
            next: text.len(),
        };
    };
    PieceRead {
        duration: line.duration,
        values: line.values.parts.map(|v| v.0),
        next: r.moved_to(rest).at,
    }
}

// At least 1 tick, and a value in range for each channel.
fn line_sound(line: PieceLine, channels: u8) -> bool
    ensures { result ≡ line_sound channels line }
{
    (1 <= line.duration) & line.values.in_range & (line.values.count == u16::from(channels))
}

impl Walk {
    // One line more.
    fn with(self, line: PieceLine, channels: u8) -> Walk
        ensures { result ≡ turned channels self line }
    {
        Walk {
            sound: self.sound & line_sound(line, channels),
            ticks: self.ticks.saturating_add(line.duration).min(2_147_483_648),
        }
    }
}

// One reader walks the text from line to line, to its end: 2 at a line without the form, then 8. So short a text has fewer than
// 4,096 pieces.
fn check_lines(text: &[u8], channels: u8) -> Result<(), Refusal>
    requires { length text.now ≤ 16384 }
    ensures { result ≡ checked_of (pieces_refusal channels (read_record text.now)) }
{
    let mut r = Reader::new(text, 0);
    let mut s = Walk {
        sound: true,
        ticks: 0,
    };
    while r.unread() {
        let (line, rest) = read_line(r.left()).ok_or(Refusal::BrokenForm)?;
        s = s.with(line, channels);
        r = r.moved_to(rest);
    }
    let kept = s.sound & (s.ticks <= 2_147_483_647);
    if kept {
        Ok(())
    } else {
        Err(Refusal::BrokenRecord)
    }
}

// Check a record's text for a pattern's channels: 1, a broken form anywhere 2, then 8.
#[tactic(auto, using(crate::proofs::Numbers::long_refused, crate::proofs::Numbers::long_number))]
pub fn check(text: &[u8], channels: u8) -> Result<(), Refusal>
    ensures value { result ≡ checked_of (record_refusal channels text.now) }
    ensures result_value { checked_as result ≡ check_number channels text.now }
{
    if 16_384 < text.len() {
        return Err(Refusal::TextTooLong);
    }
    check_lines(text, channels)
}
