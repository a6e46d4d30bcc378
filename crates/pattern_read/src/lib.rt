// Read a pattern (document 01, 'Read a pattern'): one reader walks the text from line to line. What a line says, and what it
// leaves in the pattern, is the crate pattern_lines'.
#![tactic(auto)]

ghost use Rattle.std.specs.Prelude.{◌≡◌};
ghost use Rattle.pattern_text.specs.Text.{read_of};
ghost use Rattle.pattern_read.specs.Reading.{reading_of, read_as, read_numbers};

use pattern::{Pattern, Refusal};
use pattern_lines::{first_line, further_line};
use text_reader::Reader;

// Read a pattern: 1, then the first faulty line decides; no place at all is 2.
pub fn read(text: &[u8]) -> Result<Pattern, Refusal>
    ensures value { result ≡ reading_of (read_of text.now) }
    ensures result_value { read_as result ≡ read_numbers text.now }
{
    if text.len() > 8_192 {
        return Err(Refusal::TextTooLong);
    }
    let mut reader = Reader::new(text, 0);
    let (mut pattern, rest) = first_line(reader.left())?;
    reader = reader.moved_to(rest);
    while reader.unread() {
        let rest = further_line(reader.left(), &mut pattern)?;
        reader = reader.moved_to(rest);
    }
    if pattern.placecount == 0 {
        return Err(Refusal::BrokenForm);
    }
    Ok(pattern)
}
