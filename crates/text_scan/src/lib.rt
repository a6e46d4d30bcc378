// Words and numbers at the front of a lent text, as the definitions of crate pattern_text read them: each function answers what
// it read and what is left of the text after it. A number is held at a limit: the lesser of the two is answered.
#![tactic(auto)]

ghost use Rattle.std.specs.Prelude.{◌≡◌, ◌≤◌, ◌<◌, min};
ghost use Rattle.pattern_text.specs.Numeral.{front, after, value_from, numeral_of};
ghost use Rattle.pattern_text.specs.Form.{strip, giving, and_then, minus, integer};
ghost use Rattle.text_scan.specs.Scan.{read_of, left_of, digit_of, held_digit, held_number, held_integer};

// Words are matched byte for byte.
pub fn read_word<'a>(text: &'a [u8], word: &[u8]) -> Option<&'a [u8]>
    ensures { left_of result ≡ strip word.now text.now }
{
    text.strip_prefix(word)
}

fn read_digit(text: &[u8]) -> Option<(u32, &[u8])>
    ensures { read_of result ≡ digit_of text.now }
{
    let (byte, rest) = text.split_first()?;
    if byte.is_ascii_digit() {
        Some((u32::from(*byte - b'0'), rest))
    } else {
        None
    }
}

// One digit more, held at `most`.
fn held_digit(value: u32, digit: u32, most: u32) -> u32
    ensures { result ≡ held_digit most value digit }
{
    value.saturating_mul(10).saturating_add(digit).min(most)
}

// All the digits at the front, after those that gave `value`.
fn read_digits(text: &[u8], value: u32, most: u32) -> (u32, &[u8])
    requires { value ≤ most }
    ensures value { result.0 ≡ min most (value_from value (front text.now)) }
    ensures left { result.1.now ≡ after text.now }
{
    let mut sum = value;
    let mut rest = text;
    while let Some((digit, next)) = read_digit(rest) {
        sum = held_digit(sum, digit, most);
        rest = next;
    }
    (sum, rest)
}

// A number is `0` or digits without a leading zero; it has as many digits as stand there. Held at `most`.
pub fn read_held(text: &[u8], most: u32) -> Option<(u32, &[u8])>
    requires { 9 ≤ most }
    ensures { read_of result ≡ giving (min most) (numeral_of text.now) }
{
    let (first, rest) = read_digit(text)?;
    if first == 0 && read_digit(rest).is_some() {
        return None;
    }
    Some(read_digits(rest, first, most))
}

// A number of a pattern text, held at 1,000,001.
pub fn read_number(text: &[u8]) -> Option<(u32, &[u8])>
    ensures { read_of result ≡ giving held_number (numeral_of text.now) }
{
    read_held(text, 1_000_001)
}

// What follows a minus. A held number turns signed by `as`, here and below: `try_from` would need an answer for a refusal that cannot
// come.
fn read_negative(text: &[u8]) -> Option<(i32, &[u8])>
    ensures { read_of result ≡ giving held_integer (and_then (numeral_of text.now) minus) }
{
    let (value, rest) = read_number(text)?;
    if value < 1 {
        return None;
    }
    Some((-(value as i32), rest))
}

// A minus may stand only before a non-zero number. Held at 1,000,001 and -1,000,001.
pub fn read_integer(text: &[u8]) -> Option<(i32, &[u8])>
    ensures { read_of result ≡ giving held_integer (integer.read text.now) }
{
    if let Some((value, rest)) = read_number(text) {
        return Some((value as i32, rest));
    }
    read_negative(read_word(text, b"-")?)
}
