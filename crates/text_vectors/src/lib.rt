// Executes the table of texts texts.txt, which says its own form: each text is read, an accepted one is written back, into
// a longer buffer, an exact fit and too short ones, and the answers are compared with the table's. tests/host tries the same
// table from C.
#![tactic(auto)]

pub mod writes;

ghost use Rattle.std.specs.Prelude.{◌<◌, ◌≤◌, ◌+◌, ◌≡◌, length};

use files::read_file;
use std::fs::File;
use std::io;
use text_put::Writer;

// Puts a part into the text several times, as far as there is room.
fn put_times(text: &mut Writer, part: &[u8], times: u64) {
    for _ in 0..times {
        text.word(part);
    }
}

// How many texts were answered as the table says, or otherwise.
#[derive(Clone, Copy)]
struct Tally {
    right: u64,
    wrong: u64,
}

// A number next to n.
fn other(n: u64) -> u64 {
    n.checked_sub(1).unwrap_or(1)
}

// A further digit of a number; one above 10^18 takes none.
fn with_digit(value: u64, digit: u8) -> u64 {
    match digit {
        b'0'..=b'9' if value <= 1_000_000_000_000_000_000 => value * 10 + u64::from(digit - b'0'),
        _ => value,
    }
}

// The number at the front of a text, if a digit stands there, and what is behind it.
pub fn numeral(text: &[u8]) -> Option<(u64, &[u8])> {
    let n = text.iter().take_while(|b| b.is_ascii_digit()).count();
    let (digits, rest) = text.split_at(n);
    if digits.is_empty() {
        return None;
    }
    let value = digits
        .iter()
        .fold(0, |value, digit| with_digit(value, *digit));
    Some((value, rest))
}

// The first line, with its line feed, and what is behind it.
pub fn split_line(text: &[u8]) -> (&[u8], &[u8])
    requires { 0 < length text.now }
    ensures { length result.1.now < length text.now }
{
    let n = text.iter().take_while(|b| **b != b'\n').count();
    text.split_at((n + 1).min(text.len()))
}

// Whether the text has these answers.
fn answers(text: &[u8], number: u64, cells: u64) -> bool {
    match pattern_read::read(text) {
        Ok(p) => number == 0 && pattern::cells(p) == Ok(cells) && writes::written(text, p),
        Err(cause) => number == u64::from(u8::from(cause)) && cells == 0,
    }
}

// Whether the text has these answers, and no others.
fn judged(text: &[u8], number: u64, cells: u64) -> bool {
    answers(text, number, cells)
        && !answers(text, other(number), cells)
        && !answers(text, number, other(cells))
}

// Prints a word and the table's line.
pub fn print(rt: &HostRuntime, ok: bool, line: &[u8]) -> io::Result<()> {
    rt.write_all(if ok { b"ok " } else { b"WRONG " })?;
    rt.write_all(line)
}

// One line of the table: a number or none, a mark and the rest.
fn look(rt: &HostRuntime, line: &[u8], text: &mut Writer, tally: &mut Tally) -> io::Result<()> {
    let (n, marked) = numeral(line).unwrap_or((1, line));
    let Some((mark, rest)) = marked.split_first() else {
        return Ok(());
    };
    match *mark {
        b'|' => put_times(text, rest, n),
        b':' => put_times(text, rest.split_last().map_or(rest, |(_, front)| front), n),
        b'.' => text.byte(u8::try_from(n).unwrap_or(0)),
        b'=' => {
            // The text is whole.
            let cells = numeral(rest).map_or(0, |(cells, _)| cells);
            let length = text.at;
            let whole = text.text.get(..length);
            let ok = whole.is_some_and(|whole| judged(whole, n, cells));
            print(rt, ok, line)?;
            text.at = 0;
            if ok {
                tally.right = tally.right.saturating_add(1);
            } else {
                tally.wrong = tally.wrong.saturating_add(1);
            }
        }
        _ => {}
    }
    Ok(())
}

// All lines of the table.
fn answer_all(rt: &HostRuntime, table: &[u8]) -> io::Result<Tally> {
    // The text that the lines make, of as many bytes as there is room for.
    let mut room = [0; 65536];
    let mut text = Writer::new(&mut room);
    let mut tally = Tally { right: 0, wrong: 0 };
    for line in table.split_inclusive(|b| *b == b'\n') {
        look(rt, line, &mut text, &mut tally)?;
    }
    Ok(tally)
}

// The table is in the folder where the program runs. Of one that is not there nothing is said but that.
pub fn run(rt: &HostRuntime) -> io::Result<()> {
    println!(rt; "texts")?;
    let is_there = File::open(rt, "texts.txt").is_ok();
    let mut table = [0u8; 65536];
    let table = read_file(rt, b"texts.txt", &mut table).unwrap_or_else(|part| part);
    if !is_there {
        return Ok(());
    }
    let tally = answer_all(rt, table)?;
    println!(rt; "{} right, {} wrong", tally.right, tally.wrong)
}
