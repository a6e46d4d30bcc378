// Executes the table of pattern values values.txt, which says its own form and which C cannot reach: values that no text reads
// as, between sound ones.
#![tactic(auto)]

pub mod values;

use files::read_file;
use pattern::{Guard, Kind, NO_PATTERN, Pattern, Refusal, Sign, Test};
use std::io;
use text_vectors::writes::{fits, leaves};
use text_vectors::{numeral, print, split_line};
use values::{with_counts, with_edge, with_guard, with_header, with_place, with_reset, with_test};

// What is behind the next byte.
fn past(text: &[u8]) -> &[u8] {
    text.split_first().map_or(text, |(_, rest)| rest)
}

// The numbers of a row; those that it lacks are not looked at.
fn numbers(row: &[u8]) -> [u64; 6] {
    let mut numbers = [0; 6];
    let mut rest = row;
    for number in &mut numbers {
        let (value, behind) = numeral(rest).unwrap_or((0, rest));
        *number = value;
        rest = past(behind);
    }
    numbers
}

// A number as a field takes it; 0 if it is too large.
fn narrow<T: TryFrom<u64> + Default>(n: u64) -> T
where
    <T as TryFrom<u64>>::Error: Drop,
{
    T::try_from(n).unwrap_or_default()
}

// A test's bound, below the limit of the table; another number is 0.
fn bound(n: u64) -> i32 {
    match i32::try_from(n) {
        Ok(bound) if bound < 2_000_000_000 => bound,
        _ => 0,
    }
}

// The bounds below 0 that there are in the table; another number is 0.
fn below_zero(n: u64) -> i32 {
    match n {
        1 => -1,
        1_000_000 => -1_000_000,
        1_000_001 => -1_000_001,
        _ => 0,
    }
}

// A kind's number in the table, and a sign's below: no From, since neither type is of this crate, and no TryFrom, since every
// number says one.
fn kind(n: u64) -> Kind {
    match n {
        0 => Kind::Start,
        1 => Kind::Plain,
        2 => Kind::End,
        _ => Kind::Both,
    }
}

fn sign(n: u64) -> Sign {
    match n {
        0 => Sign::Less,
        1 => Sign::AtMost,
        2 => Sign::More,
        _ => Sign::AtLeast,
    }
}

// One place without tests and no edge: its further slots, too, would do as places and edges.
fn bare() -> Pattern {
    pattern_read::read(
        b"(pattern margin 1 0 1 4)\n\
          (place plain)\n",
    )
    .unwrap_or(NO_PATTERN)
}

// Another text than `bare`: a function for both would only take the text.
fn usual() -> Pattern {
    pattern_read::read(
        b"(pattern margin 1 1 1 4)\n\
          (place start (< 0 15))\n\
          (place plain (> 0 5) (< 0 9))\n\
          (place end)\n\
          (edge 0 1 (< 0 3) (reset 0))\n\
          (edge 1 2 (<= 0 2) (> 0 0))\n",
    )
    .unwrap_or(NO_PATTERN)
}

// What a row says by its mark and its numbers.
// A match on the row's mark, each arm a pattern: a table of closures would have a line for each mark, too.
fn altered(mark: u8, numbers: [u64; 6]) -> Pattern {
    let [a, b, c, d, e, f] = numbers;
    let (first, second) = (a as usize, b as usize);
    let test = |band, bound, high| Test {
        sign: sign(c),
        channel: narrow(d),
        band,
        bound,
        high,
    };
    match mark {
        b'h' => with_header(bare(), narrow(a), narrow(b), narrow(c), narrow(d)),
        b'c' => with_counts(bare(), narrow(a), narrow(b)),
        b'p' => with_place(usual(), first, kind(b), narrow(c)),
        b't' => with_test(usual(), first, second, test(false, bound(e), 0)),
        b'm' => with_test(usual(), first, second, test(false, below_zero(e), 0)),
        b'w' => with_test(usual(), first, second, test(false, bound(e), bound(f))),
        b'b' => with_test(usual(), first, second, test(true, bound(e), bound(f))),
        b'n' => with_test(
            usual(),
            first,
            second,
            test(true, below_zero(e), below_zero(f)),
        ),
        b'e' => with_edge(usual(), first, narrow(b), narrow(c), narrow(d)),
        b'g' => {
            let guard = Guard {
                sign: sign(c),
                clock: narrow(d),
                bound: narrow(e),
            };
            with_guard(usual(), first, second, guard)
        }
        b'r' => with_reset(usual(), first, second),
        _ => usual(),
    }
}

// Whether a count of cells and writes take the value, or refuse it as is due: writes with room for its text, and with none, where
// a sound value is 6.
fn judged(p: Pattern, due: u64) -> bool {
    match pattern::cells(p) {
        Ok(_) => due == 0 && fits(p) && leaves(b"", p, 0, Err(Refusal::OutputTooShort)),
        Err(why) => {
            due == u64::from(u8::from(why))
                && leaves(b"", p, 8192, Err(why))
                && leaves(b"", p, 0, Err(why))
        }
    }
}

// A row, which is at the front of the table's rest; a line that begins with no number is none.
fn look(rt: &HostRuntime, line: &[u8], table: &[u8]) -> io::Result<()> {
    let Some((due, rest)) = numeral(table) else {
        return Ok(());
    };
    let value = match past(rest).split_first() {
        Some((mark, rest)) => altered(*mark, numbers(past(rest))),
        None => usual(),
    };
    print(rt, judged(value, due), line)
}

// No `for` over the lines: a row that lacks numbers reads on in the next line.
fn answer_rows(rt: &HostRuntime, table: &[u8]) -> io::Result<()> {
    let mut rest = table;
    while !rest.is_empty() {
        let (line, behind) = split_line(rest);
        look(rt, line, rest)?;
        rest = behind;
    }
    Ok(())
}

// The table is in the folder where the program runs.
pub fn run(rt: &HostRuntime) -> io::Result<()> {
    println!(rt; "pattern values")?;
    let mut table = [0u8; 65536];
    let table = read_file(rt, b"values.txt", &mut table).unwrap_or_else(|part| part);
    answer_rows(rt, table)
}
