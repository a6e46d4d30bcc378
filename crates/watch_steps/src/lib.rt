// What `watch` prints, step by step: each step puts some lines into a buffer, and the next goes on from there.
#![tactic(auto)]

ghost use Rattle.std.specs.Prelude.{◌≡◌, false, ℕ, ◌+◌, ◌≤◌, ◌<◌, min, length, get_or};
ghost use Rattle.monitor.specs.Feed.{feed_lengths};
ghost use Rattle.watch_steps.specs.Steps.{is_done, moved_on, chunk, Underway, Standing, Stepped, StepPut, ChunkPut};
ghost use Rattle.watch_steps.specs.declared.Stage.TheVariants.{Rows};

use best::Search;
use pattern::{Pattern, Refusal};
use record_read::{PieceRead, piece_at};
use text_put::Writer;
use watch_feed::feed_rows;
use watch_text::{put_best, put_heading, put_refused};

// What comes next: a refusal alone; the heading; lines of ends, or the last line; nothing any more. A refusal is one stage of
// four, so this is no Result.
#[derive(Clone, Copy)]
pub enum Stage {
    Refused(Refusal),
    Heading,
    Rows,
    Done,
}

// Where the next piece begins in the record's text; the ticks left of the present one, and its values.
// An offset, since document 01's form of a reader has one.
#[derive(Clone, Copy)]
pub struct Cursor {
    pub at: usize,
    pub left: u32,
    pub values: [i32; 8],
}

// All that the next step goes by: what it prints, and of what.
#[derive(Clone, Copy)]
pub struct Watch {
    pub stage: Stage,
    pub pattern: Pattern,
    pub cursor: Cursor,
    pub search: Search,
}

// A step's lines are the buffer's first `length` bytes: a count, as std's `read` answers, so that the buffer can be lent again.
#[derive(Clone, Copy)]
pub struct Step {
    pub watch: Watch,
    pub length: usize,
}

// The next piece, once nothing is left of the one before it.
fn move_on(text: &[u8], k: Cursor) -> Cursor
    ensures { result ≡ moved_on text.now k }
{
    if k.left == 0 && k.at < text.len() {
        let PieceRead {
            next,
            duration,
            values,
        } = piece_at(text, k.at);
        Cursor {
            at: next,
            left: duration,
            values,
        }
    } else {
        k
    }
}

// The ends of up to 64 ticks of the present piece.
// What is asked is about the text and both tables, which are lent beside the program's state: no type of it alone could say it.
fn step_chunk(w: Watch, first: &mut [i64], second: &mut [i64], out: &mut Writer) -> Watch
    requires { (w.pattern.channels ≤ 8) × (w.search.state.ticks + min w.cursor.left 64 ≤ 2147483647)
        × ((i : ℕ) → i < min w.cursor.left 64
        → get_or (feed_lengths w.pattern w.search.state first.old second.old (chunk w.pattern w.cursor)) i 0
        ≤ w.search.state.ticks + i + 1) }
    ensures { ChunkPut w first.old second.old out.old first.new second.new out.new result }
{
    let Watch {
        pattern,
        cursor,
        search,
        ..
    } = w;
    let ticks = cursor.left.min(64);
    let values = &cursor.values[..usize::from(pattern.channels)];
    let search = feed_rows(pattern, ticks, values, search, first, second, out);
    let cursor = Cursor {
        left: cursor.left - ticks,
        ..cursor
    };
    Watch {
        cursor,
        search,
        ..w
    }
}

// Lines of ends, or the last line.
// Asked of the lent text and tables as in `step_chunk`; so in the two below.
fn step_rows(
    text: &[u8],
    w: Watch,
    first: &mut [i64],
    second: &mut [i64],
    out: &mut Writer,
) -> Watch
    requires { (w.stage ≡ Rows) × (Underway w.pattern text.now w.cursor w.search first.old second.old) }
    ensures { StepPut text.now w first.old second.old out.old first.new second.new out.new result }
{
    let cursor = move_on(text, w.cursor);
    if cursor.left == 0 {
        put_best(out, w.search.choice);
        Watch {
            stage: Stage::Done,
            ..w
        }
    } else {
        step_chunk(Watch { cursor, ..w }, first, second, out)
    }
}

// The next lines: a refusal's, and no other; the heading; those of ends, or the last.
// A match on the stage, each arm a call: a closure for each would be made to be called once, here.
fn put_step(text: &[u8], w: Watch, first: &mut [i64], second: &mut [i64], out: &mut Writer) -> Watch
    requires { (Standing text.now w first.old second.old) × (is_done w.stage ≡ false) }
    ensures { StepPut text.now w first.old second.old out.old first.new second.new out.new result }
{
    match w.stage {
        Stage::Refused(cause) => {
            put_refused(out, cause);
            Watch {
                stage: Stage::Done,
                ..w
            }
        }
        Stage::Heading => {
            put_heading(out);
            Watch {
                stage: Stage::Rows,
                ..w
            }
        }
        Stage::Rows => step_rows(text, w, first, second, out),
        Stage::Done => w,
    }
}

// Is nothing left to print?
pub fn is_done(w: Watch) -> bool
    ensures { result ≡ is_done w.stage }
{
    matches!(w.stage, Stage::Done)
}

// The next lines, of at most 4,096 bytes.
pub fn next(text: &[u8], w: Watch, first: &mut [i64], second: &mut [i64], out: &mut [u8]) -> Step
    requires { (Standing text.now w first.old second.old) × (4096 ≤ length out.old)
        × (is_done w.stage ≡ false) }
    ensures { Stepped text.now w first.old second.old out.old
        first.new second.new out.new result }
{
    let mut lines = Writer::new(out);
    let watch = put_step(text, w, first, second, &mut lines);
    Step {
        watch,
        length: lines.at,
    }
}
