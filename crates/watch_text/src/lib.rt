// The lines that `watch` prints, put into a buffer.
#![tactic(auto)]

ghost use Rattle.std.specs.Prelude.{ℕ, ◌+◌, ◌*◌, ◌≤◌, ◌<◌, length, length as size, get_or, IfSome};
ghost use Rattle.best.specs.Search.{chosen_in};
ghost use Rattle.text_put.specs.Put.{Puts};
ghost use Rattle.watch_text.specs.Shown.{refused_text, heading, row_text, row_for, rows_past, best_text};

use best::Choice;
use pattern::Refusal;
use text_put::Writer;

// `refused 11`
pub fn put_refused(out: &mut Writer, r: Refusal)
    ensures put { Puts out.old out.new (refused_text r) }
    ensures r_bound { size (refused_text r) ≤ 128 }
{
    out.word(b"refused ");
    out.number(u64::from(u8::from(r)));
    out.byte(b'\n');
}

// `end begin score`
pub fn put_heading(out: &mut Writer)
    ensures { Puts out.old out.new heading }
{
    out.word(b"end begin score\n");
}

// `2 0 5`
fn put_row(out: &mut Writer, end: u32, begin: u32, score: i64)
    ensures put { Puts out.old out.new (row_text end begin score) }
    ensures score_bound { size (row_text end begin score) ≤ 64 }
{
    out.number(u64::from(end));
    out.byte(b' ');
    out.number(u64::from(begin));
    out.byte(b' ');
    out.integer(score);
    out.byte(b'\n');
}

// The line of an end, if it has a run.
fn put_report(out: &mut Writer, end: u32, score: i64, length: u32)
    requires { length ≤ end }
    ensures put { Puts out.old out.new (row_for end score length) }
    ensures length_bound { size (row_for end score length) ≤ 64 }
{
    // The test has a name, by which the answers' goals are called: the edit ends_without_a_run_have_lines keeps it. Without answers no
    // proof closed.
    let has_run = length != 0;
    if has_run {
        put_row(out, end, end - length, score);
    }
}

// The first `count` reports of a stretch that begins after `ticks` ticks. The slices hold more, and the
// definition `rows_past` has the count, as in `best::choose_all`.
pub fn put_reports(out: &mut Writer, ticks: u32, count: u32, scores: &[i64], lengths: &[u32])
    requires { (count ≤ length scores.now) × (count ≤ length lengths.now) × (ticks + count ≤ 2147483647)
        × ((i : ℕ) → i < count → get_or lengths.now i 0 ≤ ticks + i + 1) }
    ensures put { Puts out.old out.new (rows_past ticks scores.now lengths.now count) }
    ensures count_bound { size (rows_past ticks scores.now lengths.now count) ≤ 64 * count }
{
    for ((tick, score), length) in (ticks..ticks + count).zip(scores).zip(lengths) {
        put_report(out, tick + 1, *score, *length);
    }
}

// `best 2 0 5` or `best none`
pub fn put_best(out: &mut Writer, best: Option<Choice>)
    requires { IfSome best (λ f. f.length ≤ f.end) }
    ensures put { Puts out.old out.new (best_text (chosen_in best)) }
    ensures best_bound { size (best_text (chosen_in best)) ≤ 128 }
{
    match best {
        None => out.word(b"best none\n"),
        Some(f) => {
            out.word(b"best ");
            put_row(out, f.end, f.end - f.length, f.score);
        }
    }
}
