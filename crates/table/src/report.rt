// The report of a tick: the best worth that is offered to an end place just entered, and the least length that has it.
ghost use Rattle.std.specs.Prelude.{◌≡◌, cond};
ghost use Rattle.table.specs.Reports.{noted};

use weighting::{Weighing, at_least};

// The best run's score and length.
#[derive(Clone, Copy)]
pub struct Report {
    pub score: i64,
    pub length: usize,
}

// A worth v of length n, no longer than what r was made from, if r is of a run. What is as good and no longer takes its place.
#[tactic(auto, unfolding(crate::specs::Reports::noted))]
fn note(w: Weighing, r: Option<Report>, v: i64, n: usize) -> Option<Report>
    ensures { result ≡ noted w r v n }
{
    match r {
        Some(best) if !at_least(w, v, best.score) => r,
        _ => Some(Report {
            score: v,
            length: n,
        }),
    }
}

// The flag is the definition's (`told_move`): one call for each move, whether it is told or not.
pub fn note_if(w: Weighing, on: bool, r: Option<Report>, v: i64, n: usize) -> Option<Report>
    ensures { result ≡ cond on (noted w r v n) r }
{
    if on { note(w, r, v, n) } else { r }
}
