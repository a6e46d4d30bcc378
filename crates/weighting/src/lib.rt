// The two weightings on i64: the unit, the combination, and the choice in a cell.
#![tactic(auto)]

ghost use Rattle.std.specs.Prelude.{◌≡◌, cond};
ghost use Rattle.std.specs.Int.{w64};
ghost use Rattle.std.proofs.Common.{SFits};
ghost use Rattle.weighting.specs.Order.{choose};
ghost use Rattle.weighting.specs.Weightings.{scale_of};
ghost use Rattle.weighting.specs.Cell.{cell_of, held_in};

// The two weightings that a pattern can name (document 01, 'Pattern text', line 1).
#[derive(Clone, Copy, Debug, PartialEq, Eq)]
pub enum Weighing {
    Margin,
    Sum,
}

// What a cell holds that holds no worth: the least i64, as document 01 has it in tables that a host in C lends.
pub const MARK: i64 = i64::MIN;

// The empty run's worth: 2,000,001 in margin, 0 in sum.
pub fn unit(w: Weighing) -> i64
    ensures { result ≡ (scale_of w).unit }
{
    match w {
        Weighing::Margin => 2000001,
        Weighing::Sum => 0,
    }
}

// The lesser in margin, the sum in sum.
#[tactic(auto, using(crate::proofs::Least::min_is))]
pub fn combine(w: Weighing, a: i64, b: i64) -> i64
    requires { SFits w64 ((scale_of w).combine a b) }
    ensures { result ≡ (scale_of w).combine a b }
{
    match w {
        Weighing::Margin => a.min(b),
        Weighing::Sum => a + b,
    }
}

// Is a at least as good as b?
pub fn at_least(w: Weighing, a: i64, b: i64) -> bool
    ensures { result ≡ (scale_of w).order.at_least a b }
{
    match w {
        Weighing::Margin => b <= a,
        Weighing::Sum => a <= b,
    }
}

// One of two numbers, fetched by its index: with a branch, as std's `select_unpredictable` has one, a tick takes a tenth to a
// fifth longer (measured).
fn one_of(on: bool, a: i64, b: i64) -> i64
    ensures { result ≡ cond on a b }
{
    let both = [b, a];
    both[usize::from(on)]
}

// The cell after one more worth was offered to it. The mark is no worth: who offers it empties the cell or leaves it. No
// branch, since which of the two is better cannot be foretold.
pub fn choose(w: Weighing, cell: i64, worth: i64) -> i64
    ensures { result ≡ cell_of (choose (scale_of w).order (held_in cell) worth) }
{
    let keeps = at_least(w, cell, worth);
    one_of((MARK < cell) & keeps, cell, worth)
}
