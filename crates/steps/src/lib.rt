// What the edges of a pattern ask and do, made once for all ticks of a call, so that a move along one needs no edge.
#![tactic(auto)]

ghost use Rattle.std.specs.Prelude.{◌≡◌, cond, ℕ, ◌≤◌, ◌<◌, min};
ghost use Rattle.steps.specs.Steps.{in_span, goes_in, kept_by, after_in, edge_in, Fit, Steps};
ghost use Rattle.steps.specs.Made.{narrowed, narrowed_on, span_of, step_of};

use pattern::clocks::in_use;
use pattern::{Edge, Guard, Sign};

// The values that guards leave a clock: from `low` to below `upto`.
// No range of std's: those are not `Copy`, and the array of steps is filled with copies of one.
#[derive(Clone, Copy)]
pub struct Span {
    pub low: usize,
    pub upto: usize,
}

// What an edge asks of each clock, which of them it resets, and the place that it leads to.
#[derive(Clone, Copy)]
pub struct Step {
    pub spans: [Span; 4],
    pub resets: [bool; 4],
    pub to: usize,
}

// What a guard leaves of a span.
fn narrow(s: Span, sign: Sign, bound: u16) -> Span
    ensures { result ≡ narrowed s sign bound }
{
    let bound = usize::from(bound);
    match sign {
        Sign::Less => Span {
            upto: s.upto.min(bound),
            ..s
        },
        Sign::AtMost => Span {
            upto: s.upto.min(bound + 1),
            ..s
        },
        Sign::More => Span {
            low: s.low.max(bound + 1),
            ..s
        },
        Sign::AtLeast => Span {
            low: s.low.max(bound),
            ..s
        },
    }
}

// The same, if the guard asks about the clock.
fn narrow_on(s: Span, g: Guard, clock: u8) -> Span
    ensures { result ≡ narrowed_on clock g s }
{
    if g.clock == clock {
        narrow(s, g.sign, g.bound)
    } else {
        s
    }
}

// What the edge's guards leave the clock.
fn span_of(e: Edge, clock: u8) -> Span
    ensures { result ≡ span_of e clock (min e.count 4) }
{
    let mut s = Span {
        low: 0,
        upto: 65536,
    };
    for g in in_use(&e.guards, e.count) {
        s = narrow_on(s, *g, clock);
    }
    s
}

// The step of an edge.
fn step_of(e: Edge) -> Step
    ensures { result ≡ step_of e }
{
    let spans = [0, 1, 2, 3].map(|clock| span_of(e, clock));
    let resets = e.resets;
    Step {
        spans,
        resets,
        to: usize::from(e.to),
    }
}

// The steps of the first `count` edges.
// With a count, as the definition has it (`Steps`).
pub fn steps_of(edges: [Edge; 32], count: usize) -> [Step; 32]
    requires { (count ≤ 32) × ((i : ℕ) → i < count → Fit (edge_in edges i)) }
    ensures { Steps edges count result }
{
    let none = Step {
        spans: [Span { low: 0, upto: 0 }; 4],
        resets: [false; 4],
        to: 0,
    };
    let mut steps = [none; 32];
    for (i, e) in edges[..count].iter().enumerate() {
        steps[i] = step_of(*e);
    }
    steps
}

// A clock, unless it is reset. Written out in `after` (tried) the proof of that did not close.
fn kept_by(reset: bool, clock: usize) -> usize
    ensures { result ≡ kept_by reset clock }
{
    if reset { 0 } else { clock }
}

impl Span {
    // Is the value in it?
    fn holds(self, clock: usize) -> bool
        ensures { result ≡ in_span self clock }
    {
        (self.low <= clock) & (clock < self.upto)
    }
}

impl Step {
    // Whether it can be taken. No branch for a clock, and so no `all`: with it some ticks take 7% longer (measured).
    pub fn goes(&self, clocks: [usize; 4]) -> bool
        ensures { result ≡ goes_in self.now clocks }
    {
        self.spans
            .iter()
            .zip(&clocks)
            .fold(true, |goes, (span, clock)| goes & span.holds(*clock))
    }

    // The clocks once those that it resets are 0.
    pub fn after(&self, clocks: [usize; 4]) -> [usize; 4]
        ensures { result ≡ after_in self.now clocks }
    {
        std::array::from_fn(|k| kept_by(self.resets[k], clocks[k]))
    }
}
