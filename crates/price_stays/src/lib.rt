// What a stay is worth, piece by piece.
#![tactic(auto)]

ghost use Rattle.std.specs.Prelude.{◌≡◌, ◌+◌, ◌*◌, ◌≤◌, ◌<◌, length};
ghost use Rattle.price_stays.specs.Walk.{Walks, Stayed};
ghost use Rattle.price_stays.specs.Within.{sample_in, joins_in, worth_in, ObservesIn, WalksIn, TurnedIn};

use pattern::Place;
use pattern::distance::place_worth;
use record::Record;
use record::samples::agree_in;
use weighting::{Weighing, combine};

// Where a stay stands: in a piece, of which some ticks are used; the ticks left of the stay; the worth so far.
#[derive(Clone, Copy)]
pub struct Walk {
    pub piece: usize,
    pub used: u32,
    pub left: u32,
    pub worth: i64,
}

// What is the same throughout a stay; `first` is the piece that it began in.
#[derive(Clone, Copy)]
struct Stay<'a> {
    weighing: Weighing,
    place: Place,
    channels: usize,
    lent: Record<'a>,
    first: usize,
}

impl<'a> Stay<'a> {
    // The values of a piece.
    fn sample(&self, piece: usize) -> &[i32]
        requires { piece * self.now.channels + self.now.channels ≤ length self.now.lent.values.now }
        ensures { result.now ≡ sample_in self.now piece }
    {
        let at = piece * self.channels;
        &self.lent.values[at..at + self.channels]
    }

    // Whether the piece is one with the piece before it in the place.
    fn joins(&self, piece: usize) -> bool
        requires { piece * self.now.channels + self.now.channels ≤ length self.now.lent.values.now }
        ensures { result ≡ joins_in self.now piece }
    {
        self.first < piece && agree_in(self.place, self.sample(piece - 1), self.sample(piece))
    }

    // The worth once the piece is observed too.
    fn observe(&self, piece: usize, worth: i64) -> i64
        requires { ObservesIn self.now piece worth }
        ensures { result ≡ worth_in self.now piece worth }
    {
        if self.joins(piece) {
            worth
        } else {
            combine(
                self.weighing,
                worth,
                place_worth(self.weighing, self.place, self.sample(piece)),
            )
        }
    }

    // The stay goes on through one piece: to its end, or to the stay's. So a piece counts once at the most, however long it is.
    fn through(&self, s: Walk) -> Walk
        requires walks { WalksIn self.now s }
        requires left_nonzero { 0 < s.left }
        ensures { TurnedIn self.now s result }
    {
        let open = self.lent.durations[s.piece] - s.used;
        let taken = s.left.min(open);
        let left = s.left - taken;
        let worth = self.observe(s.piece, s.worth);
        if taken < open {
            Walk {
                used: s.used + taken,
                left,
                worth,
                ..s
            }
        } else {
            Walk {
                piece: s.piece + 1,
                used: 0,
                left,
                worth,
            }
        }
    }
}

// The whole stay. A turn takes what ticks the piece has left, so no `for` counts them.
pub fn stay_in(weighing: Weighing, place: Place, channels: usize, lent: Record, s: Walk) -> Walk
    requires { Walks weighing place channels lent.durations.now lent.values.now s.piece s }
    ensures { Stayed weighing place channels lent.entry.durations.now lent.entry.values.now s result }
{
    let stay = Stay {
        weighing,
        place,
        channels,
        lent,
        first: s.piece,
    };
    let mut at = s;
    while 0 < at.left {
        at = stay.through(at);
    }
    at
}
