// A run, step by step.
#![tactic(auto)]

ghost use Rattle.std.specs.Prelude.{◌≡◌, true};
ghost use Rattle.pattern.specs.Clocks.{later};
ghost use Rattle.pattern.specs.Sound.{sound_of};
ghost use Rattle.record.specs.Record.{record_sound};
ghost use Rattle.price_runs.specs.Stand.{Room, can_leave};

use pattern::clocks::{after_resets, guards_hold, in_use};
use pattern::{Edge, Pattern};
use price_stays::{Walk, stay_in};
use record::Record;

// Where a run that goes on stands between two steps: in a place just entered, with the clocks as they are then; in a piece, of
// which some ticks are used; the ticks left of the record; the worth so far.
#[derive(Clone, Copy)]
pub struct Stand {
    pub place: u8,
    pub clocks: [u32; 4],
    pub piece: usize,
    pub used: u32,
    pub left: u32,
    pub worth: i64,
}

// What is the same throughout a run: a sound pattern, and a record that is sound for it.
// The pattern is no `SoundPattern`: each field would be read as `pattern.pattern`, and each proof go by that type's view first.
#[derive(Clone, Copy)]
pub struct Course<'a> {
    pub pattern: Pattern,
    pub lent: Record<'a>,
    pub ghost sound: { sound_of pattern ≡ true },
    pub ghost kept: { record_sound pattern.channels lent.durations.now lent.values.now ≡ true },
}

// "every clock growing with it"
fn grown(clocks: [u32; 4], stay: u32) -> [u32; 4]
    requires { Room clocks stay }
    ensures { result ≡ later stay clocks }
{
    std::array::from_fn(|k| clocks[k] + stay)
}

// Whether the edge can be taken out of the place after the stay, the clocks having grown with it.
fn can_leave(e: Edge, place: u8, stay: u32, clocks: [u32; 4]) -> bool
    ensures { result ≡ can_leave e place stay clocks }
{
    (e.from == place) & (1 <= stay) & guards_hold(e, clocks)
}

impl<'a> Course<'a> {
    ghost use Rattle.record.specs.Run.{steps_of};
    ghost use Rattle.price_runs.specs.Within.{HeldIn, SteppedIn, RanIn};

    // One step, if it can be made and the record has its ticks. The guards are tried on the clocks as the stay leaves them; the
    // resets come after.
    fn step(&self, s: Stand, edge: u32, stay: u32) -> Option<Stand>
        requires { HeldIn self.now s }
        ensures { SteppedIn self.now s (record { edge = edge; stay = stay }) result }
    {
        if s.left < stay {
            return None;
        }
        let p = &self.pattern;
        let e = *in_use(&p.edges, p.edgecount).get(edge as usize)?;
        let clocks = grown(s.clocks, stay);
        if !can_leave(e, s.place, stay, clocks) {
            return None;
        }
        let walk = Walk {
            piece: s.piece,
            used: s.used,
            left: stay,
            worth: s.worth,
        };
        let there = stay_in(
            p.weighing,
            p.places[usize::from(e.from)],
            usize::from(p.channels),
            self.lent,
            walk,
        );
        let next = Stand {
            place: e.to,
            clocks: after_resets(e, clocks),
            piece: there.piece,
            used: there.used,
            left: s.left - stay,
            worth: there.worth,
        };
        Some(next)
    }

    // Step after step, if each can be made. Edges and stays come as two slices: a struct of both would only be taken apart here.
    pub fn run(&self, s: Stand, edges: &[u32], stays: &[u32]) -> Option<Stand>
        requires { HeldIn self.now s }
        ensures { RanIn self.now s (steps_of edges.now stays.now) result }
    {
        let mut at = s;
        for (edge, stay) in edges.iter().zip(stays) {
            at = self.step(at, *edge, *stay)?;
        }
        Some(at)
    }
}
