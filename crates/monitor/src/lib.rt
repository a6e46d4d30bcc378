// The monitor's state. Opening and feeding are defined in specs/; the crate feed has the code.
#![tactic(auto)]

pub mod plan;

ghost use Rattle.std.specs.Prelude.{◌≡◌};
ghost use Rattle.monitor.specs.State.{no_ticks};

// What the monitor keeps between calls beside its tables: ticks so far, and the last values, zeros before the first piece
// and in unused channels.
#[derive(Clone, Copy, PartialEq, Eq)]
pub struct State {
    pub ticks: u32,
    pub last: [i32; 8],
}

impl State {
    // The state that an opening leaves: no ticks, zeros. No `Default`, since the name says which state it is.
    pub fn no_ticks() -> State
        ensures { result ≡ no_ticks }
    {
        State {
            ticks: 0,
            last: [0; 8],
        }
    }
}
