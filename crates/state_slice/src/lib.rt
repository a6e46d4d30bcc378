// The monitor's state as a host in C lends it: a slice of numbers, entry 0 the ticks, entries 1 to 8 the last values.
// Further entries are untouched.
#![tactic(auto)]

ghost use Rattle.std.specs.Prelude.{◌≡◌, ◌≤◌, length};
ghost use Rattle.state_slice.specs.Slice.{held_state, with_state};

use monitor::State;

// The state that the slice holds, or none: there are too few entries, or the ticks or a value do not fit.
pub fn held_state(entries: &[i64]) -> Option<State>
    ensures { result ≡ held_state entries.now }
{
    if entries.len() < 9 {
        return None;
    }
    let ticks = u32::try_from(entries[0]).ok()?;
    let mut last = [0; 8];
    // By index: `last.iter_mut().zip(&entries[1..9])` was tried, and its proof did not close: what it leaves in `last` is then unknown.
    for i in 0..8 {
        last[i] = i32::try_from(entries[i + 1]).ok()?;
    }
    Some(State { ticks, last })
}

// Writes a state into the slice.
pub fn put_state(entries: &mut [i64], s: State)
    requires { 9 ≤ length entries.old }
    ensures { entries.new ≡ with_state s entries.old }
{
    entries[0] = i64::from(s.ticks);
    entries[1..9].copy_from_slice(&s.last.map(i64::from));
}
