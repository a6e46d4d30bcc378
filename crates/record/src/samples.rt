// Whether two samples agree in a place.
ghost use Rattle.std.specs.Prelude.{◌≡◌};
ghost use Rattle.record.specs.Joined.{agree_on, agrees};

use pattern::clocks::in_use;
use pattern::distance::reading;
use pattern::{Place, Test};

// Do they agree in the channel of the test?
fn agree_on(t: Test, a: &[i32], b: &[i32]) -> bool
    ensures { result ≡ agree_on a.now b.now t }
{
    reading(a, t.channel) == reading(b, t.channel)
}

// Do they agree in all channels that the place tests?
pub fn agree_in(l: Place, a: &[i32], b: &[i32]) -> bool
    ensures { result ≡ agrees l a.now b.now }
{
    in_use(&l.tests, l.count).iter().all(|t| agree_on(*t, a, b))
}
