// The lists of a line of a pattern text at the front of a text: a place's tests, an edge's guards and resets.
#![tactic(auto)]

ghost use Rattle.std.specs.Prelude.{◌≡◌, ◌≤◌, ◌<◌, ℕ, Bool, List, ◌∷◌, length, map};
ghost use Rattle.pattern.specs.Sound.{no_test, no_guard, test_in_range, test_known, guard_in_range, guard_known};
ghost use Rattle.pattern_text.specs.Bytes.{Bytes, Reading, got};
ghost use Rattle.pattern_text.specs.Form.{giving, read_many, many, ◌▸◌, number};
ghost use Rattle.pattern_text.specs.Line.{test_of, test, guard, bracket, resets};
ghost use Rattle.text_scan.specs.Scan.{read_of, cap};
ghost use Rattle.line_parts.specs.Parts.{held_raw, held_guard};
ghost use Rattle.line_lists.specs.Lists.{no_parts, with_part, gathered, gathered_tests, gathered_guards};
ghost use Rattle.line_lists.specs.ResetList.{no_resets, add_reset, added};
ghost use Rattle.line_lists.specs.Shorter.{test_shorter, guard_shorter};

use line_parts::{read_guard, read_spaced, read_test};
use pattern::slots::{guard_in_range, test_in_range};
use pattern::{Guard, NO_GUARD, NO_TEST, Test};
use text_scan::{read_number, read_word};

// A part that stands in a list, any number of times.
pub trait Part: Copy {
    ghost reads: { Bytes → Reading Self };

    ghost unused: { Self };

    ghost in_range: { Self → Bool };

    ghost known: { ℕ → Self → Bool };

    fn read(text: &[u8]) -> Option<(Self, &[u8])>
        ensures { read_of result ≡ reads text.now };

    // What stands in a slot that is not in use.
    fn unused() -> Self
        ensures { result ≡ unused };

    // Whether its numbers are in range.
    fn is_in_range(self) -> bool
        ensures { result ≡ in_range self };

    // Whether the pattern has what it names, of `count` such things.
    fn is_known(self, count: u8) -> bool
        ensures { result ≡ known count self };

    // It takes some bytes of the text.
    ghost shorter: { (b : Bytes) (a : Self) (r : Bytes) → reads b ≡ got a r → length r < length b };
}

// The parts of a list as read so far: the first ones, their number, held at 256, whether all their numbers are in range,
// and whether all that they name is known.
// An array and a count: the count runs on past the array, as `with_part` has it, since a longer list is refused.
#[derive(Clone, Copy)]
pub struct Parts<T, const N: usize> {
    pub parts: [T; N],
    pub count: u16,
    pub in_range: bool,
    pub known: bool,
}

impl<T: Part, const N: usize> Parts<T, N> {
    fn none() -> Parts<T, N>
        ensures { result ≡ no_parts N T.unused }
    {
        Parts {
            parts: [T::unused(); N],
            count: 0,
            in_range: true,
            known: true,
        }
    }

    // One part more. (By `get_mut` the proof did not close: of an array written through it, std promises no element.)
    fn with(mut self, part: T, count: u8) -> Parts<T, N>
        ensures { result ≡ with_part T.in_range (T.known count) self part }
    {
        let n = usize::from(self.count);
        self.count = self.count.min(255) + 1;
        self.in_range &= part.is_in_range();
        self.known &= part.is_known(count);
        if n < N {
            self.parts[n] = part;
        }
        self
    }
}

// As many parts as stand there.
pub fn read_parts<T: Part, const N: usize>(text: &[u8], count: u8) -> (Parts<T, N>, &[u8])
    requires { N < 256 }
    ensures { got result.0 result.1.now
        ≡ giving (gathered N T.unused (λ x. x) T.in_range (T.known count)) (read_many T.reads (length text.now) text.now) }
{
    let mut all = Parts::none();
    let mut rest = text;
    while let Some((part, next)) = T::read(rest) {
        all = all.with(part, count);
        rest = next;
    }
    (all, rest)
}

impl Part for Test {
    ghost reads = { λ b. giving held_raw (test.read b) };

    ghost unused = { no_test };

    ghost in_range = { test_in_range };

    ghost known = { test_known };

    fn read(text: &[u8]) -> Option<(Test, &[u8])> {
        read_test(text)
    }

    fn unused() -> Test {
        NO_TEST
    }

    fn is_in_range(self) -> bool {
        test_in_range(self)
    }

    #[tactic(auto, unfolding(pattern::specs::Sound::test_known))]
    fn is_known(self, count: u8) -> bool {
        self.channel < count
    }

    ghost shorter = { test_shorter };
}

impl Part for Guard {
    ghost reads = { λ b. giving held_guard (guard.read b) };

    ghost unused = { no_guard };

    ghost in_range = { guard_in_range };

    ghost known = { guard_known };

    fn read(text: &[u8]) -> Option<(Guard, &[u8])> {
        read_guard(text)
    }

    fn unused() -> Guard {
        NO_GUARD
    }

    fn is_in_range(self) -> bool {
        guard_in_range(self)
    }

    #[tactic(auto, unfolding(pattern::specs::Sound::guard_known))]
    fn is_known(self, count: u8) -> bool {
        self.clock < count
    }

    ghost shorter = { guard_shorter };
}

// As many tests as stand there.
pub fn read_tests(text: &[u8], channels: u8) -> (Parts<Test, 4>, &[u8])
    ensures { got result.0 result.1.now ≡ giving (λ xs. gathered_tests channels (map test_of xs)) ((many test).read text.now) }
{
    read_parts(text, channels)
}

// As many guards as stand there.
pub fn read_guards(text: &[u8], clocks: u8) -> (Parts<Guard, 4>, &[u8])
    ensures { got result.0 result.1.now ≡ giving (gathered_guards clocks) ((many guard).read text.now) }
{
    read_parts(text, clocks)
}

// The clocks of a reset bracket as read so far: a flag for each clock, the least that may come next, and whether each
// was known and above the one before it.
#[derive(Clone, Copy)]
pub struct Resets {
    pub flags: [bool; 4],
    pub least: u32,
    pub known: bool,
}

impl Resets {
    fn none() -> Resets
        ensures { result ≡ no_resets }
    {
        Resets {
            flags: [false; 4],
            least: 0,
            known: true,
        }
    }

    // One clock more. (No `get_mut`, as in `Parts::with`.)
    fn with(mut self, clock: u32, clocks: u8) -> Resets
        requires { clock ≤ cap }
        ensures { result ≡ add_reset clocks self clock }
    {
        self.known &= (self.least <= clock) & (clock < u32::from(clocks));
        self.least = clock + 1;
        let n = clock as usize;
        if n < self.flags.len() {
            self.flags[n] = true;
        }
        self
    }
}

// As many further clocks as stand there.
fn read_further(text: &[u8], resets: Resets, clocks: u8) -> (Resets, &[u8])
    ensures { got result.0 result.1.now ≡ giving (added clocks resets) ((many (" " ▸ number)).read text.now) }
{
    let mut all = resets;
    let mut rest = text;
    while let Some((clock, next)) = read_spaced(rest) {
        all = all.with(clock, clocks);
        rest = next;
    }
    (all, rest)
}

// A bracket of resets: at least one clock.
fn read_bracket(text: &[u8], clocks: u8) -> Option<(Resets, &[u8])>
    ensures { read_of result ≡ giving (λ c. added clocks no_resets (c.0 ∷ c.1)) (bracket.read text.now) }
{
    let rest = read_word(text, b" (reset ")?;
    let (clock, rest) = read_number(rest)?;
    let (resets, rest) = read_further(rest, Resets::none().with(clock, clocks), clocks);
    let rest = read_word(rest, b")")?;
    Some((resets, rest))
}

// Resets, or no bracket at all.
pub fn read_resets(text: &[u8], clocks: u8) -> (Resets, &[u8])
    ensures { got result.0 result.1.now ≡ giving (added clocks no_resets) (resets.read text.now) }
{
    read_bracket(text, clocks).unwrap_or((Resets::none(), text))
}
