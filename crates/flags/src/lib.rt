// Which blocks of a monitor's table hold a worth: a number for each length, and in it a bit for each block of that row (a
// stage and a place). A block whose bit is not set need not be looked at.
#![tactic(auto)]

ghost use Rattle.std.specs.Prelude.{◌≡◌, ◌^◌, ◌≤◌, ◌<◌, cond, eqb, length};
ghost use Rattle.std.specs.Int.Bits.{bit_or};
ghost use Rattle.flags.specs.Flags.{bit_at, raised, start_flags};

// Is bit i of a number set? Which bit is a number below 32, here and below: a type of its own would be made at each call.
pub fn has_bit(x: u32, i: usize) -> bool
    requires { i < 32 }
    ensures { result ≡ eqb (bit_at x i) 1 }
{
    (x >> i) % 2 == 1
}

// A number with bit i set, if `on` says so: the looks of `feed_checks` ask it of each cell or block, held or not. Written out there it
// would be no shorter.
pub fn with_bit(x: u32, i: usize, on: bool) -> u32
    requires { i < 32 }
    ensures { result ≡ cond on (bit_or x (2 ^ i)) x }
{
    if on { x | (1 << i) } else { x }
}

// The flag of block i of row n is raised.
#[tactic(auto, unfolding(crate::specs::Flags::raised))]
pub fn raise(flags: &mut [u32], n: usize, i: usize)
    requires { (n < length flags.old) × (i < 32) }
    ensures { flags.new ≡ raised flags.old n i }
{
    flags[n] |= 1 << i;
}

// The flags of the start places' blocks, where empty runs stand.
// With a count, as the definition has it.
pub fn raise_starts(flags: &mut [u32], starts: [bool; 16], count: usize)
    requires { (0 < length flags.old) × (count ≤ 16) }
    ensures { flags.new ≡ start_flags starts count flags.old }
{
    for (p, on) in starts[..count].iter().enumerate() {
        if *on {
            raise(flags, 0, p);
        }
    }
}
