// A pattern by value, as document 01 names its parts. Counts say how many slots of an array are in use: the others are zeros.
// No lists: a value with something in an unused slot, or a count past its array, has its answer (7; specs/Slots slots).
#![tactic(auto)]

pub mod clocks;
pub mod distance;
pub mod slots;
pub mod sound_pattern;

ghost use Rattle.std.specs.Prelude.{◌≡◌, true};
ghost use Rattle.pattern.specs.Slots.{slots};
ghost use Rattle.pattern.specs.Cells.{radix_product, cells_needed, counted_as, cells_of, cells_numbers};
ghost use Rattle.pattern.specs.Kinds.{is_start, is_end};
ghost use Rattle.pattern.specs.Refusal.{number_of};
ghost use Rattle.pattern.specs.Sound.{place_sound, place_unused, edge_sound, edge_unused, header_in_range, sound_of};

use self::sound_pattern::SoundPattern;
use weighting::Weighing;

// The four signs of tests and guards: `<`, `<=`, `>`, `>=`.
#[derive(Clone, Copy, Debug, PartialEq, Eq)]
pub enum Sign {
    Less,
    AtMost,
    More,
    AtLeast,
}

// What a place asks of a channel: a sign with a bound, or a band, whose low stands as the bound (document 02, R-1). A band
// says no sign and has `<` there, any other test says no high and has 0 there. A flag and no enum, since a value that says
// both is refused as unsound.
#[derive(Clone, Copy, PartialEq, Eq)]
pub struct Test {
    pub sign: Sign,
    pub channel: u8,
    pub band: bool,
    pub bound: i32,
    pub high: i32,
}

// Both is start and end.
#[derive(Clone, Copy, Debug, PartialEq, Eq)]
pub enum Kind {
    Start,
    Plain,
    End,
    Both,
}

#[derive(Clone, Copy, PartialEq, Eq)]
pub struct Place {
    pub kind: Kind,
    pub tests: [Test; 4],
    pub count: u8,
}

#[derive(Clone, Copy, PartialEq, Eq)]
pub struct Guard {
    pub sign: Sign,
    pub clock: u8,
    pub bound: u16,
}

// `count` counts the guards; `resets` has a flag for each clock.
#[derive(Clone, Copy, PartialEq, Eq)]
pub struct Edge {
    pub from: u8,
    pub to: u8,
    pub guards: [Guard; 4],
    pub count: u8,
    pub resets: [bool; 4],
}

// `low` and `high` are the window's.
#[derive(Clone, Copy, PartialEq, Eq)]
pub struct Pattern {
    pub weighing: Weighing,
    pub channels: u8,
    pub clocks: u8,
    pub low: u16,
    pub high: u16,
    pub placecount: u8,
    pub places: [Place; 16],
    pub edgecount: u8,
    pub edges: [Edge; 32],
}

// Zeros throughout, with the sign `<`, the kind plain and the weighing margin: what a slot that is not in use holds, and a
// pattern of which nothing was read.
pub const NO_TEST: Test = Test {
    sign: Sign::Less,
    channel: 0,
    band: false,
    bound: 0,
    high: 0,
};

pub const NO_GUARD: Guard = Guard {
    sign: Sign::Less,
    clock: 0,
    bound: 0,
};

pub const NO_PLACE: Place = Place {
    kind: Kind::Plain,
    tests: [NO_TEST; 4],
    count: 0,
};

pub const NO_EDGE: Edge = Edge {
    from: 0,
    to: 0,
    guards: [NO_GUARD; 4],
    count: 0,
    resets: [false; 4],
};

pub const NO_PATTERN: Pattern = Pattern {
    weighing: Weighing::Margin,
    channels: 0,
    clocks: 0,
    low: 0,
    high: 0,
    placecount: 0,
    places: [NO_PLACE; 16],
    edgecount: 0,
    edges: [NO_EDGE; 32],
};

// The causes of a refusal, in the order of document 01's numbers, from 1 (`number_of` in specs/Refusal).
#[derive(Clone, Copy, Debug, PartialEq, Eq)]
pub enum Refusal {
    TextTooLong = 1,
    BrokenForm,
    OutOfRange,
    TooMany,
    UnknownIndex,
    OutputTooShort,
    UnsoundPattern,
    BrokenRecord,
    BrokenSteps,
    NotARun,
    TableTooShort,
    BrokenState,
    TooManyTicks,
    BrokenCell,
}

// "channels 1 to 8; clocks 0 to 4; the window's low, 1 to 4,095; its high, low to 4,095"
#[tactic(auto, unfolding(crate::specs::Sound::header_in_range))]
fn header_sound(channels: u8, clocks: u8, low: u16, high: u16) -> bool
    ensures { result ≡ header_in_range channels clocks low high }
{
    (1..=8).contains(&channels)
        && clocks <= 4
        && (1..=4_095).contains(&low)
        && (low..=4_095).contains(&high)
}

fn places_sound(p: Pattern) -> bool
    ensures { result ≡ slots (place_sound p.channels) place_unused 16 p.placecount p.places }
{
    slots::sound(
        &p.places,
        p.placecount,
        |l| slots::place_sound(*l, p.channels),
        |l| slots::place_unused(*l),
    )
}

fn edges_sound(p: Pattern) -> bool
    ensures { result ≡ slots (edge_sound p.clocks p.placecount) edge_unused 32 p.edgecount p.edges }
{
    slots::sound(
        &p.edges,
        p.edgecount,
        |e| slots::edge_sound(*e, p.clocks, p.placecount),
        |e| slots::edge_unused(*e),
    )
}

// Whether some text reads as the pattern value. Any value is answered.
pub fn sound(p: Pattern) -> bool
    ensures { result ≡ sound_of p }
{
    header_sound(p.channels, p.clocks, p.low, p.high)
        & (1 <= p.placecount)
        & places_sound(p)
        & edges_sound(p)
}

// The product of all four radices; a clock that the pattern lacks has radix 1.
fn radices(p: SoundPattern) -> u64
    ensures { result ≡ radix_product p 4 }
{
    (0..4).map(|k| clocks::radix(p.pattern, k)).product()
}

// "(high + 1) × 2 × places × the product over clocks of (ceiling + 1)"
fn cells_needed(p: SoundPattern) -> u64
    ensures { result ≡ cells_needed p }
{
    (u64::from(p.pattern.high) + 1) * 2 * u64::from(p.pattern.placecount) * radices(p)
}

// The cells needed, or refusal 7.
#[tactic(auto, unfolding(crate::specs::Cells::cells_of), using(crate::proofs::Judged::accepted, crate::proofs::Judged::refused))]
pub fn cells(p: Pattern) -> Result<u64, Refusal>
    ensures value { result ≡ cells_of p }
    ensures result_value { counted_as result ≡ cells_numbers p }
{
    let p = SoundPattern::new(p)?;
    Ok(cells_needed(p))
}

// May a run begin in a place of this kind?
pub fn is_start(k: Kind) -> bool
    ensures { result ≡ is_start k }
{
    matches!(k, Kind::Start | Kind::Both)
}

// May a run end in a place of this kind?
pub fn is_end(k: Kind) -> bool
    ensures { result ≡ is_end k }
{
    matches!(k, Kind::End | Kind::Both)
}

// The number of a refusal in document 01.
impl From<Refusal> for u8 {
    ghost from_gives = { λ r n. n ≡ number_of r };

    fn from(r: Refusal) -> u8 {
        r as u8
    }
}
