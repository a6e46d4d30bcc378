// A record's rules.
ghost use Rattle.std.specs.Prelude.{◌≡◌, ◌≤◌, leb, length};
ghost use Rattle.pattern.specs.Slots.{all};
ghost use Rattle.record.specs.Record.{total, value_in_range, record_sound};

use super::Record;

// Whether each piece has at least 1 tick. Each is looked at, here and below, also after one that is not so, without a branch for each:
// with `all` the price of a short run in a long record takes 1.7 times as long (measured).
pub fn all_last(durations: &[u32]) -> bool
    ensures { result ≡ all (leb 1) durations.now }
{
    let mut fine = true;
    for duration in durations {
        fine &= 1 <= *duration;
    }
    fine
}

// The ticks of all pieces together. 4,096 pieces of any duration do not leave 64 bits.
pub fn ticks(durations: &[u32]) -> u64
    requires { length durations.now ≤ 4096 }
    ensures { result ≡ total durations.now }
{
    durations.iter().map(|d| u64::from(*d)).sum()
}

pub fn in_range(value: i32) -> bool
    ensures { result ≡ value_in_range value }
{
    (-1_000_000..=1_000_000).contains(&value)
}

pub fn all_in_range(values: &[i32]) -> bool
    ensures { result ≡ all value_in_range values.now }
{
    let mut fine = true;
    for value in values {
        fine &= in_range(*value);
    }
    fine
}

pub fn record_sound(channels: u8, lent: Record) -> bool
    ensures { result ≡ record_sound channels lent.entry.durations.now lent.entry.values.now }
{
    let Record { durations, values } = lent;
    durations.len() <= 4096
        && (all_last(durations)
            & (ticks(durations) <= 2147483647)
            & all_in_range(values)
            & (values.len() == durations.len() * usize::from(channels)))
}
