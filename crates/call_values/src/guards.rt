// After a stay every clock is at least 1, so an edge with the guard (<= 0 0) is never taken. The same with (<= 0 1) is taken
// after a stay of 1 tick.
use super::answers::answer;
use super::lines::judge;
use super::patterns::pattern_of;
use best::best;
use pattern::Pattern;
use price::price;
use std::io;

const AT_MOST_ZERO: &[u8] = b"(pattern margin 1 1 1 4)\n\
    (place both)\n\
    (edge 0 0 (<= 0 0) (reset 0))\n";

const AT_MOST_ONE: &[u8] = b"(pattern margin 1 1 1 4)\n\
    (place both)\n\
    (edge 0 0 (<= 0 1) (reset 0))\n";

// 0 if the edge is taken after this stay, or the refusal.
fn price_answer(p: Pattern, stay: u32) -> u64 {
    answer(&price(p, &[5], &[10], 0, &[0], &[stay]))
}

// The end of the best run of 5 ticks: 0 if there is none, 99 if the search is refused.
fn best_end(p: Pattern) -> u64 {
    match best(p, &[5], &[10], &mut [0; 30], &mut [0; 30]) {
        Ok(Some(run)) => u64::from(run.end),
        Ok(None) => 0,
        Err(_) => 99,
    }
}

fn tried(rt: &HostRuntime, text: &[u8], short: u64, long: u64, end: u64) -> io::Result<()> {
    let p = pattern_of(text);
    judge(rt, b"  price, a stay of 1 tick", price_answer(p, 1), short)?;
    judge(rt, b"  price, a stay of 5 ticks", price_answer(p, 5), long)?;
    judge(rt, b"  best, its end", best_end(p), end)
}

pub fn run(rt: &HostRuntime) -> io::Result<()> {
    println!(rt; "the guard (<= 0 0)")?;
    tried(rt, AT_MOST_ZERO, 10, 10, 0)?;
    println!(rt; "the guard (<= 0 1)")?;
    tried(rt, AT_MOST_ONE, 0, 10, 1)
}
