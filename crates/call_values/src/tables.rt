// A table of 149 cells gives 11: document 01's pattern needs 150.
use super::answers::answer;
use super::lines::judge;
use super::patterns::document;
use best::best;
use feed::{feed, open};
use monitor::State;
use std::io;

// An opening, a feed and a search, each with these tables.
fn tried(
    rt: &HostRuntime,
    label: &str,
    first: &mut [i64],
    second: &mut [i64],
    due: u64,
) -> io::Result<()> {
    let p = document();
    println!(rt; "{label}")?;
    let opened = open(p, first, second);
    judge(rt, b"  open", answer(&opened), due)?;
    let state = State::no_ticks();
    let fed = feed(state, p, first, second, 1, &[10], &mut [0], &mut [0]);
    judge(rt, b"  feed", answer(&fed), due)?;
    let found = best(p, &[2], &[10], first, second);
    judge(rt, b"  best", answer(&found), due)
}

pub fn run(rt: &HostRuntime) -> io::Result<()> {
    tried(
        rt,
        "a first table of 149 cells",
        &mut [0; 149],
        &mut [0; 150],
        11,
    )?;
    tried(
        rt,
        "a second table of 149 cells",
        &mut [0; 150],
        &mut [0; 149],
        11,
    )?;
    tried(rt, "tables of 150 cells", &mut [0; 150], &mut [0; 150], 0)
}
