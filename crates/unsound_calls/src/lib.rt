// A pattern without channels, which no text reads as and C cannot lend: 7 comes first. The causes of all later refusals are
// there, and what is lent is unchanged.
#![tactic(auto)]

use best::best;
use call_values::answers::answer;
use call_values::lines::judge;
use call_values::patterns::document;
use lent_state::{feed, open};
use monitor::State;
use pattern::Pattern;
use price::price;
use std::io;
use value_vectors::values::with_header;
use weighting::MARK;

fn judge_kept(rt: &HostRuntime, kept: bool) -> io::Result<()> {
    judge(rt, b"    unchanged", u64::from(kept), 1)
}

// A piece of 0 ticks, and a begin outside.
fn priced(rt: &HostRuntime, p: Pattern) -> io::Result<()> {
    let price = price(p, &[2, 0], &[10, 40], 9, &[0, 1], &[2, 1]);
    judge(rt, b"  price", answer(&price), 7)
}

fn opened(rt: &HostRuntime, p: Pattern) -> io::Result<()> {
    let mut first = [5, MARK];
    let mut second = [6, 7];
    let used = State {
        ticks: 3,
        last: [1, 2, 3, 4, 5, 6, 7, 8],
    };
    let mut state = used;
    let opened = open(&mut state, p, &mut first, &mut second);
    judge(rt, b"  open", answer(&opened), 7)?;
    judge_kept(rt, state == used && first == [5, MARK] && second == [6, 7])
}

// A state with a value in an unused channel and no tick left, a piece of 65,536 ticks without values, a cell past the limit, and
// reports of two places and of one.
fn fed(rt: &HostRuntime, p: Pattern) -> io::Result<()> {
    let mut first = [32_760_000_001, MARK];
    let mut second = [6, 7];
    let mut scores = [77, 78];
    let mut lengths = [79];
    let full = State {
        ticks: 2_147_483_647,
        last: [10, 0, 0, 0, 0, 0, 0, 1],
    };
    let mut state = full;
    let fed = feed(
        &mut state,
        p,
        &mut first,
        &mut second,
        65_536,
        &[],
        &mut scores,
        &mut lengths,
    );
    judge(rt, b"  feed", answer(&fed), 7)?;
    judge_kept(
        rt,
        state == full
            && first == [32_760_000_001, MARK]
            && second == [6, 7]
            && scores == [77, 78]
            && lengths == [79],
    )
}

fn best_told(rt: &HostRuntime, p: Pattern) -> io::Result<()> {
    let mut first = [5, MARK];
    let mut second = [6, 7];
    let found = best(p, &[0], &[10], &mut first, &mut second);
    judge(rt, b"  best", answer(&found), 7)?;
    judge_kept(rt, first == [5, MARK] && second == [6, 7])
}

pub fn run(rt: &HostRuntime) -> io::Result<()> {
    let p = with_header(document(), 0, 1, 1, 4);
    priced(rt, p)?;
    opened(rt, p)?;
    fed(rt, p)?;
    best_told(rt, p)
}
