// Document 01's unstarred edge values, what was answered beside what was due; then the table of texts and that of pattern
// values; and the refusals of a pattern that is unsound.
#![tactic(auto)]

mod texts;

use std::io;

fn main(rt: HostRuntime) -> io::Result<()> {
    println!(rt; "edge values; 0 is for read or done")?;
    texts::run(&rt)?;
    call_values::tables::run(&rt)?;
    call_values::guards::run(&rt)?;
    text_vectors::run(&rt)?;
    value_vectors::run(&rt)?;
    println!(rt; "a pattern without channels")?;
    unsound_calls::run(&rt)
}
