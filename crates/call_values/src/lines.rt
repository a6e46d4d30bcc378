// What the calls print.
use std::io;

// An answer beside the one that was due. The label is bytes: a `&str` would ask more of callers, which may not change.
pub fn judge(rt: &HostRuntime, label: &[u8], answered: u64, due: u64) -> io::Result<()> {
    let wrong = if answered == due { "" } else { ", WRONG" };
    rt.write_all(label)?;
    println!(rt; ": {answered}, due {due}{wrong}")
}
