// Edge values of texts: 0, or the refusal.
use call_values::answers::answer;
use call_values::lines::judge;
use pattern_read::read;
use std::io;

fn tried(rt: &HostRuntime, label: &[u8], text: &[u8], due: u64) -> io::Result<()> {
    judge(rt, label, answer(&read(text)), due)
}

fn bounds(rt: &HostRuntime) -> io::Result<()> {
    tried(
        rt,
        b"bound 1000000",
        b"(pattern margin 1 1 1 4)\n\
          (place start (< 0 1000000))\n",
        0,
    )?;
    tried(
        rt,
        b"bound 1000001",
        b"(pattern margin 1 1 1 4)\n\
          (place start (< 0 1000001))\n",
        3,
    )?;
    tried(
        rt,
        b"bound -0",
        b"(pattern margin 1 1 1 4)\n\
          (place start (< 0 -0))\n",
        2,
    )
}

fn window(rt: &HostRuntime) -> io::Result<()> {
    tried(
        rt,
        b"window 4 3",
        b"(pattern margin 1 1 4 3)\n\
          (place start)\n",
        3,
    )
}

fn places(rt: &HostRuntime) -> io::Result<()> {
    tried(
        rt,
        b"16 places",
        b"(pattern margin 1 0 1 4)\n\
          (place plain)\n\
          (place plain)\n\
          (place plain)\n\
          (place plain)\n\
          (place plain)\n\
          (place plain)\n\
          (place plain)\n\
          (place plain)\n\
          (place plain)\n\
          (place plain)\n\
          (place plain)\n\
          (place plain)\n\
          (place plain)\n\
          (place plain)\n\
          (place plain)\n\
          (place plain)\n",
        0,
    )?;
    tried(
        rt,
        b"a 17th place",
        b"(pattern margin 1 0 1 4)\n\
          (place plain)\n\
          (place plain)\n\
          (place plain)\n\
          (place plain)\n\
          (place plain)\n\
          (place plain)\n\
          (place plain)\n\
          (place plain)\n\
          (place plain)\n\
          (place plain)\n\
          (place plain)\n\
          (place plain)\n\
          (place plain)\n\
          (place plain)\n\
          (place plain)\n\
          (place plain)\n\
          (place plain)\n",
        4,
    )
}

// A text of line feeds has a broken first line.
fn lengths(rt: &HostRuntime) -> io::Result<()> {
    tried(rt, b"8192 bytes reach the lines", &[b'\n'; 8192], 2)?;
    tried(rt, b"8193 bytes", &[b'\n'; 8193], 1)
}

pub fn run(rt: &HostRuntime) -> io::Result<()> {
    bounds(rt)?;
    window(rt)?;
    places(rt)?;
    lengths(rt)
}
