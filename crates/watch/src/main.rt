// Reads pattern.txt and record.txt in the current folder and prints how well the record followed the pattern. Everything
// that decides is in `watch_start` and `watch_steps`; how files are read and lines written is in `files`.
#![tactic(auto)]

ghost use Rattle.std.specs.Prelude.{◌≡◌, ◌≤◌, length};
ghost use Rattle.watch_steps.specs.Steps.{Standing};
ghost use Rattle.watch_start.specs.Buffers.{pattern_buffer, record_buffer};

use files::{Unwritten, close_out, read_file, write_out};
use std::process::ExitCode;
use watch_start::start;
use watch_steps::{Watch, is_done, next};

// All lines; after a write that failed, none. What is asked is about the lent text and tables, as in `watch_steps`.
fn show_all(
    rt: &HostRuntime,
    text: &[u8],
    w: Watch,
    first: &mut [i64],
    second: &mut [i64],
    out: &mut [u8],
) -> Result<(), Unwritten>
    requires { (Standing text.now w first.old second.old) × (4096 ≤ length out.old) }
{
    let mut now = w;
    while !is_done(now) {
        let step = next(text, now, first, second, out);
        write_out(rt, &out[..step.length])?;
        now = step.watch;
    }
    Ok(())
}

// What was read of a file into a buffer of SIZE bytes. The buffers of the two files differ in size, so that neither text is taken for the
// other.
#[derive(Clone, Copy)]
struct Text<'b, const SIZE: usize> {
    bytes: &'b [u8],
    ghost inside: { length bytes.now ≤ SIZE },
}

// The file's bytes, as many as the buffer takes; or none, where reading it failed.
fn read_text<'b, const SIZE: usize>(
    rt: &HostRuntime,
    path: &[u8],
    buffer: &'b mut [u8],
) -> Option<Text<'b, SIZE>>
    requires { length buffer.old ≡ SIZE }
{
    let bytes = read_file(rt, path, buffer).ok()?;
    Some(Text { bytes })
}

// Both files are read, or nothing is shown. The buffers have the sizes that show a text to be too long
// (`watch_start/specs/Claims` BuffersSuffice).
fn read_both<'p, 't>(
    rt: &HostRuntime,
    pattern: &'p mut [u8],
    text: &'t mut [u8],
) -> Option<(Text<'p, 8193>, Text<'t, 16385>)>
    requires pattern_len { length pattern.old ≡ pattern_buffer }
    requires text_len { length text.old ≡ record_buffer }
{
    let pattern = read_text(rt, b"pattern.txt", pattern);
    let text = read_text(rt, b"record.txt", text);
    Some((pattern?, text?))
}

// The lines for both texts.
fn show(rt: &HostRuntime, pattern: Text<8193>, text: Text<16385>) -> Result<(), Unwritten>
    requires pattern_len { length pattern.bytes.now ≤ pattern_buffer }
    requires text_len { length text.bytes.now ≤ record_buffer }
{
    let mut first: [i64; 2048] = [0; 2048];
    let mut second: [i64; 2048] = [0; 2048];
    let mut out = [0u8; 4096];
    let text = text.bytes;
    let w = start(pattern.bytes, text, &mut first, &mut second);
    show_all(rt, text, w, &mut first, &mut second, &mut out)
}

// The status of a program that a closed pipe's signal has ended, which a shell tells as 128 and the signal's number.
const CLOSED_PIPE: u8 = 141;

fn main(rt: HostRuntime) -> ExitCode {
    let mut pattern = [0u8; 8193];
    let mut record = [0u8; 16385];
    let Some((pattern, record)) = read_both(&rt, &mut pattern, &mut record) else {
        return ExitCode::SUCCESS;
    };
    match show(&rt, pattern, record) {
        Ok(()) => {
            close_out(&rt);
            ExitCode::SUCCESS
        }
        Err(Unwritten::Failed) => ExitCode::SUCCESS,
        Err(Unwritten::Closed) => ExitCode::from(CLOSED_PIPE),
    }
}
