// A file in and lines out, over std's files and streams. A call that moves a part of what was asked, that a signal ends or that
// finds a pipe not ready is gone on with. One that fails is told on standard error, but for a write that nobody reads any more.
// No contract can say which bytes the system moves: what is proved is that the counts lie within the buffers and that each
// function ends.
#![tactic(auto)]

ghost use Rattle.std.specs.Prelude.{◌≤◌, length, IfOk, IfErr};

use std::fs::{File, OpenOptions};
use std::io::{ErrorKind, Read, Write};
use std::{fs, io, str, thread};

// Whether the call that failed so is to be made again: a signal ended it, or a pipe was not ready that lets nobody wait. Then
// another process goes first.
fn is_passing(error: &io::Error) -> bool {
    let kind = error.kind();
    if kind == ErrorKind::WouldBlock {
        thread::yield_now();
        return true;
    }
    kind == ErrorKind::Interrupted
}

// Writes a line to standard error: what failed, a colon and the error in words. std puts the system's number of an error behind
// them, as in `(os error 2)`; that is left out.
fn fail(rt: &HostRuntime, what: &str, error: &io::Error) {
    let mut text = [0u8; 256];
    let mut rest = &mut text[..];
    let _ = write!(rest, "{error}");
    let free = rest.len();
    let length = text.len().saturating_sub(free);
    let words = str::from_utf8(&text[..length]).unwrap_or("");
    let words = words
        .split_once(" (os error ")
        .map_or(words, |(front, _)| front);
    let _ = eprintln!(rt; "{what}: {words}");
}

// A proved loop has to end, and nothing says that signals do: each loop here counts its turns down, from a number that no run
// uses up.
const TURNS: u64 = u64::MAX;

// The file opened for reading, or why it is not. std's paths are text, so another path names no file.
fn open(rt: &HostRuntime, path: &[u8]) -> io::Result<File> {
    let Ok(path) = str::from_utf8(path) else {
        return Err(io::Error::from(ErrorKind::InvalidFilename));
    };
    for _ in 0..TURNS {
        match File::open(rt, path) {
            Err(error) if is_passing(&error) => {}
            opened => return opened,
        }
    }
    File::open(rt, path)
}

// A read that failed, after so many bytes of the file.
#[derive(Drop)]
struct Torn {
    at: usize,
    error: io::Error,
}

// To the file's end, or until the buffer is full: how many bytes it holds then.
fn read_all(file: &mut File, buffer: &mut [u8]) -> Result<usize, Torn>
    ensures whole { IfOk result (λ n. n ≤ length buffer.new) }
    ensures torn { IfErr result (λ torn. torn.at ≤ length buffer.new) }
{
    let mut at = 0;
    for _ in 0..TURNS {
        let rest = &mut buffer[at..];
        match file.read(rest) {
            Ok(0) => return Ok(at),
            Ok(got) => at += got,
            Err(error) if is_passing(&error) => {}
            Err(error) => return Err(Torn { at, error }),
        }
    }
    Ok(at)
}

// The file's bytes, as many as the buffer takes; or, where reading it failed, those that came before. A file that cannot be
// opened counts as empty, and so does a folder, which the system opens and then cannot read.
pub fn read_file<'b>(
    rt: &HostRuntime,
    path: &[u8],
    buffer: &'b mut [u8],
) -> Result<&'b [u8], &'b [u8]>
    ensures whole { IfOk result (λ bytes. length bytes.now ≤ length buffer.old) }
    ensures torn { IfErr result (λ bytes. length bytes.now ≤ length buffer.old) }
{
    let name = str::from_utf8(path).unwrap_or("a path that is no text");
    let mut file = match open(rt, path) {
        Ok(file) => file,
        Err(error) => {
            fail(rt, name, &error);
            return Ok(&buffer[..0]);
        }
    };
    match read_all(&mut file, buffer) {
        Ok(n) => Ok(&buffer[..n]),
        Err(torn) => {
            fail(rt, name, &torn.error);
            let bytes = &buffer[..torn.at];
            if torn.error.kind() == ErrorKind::IsADirectory {
                Ok(bytes)
            } else {
                Err(bytes)
            }
        }
    }
}

// Why some bytes are not written: a write failed and this was told, or nobody reads the pipe any more.
#[derive(Clone, Copy, PartialEq, Eq)]
pub enum Unwritten {
    Failed,
    Closed,
}

// All the bytes to standard output; or not, and then some of them may be written. A write that takes nothing has failed, though
// the system has no error for it.
pub fn write_out(rt: &HostRuntime, bytes: &[u8]) -> Result<(), Unwritten> {
    let mut rest = bytes;
    for _ in 0..TURNS {
        if rest.is_empty() {
            return Ok(());
        }
        match rt.stdout().write(rest) {
            Ok(0) => {
                let _ = eprintln!(rt; "standard output: nothing is taken");
                return Err(Unwritten::Failed);
            }
            Ok(got) => rest = &rest[got..],
            Err(error) if is_passing(&error) => {}
            Err(error) if error.kind() == ErrorKind::BrokenPipe => return Err(Unwritten::Closed),
            Err(error) => {
                fail(rt, "standard output", &error);
                return Err(Unwritten::Failed);
            }
        }
    }
    if rest.is_empty() {
        Ok(())
    } else {
        Err(Unwritten::Failed)
    }
}

// What stands behind standard output, if it is a file that can be opened once more.
const OUTPUT: &str = "/proc/self/fd/1";

// The file behind standard output is to be kept as it was written. Another kind of output keeps nothing.
fn sync_out(rt: &HostRuntime) -> io::Result<()> {
    if !fs::metadata(rt, OUTPUT).is_ok_and(|about| about.is_file()) {
        return Ok(());
    }
    match OpenOptions::new().append(true).open(rt, OUTPUT) {
        Ok(file) => file.sync_data(),
        Err(_) => Ok(()),
    }
}

// Whether an error says that the file system keeps nothing back, and so was not asked.
fn is_unasked(error: &io::Error) -> bool {
    matches!(
        error.kind(),
        ErrorKind::InvalidInput | ErrorKind::Unsupported
    )
}

// The end of the output. Some file systems tell only here that a write failed. A signal is no such failure, and neither is a
// file system that cannot be asked.
pub fn close_out(rt: &HostRuntime) {
    if let Err(error) = sync_out(rt)
        && !is_passing(&error)
        && !is_unasked(&error)
    {
        fail(rt, "standard output", &error);
    }
}
