// Texts written into a buffer of 8,192 bytes or into its first ones, and the whole buffer compared afterwards.
use pattern::{Pattern, Refusal};

// Whether a write into so many bytes has this answer, and leaves these bytes and behind them what was there.
pub fn leaves(bytes: &[u8], p: Pattern, room: usize, due: Result<usize, Refusal>) -> bool {
    let mut out = [b'#'; 8192];
    let room = room.min(out.len());
    pattern_write::write(p, &mut out[..room]) == due
        && out
            .strip_prefix(bytes)
            .is_some_and(|behind| behind.iter().all(|b| *b == b'#'))
}

// Whether a write has room enough in 8,192 bytes.
pub fn fits(p: Pattern) -> bool {
    pattern_write::write(p, &mut [b'#'; 8192]).is_ok()
}

// Whether the text goes into a longer buffer and into an exact fit, and into no byte less.
pub fn written(text: &[u8], p: Pattern) -> bool {
    let n = text.len();
    leaves(text, p, 8192, Ok(n))
        && leaves(text, p, n, Ok(n))
        && leaves(b"", p, n.saturating_sub(1), Err(Refusal::OutputTooShort))
}
