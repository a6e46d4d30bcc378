// Write a pattern (document 01, 'Operations and refusals').
#![tactic(auto)]

ghost use Rattle.std.specs.Prelude.{◌≡◌, length};
ghost use Rattle.pattern_write.specs.Written.{written_of, output_of, written_as, written_numbers};

use pattern::sound_pattern::SoundPattern;
use pattern::{Pattern, Refusal};

// How many bytes the text has. It is put into a buffer of 8,192 bytes first, where a sound pattern's text fits.
pub fn write(p: Pattern, out: &mut [u8]) -> Result<usize, Refusal>
    ensures value { result ≡ written_of p (length out.old) }
    ensures result_value { written_as result ≡ written_numbers p (length out.old) }
    ensures out_after { out.new ≡ output_of p out.old }
{
    let p = SoundPattern::new(p)?;
    let mut text = [0u8; 8192];
    let n = line_write::put_pattern(&mut text, &p.pattern);
    if out.len() < n {
        return Err(Refusal::OutputTooShort);
    }
    out[..n].copy_from_slice(&text[..n]);
    Ok(n)
}
