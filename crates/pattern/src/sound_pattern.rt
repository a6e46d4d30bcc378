// A pattern value that is sound. The operations take any value, since document 01 has an answer for each (7), and begin with
// `new`, or with that of `monitor::plan::Plan`. The count of cells, `cells::layout_of` and the start of `watch` take this type.
ghost use Rattle.std.specs.Prelude.{◌≡◌, true, cond, Ok, Err};
ghost use Rattle.pattern.specs.declared.Pattern.{Pattern};
ghost use Rattle.pattern.specs.declared.Refusal.TheVariants.{UnsoundPattern};
ghost use Rattle.pattern.specs.Sound.{sound_of};

use super::{Pattern, Refusal, sound};
use std::marker::Model;

// In a clause it is the pattern.
#[derive(Clone, Copy)]
pub struct SoundPattern {
    pub pattern: Pattern,
}

impl Model for SoundPattern {
    ghost Value = { Pattern };

    ghost view = { λ s. s.pattern };

    ghost invariant = { λ s. sound_of s.pattern ≡ true };

    ghost inverse = { λ p. record { pattern = p } };
}

impl SoundPattern {
    // The pattern, if it is sound, or refusal 7.
    pub fn new(p: Pattern) -> Result<SoundPattern, Refusal>
        ensures { result ≡ cond (sound_of p) (Ok p) (Err UnsoundPattern) }
    {
        if sound(p) {
            Ok(SoundPattern { pattern: p })
        } else {
            Err(Refusal::UnsoundPattern)
        }
    }
}
