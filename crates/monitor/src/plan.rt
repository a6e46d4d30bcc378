// What a call asks of its pattern once: that it is sound, and the layout of its table.
ghost use Rattle.std.specs.Prelude.{◌≡◌, true, cond, Ok, Err};
ghost use Rattle.pattern.specs.declared.Pattern.{Pattern};
ghost use Rattle.pattern.specs.declared.Refusal.TheVariants.{UnsoundPattern};
ghost use Rattle.pattern.specs.Sound.{sound_of};
ghost use Rattle.pattern.specs.Cells.{cells_needed};
ghost use Rattle.cells.specs.Layout.{layout_of};

use cells::{Layout, layout_of};
use pattern::sound_pattern::SoundPattern;
use pattern::{Pattern, Refusal};
use std::marker::Model;

// In a clause it is the pattern. It holds no `SoundPattern`: each field would be read as `pattern.pattern`.
#[derive(Clone, Copy)]
pub struct Plan {
    pub pattern: Pattern,
    pub layout: Layout,
}

impl Model for Plan {
    ghost Value = { Pattern };

    ghost view = { λ a. a.pattern };

    ghost invariant = { λ a. (sound_of a.pattern ≡ true) × (a.layout ≡ layout_of a.pattern a.pattern.high) };

    ghost inverse = { λ p. record { pattern = p; layout = layout_of p p.high } };
}

impl Plan {
    // The plan of a sound pattern, or refusal 7.
    #[tactic(auto, using(pattern::proofs::Judged::accepted, pattern::proofs::Judged::refused))]
    pub fn new(p: Pattern) -> Result<Plan, Refusal>
        ensures { result ≡ cond (sound_of p) (Ok p) (Err UnsoundPattern) }
    {
        let sound = SoundPattern::new(p)?;
        let layout = layout_of(sound, p.high);
        Ok(Plan { pattern: p, layout })
    }

    // The cells needed.
    pub fn cells(self) -> usize
        ensures { result ≡ cells_needed self }
    {
        self.layout.cells()
    }
}
