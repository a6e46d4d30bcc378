// The definitions of the pattern text, what is proved of them, and the words that stand for values in it, each with the
// bracket and the spaces that stand beside it: read and written alike.
#![tactic(auto)]

ghost use Rattle.std.specs.Prelude.{◌≡◌};
ghost use Rattle.pattern_text.specs.Bytes.{String, bytes};
ghost use Rattle.pattern_text.specs.Line.{sign_word, kind_word, weighing_word};

use pattern::{Kind, Sign};
use weighting::Weighing;

// A value that a word stands for, as ` (< ` or `margin `.
pub trait Word: Copy {
    ghost spelled: { Self → String };

    fn word(self) -> &'static [u8]
        ensures { result.now ≡ bytes (spelled self) };
}

impl Word for Sign {
    ghost spelled = { sign_word };

    fn word(self) -> &'static [u8] {
        match self {
            Sign::Less => b" (< ",
            Sign::AtMost => b" (<= ",
            Sign::More => b" (> ",
            Sign::AtLeast => b" (>= ",
        }
    }
}

impl Word for Kind {
    ghost spelled = { kind_word };

    fn word(self) -> &'static [u8] {
        match self {
            Kind::Start => b"start",
            Kind::Plain => b"plain",
            Kind::End => b"end",
            Kind::Both => b"both",
        }
    }
}

impl Word for Weighing {
    ghost spelled = { weighing_word };

    fn word(self) -> &'static [u8] {
        match self {
            Weighing::Margin => b"margin ",
            Weighing::Sum => b"sum ",
        }
    }
}
