// Bytes, words and numbers put into a lent buffer, one after the other. What does not fit is left out, so that nothing here asks
// for room.
#![tactic(auto)]

ghost use Rattle.std.specs.Prelude.{[], ◌∷◌};
ghost use Rattle.pattern_text.specs.Form.{write_ℤ};
ghost use Rattle.pattern_text.specs.Numeral.{decimal};
ghost use Rattle.text_put.specs.Put.{Puts, Begins};

// A lent buffer, and the position where the next byte goes.
#[derive(Drop)]
pub struct Writer<'a> {
    pub text: &'a mut [u8],
    pub at: usize,
}

impl<'a> Writer<'a> {
    // At the buffer's front.
    pub fn new(text: &'a mut [u8]) -> Writer<'a>
        ensures { Begins text.entry result }
    {
        Writer { text, at: 0 }
    }

    // One byte, where there is room for it. (By `get_mut` the proof did not close: of a slice written through it, std promises
    // no element.)
    pub fn byte(&mut self, byte: u8)
        ensures { Puts self.old self.new (byte ∷ []) }
    {
        if self.at < self.text.len() {
            self.text[self.at] = byte;
            self.at += 1;
        }
    }

    // Fixed bytes.
    pub fn word(&mut self, word: &[u8])
        ensures { Puts self.old self.new word.now }
    {
        for b in word {
            self.byte(*b);
        }
    }

    // A number in base ten: its last digit, after those of its tenth. Not by std's `write!`, which does not promise which
    // bytes it puts, nor by the kit's `itoa` (tried): one more library's statements would then be taken on trust.
    pub fn number(&mut self, number: u64)
        ensures { Puts self.old self.new (decimal number) }
    {
        // Whether digits stand before the last one. (A digit narrows by `as`.)
        let more = number >= 10;
        if more {
            self.number(number / 10);
        }
        self.byte(b'0' + (number % 10) as u8);
    }

    // A number that may be negative.
    pub fn integer(&mut self, number: i64)
        ensures { Puts self.old self.new (write_ℤ number) }
    {
        if number < 0 {
            self.byte(b'-');
        }
        self.number(number.unsigned_abs());
    }
}
