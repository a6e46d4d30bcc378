// One reader walks a text from line to line (document 01, 'Required forms by place'): the lent text, and where the next line
// begins.
#![tactic(auto)]

ghost use Rattle.std.specs.Prelude.{◌≡◌, ◌-◌, ltb, length, drop};

#[derive(Clone, Copy)]
pub struct Reader<'a> {
    pub text: &'a [u8],
    pub at: usize,
}

impl<'a> Reader<'a> {
    // A reader that stands at an offset of a text.
    pub fn new(text: &'a [u8], at: usize) -> Reader<'a>
        ensures { (result.text ≡ text.entry) × (result.at ≡ at) }
    {
        Reader { text, at }
    }

    // Whether it stands before its text's end.
    pub fn unread(self) -> bool
        ensures { result ≡ ltb self.entry.at (length self.entry.text.now) }
    {
        self.at < self.text.len()
    }

    // What is left of the text: nothing past its end.
    pub fn left(self) -> &'a [u8]
        ensures { result.now ≡ drop self.entry.at self.entry.text.now }
    {
        self.text.get(self.at..).unwrap_or(&[])
    }

    // The reader at another offset.
    pub fn moved(self, at: usize) -> Reader<'a>
        ensures { (result.text ≡ self.entry.text) × (result.at ≡ at) }
    {
        Reader {
            text: self.text,
            at,
        }
    }

    // The reader that has as much left as `rest`, what a line left of the text.
    pub fn moved_to(self, rest: &[u8]) -> Reader<'a>
        ensures { (result.text ≡ self.entry.text) × (result.at ≡ length self.entry.text.now - length rest.now) }
    {
        self.moved(self.text.len().saturating_sub(rest.len()))
    }
}
