// A pattern's text put into a buffer, form by form and line by line (document 01, 'Pattern text').
#![tactic(auto)]

ghost use Rattle.pattern_text.specs.Bytes.{Bytes, bytes};
ghost use Rattle.pattern_text.specs.Form.{write_many};
ghost use Rattle.pattern_text.specs.Line.{raw_test_of, test, guard, write_resets};
ghost use Rattle.pattern_text.specs.Text.{flagged, render_of};
ghost use Rattle.text_put.specs.Put.{Put, Puts};
ghost use Rattle.line_write.specs.Lines.{header_text, place_text, edge_text};

use pattern::clocks::in_use;
use pattern::{Edge, Guard, Pattern, Place, Test};
use pattern_text::Word;
use text_put::Writer;

// What has a text of its own in a pattern's text.
trait Form {
    ghost text: { Self → Bytes };

    fn put(&self, out: &mut Writer)
        ensures { Puts out.old out.new (text self.now) };
}

// ` (< 0 15)`, or the band ` (in 0 -5 5)`
impl Form for Test {
    ghost text = { λ t. test.write (raw_test_of t) };

    fn put(&self, out: &mut Writer) {
        if self.band {
            out.word(b" (in ");
            out.number(u64::from(self.channel));
            out.byte(b' ');
            out.integer(i64::from(self.bound));
            out.byte(b' ');
            out.integer(i64::from(self.high));
            out.byte(b')');
        } else {
            put_word(out, self.sign);
            out.number(u64::from(self.channel));
            out.byte(b' ');
            out.integer(i64::from(self.bound));
            out.byte(b')');
        }
    }
}

// ` (< 0 3)`
impl Form for Guard {
    ghost text = { guard.write };

    fn put(&self, out: &mut Writer) {
        put_word(out, self.sign);
        out.number(u64::from(self.clock));
        out.byte(b' ');
        out.number(u64::from(self.bound));
        out.byte(b')');
    }
}

// `(place start (< 0 15))` and a line feed
impl Form for Place {
    ghost text = { place_text };

    fn put(&self, out: &mut Writer) {
        out.word(b"(place ");
        put_word(out, self.kind);
        put_all(out, in_use(&self.tests, self.count));
        out.word(b")\n");
    }
}

// `(edge 0 1 (< 0 3) (reset 0))` and a line feed
impl Form for Edge {
    ghost text = { edge_text };

    fn put(&self, out: &mut Writer) {
        out.word(b"(edge ");
        out.number(u64::from(self.from));
        out.byte(b' ');
        out.number(u64::from(self.to));
        put_all(out, in_use(&self.guards, self.count));
        put_resets(out, &self.resets);
        out.word(b")\n");
    }
}

// The word that a value stands as.
fn put_word<T: Word>(out: &mut Writer, value: T)
    ensures { Puts out.old out.new (bytes (T.spelled value)) }
{
    out.word(value.word());
}

// Several of one kind, one after the other.
fn put_all<T: Form>(out: &mut Writer, all: &[T])
    ensures { Puts out.old out.new (write_many T.text all.now) }
{
    for x in all {
        x.put(out);
    }
}

// ` (reset 0 2)`, or nothing if no clock is reset
fn put_resets(out: &mut Writer, resets: &[bool; 4])
    ensures { Puts out.old out.new (write_resets (flagged 0 resets.now)) }
{
    let mut begun = false;
    for (clock, reset) in resets.iter().enumerate() {
        if *reset {
            out.word(if begun { b" " } else { b" (reset " });
            out.number(clock as u64);
            begun = true;
        }
    }
    if begun {
        out.byte(b')');
    }
}

// `(pattern margin 1 1 1 4)` and a line feed
fn put_header(out: &mut Writer, p: &Pattern)
    ensures { Puts out.old out.new (header_text p.now) }
{
    out.word(b"(pattern ");
    put_word(out, p.weighing);
    out.number(u64::from(p.channels));
    out.byte(b' ');
    out.number(u64::from(p.clocks));
    out.byte(b' ');
    out.number(u64::from(p.low));
    out.byte(b' ');
    out.number(u64::from(p.high));
    out.word(b")\n");
}

// The whole text, from the front of the buffer; the answer is how many bytes were put.
pub fn put_pattern(text: &mut [u8], p: &Pattern) -> usize
    ensures { Put text.old text.new 0 result (render_of p.now) }
{
    let mut out = Writer::new(text);
    put_header(&mut out, p);
    put_all(&mut out, in_use(&p.places, p.placecount));
    put_all(&mut out, in_use(&p.edges, p.edgecount));
    out.at
}
