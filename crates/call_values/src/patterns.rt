// Patterns by their texts.
use pattern::{NO_PATTERN, Pattern};
use pattern_read::read;

// Zeros where the text is refused.
pub fn pattern_of(text: &[u8]) -> Pattern {
    read(text).unwrap_or(NO_PATTERN)
}

// Document 01's example.
pub fn document() -> Pattern {
    pattern_of(
        b"(pattern margin 1 1 1 4)\n\
          (place start (< 0 15))\n\
          (place plain (> 0 5))\n\
          (place end)\n\
          (edge 0 1 (< 0 3) (reset 0))\n\
          (edge 1 2 (<= 0 2))\n",
    )
}
