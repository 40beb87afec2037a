ghost use Rattle.std.specs.Prelude.{◌≡◌, ◌<◌, ◌∷◌, length};
ghost use Rattle.jobtext.specs.Bytes.{front};
ghost use Rattle.jobtext.specs.Lines.{behind, lines, lines_left, LineLaws};

use super::cut::cut;

/// The first line, without its newline, and what is behind it.
pub fn first_line(text: &[u8]) -> (&[u8], &[u8])
    ensures line { result.0.now ≡ front 10 text.now }
    ensures left { result.1.now ≡ behind text.now }
    ensures step { 0 < length text.now → lines text.now ≡ result.0.now ∷ lines result.1.now }
    ensures shorter { 0 < length text.now → length result.1.now < length text.now }
    ensures laws { LineLaws }
{
    let (line, left) = cut(text, b'\n');
    (line, left.unwrap_or(&[]))
}

/// The lines of a text in turn, without their newlines; the last may lack it.
#[derive(Clone, Drop)]
pub struct Lines<'a> {
    left: &'a [u8],
}

impl<'a> Lines<'a> {
    /// All lines of the text.
    pub fn new(text: &'a [u8]) -> Self
        ensures { lines_left result ≡ lines text.now }
    {
        Lines { left: text }
    }
}

impl<'a> Iterator for Lines<'a> {
    ghost use Rattle.std.specs.Iterator.{YieldsFirstRef, item_count};

    type Item = &'a [u8];

    ghost next_gives = { YieldsFirstRef lines_left };

    ghost remaining = { item_count lines_left };

    fn next(&mut self) -> Option<&'a [u8]> {
        if self.left.is_empty() {
            return None;
        }
        let (line, left) = first_line(self.left);
        self.left = left;
        Some(line)
    }
}
