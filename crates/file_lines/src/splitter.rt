// How a text is split into lines.
ghost use Rattle.std.specs.Prelude.{◌+◌, ◌≡◌, drop};
ghost use Rattle.spec_file.specs.Split.{line_length};

// Where the line that starts at `from` ends: at the first 0a from there on, or at the text's end where there is none.
// For a place behind the text's end it is that place itself.
pub fn line_end(text: &[u8], from: usize) -> usize
    ensures { result ≡ from + line_length (drop from text.now) }
{
    for i in from..text.len() {
        if text[i] == 10 {
            return i;
        }
    }
    text.len().max(from)
}
