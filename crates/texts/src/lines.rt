ghost use Rattle.std.specs.Prelude.{◌≡◌, ◌<◌, ◌==◌, ◌∷◌, length, position};
ghost use Rattle.std.specs.List.{list_any};
ghost use Rattle.texts.specs.Lines.{is_above_127, lines, uncommented};

fn first_place(text: &[u8], byte: u8) -> Option<usize>
    ensures { result ≡ position (λ b. b == byte) text.now }
{
    text.iter().position(|b| *b == byte)
}

/// The first line of a text, and the text after its end.
pub fn split_line(text: &[u8]) -> (&[u8], &[u8])
    requires { 0 < length text.now }
    ensures first { lines text.now ≡ result.0.now ∷ lines result.1.now }
    ensures shorter { length result.1.now < length text.now }
{
    match first_place(text, b'\n') {
        Some(end) => (&text[..end], &text[end + 1..]),
        None => text.split_at(text.len()),
    }
}

/// What stands on a line before its comment.
pub fn before_comment(line: &[u8]) -> &[u8]
    ensures { result.now ≡ uncommented line.now }
{
    match first_place(line, b'#') {
        Some(start) => &line[..start],
        None => line,
    }
}

/// Whether a byte is no ASCII.
pub fn has_byte_above_127(line: &[u8]) -> bool
    ensures { result ≡ list_any is_above_127 line.now }
{
    line.iter().any(|b| *b > 127)
}
