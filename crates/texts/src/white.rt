ghost use Rattle.std.specs.Prelude.{◌≡◌, ◌≤◌, not, length, position};
ghost use Rattle.texts.specs.White.{is_white, white_len, behind_white};

fn is_white(byte: u8) -> bool
    ensures { result ≡ is_white byte }
{
    byte == b' ' || byte == b'\t' || byte == b'\r'
}

fn end_of_white(text: &[u8]) -> Option<usize>
    ensures { result ≡ position (λ b. not (is_white b)) text.now }
{
    text.iter().position(|b| !is_white(*b))
}

/// How many bytes of white space are at the front.
fn white_len(text: &[u8]) -> usize
    ensures exact { result ≡ white_len text.now }
    ensures within { result ≤ length text.now }
{
    match end_of_white(text) {
        Some(end) => end,
        None => text.len(),
    }
}

/// The text without the white space at its front.
pub fn behind_white(text: &[u8]) -> &[u8]
    ensures { result.now ≡ behind_white text.now }
{
    let (_, rest) = text.split_at(white_len(text));
    rest
}
