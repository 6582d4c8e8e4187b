ghost use Rattle.std.specs.Prelude.{◌≡◌, ◌≤◌, not, length, position, is_some, IfSome};
ghost use Rattle.std.specs.List.{list_all};
ghost use Rattle.circuits.specs.Names.{is_name_byte};
ghost use Rattle.texts.specs.Names.{name_len, front_name, behind_name};

/// Whether the byte may stand in a name.
pub fn is_name_byte(byte: u8) -> bool
    ensures { result ≡ is_name_byte byte }
{
    32 < byte && byte < 127 && !matches!(byte, b'(' | b')' | b',' | b'=' | b'#')
}

fn has_name_bytes_only(text: &[u8]) -> bool
    ensures { result ≡ list_all is_name_byte text.now }
{
    text.iter().all(|b| is_name_byte(*b))
}

fn end_of_name(text: &[u8]) -> Option<usize>
    ensures { result ≡ position (λ b. not (is_name_byte b)) text.now }
{
    text.iter().position(|b| !is_name_byte(*b))
}

/// How many bytes of a name are at the front.
fn name_len(text: &[u8]) -> usize
    ensures exact { result ≡ name_len text.now }
    ensures within { result ≤ length text.now }
{
    match end_of_name(text) {
        Some(end) => end,
        None => text.len(),
    }
}

/// The name at the front, as long as it can be, and the text after it.
pub fn split_name(text: &[u8]) -> (&str, &[u8])
    ensures name { result.0.now ≡ front_name text.now }
    ensures rest { result.1.now ≡ behind_name text.now }
{
    let (front, rest) = text.split_at(name_len(text));
    (str::from_utf8(front).unwrap(), rest)
}

/// The whole text as a name, where each byte of it may stand in one.
pub fn as_name(text: &[u8]) -> Option<&str>
    ensures some { is_some result ≡ list_all is_name_byte text.now }
    ensures same { IfSome result (λ name. name.now ≡ text.now) }
{
    if has_name_bytes_only(text) {
        Some(str::from_utf8(text).unwrap())
    } else {
        None
    }
}
