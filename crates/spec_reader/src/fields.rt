ghost use Rattle.std.specs.Prelude.{◌≡◌, ◌==◌, not, map, filter, length, position, IfOk};
ghost use Rattle.spec_grammar.specs.Fields.{fields, keyword, behind_keyword};
ghost use Rattle.spec_grammar.specs.Forms.{is_equals_sign};
ghost use Rattle.std.specs.List.{slice_split, before_first, after_first};
ghost use Rattle.texts.specs.White.{is_white};

use std::alloc::{AllocError, Global};
use texts::behind_white;

fn is_white(byte: u8) -> bool
    ensures { result ≡ is_white byte }
{
    byte == b' ' || byte == b'\t' || byte == b'\r'
}

/// What stands between white space, also where that is nothing.
fn pieces(alloc: Global, text: &[u8]) -> Result<Vec<&[u8]>, AllocError>
    ensures { IfOk result (λ found. map (λ piece. piece.now) found.items
        ≡ slice_split is_white text.now) }
{
    text.split(|b| is_white(*b)).collect(alloc)
}

/// The pieces that have bytes.
fn with_bytes<'a>(alloc: Global, pieces: &[&'a [u8]]) -> Result<Vec<&'a [u8]>, AllocError>
    ensures { IfOk result (λ found. found.items
        ≡ filter (λ piece. not (length piece.now == 0)) pieces.now) }
{
    pieces
        .iter()
        .copied()
        .filter(|piece| !piece.is_empty())
        .collect(alloc)
}

/// What stands between white space.
pub(crate) fn fields(alloc: Global, text: &[u8]) -> Result<Vec<&[u8]>, AllocError>
    ensures { IfOk result (λ found. map (λ field. field.now) found.items ≡ fields text.now) }
{
    let pieces = pieces(alloc, text)?;
    with_bytes(alloc, &pieces)
}

fn end_of_field(text: &[u8]) -> Option<usize>
    ensures { result ≡ position is_white text.now }
{
    text.iter().position(|b| is_white(*b))
}

fn place_of_equals_sign(text: &[u8]) -> Option<usize>
    ensures { result ≡ position is_equals_sign text.now }
{
    text.iter().position(|b| *b == b'=')
}

/// The keyword that a line begins with, and what stands behind it.
pub(crate) fn split_keyword(text: &[u8]) -> (&[u8], &[u8])
    ensures keyword { result.0.now ≡ keyword text.now }
    ensures rest { result.1.now ≡ behind_keyword text.now }
{
    let text = behind_white(text);
    match end_of_field(text) {
        Some(end) => (&text[..end], &text[end + 1..]),
        None => text.split_at(text.len()),
    }
}

/// What stands in front of the first equals sign, and behind it.
pub(crate) fn split_equals(text: &[u8]) -> (&[u8], &[u8])
    ensures front { result.0.now ≡ before_first is_equals_sign text.now }
    ensures rest { result.1.now ≡ after_first is_equals_sign text.now }
{
    match place_of_equals_sign(text) {
        Some(end) => (&text[..end], &text[end + 1..]),
        None => text.split_at(text.len()),
    }
}
