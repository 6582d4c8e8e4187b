ghost use Rattle.std.specs.Prelude.{◌≡◌, ◌∷◌};
ghost use Rattle.bench_reader.specs.Forms.{form};
ghost use Rattle.bench_reader.specs.Symbols.{name, opening, equals, symbols};
ghost use Rattle.bench_reader.specs.Views.{seen_form};

use crate::inputs::Inputs;
use crate::symbol::{Symbol, next_symbol};
use crate::word::{has_letters_only, is_word};

/// The form of a line.
#[derive(Drop)]
pub(crate) enum Form<'a> {
    Empty,
    /// The name of an input.
    Input(&'a str),
    /// The name of an output.
    Output(&'a str),
    /// The name of the gate's net, its word and its inputs.
    Gate(&'a str, &'a str, Inputs<'a>),
    NoForm,
}

/// The form of a line that begins with a word and an opening parenthesis, before the text.
fn declaration<'a>(word: &str, text: &'a [u8]) -> Form<'a>
    ensures { seen_form result ≡ form (name word.now ∷ opening ∷ symbols text.now) }
{
    let Some((Symbol::Name(net), rest)) = next_symbol(text) else {
        return Form::NoForm;
    };
    let Some((Symbol::Closing, end)) = next_symbol(rest) else {
        return Form::NoForm;
    };
    if next_symbol(end).is_some() {
        Form::NoForm
    } else if is_word(word, "INPUT") {
        Form::Input(net)
    } else if is_word(word, "OUTPUT") {
        Form::Output(net)
    } else {
        Form::NoForm
    }
}

/// The form of a line that begins with a name and an equals sign, before the text.
fn definition<'a>(net: &'a str, text: &'a [u8]) -> Form<'a>
    ensures { seen_form result ≡ form (name net.now ∷ equals ∷ symbols text.now) }
{
    let Some((Symbol::Name(word), rest)) = next_symbol(text) else {
        return Form::NoForm;
    };
    let Some((Symbol::Opening, rest)) = next_symbol(rest) else {
        return Form::NoForm;
    };
    let Some(inputs) = Inputs::read(rest) else {
        return Form::NoForm;
    };
    if has_letters_only(word) {
        Form::Gate(net, word, inputs)
    } else {
        Form::NoForm
    }
}

/// The form of what stands before a line's comment.
pub(crate) fn form_of(text: &[u8]) -> Form<'_>
    ensures { seen_form result ≡ form (symbols text.now) }
{
    let Some((first, rest)) = next_symbol(text) else {
        return Form::Empty;
    };
    let Symbol::Name(first) = first else {
        return Form::NoForm;
    };
    match next_symbol(rest) {
        Some((Symbol::Opening, rest)) => declaration(first, rest),
        Some((Symbol::Equals, rest)) => definition(first, rest),
        _ => Form::NoForm,
    }
}
