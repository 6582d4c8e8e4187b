ghost use Rattle.std.specs.Prelude.{◌≡◌};
ghost use Rattle.std.specs.List.{list_all};
ghost use Rattle.std.specs.Char.{is_ascii_alphabetic};
ghost use Rattle.std.specs.Str.{str_eq_ignore_ascii_case};
ghost use Rattle.bench_reader.specs.Words.{gate_word};

use netlist::GateWord;

/// Whether two words are the same but for the case of ASCII letters.
pub(crate) fn is_word(word: &str, other: &str) -> bool
    ensures { result ≡ str_eq_ignore_ascii_case word.now other.now }
{
    word.eq_ignore_ascii_case(other)
}

pub(crate) fn has_letters_only(word: &str) -> bool
    ensures { result ≡ list_all is_ascii_alphabetic word.now }
{
    word.as_bytes().iter().all(|b| b.is_ascii_alphabetic())
}

/// What a gate with this word computes.
pub(crate) fn gate_of(word: &str) -> Option<GateWord>
    ensures { result ≡ gate_word word.now }
{
    if is_word(word, "AND") {
        Some(GateWord::And)
    } else if is_word(word, "NAND") {
        Some(GateWord::Nand)
    } else if is_word(word, "OR") {
        Some(GateWord::Or)
    } else if is_word(word, "NOR") {
        Some(GateWord::Nor)
    } else if is_word(word, "XOR") {
        Some(GateWord::Xor)
    } else if is_word(word, "XNOR") {
        Some(GateWord::Xnor)
    } else if is_word(word, "NOT") {
        Some(GateWord::Not)
    } else if is_word(word, "BUFF") || is_word(word, "BUF") {
        Some(GateWord::Buff)
    } else {
        None
    }
}
