/// The most words of a specification.
pub const MOST_WORDS: usize = 64;

/// The most checks of a specification.
pub const MOST_CHECKS: usize = 64;

/// The most nets of a word.
pub const MOST_NETS_OF_WORD: usize = 127;

/// The most symbols of a check: numbers, names, operators, parentheses and the sign between its sides.
pub const MOST_SYMBOLS: usize = 1_024;
