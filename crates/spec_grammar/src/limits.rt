/// The most parentheses and unary minuses that may enclose a place of an expression.
pub const MOST_NESTING: usize = 64;
