ghost use Rattle.checks.specs.Laws.{FirstDifferenceFound, FormulaTables, GateTables, InputTables, SidesAreOver, TopVariableReplaced, WalkFindsFirst, WordTables};

/// The tables of nets and of formulas are over the levels of the specification's order.
pub fn sides_are_over()
    ensures { SidesAreOver }
{}

/// The table of an input's net is that of the variable of the input's level.
pub fn input_tables()
    ensures { InputTables }
{}

/// The table of a gate's net is the gate's fold of the tables of the nets that it reads.
pub fn gate_tables()
    ensures { GateTables }
{}

/// The table of a number is a constant, and that of a negative, a sum, a difference or a product is the
/// same operation on the tables of the operands.
pub fn formula_tables()
    ensures { FormulaTables }
{}

/// The table of a word is the sum of 2^i times the table of its net i, and is added up from the lowest on.
pub fn word_tables()
    ensures { WordTables }
{}

/// A function of which the top variable is replaced by p is its low half and p times the difference of its halves.
pub fn top_variable_replaced()
    ensures { TopVariableReplaced }
{}

/// The first difference of two tables is none exactly where they are the same, and else both entries at the
/// first bits where they differ.
pub fn first_difference_found()
    ensures { FirstDifferenceFound }
{}

/// The walk by parts goes to the first difference, at any letters.
pub fn walk_finds_first()
    ensures { WalkFindsFirst }
{}
