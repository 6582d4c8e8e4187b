ghost use Rattle.spec_grammar.specs.Grammar.{IsExactGrammar};
ghost use Rattle.spec_grammar.specs.ReadFor.{ReadingIsWellFormed};

/// The expression that symbols are parsed as is the one of the grammar that is written so.
pub fn parsing_is_exact()
    ensures { IsExactGrammar }
{}

/// The specification that a text says is well formed, over the netlist, and for the kind.
pub fn reading_is_well_formed()
    ensures { ReadingIsWellFormed }
{}
