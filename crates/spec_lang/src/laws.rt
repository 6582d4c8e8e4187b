ghost use Rattle.spec_lang.specs.Formula.{FormulaGoesByCases};
ghost use Rattle.spec_lang.specs.Size.{DepthIsAtMostSize};
ghost use Rattle.spec_lang.specs.Value.{WordValueIsBelow};

/// The formula of an expression, variant by variant.
pub fn formula_goes_by_cases()
    ensures { FormulaGoesByCases }
{}

/// A formula is no deeper than it is large.
pub fn depth_is_at_most_size()
    ensures { DepthIsAtMostSize }
{}

/// A word of n nets has a value below 2^n.
pub fn word_value_is_below()
    ensures { WordValueIsBelow }
{}
