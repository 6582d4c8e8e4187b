ghost use Rattle.std.specs.Prelude.{◌≡◌, ◌+◌, ◌<◌, ◌^◌, true, false, map, option_map, IfOk};
ghost use Rattle.spec_grammar.specs.Parsing.{parsed};
ghost use Rattle.spec_grammar.specs.Trees.{nesting};
ghost use Rattle.spec_reader.specs.Surveys.{at_factor, at_operator, survey_step, empty_survey, ended};
ghost use Rattle.spec_reader.specs.Views.{seen_symbol, seen_survey};

use crate::symbol::Symbol;
use std::alloc::{AllocError, Global};

/// How nested an expression is, from its beginning up to a place.
#[derive(Drop)]
pub(crate) struct Survey {
    /// What the base was in front of each parenthesis that is open.
    pub(crate) bases: Vec<usize>,
    /// The parentheses and unary minuses around what the innermost parenthesis encloses.
    pub(crate) base: usize,
    /// The same of the place.
    pub(crate) depth: usize,
    /// The most of them around a number or a name.
    pub(crate) deepest: usize,
    /// Whether a factor is to come.
    pub(crate) wants: bool,
}

fn empty_survey(alloc: Global) -> Survey
    ensures { seen_survey result ≡ empty_survey }
{
    Survey {
        bases: Vec::new(alloc),
        base: 0,
        depth: 0,
        deepest: 0,
        wants: true,
    }
}

fn at_factor(mut survey: Survey, symbol: Symbol<'_>) -> Result<Option<Survey>, AllocError>
    requires wants { survey.wants ≡ true }
    requires small { survey.depth < 2 ^ 63 }
    ensures { IfOk result (λ next. option_map seen_survey next
        ≡ at_factor (seen_survey survey) (seen_symbol symbol.entry)) }
{
    match symbol {
        Symbol::Digits(_) | Symbol::Name(_) => {
            survey.deepest = survey.deepest.max(survey.depth);
            survey.depth = survey.base;
            survey.wants = false;
            Ok(Some(survey))
        }
        Symbol::Minus => {
            survey.depth += 1;
            Ok(Some(survey))
        }
        Symbol::Opening => {
            survey.bases.push(survey.base)?;
            survey.depth += 1;
            survey.base = survey.depth;
            Ok(Some(survey))
        }
        _ => Ok(None),
    }
}

fn at_operator(mut survey: Survey, symbol: Symbol<'_>) -> Option<Survey>
    requires { survey.wants ≡ false }
    ensures { option_map seen_survey result
        ≡ at_operator (seen_survey survey) (seen_symbol symbol.entry) }
{
    match symbol {
        Symbol::Plus | Symbol::Minus | Symbol::Times => {
            survey.wants = true;
            Some(survey)
        }
        Symbol::Closing => match survey.bases.pop() {
            Some(base) => {
                survey.base = base;
                survey.depth = base;
                Some(survey)
            }
            None => None,
        },
        _ => None,
    }
}

fn step(survey: Survey, symbol: Symbol<'_>) -> Result<Option<Survey>, AllocError>
    requires { survey.depth < 2 ^ 63 }
    ensures { IfOk result (λ next. option_map seen_survey next
        ≡ survey_step (seen_survey survey) (seen_symbol symbol.entry)) }
{
    if survey.wants {
        at_factor(survey, symbol)
    } else {
        Ok(at_operator(survey, symbol))
    }
}

fn whole(survey: &Survey) -> Option<usize>
    ensures { let seen = seen_survey survey.now
        in result ≡ ended seen.bases seen.wants seen.deepest }
{
    if survey.bases.is_empty() && !survey.wants {
        Some(survey.deepest)
    } else {
        None
    }
}

/// How many parentheses and unary minuses enclose the place that most of them enclose, where the symbols are an
/// expression.
pub(crate) fn nesting(alloc: Global, symbols: &[Symbol<'_>]) -> Result<Option<usize>, AllocError>
    ensures { IfOk result (λ found. found
        ≡ option_map nesting (parsed (map seen_symbol symbols.now))) }
{
    let mut survey = empty_survey(alloc);
    for symbol in symbols {
        survey = match step(survey, *symbol)? {
            Some(next) => next,
            None => return Ok(None),
        };
    }
    Ok(whole(&survey))
}
