ghost use Rattle.std.specs.Prelude.{◌≡◌, IfOk, OnOk, ◌++◌, ◌∷◌};
ghost use Rattle.std.specs.Option.{option_map};
ghost use Rattle.command_line.specs.Found.{rows_in};
ghost use Rattle.command_line.specs.PlainWords.{pair_of, pairs_of, word_of};
ghost use Rattle.settings.specs.Words.{texts};

use crate::find::value_of;
use clap::ArgMatches;
use std::alloc::{AllocError, Global};

/// Pushes an option and its value, if one is given.
fn push_pair<'a>(
    words: &mut Vec<&'a str>,
    option: &'a str,
    value: Option<&'a str>,
) -> Result<(), AllocError>
    ensures { OnOk result (texts words.new.items ≡ texts words.old.items ++ pair_of option.entry.now (option_map (λ v. v.now) value.entry)) }
{
    if let Some(value) = value {
        words.push(option)?;
        words.push(value)?;
    }
    Ok(())
}

/// Pushes a value that has no option, if it is given.
pub(crate) fn push_word<'a>(
    words: &mut Vec<&'a str>,
    value: Option<&'a str>,
) -> Result<(), AllocError>
    ensures { OnOk result (texts words.new.items ≡ texts words.old.items ++ word_of (option_map (λ v. v.now) value.entry)) }
{
    if let Some(value) = value {
        words.push(value)?;
    }
    Ok(())
}

/// The first words of plain form, by the values that were found.
pub(crate) fn with_pairs<'a>(
    alloc: Global,
    command: &'a str,
    found: &ArgMatches<'a>,
) -> Result<Vec<&'a str>, AllocError>
    ensures { IfOk result (λ words. texts words.items ≡ command.entry.now ∷ pairs_of (rows_in found.entry.now)) }
{
    let mut words = Vec::new(alloc);
    words.push(command)?;
    push_pair(&mut words, "--kind", value_of(found, "kind"))?;
    push_pair(&mut words, "--method", value_of(found, "method"))?;
    push_pair(&mut words, "--workers", value_of(found, "workers"))?;
    push_pair(&mut words, "--cells", value_of(found, "cells"))?;
    Ok(words)
}
