ghost use Rattle.std.specs.Prelude.{◌≡◌, IfOk, IfSome, IsOkAnd, IsSome, OnErr, true};
ghost use Rattle.std.specs.Option.{option_map};
ghost use Rattle.command_line.specs.Commands.{IsForClap, by_clap, check_of, command_of, gen_of, names_command};
ghost use Rattle.settings.specs.Commands.{IsWithinLimits, command_of as in_plain_form, said};
ghost use Rattle.settings.specs.Words.{texts};

use crate::apps::{check_app, gen_app};
use crate::find::{found, value_of};
use crate::plain_words::{push_word, with_pairs};
use settings::Command;
use std::alloc::{AllocError, Global};

/// The command of the values that clap finds in the words behind `check`.
fn check_of<'a>(alloc: Global, words: &'a [&'a str]) -> Result<Option<Command<'a>>, AllocError>
    ensures said { IfOk result (λ answer. option_map said answer ≡ check_of (texts words.entry.now)) }
    ensures limits { IfOk result (λ answer. IfSome answer (λ command. IsWithinLimits (said command))) }
{
    let Some(found) = found(check_app(alloc)?, words)? else {
        return Ok(None);
    };
    let mut plain = with_pairs(alloc, "check", &found)?;
    push_word(&mut plain, value_of(&found, "NETLIST"))?;
    push_word(&mut plain, value_of(&found, "SPEC"))?;
    Ok(settings::command_of(plain.as_slice()))
}

/// The command of the values that clap finds in the words behind `gen`.
fn gen_of<'a>(alloc: Global, words: &'a [&'a str]) -> Result<Option<Command<'a>>, AllocError>
    ensures said { IfOk result (λ answer. option_map said answer ≡ gen_of (texts words.entry.now)) }
    ensures limits { IfOk result (λ answer. IfSome answer (λ command. IsWithinLimits (said command))) }
{
    let Some(found) = found(gen_app(alloc)?, words)? else {
        return Ok(None);
    };
    let mut plain = with_pairs(alloc, "gen", &found)?;
    push_word(&mut plain, value_of(&found, "SIZE"))?;
    Ok(settings::command_of(plain.as_slice()))
}

fn by_clap<'a>(alloc: Global, words: &'a [&'a str]) -> Result<Option<Command<'a>>, AllocError>
    ensures said { IfOk result (λ answer. option_map said answer ≡ by_clap (texts words.entry.now)) }
    ensures memory { OnErr result (names_command (texts words.entry.now) ≡ true) }
    ensures limits { IfOk result (λ answer. IfSome answer (λ command. IsWithinLimits (said command))) }
{
    let [command, more @ ..] = words else {
        return Ok(None);
    };
    if *command == "check" {
        check_of(alloc, more)
    } else if *command == "gen" {
        gen_of(alloc, more)
    } else {
        Ok(None)
    }
}

/// The command that the words behind the program's name say.
pub fn command_of<'a>(
    alloc: Global,
    words: &'a [&'a str],
) -> Result<Option<Command<'a>>, AllocError>
    ensures said { IfOk result (λ answer. option_map said answer ≡ command_of (texts words.entry.now)) }
    ensures plain { IsSome (in_plain_form (texts words.entry.now))
        → IsOkAnd result (λ answer. option_map said answer ≡ in_plain_form (texts words.entry.now)) }
    ensures memory { OnErr result (IsForClap (texts words.entry.now)) }
    ensures limits { IfOk result (λ answer. IfSome answer (λ command. IsWithinLimits (said command))) }
{
    match settings::command_of(words) {
        Some(command) => Ok(Some(command)),
        None => by_clap(alloc, words),
    }
}
