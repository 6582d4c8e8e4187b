ghost use Rattle.std.specs.Prelude.{◌≡◌, IfOk, codes};
ghost use Rattle.clap.specs.Words.{app_of, with_rule};
ghost use Rattle.command_line.specs.Apps.{bare_app, check_app, gen_app, option_rule, place_rule, with_options};

use clap::{Arg, Command};
use std::alloc::{AllocError, Global};

/// A command of this name, without arguments.
fn bare<'a>(alloc: Global, name: &'a str) -> Command<'a>
    ensures { app_of result ≡ bare_app name.entry.now }
{
    Command::new(alloc, name)
        .no_binary_name(true)
        .disable_help_flag(true)
}

/// The command with an option of one text, which has no short name.
fn with_option<'a>(
    alloc: Global,
    command: Command<'a>,
    name: &'a str,
) -> Result<Command<'a>, AllocError>
    ensures { IfOk result (λ more. app_of more ≡ with_rule (app_of command.entry) (option_rule name.entry.now)) }
{
    command.arg(Arg::new(alloc, name).long(name))
}

/// The command with a text that has to stand behind those before it.
fn with_place<'a>(
    alloc: Global,
    command: Command<'a>,
    name: &'a str,
) -> Result<Command<'a>, AllocError>
    ensures { IfOk result (λ more. app_of more ≡ with_rule (app_of command.entry) (place_rule name.entry.now)) }
{
    command.arg(Arg::new(alloc, name).required(true))
}

fn with_options<'a>(alloc: Global, command: Command<'a>) -> Result<Command<'a>, AllocError>
    ensures { IfOk result (λ more. app_of more ≡ with_options (app_of command.entry)) }
{
    let with_kind = with_option(alloc, command, "kind")?;
    let with_method = with_option(alloc, with_kind, "method")?;
    let with_workers = with_option(alloc, with_method, "workers")?;
    with_option(alloc, with_workers, "cells")
}

/// The command `check`.
pub(crate) fn check_app<'a>(alloc: Global) -> Result<Command<'a>, AllocError>
    ensures { IfOk result (λ command. app_of command ≡ check_app) }
{
    let command = with_options(alloc, bare(alloc, "check"))?;
    let with_netlist = with_place(alloc, command, "NETLIST")?;
    with_place(alloc, with_netlist, "SPEC")
}

/// The command `gen`.
pub(crate) fn gen_app<'a>(alloc: Global) -> Result<Command<'a>, AllocError>
    ensures { IfOk result (λ command. app_of command ≡ gen_app) }
{
    let command = with_options(alloc, bare(alloc, "gen"))?;
    with_place(alloc, command, "SIZE")
}
