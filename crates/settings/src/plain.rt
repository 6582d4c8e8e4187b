ghost use Rattle.std.specs.Prelude.{◌≡◌, IfSome};
ghost use Rattle.std.specs.Option.{option_map};
ghost use Rattle.settings.specs.Commands.{IsWithinLimits, check_of, command_by, command_of, gen_of, said};
ghost use Rattle.settings.specs.Words.{texts};

use crate::command::{Command, Settings};
use crate::given::{pairs, settings_of};
use crate::number::size_of;
use crate::word::is_name;

fn check_of<'a>(
    command: &str,
    settings: Settings,
    netlist: &'a str,
    spec: &'a str,
) -> Option<Command<'a>>
    ensures { option_map said result ≡ check_of command.now settings netlist.now spec.now }
{
    if command == "check" && is_name(netlist) && is_name(spec) {
        Some(Command::Check {
            settings,
            netlist,
            spec,
        })
    } else {
        None
    }
}

fn gen_of<'a>(command: &str, settings: Settings, size: &str) -> Option<Command<'a>>
    ensures { option_map said result ≡ gen_of command.now settings size.now }
{
    if command == "gen" {
        Some(Command::Gen {
            settings,
            size: size_of(size)?,
        })
    } else {
        None
    }
}

fn command_by<'a>(command: &str, settings: Settings, last: &[&'a str]) -> Option<Command<'a>>
    ensures { option_map said result ≡ command_by command.now settings (texts last.now) }
{
    match last {
        [netlist, spec] => check_of(command, settings, netlist, spec),
        [size] => gen_of(command, settings, size),
        _ => None,
    }
}

/// The command that the words behind the program's name say in plain form.
pub fn command_of<'a>(words: &[&'a str]) -> Option<Command<'a>>
    ensures said { option_map said result ≡ command_of (texts words.now) }
    ensures limits { IfSome result (λ command. IsWithinLimits (said command)) }
{
    let [command, more @ ..] = words else {
        return None;
    };
    let (given, last) = pairs(more)?;
    command_by(command, settings_of(given)?, last)
}
