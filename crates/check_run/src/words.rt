ghost use Rattle.std.specs.Prelude.{◌≡◌, IfErr, IfOk, Ok, true};
ghost use Rattle.settings.specs.Limits.{AreWithin};
ghost use Rattle.settings.specs.Words.{texts};
ghost use Rattle.check_run.specs.Loading.{HasSize, StopsAtWords};
ghost use Rattle.check_run.specs.Sources.{plain_source};
ghost use Rattle.check_run.specs.Words.{asked_of, is_built, plain_asked};

use crate::asked::{Asked, Source};
use crate::stop::Stop;
use checks::Method;
use command_line::command_of;
use report::Refusal;
use settings::{Command, Settings};
use std::alloc::Global;

fn is_built(settings: Settings) -> bool
    ensures { result ≡ is_built settings }
{
    match settings.method {
        Method::Forward => settings.workers == 1,
        Method::Backward => false,
    }
}

/// What the words ask for, or why they are refused.
pub(crate) fn asked<'a>(alloc: Global, words: &'a [&'a str]) -> Result<Asked<'a>, Stop>
    ensures asked { IfOk result (λ asked. asked_of (texts words.entry.now) ≡ Ok (plain_asked asked)) }
    ensures stops { IfErr result (StopsAtWords (texts words.entry.now)) }
    ensures limits { IfOk result (λ asked. AreWithin asked.settings) }
    ensures size { IfOk result (λ asked. HasSize (plain_source asked.source)) }
    ensures built { IfOk result (λ asked. is_built asked.settings ≡ true) }
{
    let (settings, source) = match command_of(alloc, words)? {
        None => return Err(Stop::Refused(Refusal::Usage)),
        Some(
            Command::Check {
                settings,
                netlist,
                spec,
            },
        ) => (settings, Source::Files { netlist, spec }),
        Some(Command::Gen { settings, size }) => (settings, Source::Multiplier { size }),
    };
    if !is_built(settings) {
        return Err(Stop::Refused(Refusal::Words));
    }
    Ok(Asked { settings, source })
}
