ghost use Rattle.std.specs.Prelude.{◌≡◌};
ghost use Rattle.std.specs.Option.{option_map};
ghost use Rattle.settings.specs.Limits.{is_within, settings_of};
ghost use Rattle.settings.specs.Pairs.{front_of, nothing, pairs, with_pair};
ghost use Rattle.settings.specs.Words.{texts};

use crate::command::Settings;
use crate::limits::{CELLS_OF_WORKER, MOST_CELLS, MOST_WORKERS, USUAL_CELLS, USUAL_WORKERS};
use crate::number::number_of;
use crate::word::{kind_of, method_of};
use checks::Method;
use word_base::KindName;

/// The value of each option that is given so far.
#[derive(Clone, Copy)]
pub(crate) struct Given {
    kind: Option<KindName>,
    method: Option<Method>,
    workers: Option<u32>,
    cells: Option<u32>,
}

fn nothing() -> Given
    ensures { result ≡ nothing }
{
    Given {
        kind: None,
        method: None,
        workers: None,
        cells: None,
    }
}

/// What is given with one pair more, if the two words are one and its option is not given yet.
fn with_pair(given: Given, option: &str, value: &str) -> Option<Given>
    ensures { result ≡ with_pair given option.now value.now }
{
    if option == "--kind" && given.kind.is_none() {
        Some(Given {
            kind: Some(kind_of(value)?),
            ..given
        })
    } else if option == "--method" && given.method.is_none() {
        Some(Given {
            method: Some(method_of(value)?),
            ..given
        })
    } else if option == "--workers" && given.workers.is_none() {
        Some(Given {
            workers: Some(number_of(value)?),
            ..given
        })
    } else if option == "--cells" && given.cells.is_none() {
        Some(Given {
            cells: Some(number_of(value)?),
            ..given
        })
    } else {
        None
    }
}

/// What the pairs in front give, and the last words, two at most.
pub(crate) fn pairs<'s, 'a>(words: &'s [&'a str]) -> Option<(Given, &'s [&'a str])>
    ensures { option_map front_of result ≡ pairs nothing (texts words.now) }
{
    let mut given = nothing();
    let mut rest = words;
    while rest.len() > 2 {
        given = with_pair(given, rest[0], rest[1])?;
        rest = &rest[2..];
    }
    Some((given, rest))
}

fn is_within(workers: u32, cells: u32) -> bool
    ensures { result ≡ is_within workers cells }
{
    1 <= workers
        && workers <= MOST_WORKERS
        && cells % CELLS_OF_WORKER == 0
        && CELLS_OF_WORKER * workers <= cells
        && cells <= MOST_CELLS
}

/// The settings, where they are within the limits: the usual value stands for what is not given.
pub(crate) fn settings_of(given: Given) -> Option<Settings>
    ensures { result ≡ settings_of given }
{
    let workers = given.workers.unwrap_or(USUAL_WORKERS);
    let cells = given.cells.unwrap_or(USUAL_CELLS);
    if !is_within(workers, cells) {
        return None;
    }
    Some(Settings {
        kind: given.kind.unwrap_or(KindName::StarBmd),
        method: given.method.unwrap_or(Method::Forward),
        workers,
        cells,
    })
}
