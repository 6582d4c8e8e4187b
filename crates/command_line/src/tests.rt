use super::*;
use checks::Method;
use settings::{Command, Settings};
use std::test::Fail;
use word_base::KindName;

const USUAL: Settings = Settings {
    kind: KindName::StarBmd,
    method: Method::Forward,
    workers: 1,
    cells: 262_144,
};

const HYBRID: Settings = Settings {
    kind: KindName::Hdd,
    ..USUAL
};

fn check_of_n_and_s(settings: Settings) -> Option<Command<'static>> {
    Some(Command::Check {
        settings,
        netlist: "n",
        spec: "s",
    })
}

fn gen_of_two(settings: Settings) -> Option<Command<'static>> {
    Some(Command::Gen { settings, size: 2 })
}

#[test]
fn options_stand_anywhere_by_names(rt: HostRuntime) -> Result<(), Fail> {
    let rows: [(&[&str], Settings); 12] = [
        (&["check", "n", "s"], USUAL),
        (&["check", "--kind", "hdd", "n", "s"], HYBRID),
        (&["check", "--kind=hdd", "n", "s"], HYBRID),
        (&["check", "n", "s", "--kind=hdd"], HYBRID),
        (&["check", "n", "s", "--kind", "hdd"], HYBRID),
        (&["check", "n", "--kind", "hdd", "s"], HYBRID),
        (
            &["check", "--kind", "hdd", "n", "--cells=512", "s"],
            Settings {
                cells: 512,
                ..HYBRID
            },
        ),
        (
            &[
                "check",
                "n",
                "--cells=512",
                "--workers",
                "2",
                "s",
                "--method=backward",
                "--kind=evbdd",
            ],
            Settings {
                kind: KindName::Evbdd,
                method: Method::Backward,
                workers: 2,
                cells: 512,
            },
        ),
        (&["check", "--", "n", "s"], USUAL),
        (&["check", "n", "--", "s"], USUAL),
        (&["check", "n", "s", "--"], USUAL),
        (&["check", "--kind=hdd", "--", "n", "s"], HYBRID),
    ];
    for (words, settings) in rows {
        assert_eq!(rt; command_of(rt.alloc(), words)?, check_of_n_and_s(settings));
    }
    Ok(())
}

#[test]
fn options_stand_anywhere_by_a_size(rt: HostRuntime) -> Result<(), Fail> {
    let two_workers = Settings {
        workers: 2,
        ..USUAL
    };
    let rows: [(&[&str], Settings); 6] = [
        (&["gen", "2"], USUAL),
        (&["gen", "--kind", "hdd", "2"], HYBRID),
        (&["gen", "--kind=hdd", "2"], HYBRID),
        (&["gen", "2", "--workers", "2"], two_workers),
        (&["gen", "2", "--workers=2"], two_workers),
        (&["gen", "--", "2"], USUAL),
    ];
    for (words, settings) in rows {
        assert_eq!(rt; command_of(rt.alloc(), words)?, gen_of_two(settings));
    }
    Ok(())
}

#[test]
fn other_words_say_no_command(rt: HostRuntime) -> Result<(), Fail> {
    let rows: [&[&str]; 34] = [
        &[],
        &["check"],
        &["check", "a"],
        &["check", "a", "b", "c"],
        &["check", "a", "--", "b", "--kind=hdd"],
        &["gen"],
        &["gen", "17"],
        &["gen", "02"],
        &["gen", "2", "2"],
        &["prove", "a", "b"],
        &["prove", "--kind=hdd", "a", "b"],
        &["--kind=hdd", "check", "a", "b"],
        &["check", "--kind=bdd", "a", "b"],
        &["check", "--kind=HDD", "a", "b"],
        &["check", "--kind=", "a", "b"],
        &["check", "--kind", "a", "b"],
        &["check", "a", "b", "--kind"],
        &["check", "--kind=hdd", "--kind=hdd", "a", "b"],
        &["check", "--kind=hdd", "a", "b", "--kind", "evbdd"],
        &["check", "--kin=hdd", "a", "b"],
        &["check", "-k", "hdd", "a", "b"],
        &["check", "--size=2", "a", "b"],
        &["check", "--workers=17", "a", "b"],
        &["check", "a", "b", "--workers=2", "--cells=256"],
        &["check", "a", "b", "--cells=257"],
        &["check", "a", "b", "--workers=+2"],
        &["check", "--help"],
        &["check", "-h"],
        &["check", "a", "b", "--help"],
        &["check", "--version"],
        &["gen", "--version"],
        &["check", "--", "--kind", "b"],
        &["check", "--", "a", "-b"],
        &["check", "--kind=hdd", "", "b"],
    ];
    for words in rows {
        assert_eq!(rt; command_of(rt.alloc(), words)?, None);
    }
    Ok(())
}
