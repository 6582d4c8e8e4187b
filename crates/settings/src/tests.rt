use super::*;
use checks::Method;
use word_base::KindName;

const USUAL: Settings = Settings {
    kind: KindName::StarBmd,
    method: Method::Forward,
    workers: 1,
    cells: 262_144,
};

fn check_of_n_and_s(settings: Settings) -> Option<Command<'static>> {
    Some(Command::Check {
        settings,
        netlist: "n",
        spec: "s",
    })
}

fn gen_of(settings: Settings, size: u32) -> Option<Command<'static>> {
    Some(Command::Gen { settings, size })
}

#[test]
fn pairs_give_settings(rt: HostRuntime) {
    let rows: [(&[&str], Settings); 12] = [
        (&["check", "n", "s"], USUAL),
        (
            &["check", "--workers", "2", "n", "s"],
            Settings {
                workers: 2,
                ..USUAL
            },
        ),
        (
            &["check", "--workers", "16", "n", "s"],
            Settings {
                workers: 16,
                ..USUAL
            },
        ),
        (
            &["check", "--cells", "256", "n", "s"],
            Settings {
                cells: 256,
                ..USUAL
            },
        ),
        (
            &["check", "--cells", "1048576", "n", "s"],
            Settings {
                cells: 1_048_576,
                ..USUAL
            },
        ),
        (
            &["check", "--kind", "evbdd", "n", "s"],
            Settings {
                kind: KindName::Evbdd,
                ..USUAL
            },
        ),
        (&["check", "--kind", "star_bmd", "n", "s"], USUAL),
        (
            &["check", "--kind", "hdd", "n", "s"],
            Settings {
                kind: KindName::Hdd,
                ..USUAL
            },
        ),
        (
            &["check", "--kind", "k_star_bmd", "n", "s"],
            Settings {
                kind: KindName::KStarBmd,
                ..USUAL
            },
        ),
        (
            &["check", "--method", "backward", "n", "s"],
            Settings {
                method: Method::Backward,
                ..USUAL
            },
        ),
        (&["check", "--method", "forward", "n", "s"], USUAL),
        (
            &[
                "check",
                "--cells",
                "512",
                "--method",
                "backward",
                "--workers",
                "2",
                "--kind",
                "hdd",
                "n",
                "s",
            ],
            Settings {
                kind: KindName::Hdd,
                method: Method::Backward,
                workers: 2,
                cells: 512,
            },
        ),
    ];
    for (words, settings) in rows {
        assert_eq!(rt; command_of(words), check_of_n_and_s(settings));
    }
}

#[test]
fn a_multiplier_has_a_size(rt: HostRuntime) {
    assert_eq!(rt; command_of(&["gen", "2"]), gen_of(USUAL, 2));
    assert_eq!(rt; command_of(&["gen", "16"]), gen_of(USUAL, 16));
    let small = Settings {
        workers: 16,
        cells: 4096,
        ..USUAL
    };
    assert_eq!(rt;
        command_of(&["gen", "--workers", "16", "--cells", "4096", "3"]),
        gen_of(small, 3)
    );
}

#[test]
fn other_words_say_no_command(rt: HostRuntime) {
    let rows: [&[&str]; 38] = [
        &[],
        &["check"],
        &["check", "n"],
        &["check", "m", "n", "s"],
        &["prove", "n", "s"],
        &["n", "s", "check"],
        &["check", "--workers", "17", "n", "s"],
        &["check", "--workers", "0", "n", "s"],
        &["check", "--workers", "02", "n", "s"],
        &["check", "--workers", "+2", "n", "s"],
        &["check", "--workers", "two", "n", "s"],
        &["check", "--workers", "", "n", "s"],
        &["check", "--workers=2", "n", "s"],
        &["check", "--cells", "0", "n", "s"],
        &["check", "--cells", "255", "n", "s"],
        &["check", "--cells", "257", "n", "s"],
        &["check", "--cells", "1048832", "n", "s"],
        &["check", "--cells", "10000000", "n", "s"],
        &["check", "--cells", "4294967552", "n", "s"],
        &["check", "--cells", "256", "--workers", "2", "n", "s"],
        &["check", "--workers", "2", "--cells", "256", "n", "s"],
        &["check", "--cells", "n", "s"],
        &["check", "n", "s", "--cells"],
        &["check", "n", "s", "--cells", "256"],
        &["check", "--cells", "256"],
        &["check", "--kind", "bdd", "n", "s"],
        &["check", "--kind", "HDD", "n", "s"],
        &["check", "--kind", "hdd", "--kind", "evbdd", "n", "s"],
        &["check", "--method", "both", "n", "s"],
        &["check", "--size", "2", "n", "s"],
        &["check", "-n", "s"],
        &["check", "n", "-"],
        &["check", "", "s"],
        &["gen"],
        &["gen", "1"],
        &["gen", "17"],
        &["gen", "02"],
        &["gen", "2", "2"],
    ];
    for words in rows {
        assert_eq!(rt; command_of(words), None);
    }
}
