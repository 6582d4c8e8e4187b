use checks::Method;
use word_base::KindName;

/// How a check is decided.
#[derive(Clone, Copy, Debug, PartialEq, Eq)]
pub struct Settings {
    /// The kind of diagram.
    pub kind: KindName,
    pub method: Method,
    /// How many threads build the diagrams.
    pub workers: u32,
    /// How many nodes the table of a check has room for.
    pub cells: u32,
}

/// What the words of a command ask for.
#[derive(Clone, Copy, Debug, PartialEq, Eq)]
pub enum Command<'a> {
    /// The checks of a specification over a netlist, each a file by its name.
    Check {
        settings: Settings,
        netlist: &'a str,
        spec: &'a str,
    },
    /// The check of a multiplier that is made, of two words of this size.
    Gen {
        settings: Settings,
        size: u32,
    },
}
