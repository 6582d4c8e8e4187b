use settings::Settings;

/// Where the netlist and the specification come from.
#[derive(Clone, Copy)]
pub(crate) enum Source<'a> {
    /// Two files, by their names.
    Files { netlist: &'a str, spec: &'a str },
    /// The multiplier of two words of this size, which is made.
    Multiplier { size: u32 },
}

/// What the words of a command ask for.
#[derive(Clone, Copy)]
pub(crate) struct Asked<'a> {
    pub settings: Settings,
    pub source: Source<'a>,
}
