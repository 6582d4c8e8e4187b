use circuits::GateWord;

/// A gate by names.
#[derive(Drop)]
pub(crate) struct DraftGate {
    /// The number of the call that added it.
    pub(crate) call: u32,
    pub(crate) name: String,
    pub(crate) word: GateWord,
    pub(crate) inputs: Vec<String>,
}

/// An output by its name.
#[derive(Drop)]
pub(crate) struct DraftOutput {
    /// The number of the first call that named it.
    pub(crate) call: u32,
    pub(crate) name: String,
}
