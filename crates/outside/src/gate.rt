/// Is told of the workers of a parallel build. A gate has no effect on any answer.
pub trait Gate {
    /// The worker starts.
    fn start(&self, worker: u32);

    /// The worker has taken a place, and goes on to build it.
    fn took(&self, worker: u32);
}

/// Lets every worker pass at once.
#[derive(Clone, Copy, Debug, Default, PartialEq, Eq)]
pub struct OpenGate;

impl Gate for OpenGate {
    fn start(&self, _worker: u32) {}

    fn took(&self, _worker: u32) {}
}
