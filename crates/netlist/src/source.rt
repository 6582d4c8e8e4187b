ghost use Rattle.std.specs.Prelude.{◌≡◌, ◌^◌, ◌<◌};
ghost use Rattle.netlist.specs.Inside.Source.{source_net};

/// What a name belongs to, counted from 0 among its own.
#[derive(Clone, Copy, Debug, PartialEq, Eq)]
pub(crate) enum Source {
    Input(u32),
    Gate(u32),
}

impl Source {
    /// The number of the net, where there are so many inputs.
    pub(crate) fn net(self, inputs: u32) -> u32
        requires { source_net inputs self < 2 ^ 32 }
        ensures { result ≡ source_net inputs self }
    {
        match self {
            Source::Input(place) => place,
            Source::Gate(place) => inputs + place,
        }
    }
}
