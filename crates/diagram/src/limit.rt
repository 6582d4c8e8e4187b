use record_store::StoreFull;
use word_base::Overflow;

/// Why an operation gave up.
#[derive(Clone, Copy, Debug, PartialEq, Eq)]
pub enum Limit {
    /// A weight left its range.
    Overflow,
    /// The store of nodes is full.
    Full,
}

impl From<Overflow> for Limit {
    ghost use Rattle.std.specs.Prelude.{◌≡◌};
    ghost use Rattle.diagram.specs.declared.limit.Limit.TheVariants as limit;

    ghost from_gives = { λ _ e. e ≡ limit.Overflow };

    fn from(_: Overflow) -> Limit {
        Limit::Overflow
    }
}

impl From<StoreFull> for Limit {
    ghost use Rattle.std.specs.Prelude.{◌≡◌};
    ghost use Rattle.diagram.specs.declared.limit.Limit.TheVariants as limit;

    ghost from_gives = { λ _ e. e ≡ limit.Full };

    fn from(_: StoreFull) -> Limit {
        Limit::Full
    }
}
