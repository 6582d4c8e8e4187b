ghost use Rattle.table_rule.specs.Laws.{RuleBegins, StepsKeepTheRule, RuleAlwaysHolds, PassesKnowOnce, PassesMakeOnce, WholeIsAlone, WholePassesOwnAll, BucketsAreLeft};
ghost use Rattle.table_rule.specs.Stores.{PassesAreSound, PassesJoin};

/// The rule holds of a table that was just made, and each atomic step keeps it. So it holds between any two steps,
/// whatever the passes are and in whatever order their steps come.
pub fn rule_laws()
    ensures begins { RuleBegins }
    ensures steps { StepsKeepTheRule }
    ensures always { RuleAlwaysHolds }
{}

/// A pass knows no body under two ids, and makes no id twice.
pub fn pass_laws()
    ensures know_once { PassesKnowOnce }
    ensures make_once { PassesMakeOnce }
{}

/// A pass with all tokens, which was never forked, is the only one that is alive, and owns each cell of each chunk that it
/// has seen taken.
pub fn whole_pass_laws()
    ensures alone { WholeIsAlone }
    ensures owns_all { WholePassesOwnAll }
{}

/// The buckets are never all taken, so a path ends.
pub fn bucket_laws()
    ensures left { BucketsAreLeft }
{}

/// A pass is a sound store, and two that meet are one store that knows what both knew.
pub fn store_laws()
    ensures sound { PassesAreSound }
    ensures join { PassesJoin }
{}
