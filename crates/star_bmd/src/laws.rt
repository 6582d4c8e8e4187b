ghost use Rattle.star_bmd.specs.Laws.{NodesAreReduced, ReducedKeepsContent};

/// The weights of a node have no common divisor, so that the content of an edge is its weight's magnitude.
pub fn content_laws()
    ensures nodes_are_reduced { NodesAreReduced }
    ensures reduced_keeps_content { ReducedKeepsContent }
{}
