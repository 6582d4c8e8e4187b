ghost use Rattle.circuits.specs.Laws.{AcceptedByOrder, ConeIsComplete, ConeIsReached, OneValuation, PolynomialsAreTruth, TopologicalIsComplete};

/// An accepted circuit has one valuation at given bits of its inputs: what each gate has after as many
/// rounds as there are gates.
pub fn one_valuation()
    ensures { OneValuation }
{}

/// The polynomial of a gate's word is its truth function, at each list of bits that is not empty.
pub fn polynomials_are_truth()
    ensures { PolynomialsAreTruth }
{}

/// The topological order of an accepted circuit has each gate once, after all that the gate reads.
pub fn topological_is_complete()
    ensures { TopologicalIsComplete }
{}

/// A circuit is accepted exactly where its outputs are nets and its topological order has as many nets as
/// there are gates.
pub fn accepted_by_order()
    ensures { AcceptedByOrder }
{}

/// The cone of some nets has the nets themselves and all that they reach along gate inputs.
pub fn cone_is_reached()
    ensures { ConeIsReached }
{}

/// The gates of a cone in an accepted circuit are each listed once, after all that the gate reads.
pub fn cone_is_complete()
    ensures { ConeIsComplete }
{}
