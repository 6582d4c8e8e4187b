ghost use Rattle.tables.specs.Laws.{ConstantsStand, ConstantsDiffer, LeavesAreConstants, JoinHasParts, PartsUndoJoin, JoinsSkip, PartsAreCanonical, JoinOfParts, CanonicalTreesAgree, JoinsAreCanonical, CanonicalStands, NodesAreAdded, NodesAreListed, NodesAreDistinct, ListedNodesAreDistinct, ContentOfParts, FitsParts, ScaledTreesStand, FactorsGoThrough, MultiplesKeepNodes, FactorsFit, FactorsAreTaken, FactorIsZero, ProductsOfMultiples, RaisedTablesAreSums, ShiftedTreesStand, SummandsGoThrough, RaisedTablesKeepNodes, SummandsAreTaken, SumsOfRaisedTables};
ghost use Rattle.word_base.specs.declared.kind_name.KindName.TheVariants.{Evbdd, Hdd, KStarBmd, StarBmd};

/// The laws of hybrid diagrams (Clarke, Fujita and Zhao 1995), at Shannon, positive and negative Davio.
pub fn hdd_laws()
    ensures constants_stand { ConstantsStand Hdd }
    ensures constants_differ { ConstantsDiffer Hdd }
    ensures leaves_are_constants { LeavesAreConstants Hdd }
    ensures join_has_parts { JoinHasParts Hdd }
    ensures parts_undo_join { PartsUndoJoin Hdd }
    ensures joins_skip { JoinsSkip Hdd }
    ensures parts_are_canonical { PartsAreCanonical Hdd }
    ensures join_of_parts { JoinOfParts Hdd }
{}

/// Two canonical hybrid diagrams are equal exactly if their tables are.
pub fn hdd_is_canonical()
    ensures trees_agree { CanonicalTreesAgree Hdd }
    ensures joins_are_canonical { JoinsAreCanonical Hdd }
    ensures canonical_stands { CanonicalStands Hdd }
{}

/// The laws of edge-valued binary decision diagrams (Lai and Sastry 1992).
pub fn evbdd_laws()
    ensures constants_stand { ConstantsStand Evbdd }
    ensures constants_differ { ConstantsDiffer Evbdd }
    ensures leaves_are_constants { LeavesAreConstants Evbdd }
    ensures join_has_parts { JoinHasParts Evbdd }
    ensures parts_undo_join { PartsUndoJoin Evbdd }
    ensures joins_skip { JoinsSkip Evbdd }
    ensures parts_are_canonical { PartsAreCanonical Evbdd }
    ensures join_of_parts { JoinOfParts Evbdd }
{}

/// Two canonical edge-valued diagrams are equal exactly if their tables are.
pub fn evbdd_is_canonical()
    ensures trees_agree { CanonicalTreesAgree Evbdd }
    ensures joins_are_canonical { JoinsAreCanonical Evbdd }
    ensures canonical_stands { CanonicalStands Evbdd }
{}

/// The laws of multiplicative binary moment diagrams, *BMDs (Bryant and Chen 1995), at positive Davio.
pub fn star_bmd_laws()
    ensures constants_stand { ConstantsStand StarBmd }
    ensures constants_differ { ConstantsDiffer StarBmd }
    ensures leaves_are_constants { LeavesAreConstants StarBmd }
    ensures join_has_parts { JoinHasParts StarBmd }
    ensures parts_undo_join { PartsUndoJoin StarBmd }
    ensures joins_skip { JoinsSkip StarBmd }
    ensures parts_are_canonical { PartsAreCanonical StarBmd }
    ensures join_of_parts { JoinOfParts StarBmd }
{}

/// Two canonical *BMDs are equal exactly if their tables are.
pub fn star_bmd_is_canonical()
    ensures trees_agree { CanonicalTreesAgree StarBmd }
    ensures joins_are_canonical { JoinsAreCanonical StarBmd }
    ensures canonical_stands { CanonicalStands StarBmd }
{}

/// The laws of Kronecker multiplicative binary moment diagrams, K*BMDs (Drechsler, Becker and Ruppertz 1996), at
/// Shannon, positive and negative Davio.
pub fn k_star_bmd_laws()
    ensures constants_stand { ConstantsStand KStarBmd }
    ensures constants_differ { ConstantsDiffer KStarBmd }
    ensures leaves_are_constants { LeavesAreConstants KStarBmd }
    ensures join_has_parts { JoinHasParts KStarBmd }
    ensures parts_undo_join { PartsUndoJoin KStarBmd }
    ensures joins_skip { JoinsSkip KStarBmd }
    ensures parts_are_canonical { PartsAreCanonical KStarBmd }
    ensures join_of_parts { JoinOfParts KStarBmd }
{}

/// Two canonical K*BMDs are equal exactly if their tables are.
pub fn k_star_bmd_is_canonical()
    ensures trees_agree { CanonicalTreesAgree KStarBmd }
    ensures joins_are_canonical { JoinsAreCanonical KStarBmd }
    ensures canonical_stands { CanonicalStands KStarBmd }
{}

/// The list of the nodes of a shape, whatever the kind: it has each of them, once.
pub fn node_laws()
    ensures nodes_are_added { NodesAreAdded }
    ensures nodes_are_listed { NodesAreListed }
    ensures nodes_are_distinct { NodesAreDistinct }
    ensures listed_nodes_are_distinct { ListedNodesAreDistinct }
{}

/// The content of a table is the greatest common divisor of the contents of its two parts.
pub fn content_laws()
    ensures content_of_parts { ContentOfParts }
{}

/// The parts of a table that fits, for each kind.
pub fn fits_laws()
    ensures evbdd { FitsParts Evbdd }
    ensures star_bmd { FitsParts StarBmd }
    ensures hdd { FitsParts Hdd }
    ensures k_star_bmd { FitsParts KStarBmd }
{}

/// Multiplying a table by a number touches the root of its *BMD and its K*BMD alone.
pub fn factor_laws()
    ensures scaled_trees_stand { ScaledTreesStand }
    ensures factors_go_through { FactorsGoThrough }
    ensures multiples_keep_nodes { MultiplesKeepNodes }
    ensures factors_fit { FactorsFit }
    ensures factors_are_taken { FactorsAreTaken }
    ensures factor_is_zero { FactorIsZero }
    ensures products_of_multiples { ProductsOfMultiples }
{}

/// Adding a number to each entry of a table touches the root of its EVBDD and its K*BMD alone.
pub fn summand_laws()
    ensures raised_tables_are_sums { RaisedTablesAreSums }
    ensures shifted_trees_stand { ShiftedTreesStand }
    ensures summands_go_through { SummandsGoThrough }
    ensures raised_tables_keep_nodes { RaisedTablesKeepNodes }
    ensures summands_are_taken { SummandsAreTaken }
    ensures sums_of_raised_tables { SumsOfRaisedTables }
{}
