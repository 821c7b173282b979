ghost use Rattle.pg_parse_expr.specs.Laws.{AtMostOneTree, EachTreeIsSpelled, EachTreeIsWithin};

/// A list of tokens has at most one tree.
pub fn at_most_one_tree()
    ensures { AtMostOneTree }
{}

/// Every tree within the limits has a spelling: one of at most 64 nodes on a path, whose literals and
/// names can be written.
pub fn each_tree_is_spelled()
    ensures { EachTreeIsSpelled }
{}

/// A tree that is read is within these limits.
pub fn each_tree_is_within()
    ensures { EachTreeIsWithin }
{}
