//! Laws of the flips that put a piece into a mesh: of the edges that cross its way, one can always be flipped.
//! There is no program here: it speaks of places alone.
#![tactic(auto)]

ghost use Rattle.crossing_law.specs.Runs.{RunLaw, TieLaw};

/// Of the edges at one corner that cross a line, one can be flipped: that which goes farthest beyond the two
/// neighbours at both ends of the run, where the run is maximal and no end of a crossing edge lies farther from
/// the line than its corner. (With a shorter run there may be none.)
pub fn run_law()
    ensures { RunLaw }
{}

/// Where of equally far corners the last one along the line is taken, the neighbour after the run lies nearer
/// to the line; where the first one is, the neighbour before it does.
pub fn tie_law()
    ensures { TieLaw }
{}
