// Minimal triangulations: the theorems, grouped by subject. Each clause is one statement of specs/.
#![tactic(auto)]

ghost use Rattle.graph.specs.Theorems.{ShortWalk, LinkWalk};
ghost use Rattle.graph.specs.Theorems.{StepMade, StepFrees, StepSpares, FreeStays};
ghost use Rattle.graph.specs.Theorems.{RunMade, RunUnique, RunFrees, RunLeast, RunMinimal, RunSandwiched, MinimalLaid};
ghost use Rattle.graph.specs.Theorems.{ChordalFree, ChordalPerfect, EliminationPerfect, PerfectUnfilled};
ghost use Rattle.graph.specs.Theorems.{CutLater, BlockLater, PairsGrow, PairsTell, PairsSum, PairsNone};
ghost use Rattle.graph.specs.Small.{SmallNetworks};

// Shortfalls: by parts and borders as by walks, and linkedness decided.
pub fn shortfalls()
    ensures walks { ShortWalk }
    ensures links { LinkWalk }
{}

// A step of laying: that there is one, what it frees, spares and keeps.
pub fn laying_step()
    ensures made { StepMade }
    ensures frees { StepFrees }
    ensures spares { StepSpares }
    ensures stays { FreeStays }
{}

// A run of steps: that there is one and one only, what it frees, what bounds it, and which triangulations it reaches.
pub fn laying_run()
    ensures made { RunMade }
    ensures unique { RunUnique }
    ensures frees { RunFrees }
    ensures least { RunLeast }
    ensures minimal { RunMinimal }
    ensures sandwiched { RunSandwiched }
    ensures reached { MinimalLaid }
{}

// Chordal graphs: by free vertices, and by perfect orders.
pub fn chordality()
    ensures free { ChordalFree }
    ensures ordered { ChordalPerfect }
{}

// Elimination along an order: what it ends in, and when it fills nothing.
pub fn elimination()
    ensures perfect { EliminationPerfect }
    ensures unfilled { PerfectUnfilled }
{}

// Minimal separators and maximal cliques, read off a perfect order.
pub fn separators_and_blocks()
    ensures separators { CutLater }
    ensures blocks { BlockLater }
{}

// The number of adjacent pairs: it grows with the graph, tells graphs inside one another apart, adds up, and is 0 of no edge.
pub fn pair_counts()
    ensures grow { PairsGrow }
    ensures tell { PairsTell }
    ensures sum { PairsSum }
    ensures none { PairsNone }
{}

// Small networks, worked out: a lone vertex, rings of four, five and six, and a star.
pub fn small_networks()
    ensures { SmallNetworks }
{}
