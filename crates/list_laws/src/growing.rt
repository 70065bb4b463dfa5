// How standing rules and groups grow by one more rule.

ghost use Rattle.list_laws.specs.Growing.{SinglesGrow, PairsGrow, CellsGrow, GroupsGrow, LowestTells};

pub fn singles_grow()
    ensures { SinglesGrow }
{}

pub fn pairs_grow()
    ensures { PairsGrow }
{}

pub fn cells_grow()
    ensures { CellsGrow }
{}

pub fn groups_grow()
    ensures { GroupsGrow }
{}

// In a group the lowest glyph names a set, and set order is the order of lowest glyphs.
pub fn lowest_tells()
    ensures { LowestTells }
{}
