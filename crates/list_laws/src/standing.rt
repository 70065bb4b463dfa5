// That each rule stands once in the subtables of its section, in the stated order, with its sets kept apart.

ghost use Rattle.list_laws.specs.Standing.{AllSinglesStand, AllPairsStandOnce, AllSetsApart, AllPairsStand, AllSinglesInOrder, AllPairsInOrder};

// each glyph with a rule stands in one subtable, once
pub fn singles_stand()
    ensures { AllSinglesStand }
{}

// each glyph pair with a rule stands in one pair set, once
pub fn pairs_stand_once()
    ensures { AllPairsStandOnce }
{}

// in class subtables different sets of one side share no glyph and no class number
pub fn sets_apart()
    ensures { AllSetsApart }
{}

// each glyph pair once, and sets apart
pub fn pairs_stand()
    ensures { AllPairsStand }
{}

// single subtables by falling glyph count, then rising first glyph; glyphs rise
pub fn singles_in_order()
    ensures { AllSinglesInOrder }
{}

// glyph pair subtables by rising value formats, ahead of groups; pairs and cells rise
pub fn pairs_in_order()
    ensures { AllPairsInOrder }
{}
