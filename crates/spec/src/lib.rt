// The definitions that everything else is proved against. Each function below carries examples of them, which compute.
#![tactic(auto)]

ghost use Rattle.spec.specs.Settings.{Settings, InvitingMistakes};
ghost use Rattle.spec.specs.EntryExamples.{Faults, Fills, Unknowns, Openings};
ghost use Rattle.spec.specs.FormatExamples.{Coverages, ClassDefs, Devices, BuildOrder, Marks, Ceilings};
ghost use Rattle.spec.specs.ReadingExamples.{LookupFaults, SingleFaults, DeviceFaults, GlyphPairFaults, ClassPairFaults};
ghost use Rattle.spec.specs.StoreExamples.{StoreAdds};
ghost use Rattle.spec.specs.RunExamples.{WholeRuns};
ghost use Rattle.spec.specs.BuildExamples.{Sections, SingleSubtables, GlyphPairs, ClassPairs};

// the marked settings, in one table
pub fn marked_settings()
    ensures { Settings }
{}

// three readings that are inviting and wrong
pub fn inviting_mistakes()
    ensures { InvitingMistakes }
{}

// which place of a list offends
pub fn faults_of_entries()
    ensures { Faults }
{}

// when places run out
pub fn full_tables()
    ensures { Fills }
{}

// which absent entry is told
pub fn unknown_entries()
    ensures { Unknowns }
{}

// sections, flags, and which denial wins
pub fn openings()
    ensures { Openings }
{}

// sections stand in their order
pub fn two_sections()
    ensures { Sections }
{}

// which glyphs share a single subtable, and in which order subtables stand
pub fn single_subtables()
    ensures { SingleSubtables }
{}

// glyph-pair subtables by value formats
pub fn glyph_pairs()
    ensures { GlyphPairs }
{}

// class numbers, cells without a rule, unions of formats
pub fn class_pairs()
    ensures { ClassPairs }
{}

// coverage at the bounds of its formats
pub fn coverages()
    ensures { Coverages }
{}

// class definitions at the bounds of their formats
pub fn class_defs()
    ensures { ClassDefs }
{}

// a device, deltas and an empty delta list beside metrics
pub fn devices_and_deltas()
    ensures { Devices }
{}

// the order in which delta lists go to a store
pub fn build_order()
    ensures { BuildOrder }
{}

// a mark filtering set; reading the table of one pair
pub fn mark_sets()
    ensures { Marks }
{}

// too many, too far and too short
pub fn ceilings()
    ensures { Ceilings }
{}

// faults of a lookup
pub fn lookup_faults()
    ensures { LookupFaults }
{}

// faults of single subtables
pub fn single_faults()
    ensures { SingleFaults }
{}

// faults of devices, and their widths
pub fn device_faults()
    ensures { DeviceFaults }
{}

// faults of glyph-pair subtables
pub fn glyph_pair_faults()
    ensures { GlyphPairFaults }
{}

// faults of class subtables
pub fn class_pair_faults()
    ensures { ClassPairFaults }
{}

// what the store models answer
pub fn store_adds()
    ensures { StoreAdds }
{}

// an accepted build ends a run; a denied one does not
pub fn whole_runs()
    ensures { WholeRuns }
{}
