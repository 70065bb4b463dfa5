// What is proved of the definitions alone, with no program: one function a theorem, which its contract names.
#![tactic(auto)]

pub mod whole;

ghost use Rattle.spec.specs.Build.{TogetherIsEquivalence};
ghost use Rattle.laws.specs.Tables.{FieldsStand, FieldReads, PartsStand, OffsetsLead};
ghost use Rattle.laws.specs.Parts.{DeviceReads, VariationIndexReads, CoverageReads, ClassReads, RecordReads, PairSetReads};
ghost use Rattle.laws.specs.Subtables.{SingleReads, GlyphPairsRead, ClassPairsRead, LookupReads, SingleLookupReads, PairLookupReads};

// Fields and tables stand where their bytes do.

pub fn fields_stand()
    ensures { FieldsStand }
{}

pub fn field_reads()
    ensures { FieldReads }
{}

pub fn parts_stand()
    ensures { PartsStand }
{}

pub fn offsets_lead()
    ensures { OffsetsLead }
{}

// Each part of a subtable reads back.

pub fn device_reads()
    ensures { DeviceReads }
{}

pub fn variation_index_reads()
    ensures { VariationIndexReads }
{}

pub fn coverage_reads()
    ensures { CoverageReads }
{}

pub fn class_reads()
    ensures { ClassReads }
{}

pub fn record_reads()
    ensures { RecordReads }
{}

pub fn pair_set_reads()
    ensures { PairSetReads }
{}

// Subtables and lookups read as they are described.

pub fn single_reads()
    ensures { SingleReads }
{}

pub fn glyph_pairs_read()
    ensures { GlyphPairsRead }
{}

pub fn class_pairs_read()
    ensures { ClassPairsRead }
{}

// O is what a subtable is, A what it answers.
pub fn lookup_reads<O, A>()
    ensures { LookupReads O A }
{}

pub fn single_lookup_reads()
    ensures { SingleLookupReads }
{}

pub fn pair_lookup_reads()
    ensures { PairLookupReads }
{}

// The glyphs of a section fall into SinglePos subtables.

pub fn together_is_equivalence()
    ensures { TogetherIsEquivalence }
{}
