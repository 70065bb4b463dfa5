// That the subtables of a build answer as the rule list does, proved of the definitions.
#![tactic(auto)]

pub mod growing;
pub mod standing;

ghost use Rattle.list_laws.specs.Answering.{SinglesAnswer, PairsAnswer};

// single lookups
pub fn singles_answer()
    ensures { SinglesAnswer }
{}

// pair lookups
pub fn pairs_answer()
    ensures { PairsAnswer }
{}
