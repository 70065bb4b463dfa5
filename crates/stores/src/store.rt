// What a variation store is: lists of deltas are added, and each is held under an id.

ghost use Rattle.spec.specs.Stores.{Store, Laws, Added, Asked};
ghost use Rattle.storage.specs.Deltas.{deltas_of};
ghost use Rattle.stores.specs.Answers.{told};

use denials::denial::Denial;
use storage::delta::Delta;

pub trait VariationStore {
    ghost store: { Store Self };

    ghost lawful: { Laws store };

    // Adds a list and answers an id that holds it.
    fn add(&mut self, list: &[Delta]) -> Result<u32, Denial>
        ensures { Added store self.old self.new (deltas_of list.now) (told result) };

    // The delta that an id has at a region.
    fn delta(&self, id: u32, region: u16) -> Result<i16, Denial>
        ensures { Asked store self.now id region (told result) };
}
