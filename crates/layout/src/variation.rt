// Variation index tables: the id under which a store holds deltas, in the place of a device table.

ghost use Rattle.std.specs.Prelude.{◌≡◌, pos, None};
ghost use Rattle.spec.specs.Devices.{variation_fields};
ghost use Rattle.spec.specs.Meaning.{beside};

use crate::beside::{VARIATION_INDEX, read_beside};
use crate::output::Output;
use crate::write::{FontRead, FontWrite};
use denials::denial::Denial;

#[derive(Clone, Copy, Debug, PartialEq, Eq)]
pub struct VariationIndex {
    pub id: u32,
}

impl FontWrite for VariationIndex {
    ghost encoded = { λ v. variation_fields v.id };

    ghost fault = { λ _. None };

    fn size(&self) -> usize {
        6
    }

    fn write_into(&self, out: &mut Output<'_>) -> Result<(), Denial> {
        let outer = (self.id >> 16) as u16;
        let inner = (self.id & 0xFFFF) as u16;
        out.fields(&[outer, inner, VARIATION_INDEX])
    }
}

impl FontRead for VariationIndex {
    type Question = u16;

    type Answer = (i8, u32);

    ghost means = { λ bs at ppem. beside bs ppem at };

    ghost answers = { λ v _. (pos 0, v.id) };

    fn reads_back(&self) {}

    fn read(bytes: &[u8], at: u32, ppem: u16) -> Result<(i8, u32), usize> {
        read_beside(bytes, ppem, at)
    }
}
