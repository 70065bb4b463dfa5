// Device tables: values for pixel sizes, packed into words as narrow as they allow.

ghost use Rattle.std.specs.Prelude.{◌≡◌, ℕ, ◌+◌, ◌-◌, ◌^◌, ◌<◌, List, length, None, Ok};
ghost use Rattle.spec.specs.Fields.{big_endian, Stand};
ghost use Rattle.spec.specs.Entries.{value_at};
ghost use Rattle.spec.specs.Devices.{device_fields};
ghost use Rattle.spec.specs.Meaning.{beside, no_id};
ghost use Rattle.layout.specs.Writing.{Puts, room};
ghost use Rattle.layout.specs.Faults.{Allows, device_fault};
ghost use Rattle.layout.specs.Described.{described};

use crate::beside::read_beside;
use crate::delta_words::{delta_format, write_words};
use crate::output::Output;
use crate::write::{FontRead, FontWrite};
use denials::denial::{Denial, Part, Word};

// Values for the pixel sizes from the first on, one a size.
#[derive(Clone, Copy, Debug, PartialEq, Eq)]
pub struct Device<'a> {
    pub first_size: u16,
    pub values: &'a [i8],
}

impl Device<'_> {
    // The last size, or why the device cannot be written: it has no value, or a size above 65,535.
    fn last_size(&self) -> Result<u16, Denial>
        ensures { Allows result (device_fault self.now.first_size (length self.now.values.now)) (self.now.first_size + length self.now.values.now - 1) }
    {
        if self.values.is_empty() {
            return Err(Denial::new(Word::BadDevice, 0, Part::Writer));
        }
        let last = usize::from(self.first_size) + (self.values.len() - 1);
        u16::try_from(last).map_err(|_| Denial::new(Word::BadDevice, 1, Part::Writer))
    }
}

impl FontWrite for Device<'_> {
    ghost encoded = { λ d. device_fields (described d) };

    ghost fault = { λ d. device_fault d.first_size (length d.values.now) };

    fn size(&self) -> usize
        ensures value { result ≡ room (device_fault self.now.first_size (length self.now.values.now)) (device_fields (described self.now)) }
        ensures bound { result < 2 ^ 32 }
    {
        let Ok(_) = self.last_size() else {
            return 0;
        };
        let per_word = delta_format(self.values).per_word() as usize;
        6 + 2 * self.values.len().div_ceil(per_word)
    }

    fn write_into(&self, out: &mut Output<'_>) -> Result<(), Denial>
        ensures { Puts (device_fault self.now.first_size (length self.now.values.now)) result out.old out.new (big_endian (device_fields (described self.now))) }
    {
        let last = self.last_size()?;
        let format = delta_format(self.values);
        out.fields(&[self.first_size, last, format.number()])?;
        write_words(out, self.values, format)
    }
}

impl FontRead for Device<'_> {
    type Question = u16;

    type Answer = (i8, u32);

    ghost means = { λ bs at ppem. beside bs ppem at };

    ghost answers = { λ d ppem. (value_at (described d) ppem, no_id) };

    fn reads_back(&self)
        ensures { (bs : List ℕ) (at q : ℕ) → device_fault self.now.first_size (length self.now.values.now) ≡ None → Stand bs at (device_fields (described self.now)) → beside bs q at ≡ Ok (value_at (described self.now) q, no_id) }
    {
        // Called for its clause, that the values are in range.
        let _ = delta_format(self.values);
    }

    fn read(bytes: &[u8], at: u32, ppem: u16) -> Result<(i8, u32), usize>
        ensures { result ≡ beside bytes.now ppem at }
    {
        read_beside(bytes, ppem, at)
    }
}
