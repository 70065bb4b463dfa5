// The guard over the output bytes of a write: fields go out through it, and unless it was marked finished its end zeroes the whole
// output, on every way out.

ghost use Rattle.std.specs.Prelude.{◌≡◌, ◌<◌, ◌≤◌, false, [], ◌∷◌, length, replicate, if◌then◌else◌, OnOk, IfErr};
ghost use Rattle.spec.specs.Denials as fault_of;
ghost use Rattle.spec.specs.Denials.{arises};
ghost use Rattle.spec.specs.Fields.{big_endian};
ghost use Rattle.denials.specs.Denials.{denial_of};

use denials::denial::{Denial, Part, Word};

// A slice and a count, since the caller brings the bytes. No fact of the type ties `used` to the bytes, since whoever sets the public fields would have to show it: a write beyond is denied.
#[derive(Debug)]
pub struct Output<'a> {
    pub bytes: &'a mut [u8],
    pub used: usize,
    pub finished: bool,
}

impl Drop for Output<'_> {
    fn drop(self)
        ensures { self.exit.0.now ≡ (if self.entry.finished then self.entry.bytes.now else replicate (length self.entry.bytes.now) 0) }
    {
        let Output {
            bytes,
            used: _,
            finished,
        } = self;
        if !finished {
            bytes.fill(0);
        }
    }
}

impl<'a> Output<'a> {
    ghost use Rattle.layout.specs.Writing.{Wrote};

    pub fn new(bytes: &'a mut [u8]) -> Output<'a>
        ensures bytes { result.bytes.now ≡ bytes.old }
        ensures lent { result.bytes.ghost_name ≡ bytes.entry.ghost_name }
        ensures used { result.used ≡ 0 }
        ensures open { result.finished ≡ false }
    {
        Output {
            bytes,
            used: 0,
            finished: false,
        }
    }

    // Writes one field, the high byte first.
    pub fn field(&mut self, value: u16) -> Result<(), Denial>
        ensures { Wrote result self.old self.new (big_endian (value ∷ [])) }
    {
        // The bytes that are left are tested, so that only a denial needs an end that saturates.
        if self.used > self.bytes.len() || self.bytes.len() - self.used < 2 {
            let end = self.used.saturating_add(2);
            return Err(Denial::new(Word::ShortOutput, end, Part::Writer));
        }
        let end = self.used + 2;
        self.bytes[self.used..end].copy_from_slice(&value.to_be_bytes());
        self.used = end;
        Ok(())
    }

    // Denies a write that begins beyond the bytes.
    pub(crate) fn check(&self) -> Result<(), Denial>
        ensures ok { OnOk result (self.now.used ≤ length self.now.bytes.now) }
        ensures err { IfErr result (λ d. (denial_of d ≡ arises fault_of.short_output self.now.used fault_of.writer) × (length self.now.bytes.now < self.now.used)) }
    {
        if self.used > self.bytes.len() {
            return Err(Denial::new(Word::ShortOutput, self.used, Part::Writer));
        }
        Ok(())
    }

    // Writes fields in a row.
    pub fn fields(&mut self, values: &[u16]) -> Result<(), Denial>
        ensures { Wrote result self.old self.new (big_endian values.now) }
    {
        self.check()?;
        for value in values {
            self.field(*value)?;
        }
        Ok(())
    }
}
