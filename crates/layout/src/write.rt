// What writes itself as 16-bit fields, and what is read back from them.

ghost use Rattle.std.specs.Prelude.{◌≡◌, ℕ, ◌*◌, ◌^◌, ◌<◌, List, length, None, Ok, Option, Result, MatchResult};
ghost use Rattle.spec.specs.Fields.{big_endian, Stand};
ghost use Rattle.spec.specs.Denials.{Denial as denial};
ghost use Rattle.layout.specs.Writing.{Puts, room, Written, Answered};

use crate::output::Output;
use denials::denial::{Denial, Part, Word};

pub trait FontWrite {
    ghost encoded: { Self → List ℕ };

    // why it cannot be written into any output, if it cannot
    ghost fault: { Self → Option denial };

    // The bytes that it takes, 0 if it cannot be written.
    fn size(&self) -> usize
        ensures value { result ≡ room (fault self.now) (encoded self.now) }
        ensures bound { result < 2 ^ 32 };

    fn write_into(&self, out: &mut Output<'_>) -> Result<(), Denial>
        ensures { Puts (fault self.now) result out.old out.new (big_endian (encoded self.now)) };
}

pub trait FontRead: FontWrite {
    type Question: Copy;

    type Answer: Copy;

    // what OpenType says that any bytes mean at a position
    ghost means: { List ℕ → ℕ → Self.Question → Result Self.Answer ℕ };

    // what the part says
    ghost answers: { Self → Self.Question → Self.Answer };

    // Wherever its fields stand, whatever lies before and behind them, they mean what the part says.
    fn reads_back(&self)
        ensures { (bs : List ℕ) (at : ℕ) (q : Self.Question) → Self.FontWrite.fault self.now ≡ None → Stand bs at (Self.FontWrite.encoded self.now) → means bs at q ≡ Ok (answers self.now q) };

    // The meaning of any bytes, or the position of the first fault.
    fn read(bytes: &[u8], at: u32, question: Self::Question) -> Result<Self::Answer, usize>
        ensures { result ≡ means bytes.now at question };
}

// Writes a part over the front of the bytes, and tells how many it took. Denied, all bytes are zero.
pub fn write_part<T: FontWrite>(part: &T, bytes: &mut [u8]) -> Result<usize, Denial>
    ensures { Written (T.FontWrite.fault part.now) result bytes.old bytes.new (big_endian (T.FontWrite.encoded part.now)) }
{
    let mut out = Output::new(bytes);
    part.write_into(&mut out)?;
    out.finished = true;
    Ok(out.used)
}

// Writes a part and asks what was written: the answer is what the part says.
pub fn write_and_read<T: FontRead>(
    part: &T,
    bytes: &mut [u8],
    question: T::Question,
) -> Result<T::Answer, Denial>
    ensures { Answered (T.FontWrite.fault part.now) result bytes.old (big_endian (T.FontWrite.encoded part.now)) (T.FontRead.answers part.now question) }
{
    write_part(part, bytes)?;
    part.reads_back();
    T::read(bytes, 0, question).map_err(|at| Denial::new(Word::BrokenTable, at, Part::Reader))
}
