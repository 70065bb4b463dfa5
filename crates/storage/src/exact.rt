// Values whose test of equality is exact: what an interner compares.

ghost use Rattle.std.specs.Prelude.{◌≡◌, Decides};
ghost use Rattle.std.proofs.Common.{rules};

use crate::delta::Delta;

pub trait Exact: Eq + Copy {
    ghost decides: { (x y : Self) → Decides (Self.eq x y) (x ≡ y) };
}

impl Exact for u8 {
    ghost decides = { Prim.search rules };
}

impl Exact for u16 {
    ghost decides = { Prim.search rules };
}

impl Exact for i8 {
    ghost decides = { Prim.search rules };
}

impl Exact for Delta {
    ghost decides = { Prim.search rules };
}

impl Exact for () {
    ghost decides = { Prim.search rules };
}
