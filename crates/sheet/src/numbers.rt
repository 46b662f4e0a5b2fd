// A sheet's numbers, in the ranges that grounds 3 and 4 leave them. Apart from lib.rt, whose clauses cite the view of this type.
ghost use Rattle.method.specs.Ranges.{NumbersInRange};
ghost use Rattle.sheet.specs.Markets.{numbers_by};

use crate::Profile;

// The first rates and volumes, as many as the market has. No adjustment where its record does not stand.
#[derive(Clone, Copy)]
pub struct Numbers {
    pub profile: Profile,
    pub month: u64,
    pub rates: [i16; 17],
    pub volumes: [u64; 5],
    pub ultimate: u64,
    pub limit: u64,
    pub phase_in: u64,
    pub adjustment: Option<i64>,
    pub ghost in_range: { NumbersInRange (numbers_by profile month rates volumes ultimate limit phase_in adjustment) },
}
