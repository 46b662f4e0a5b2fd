// A gap between two quotes. Apart from lib.rt, whose clauses cite the view of this type.
ghost use Rattle.gap.specs.Fits.{Fits};

use rounding::Pair;

#[derive(Clone, Copy)]
pub struct Gap {
    pub rate: i64,
    pub years: u64,
    pub annuity: Pair,
    pub start: Pair,
    pub ghost fits: { Fits rate years annuity start },
}
