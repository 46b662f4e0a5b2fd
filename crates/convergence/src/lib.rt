// The convergence factor of the phase-in, and κ, the weights of the extrapolated years, equal to the definitions of the crate method
// (SPECIFICATION 5). Each function that takes `up` works a high with it, and a low without.
#![tactic(auto)]

ghost use Rattle.std.specs.Prelude.{◌≡◌, map, ℕ, ◌+◌, ◌*◌, ◌-◌, ◌≤◌, ◌<◌, get_or};
ghost use Rattle.fraction.specs.Rounding.{U, round_ℕ};
ghost use Rattle.method.specs.Units.{pair, end_of};
ghost use Rattle.method.specs.Table.{table};
ghost use Rattle.method.specs.Extrapolation.{cut, convergence_factor, κ_pairs, scaled, decay_pair, cut_to_unit, weights_from};
ghost use Rattle.rounding.specs.Pairs.{as_pair, PairAtMost};
ghost use Rattle.convergence.specs.Weights.{Factor, TableEntry, WeightsOf};

use rounding::{ONE, Pair, UNIT};

// 100% and 10%, in hundred-millionths.
const HUNDRED_PERCENT: u64 = 100_000_000;

const TEN_PERCENT: u64 = 10_000_000;

// K(h) of SPECIFICATION 5.2, h from 1 to 140, at index h - 1.
const K: [u64; 140] = [
    951625819, 861066649, 779125323, 704981746, 637893863, 577190236, 522263323, 472563396,
    427593043, 386902185, 350083574, 316768717, 286624188, 259348290, 234668037, 212336421,
    192129939, 173846358, 157302689, 142333359, 128788549, 116532698, 105443146, 95408904,
    86329546, 78114204, 70680654, 63954501, 57868425, 52361516, 47378659, 42869984, 38790365,
    35098974, 31758865, 28736609, 26001959, 23527546, 21288604, 19262725, 17429634, 15770985,
    14270178, 12912191, 11683433, 10571607, 9565586, 8655300, 7831639, 7086360, 6412004, 5801821,
    5249705, 4750129, 4298095, 3889077, 3518982, 3184107, 2881099, 2606926, 2358844, 2134370,
    1931258, 1747475, 1581180, 1430711, 1294561, 1171367, 1059897, 959034, 867770, 785191, 710470,
    642860, 581683, 526329, 476242, 430922, 389914, 352809, 319234, 288855, 261367, 236495, 213989,
    193625, 175199, 158527, 143441, 129791, 117439, 106264, 96151, 87001, 78722, 71230, 64452,
    58318, 52769, 47747, 43203, 39092, 35372, 32006, 28960, 26204, 23710, 21454, 19412, 17565,
    15893, 14381, 13012, 11774, 10653, 9640, 8722, 7892, 7141, 6461, 5846, 5290, 4787, 4331, 3919,
    3546, 3208, 2903, 2627, 2377, 2150, 1946, 1761, 1593, 1441, 1304, 1180, 1068, 966, 874,
];

// κ's pairs, for h from 1 to 140 at index h - 1: years 11 to 150, no market extrapolates more.
pub type Weights = [Pair; 140];

// ---- the factor

fn cut(r: i64) -> i64
    ensures { result ≡ cut r }
{
    r.clamp(-500, 500)
}

// 10,000,000 + (X - 10,000) × (500 - r)
pub fn factor(x: u64, r: i64) -> u64
    requires { (10_000 ≤ x) × (x ≤ 20_000) }
    ensures { (result ≡ convergence_factor x r) × Factor result }
{
    TEN_PERCENT + (x - 10_000) * (500 - cut(r)) as u64
}

// ---- κ at exactly 10%

// Each at every order the whole part of U × k(h), the exponential rule; K + 1 is the weight's other end. By value, because an index into
// the constant builds it anew at every read.
pub fn table() -> [u64; 140]
    ensures { (i : ℕ) → i < 140 → TableEntry i (get_or result i 0) }
{
    K
}

// Not by `map`: the closure's sum, K + 1, stays open.
fn tabled() -> Weights
    ensures { map as_pair result ≡ κ_pairs table }
{
    let lows = table();
    let mut weights = [ONE; 140];
    for (i, k) in lows.iter().enumerate() {
        weights[i] = Pair {
            low: *k,
            high: *k + 1,
        };
    }
    weights
}

// ---- κ at any other factor

// q = U × U / E at 10 × a
fn decay_end(a: u64, up: bool) -> u64
    requires { Factor a }
    ensures { (result ≡ end_of up (decay_pair a)) × (result ≤ U) }
{
    rounding::quotient(UNIT * UNIT, series::growth(10 * a, !up), up)
}

// M = (U - q) × 100,000,000 / a, at q's other end.
fn scale_end(a: u64, q: u64, up: bool) -> u64
    requires { Factor a × (q ≤ U) }
    ensures { (result ≡ round_ℕ up ((U - q) * 100_000_000) a) × (result ≤ 10 * U) }
{
    rounding::quotient((UNIT - q) * HUNDRED_PERCENT, a, up)
}

// a × b / U, each end rounded outward.
fn scaled(a: Pair, b: Pair) -> Pair
    requires { PairAtMost U a × PairAtMost (10 * U) b }
    ensures { as_pair result ≡ scaled (as_pair a) (as_pair b) }
{
    Pair {
        low: rounding::quotient(a.low * b.low, UNIT, false),
        high: rounding::quotient(a.high * b.high, UNIT, true),
    }
}

// The high is cut to U.
fn cut_to_unit(k: Pair) -> Pair
    ensures { as_pair result ≡ cut_to_unit (as_pair k) }
{
    Pair {
        low: k.low,
        high: k.high.min(UNIT),
    }
}

// k(h) = P(h - 1) × M / U, with P(0) = U and P(h) = P(h - 1) × q / U.
fn worked(q: Pair, m: Pair) -> Weights
    requires { PairAtMost U q × PairAtMost (10 * U) m }
    ensures { map as_pair result ≡ weights_from (as_pair q) (as_pair m) (pair U U) 140 }
{
    let mut weights = [ONE; 140];
    let mut p = ONE;
    for weight in &mut weights {
        *weight = cut_to_unit(scaled(p, m));
        p = scaled(p, q);
    }
    weights
}

// ---- κ

// For any factor of a sheet; each pair holds U × k(h) of every order.
pub fn weights_at(a: u64) -> Weights
    requires { Factor a }
    ensures { WeightsOf a result }
{
    if a == TEN_PERCENT {
        return tabled();
    }
    let q = Pair {
        low: decay_end(a, false),
        high: decay_end(a, true),
    };
    let m = Pair {
        low: scale_end(a, q.high, false),
        high: scale_end(a, q.low, true),
    };
    worked(q, m)
}
