// Dematrixing (ISO/IEC 13818-3, 2.5.3.2.1.1) and inverse weighting (2.5.3.2.5), by configuration, procedure and tc_allocation.
#![tactic(auto)]

ghost use Rattle.std.specs.Prelude.{◌≡◌, cond, eqb};
ghost use Rattle.mc_dematrix.specs.Dematrix.{weighted32, phased32, weighted31, phased31, weighted1, weighted22, unweighted, passed, dematrixed};

mod weights;

use weights::Weights;

// Of a slot and subband: both base channels, and the main channels of the extension.
#[derive(Clone, Copy)]
pub struct Signals {
    pub lo: f64,
    pub ro: f64,
    pub t2: f64,
    pub t3: f64,
    pub t4: f64,
}

// ---- the weighted signals (2.5.3.2.1.1): a function for each of the standard's tables, since their rows are formulas of their own, of three to five values

// 3/2, procedures 0 and 1: a table of five channels.
#[tactic(auto, unfolding(crate::specs::Dematrix::weighted32))]
fn weighted_32(tc: u8, x: Signals) -> [f64; 5]
    ensures { result ≡ weighted32 tc x.lo x.ro x.t2 x.t3 x.t4 }
{
    let Signals { lo, ro, t2, t3, t4 } = x;
    match tc {
        0 => [lo - t2 - t3, ro - t2 - t4, t2, t3, t4],
        1 => {
            let cw = lo - t2 - t3;
            [t2, ro - cw - t4, cw, t3, t4]
        }
        2 => {
            let cw = ro - t2 - t4;
            [lo - cw - t3, t2, cw, t3, t4]
        }
        3 => [t3, ro - t2 - t4, t2, lo - t3 - t2, t4],
        4 => [lo - t2 - t3, t4, t2, t3, ro - t4 - t2],
        5 => [t3, t4, t2, lo - t3 - t2, ro - t4 - t2],
        6 => {
            let cw = ro - t2 - t4;
            [t3, t2, cw, lo - t3 - cw, t4]
        }
        _ => {
            let cw = lo - t2 - t3;
            [t2, t4, cw, t3, ro - t4 - cw]
        }
    }
}

// 3/2, procedure 2, a table of its own: the surround takes part in the front as 0.5 (t3 + t4).
#[tactic(auto, unfolding(crate::specs::Dematrix::phased32))]
fn phased_32(tc: u8, x: Signals) -> [f64; 5]
    ensures { result ≡ phased32 tc x.lo x.ro x.t2 x.t3 x.t4 }
{
    let Signals { lo, ro, t2, t3, t4 } = x;
    let jsw = 0.5 * (t3 + t4);
    match tc {
        0 => [lo - t2 + jsw, ro - t2 - jsw, t2, t3, t4],
        1 => {
            let cw = lo - t2 + jsw;
            [t2, ro - cw - jsw, cw, t3, t4]
        }
        2 => {
            let cw = ro - t2 - jsw;
            [lo - cw + jsw, t2, cw, t3, t4]
        }
        3 => {
            let jlsw = -2.0 * (lo - t2 - t3) - t4;
            [t3, lo + ro - 2.0 * t2 - t3, t2, jlsw, t4]
        }
        4 => {
            let jrsw = 2.0 * ro - 2.0 * (t2 + t4) - t3;
            [lo + ro - 2.0 * t2 - t4, t4, t2, t3, jrsw]
        }
        5 => {
            let jlsw = 0.5 * (ro - lo + t3 - t4);
            [t3, t4, t2, jlsw, jlsw]
        }
        6 => {
            let jlsw = ro - lo - t2 + t3 - t4;
            [t3, t2, 0.5 * (ro + lo - t2 - t3), jlsw, t4]
        }
        _ => {
            let jrsw = ro - lo + t2 - t3 - t4;
            [t2, t4, 0.5 * (lo + ro - t2 - t4), t3, jrsw]
        }
    }
}

// 3/1, procedures 0 and 1: a table of four channels.
#[tactic(auto, unfolding(crate::specs::Dematrix::weighted31))]
fn weighted_31(tc: u8, x: Signals) -> [f64; 4]
    ensures { result ≡ weighted31 tc x.lo x.ro x.t2 x.t3 }
{
    let Signals { lo, ro, t2, t3, .. } = x;
    match tc {
        0 => [lo - t2 - t3, ro - t2 - t3, t2, t3],
        1 => {
            let cw = lo - t2 - t3;
            [t2, ro - cw - t3, cw, t3]
        }
        2 => {
            let cw = ro - t2 - t3;
            [lo - cw - t3, t2, cw, t3]
        }
        3 => {
            let sw = lo - t2 - t3;
            [t3, ro - t2 - sw, t2, sw]
        }
        _ => {
            let sw = ro - t2 - t3;
            [lo - t2 - sw, t3, t2, sw]
        }
    }
}

// 3/1, procedure 2: other signs than in procedures 0 and 1, and a row more.
#[tactic(auto, unfolding(crate::specs::Dematrix::phased31))]
fn phased_31(tc: u8, x: Signals) -> [f64; 4]
    ensures { result ≡ phased31 tc x.lo x.ro x.t2 x.t3 }
{
    let Signals { lo, ro, t2, t3, .. } = x;
    match tc {
        0 => [lo - t2 + t3, ro - t2 - t3, t2, t3],
        1 => {
            let cw = lo - t2 + t3;
            [t2, ro - cw - t3, cw, t3]
        }
        2 => {
            let cw = ro - t2 - t3;
            [lo - cw + t3, t2, cw, t3]
        }
        3 => {
            let jsw = -lo + t2 + t3;
            [t3, ro - t2 - jsw, t2, jsw]
        }
        4 => {
            let jsw = ro - t2 - t3;
            [lo - t2 + jsw, t3, t2, jsw]
        }
        _ => [t2, t3, 0.5 * (ro + lo - t2 - t3), 0.5 * (ro - lo + t2 - t3)],
    }
}

// 3/0 and 2/1: one main channel, centre or surround, and a table of three channels.
#[tactic(auto, unfolding(crate::specs::Dematrix::weighted1))]
fn weighted_1(tc: u8, x: Signals) -> [f64; 3]
    ensures { result ≡ weighted1 tc x.lo x.ro x.t2 }
{
    let Signals { lo, ro, t2, .. } = x;
    match tc {
        0 => [lo - t2, ro - t2, t2],
        1 => {
            let xw = lo - t2;
            [t2, ro - xw, xw]
        }
        _ => {
            let xw = ro - t2;
            [lo - xw, t2, xw]
        }
    }
}

// 2/2: the two surround channels are each in one front channel only.
#[tactic(auto, unfolding(crate::specs::Dematrix::weighted22))]
fn weighted_22(tc: u8, x: Signals) -> [f64; 4]
    ensures { result ≡ weighted22 tc x.lo x.ro x.t2 x.t3 }
{
    let Signals { lo, ro, t2, t3, .. } = x;
    match tc {
        0 => [lo - t2, ro - t3, t2, t3],
        1 => [t2, ro - t3, lo - t2, t3],
        2 => [lo - t2, t3, t2, ro - t3],
        _ => [t2, t3, lo - t2, ro - t3],
    }
}

// ---- by configuration

// Procedure 3: the signals as they are.
#[tactic(auto, unfolding(crate::specs::Dematrix::passed))]
fn passed_through(pair: u32, x: Signals) -> [f64; 5]
    ensures { result ≡ passed pair x.lo x.ro x.t2 x.t3 x.t4 }
{
    let Signals { lo, ro, t2, t3, t4 } = x;
    match pair {
        32 => [lo, ro, t2, t3, t4],
        31 | 22 => [lo, ro, t2, t3, 0.0],
        30 | 21 => [lo, ro, t2, 0.0, 0.0],
        _ => [lo, ro, 0.0, 0.0, 0.0],
    }
}

// 3/2, procedures 0 to 2: a row of five. procedure is the header's and tc the status's: definitions take them apart, and a struct would be made for one call.
#[tactic(auto, unfolding(crate::specs::Dematrix::unweighted))]
fn dematrix_32(procedure: u8, tc: u8, x: Signals) -> [f64; 5]
    ensures { result ≡ unweighted 32 procedure (cond (eqb procedure 2) (phased32 tc x.lo x.ro x.t2 x.t3 x.t4) (weighted32 tc x.lo x.ro x.t2 x.t3 x.t4)) }
{
    let [l, r, c, ls, rs] = if procedure == 2 {
        phased_32(tc, x)
    } else {
        weighted_32(tc, x)
    };
    let w = Weights::of(procedure);
    [
        w.front(l),
        w.front(r),
        w.centre(c),
        w.surround(ls),
        w.surround(rs),
    ]
}

// 3/1, procedures 0 to 2. A row is shorter than one of 3/2, so one function for both is no plainer.
#[tactic(auto, unfolding(crate::specs::Dematrix::unweighted))]
fn dematrix_31(procedure: u8, tc: u8, x: Signals) -> [f64; 5]
    ensures { result ≡ unweighted 31 procedure (cond (eqb procedure 2) (phased31 tc x.lo x.ro x.t2 x.t3) (weighted31 tc x.lo x.ro x.t2 x.t3)) }
{
    let [l, r, c, s] = if procedure == 2 {
        phased_31(tc, x)
    } else {
        weighted_31(tc, x)
    };
    let w = Weights::of(procedure);
    [w.front(l), w.front(r), w.centre(c), w.surround(s), 0.0]
}

// The output values, +0 beyond the configuration's. The codes are numbers, as McHeader and McStatus hold them: callers pass any number there.
#[tactic(auto, unfolding(crate::specs::Dematrix::dematrixed, crate::specs::Dematrix::weighted, crate::specs::Dematrix::unweighted))]
pub fn dematrix(pair: u32, procedure: u8, tc: u8, x: Signals) -> [f64; 5]
    ensures { result ≡ dematrixed pair procedure tc x.lo x.ro x.t2 x.t3 x.t4 }
{
    if procedure == 3 {
        return passed_through(pair, x);
    }
    let w = Weights::of(procedure);
    match pair {
        32 => dematrix_32(procedure, tc, x),
        31 => dematrix_31(procedure, tc, x),
        30 => {
            let [l, r, c] = weighted_1(tc, x);
            [w.front(l), w.front(r), w.centre(c), 0.0, 0.0]
        }
        22 => {
            let [l, r, ls, rs] = weighted_22(tc, x);
            [w.front(l), w.front(r), w.surround(ls), w.surround(rs), 0.0]
        }
        21 => {
            let [l, r, s] = weighted_1(tc, x);
            [w.front(l), w.front(r), w.surround(s), 0.0, 0.0]
        }
        // nothing was matrixed into the base channels
        _ => [x.lo, x.ro, 0.0, 0.0, 0.0],
    }
}
