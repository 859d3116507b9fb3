// What a step knows of a pair of polynomials, as the code holds it: read by steppairs, it decides the votes and the update.
#![tactic(auto)]

// The numbers of pair i: `partner` is i'.
#[derive(Clone, Copy, Default)]
pub struct Pair {
    pub partner: usize,
    pub c: i64,
    pub w: u8,
    pub mu: u8,
    pub nu: u8,
}
