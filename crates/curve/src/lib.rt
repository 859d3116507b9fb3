// Weights and codes of the curve y^q + y = x^(q+1).
#![tactic(auto)]

ghost use Rattle.std.specs.Prelude.{◌≡◌, ◌/◌, ◌%◌, ◌<◌};
ghost use Rattle.algebra.specs.Weights.{gap};
ghost use Rattle.symbols.specs.Rule.{Known};
ghost use Rattle.curve.specs.Codes.{Code as CodeNumbers, point_count, is_code, dimension as dimension_of, distance as distance_of, reach as reach_of};
ghost use Rattle.curve.specs.Answers.{monomial_of, named};
ghost use Rattle.curve.specs.Given.{Valid};

use refusals::Refusal;
use std::marker::Model;

// The powers of x and of y in a monomial.
#[derive(Clone, Copy)]
pub struct Powers {
    pub x: usize,
    pub y: usize,
}

// A code: q and u, how many symbols a row and a message have, and the reach. Each value is one of the codes, with its own numbers.
#[derive(Clone, Copy)]
pub struct Code {
    pub q: usize,
    pub u: usize,
    pub n: usize,
    pub k: usize,
    pub reach: usize,
}

impl Model for Code {
    ghost Value = { CodeNumbers };

    ghost view = { λ c. record { q = c.q; u = c.u; n = c.n; k = c.k; reach = c.reach } };

    ghost invariant = { λ c. Valid (record { q = c.q; u = c.u; n = c.n; k = c.k; reach = c.reach }) };

    ghost inverse = { λ c. record { q = c.q; u = c.u; n = c.n; k = c.k; reach = c.reach } };
}

// The remainder by q. A divisor that the compiler does not know takes it many times as long as one that it does.
pub fn remainder(q: usize, n: usize) -> usize
    requires { Known q }
    ensures { result ≡ n % q }
{
    if q == 4 { n % 4 } else { n % 2 }
}

// The quotient by q, taken by divisors that the compiler knows for the same reason.
fn quotient(q: usize, n: usize) -> usize
    requires { Known q }
    ensures { result ≡ n / q }
{
    if q == 4 { n / 4 } else { n / 2 }
}

// Whether no monomial has this weight.
pub fn is_gap(q: usize, s: usize) -> bool
    requires { Known q }
    ensures { result ≡ gap q s }
{
    s < (q + 1) * remainder(q, s)
}

// The powers of the monomial of a weight. A gap has none.
pub fn monomial_of(q: usize, s: usize) -> Option<Powers>
    requires { Known q }
    ensures { result ≡ monomial_of q s }
{
    let y = remainder(q, s);
    let rest = s.checked_sub((q + 1) * y)?;
    Some(Powers {
        x: quotient(q, rest),
        y,
    })
}

// How many points there are.
pub fn point_count(q: usize) -> usize
    requires { Known q }
    ensures { result ≡ point_count q }
{
    q * q * q
}

// Whether u is a non-gap from q to n - 1.
pub fn is_code(q: usize, u: usize) -> bool
    requires { Known q }
    ensures { result ≡ is_code q u }
{
    q <= u && u < point_count(q) && !is_gap(q, u)
}

// k, the length of a message. Every call asks for it, so it is counted by the fastest of the forms tried: the range `0..=u` took
// twice the time, and `filter` with `count` 1.7 times.
pub fn dimension(q: usize, u: usize) -> usize
    requires { Known q × (u < point_count q) }
    ensures { result ≡ dimension_of q u }
{
    let mut count = 0;
    for s in 0..u + 1 {
        if !is_gap(q, s) {
            count += 1;
        }
    }
    count
}

// The distance of a code: the row of aq decides it where u = aq + b is not far above that.
fn distance(q: usize, u: usize) -> usize
    requires { Known q × (u < point_count q) }
    ensures { result ≡ distance_of q u }
{
    let n = point_count(q);
    let a = quotient(q, u);
    let b = remainder(q, u);
    if b + (q * q - q) <= a {
        n - a * q
    } else {
        n - u
    }
}

// The reach of a code.
fn reach(q: usize, u: usize) -> usize
    requires { Known q × (u < point_count q) }
    ensures { result ≡ reach_of q u }
{
    (distance(q, u) - 1) / 2
}

// The code that q and u name, or the refusal 1 or 2. Encoding, stopping and decoding ask for it first and hand it on.
pub fn code_of(q: usize, u: usize) -> Result<Code, Refusal>
    ensures { result ≡ named q u }
{
    if !symbols::is_known(q) {
        return Err(Refusal::UnknownQ);
    }
    if !is_code(q, u) {
        return Err(Refusal::NoCode);
    }
    Ok(Code {
        q,
        u,
        n: point_count(q),
        k: dimension(q, u),
        reach: reach(q, u),
    })
}
