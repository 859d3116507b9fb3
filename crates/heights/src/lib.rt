// The heights of the upper parts: kept while the polynomials change, never searched for.
#![tactic(auto)]

ghost use Rattle.std.specs.Prelude.{◌≡◌, ◌++◌, ◌+◌, ◌*◌, ◌<◌, ◌≤◌, true, length, take, drop, get_or};
ghost use Rattle.symbols.specs.Sizes.{most_shift};
ghost use Rattle.symbols.specs.Rule.{is_known, Known};
ghost use Rattle.published.specs.Start.{width};
ghost use Rattle.workarea.specs.Heights.{Heights as AreHeights, height_of_sum, heights_added, heights_exchanged, AtStart};

use symbols::MOST_POLYNOMIALS;

// A height for each of the 2q polynomials of a known q, none more than the width.
#[derive(Clone, Copy)]
pub struct Heights {
    pub q: usize,
    pub each: [usize; MOST_POLYNOMIALS],
    pub ghost known: { is_known q ≡ true },
    pub ghost low: { AreHeights q each },
}

// The height of a sum of two upper parts: the larger, and no more than the width.
#[tactic(auto, unfolding(workarea::specs::Heights::height_of_sum))]
fn height_of_sum(q: usize, a: usize, b: usize) -> usize
    requires { Known q }
    ensures { result ≡ height_of_sum q a b }
{
    workarea::width_of(q).min(a.max(b))
}

// The heights before the first step: g_i has no upper part, and that of f_i is y^i.
#[tactic(auto, using(workarea::proofs::Sizes::sizes))]
fn start_heights(q: usize) -> [usize; MOST_POLYNOMIALS]
    requires { Known q }
    ensures { AtStart q result }
{
    let mut heights = [0usize; MOST_POLYNOMIALS];
    heights[q..2 * q].fill(1);
    heights
}

impl Heights {
    // The heights before the first step.
    #[tactic(auto, using(crate::proofs::Low::started))]
    pub fn at_start(q: usize) -> Self
        requires { Known q }
        ensures { (result.q ≡ q) × AtStart q result.each }
    {
        let each = start_heights(q);
        Heights { q, each }
    }

    // The heights that stand in the first places of a list.
    #[tactic(auto, using(workarea::proofs::Sizes::sizes))]
    pub fn of_list(q: usize, list: &[usize]) -> Self
        requires { Known q × AreHeights q list.now }
        ensures q_is { result.q ≡ q }
        ensures same { take (2 * q) result.each ≡ take (2 * q) list.now }
    {
        let mut each = [0usize; MOST_POLYNOMIALS];
        each[..2 * q].copy_from_slice(&list[..2 * q]);
        Heights { q, each }
    }

    // Puts them in the first places of a list; those behind stay.
    pub fn put_in(&self, list: &mut [usize])
        requires { 2 * self.now.q ≤ length list.old }
        ensures { list.new ≡ take (2 * self.now.q) self.now.each ++ drop (2 * self.now.q) list.old }
    {
        let count = 2 * self.q;
        list[..count].copy_from_slice(&self.each[..count]);
    }

    // The height of polynomial p.
    pub fn of(&self, p: usize) -> usize
        requires { p < 2 * self.now.q }
        ensures value { result ≡ get_or self.now.each p 0 }
        ensures low { result ≤ width self.now.q }
    {
        self.each[p]
    }

    // The heights after polynomial f has become f - m·x^shift·g.
    #[tactic(auto, using(crate::proofs::Low::known), unfolding(workarea::specs::Heights::heights_added))]
    pub fn add(&mut self, f: usize, g: usize, shift: usize)
        requires { (f < 2 * self.old.q) × (g < 2 * self.old.q) × (shift ≤ most_shift) }
        ensures q_stays { self.new.q ≡ self.old.q }
        ensures added { self.new.each ≡ heights_added self.old.q f g shift self.old.each }
    {
        let sum = height_of_sum(self.q, self.of(f), self.of(g) + shift);
        self.each[f] = sum;
    }

    // The heights after f has become x^shift·f - m·g, and g what f was.
    #[tactic(auto, using(crate::proofs::Low::known), unfolding(workarea::specs::Heights::heights_exchanged))]
    pub fn exchange(&mut self, f: usize, g: usize, shift: usize)
        requires { (f < 2 * self.old.q) × (g < 2 * self.old.q) × (shift ≤ most_shift) }
        ensures q_stays { self.new.q ≡ self.old.q }
        ensures exchanged { self.new.each ≡ heights_exchanged self.old.q f g shift self.old.each }
    {
        let old = self.of(f);
        let sum = height_of_sum(self.q, old + shift, self.of(g));
        self.each[f] = sum;
        self.each[g] = old;
    }
}
