// Calls, grants and needs: rows of bits by caller and callee.
ghost use Rattle.std.specs.Prelude.{◌≡◌, cond, ◌+◌, ◌*◌, ◌≤◌, ◌<◌, length};
ghost use Rattle.policy.specs.Lists.{every, upto};
ghost use Rattle.policy.specs.Tables.{bit};
ghost use Rattle.geometry.specs.Geometry.{layout_of};
ghost use Rattle.soundness.specs.Check.{row_in, rows_fit, pair_fits, line_fits, lines_ok};

use crate::packages::Front;
use geometry::Card;

// Needs are among the calls, calls among the grants, grants among those that may be.
fn rows_fit(need: u16, call: u16, grant: u16, may: u16) -> bool
    ensures { result ≡ rows_fit need call grant may }
{
    bits::subset(need, call) & bits::subset(call, grant) & bits::subset(grant, may)
}

// The tables of n packages, of rows of w bytes, by where they stand: the provided services, calls, grants and needs.
#[derive(Clone, Copy)]
struct Tables<'a> {
    img: &'a [u8],
    w: usize,
    n: usize,
    provs: usize,
    calls: usize,
    grants: usize,
    needs: usize,
    ghost wide: { (0 < w) × (w ≤ 2) },
    ghost few: { n ≤ 16 },
    ghost inside: { (3 + w ≤ length img.now) × (provs + n * w ≤ length img.now) × (calls + n * (n * w) ≤ length img.now)
        × (grants + n * (n * w) ≤ length img.now) × (needs + n * (n * w) ≤ length img.now) },
}

impl<'a> Tables<'a> {
    // The row of bits at at.
    fn row(&self, at: usize) -> u16
        requires { at + self.now.w ≤ length self.now.img.now }
        ensures { result ≡ row_in self.now.w self.now.img.now at }
    {
        geometry::number_at(self.img, at, self.w)
    }

    // What callee j provides, for a used caller.
    fn may_row(&self, used: bool, j: usize) -> u16
        requires { j < self.now.n }
        ensures { result ≡ cond used (row_in self.now.w self.now.img.now (self.now.provs + j * self.now.w)) 0 }
    {
        if used {
            self.row(self.provs + j * self.w)
        } else {
            0
        }
    }

    // Caller i, which is used or not, and callee j.
    fn pair_ok(&self, i: usize, used: bool, j: usize) -> bool
        requires { (i < self.now.n) × (j < self.now.n) }
        ensures { result ≡ pair_fits self.now.img.now self.now.w self.now.n self.now.provs self.now.calls
            self.now.grants self.now.needs i used j }
    {
        let line = self.n * self.w;
        let may = self.may_row(used, j);
        let at = i * line + j * self.w;
        rows_fit(
            self.row(self.needs + at),
            self.row(self.calls + at),
            self.row(self.grants + (j * line + i * self.w)),
            may,
        )
    }

    // Caller i with each callee.
    // Stays: loops; a chain is one copy for both cards: a check of the small card took 7931 instructions with it, 7482 with loops.
    #[inline(always)]
    fn pairs_ok(&self, i: usize, used: bool) -> bool
        requires { i < self.now.n }
        ensures { result ≡ every (pair_fits self.now.img.now self.now.w self.now.n self.now.provs self.now.calls
            self.now.grants self.now.needs i used) (upto self.now.n) }
    {
        for j in 0..self.n {
            if !self.pair_ok(i, used, j) {
                return false;
            }
        }
        true
    }

    // And the diagonal is zero.
    #[inline(always)]
    #[tactic(auto, using(crate::proofs::Tests::entry_ends))]
    fn line_ok(&self, i: usize, used: bool) -> bool
        requires { i < self.now.n }
        ensures { result ≡ line_fits self.now.img.now self.now.w self.now.n self.now.provs self.now.calls
            self.now.grants self.now.needs i used }
    {
        let line = self.n * self.w;
        self.pairs_ok(i, used) && self.row(self.grants + (i * line + i * self.w)) == 0
    }

    // In both calls the numbers are constants, which inlining brings to the loops.
    #[inline(always)]
    fn fit(&self) -> bool
        ensures { result ≡ every (λ i. line_fits self.now.img.now self.now.w self.now.n self.now.provs self.now.calls
            self.now.grants self.now.needs i
            (bit (row_in self.now.w self.now.img.now 3) i)) (upto self.now.n) }
    {
        let used = self.row(3);
        for i in 0..self.n {
            if !self.line_ok(i, bits::has_bit(used, i)) {
                return false;
            }
        }
        true
    }
}

impl<'a> Front<'a> {
    #[tactic(auto, unfolding(crate::specs::Check::lines_ok, crate::specs::Check::line_ok))]
    pub fn lines_ok(&self) -> bool
        ensures { result ≡ lines_ok (layout_of self.now.c) self.now.img.now }
    {
        match self.c {
            Card::Small => {
                Tables {
                    img: self.img,
                    w: 1,
                    n: 8,
                    provs: 268,
                    calls: 276,
                    grants: 340,
                    needs: 404,
                }
                .fit()
            }
            Card::Large => {
                Tables {
                    img: self.img,
                    w: 2,
                    n: 16,
                    provs: 789,
                    calls: 821,
                    grants: 1333,
                    needs: 1845,
                }
                .fit()
            }
        }
    }
}
