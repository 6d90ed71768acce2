// The lists of unmet calls and waiting grants: counts, rows, and zeros past the count.
ghost use Rattle.std.specs.Prelude.{◌≡◌, true, false, not, ◌+◌, ◌*◌, ◌-◌, ◌≤◌, ◌<◌, length, Option, IfSome};
ghost use Rattle.policy.specs.Lists.{implies, every, upto};
ghost use Rattle.geometry.specs.Geometry.{layout_of, list_at};
ghost use Rattle.geometry.specs.declared.Kept.TheVariants.{WaitingGrants};
ghost use Rattle.soundness.specs.Check.{is_early, zeros_at, row_size, numbered as is_numbered};
ghost use Rattle.soundness.specs.Check.{place_of, list_end, is_used, unserved as unserved_by};
ghost use Rattle.soundness.specs.Check.{token_row_ok, is_provided, number_row_ok, row_ok, new_row, rows_differ, place_ok, list_ok};

use crate::bytes;
use crate::packages::Front;
use crate::rules::Rules;
use geometry::{Card, Kept};

impl<'a> Front<'a> {
    // Number n is that of a used package.
    fn is_used(&self, n: usize) -> bool
        ensures { result ≡ is_used (layout_of self.now.c) self.now.img.now n }
    {
        n < geometry::packages(self.c) && self.used(n)
    }

    // Package n, which has a row's AID, is not installed; or it is not the row's own, and there is no service with the tokens at at.
    fn unserved(&self, k: Kept, at: usize, own: usize, n: Option<usize>) -> bool
        requires { (at + 2 ≤ length self.now.img.now) × (own < (layout_of self.now.c).packages)
            × IfSome n (λ m. m < (layout_of self.now.c).packages) }
        ensures { result ≡ unserved_by (layout_of self.now.c) self.now.img.now k at own n }
    {
        let Some(n) = n else {
            return true;
        };
        if n == own {
            return false;
        }
        match k {
            Kept::UnmetCalls => self.new_tok(at, n),
            Kept::WaitingGrants => self.new_tok(at, own),
        }
    }

    // A row with tokens: an unmet call, or a waiting grant.
    #[tactic(auto, using(crate::proofs::Tests::number_in), unfolding(crate::specs::Check::token_row_ok))]
    fn token_row_ok(&self, k: Kept, at: usize) -> bool
        requires { at + row_size true k ≤ length self.now.img.now }
        ensures { result ≡ token_row_ok (layout_of self.now.c) self.now.img.now k at }
    {
        let own = self.img[at + geometry::number_in(k)] as usize;
        if !self.is_used(own) {
            return false;
        }
        let toks = at + geometry::tokens_in(k);
        bytes::aid_ok(self.img, at)
            && self.img[toks + 1] < geometry::methods(self.c)
            && self.unserved(k, toks, own, self.number_of(at))
    }

    // Package j provides service k, if there are such numbers.
    fn is_provided(&self, j: usize, k: usize) -> bool
        ensures { result ≡ is_provided (layout_of self.now.c) self.now.img.now j k }
    {
        j < geometry::packages(self.c) && k < geometry::services(self.c) && self.provides(j, k)
    }

    // A waiting grant before R-2, with a service number in place of tokens.
    #[tactic(auto, unfolding(crate::specs::Check::number_row_ok))]
    fn number_row_ok(&self, at: usize) -> bool
        requires { at + row_size false WaitingGrants ≤ length self.now.img.now }
        ensures { result ≡ number_row_ok (layout_of self.now.c) self.now.img.now at }
    {
        let callee = self.img[at + geometry::number_in(Kept::WaitingGrants)] as usize;
        let service = self.img[at + geometry::tokens_in(Kept::WaitingGrants)] as usize;
        self.is_provided(callee, service)
            && bytes::aid_ok(self.img, at)
            && self.number_of(at).is_none()
    }
}

// A row has a service number and no tokens.
fn numbered(k: Kept, rules: Rules) -> bool
    ensures { result ≡ is_numbered (is_early rules) k }
{
    match (k, rules) {
        (Kept::WaitingGrants, Rules::Before) => true,
        _ => false,
    }
}

// Bytes of a row.
fn row_size(c: Card, k: Kept, rules: Rules) -> usize
    ensures { result ≡ row_size (is_early rules) k }
{
    if numbered(k, rules) {
        return geometry::old_row_size(k);
    }
    geometry::row_size(c, k)
}

// A list, by its card's rules or those before: its count stands at at, and after it rows of w bytes.
#[derive(Clone, Copy)]
struct List<'a> {
    front: Front<'a>,
    k: Kept,
    rules: Rules,
    at: usize,
    w: usize,
    ghost inside: { list_end (layout_of front.c) (is_early rules) k ≤ length front.img.now },
    ghost at_is: { at ≡ list_at (layout_of front.c) k },
    ghost w_is: { w ≡ row_size (is_early rules) k },
}

impl<'a> List<'a> {
    // Where row r stands, and where the list ends after r rows.
    fn place(&self, r: usize) -> usize
        requires { r ≤ (layout_of self.now.front.c).capacity }
        ensures { result ≡ place_of self.now.at self.now.w r }
    {
        self.at + (1 + r * self.w)
    }

    #[tactic(auto, unfolding(crate::specs::Check::row_ok))]
    fn place_ok(&self, r: usize) -> bool
        requires { r < (layout_of self.now.front.c).capacity }
        ensures { result ≡ place_ok (layout_of self.now.front.c) self.now.front.img.now (is_early self.now.rules) self.now.k r }
    {
        if numbered(self.k, self.rules) {
            return self.front.number_row_ok(self.place(r));
        }
        self.front.token_row_ok(self.k, self.place(r))
    }

    fn places_ok(&self, n: usize) -> bool
        requires { n ≤ (layout_of self.now.front.c).capacity }
        ensures { result ≡ every (place_ok (layout_of self.now.front.c) self.now.front.img.now (is_early self.now.rules) self.now.k)
            (upto n) }
    {
        (0..n).all(|r| self.place_ok(r))
    }

    // No row before row r is the same.
    #[tactic(auto, unfolding(crate::specs::Check::new_row))]
    fn is_new(&self, r: usize) -> bool
        requires { r < (layout_of self.now.front.c).capacity }
        ensures { result ≡ new_row self.now.front.img.now self.now.at self.now.w r }
    {
        let row = self.place(r);
        (0..r).all(|q| !bytes::same_row(self.front.img, row, self.place(q), self.w))
    }

    // No two of the first n rows are the same: compared only where a mark was met.
    fn differ(&self, n: usize) -> bool
        requires { n ≤ (layout_of self.now.front.c).capacity }
        ensures { result ≡ rows_differ self.now.front.img.now self.now.at self.now.w n }
    {
        // Stays: each turn changes the marks, and a chain that changes what it captures is no plainer.
        let mut seen: u64 = 0;
        for r in 0..n {
            let h = bytes::row_mark(self.front.img, self.place(r), self.w);
            if bits::is_set(seen, h) && !self.is_new(r) {
                return false;
            }
            seen = bits::with_mark(seen, h);
        }
        true
    }

    #[tactic(auto, unfolding(crate::specs::Check::list_ok))]
    fn is_ok(&self) -> bool
        ensures { result ≡ list_ok (layout_of self.now.front.c) self.now.front.img.now (is_early self.now.rules) self.now.k }
    {
        let most = geometry::capacity(self.front.c);
        let n = self.front.img[self.at] as usize;
        if most < n {
            return false;
        }
        self.places_ok(n)
            && self.differ(n)
            && bytes::zeros_at(self.front.img, self.place(n), (most - n) * self.w)
    }
}

pub fn list_ok(img: &[u8], c: Card, k: Kept, rules: Rules) -> bool
    requires { list_end (layout_of c) (is_early rules) k ≤ length img.now }
    ensures { result ≡ list_ok (layout_of c) img.now (is_early rules) k }
{
    let list = List {
        front: Front { img, c },
        k,
        rules,
        at: geometry::list_at(c, k),
        w: row_size(c, k, rules),
    };
    list.is_ok()
}
