// Packages: AIDs that are valid and differ, tokens that are in range and differ, and zeros where no package or service stands.
ghost use Rattle.std.specs.Prelude.{◌≡◌, ◌+◌, ◌*◌, ◌≤◌, ◌<◌, true, length};
ghost use Rattle.policy.specs.Lists.{every, upto};
ghost use Rattle.policy.specs.Layout.{waiting_at};
ghost use Rattle.policy.specs.Tables.{bit};
ghost use Rattle.geometry.specs.Geometry.{layout_of};
ghost use Rattle.rows.specs.Area.{little};
ghost use Rattle.soundness.specs.Check.{part_at, tok_mark, tok_place, has_tok, no_tok, tok_fits};
ghost use Rattle.soundness.specs.Check.{number_at, new_tok, methods_ok, toks_ok};
ghost use Rattle.soundness.specs.Check.{blank_ok, package_ok, packages_ok, used_row, prov_row};

use crate::bytes;
use geometry::Card;

// The services of a package: those provided, as bits, and their tokens in the line of the table toks.
#[derive(Clone, Copy)]
struct Services<'a> {
    img: &'a [u8],
    toks: usize,
    line: usize,
    prov: u16,
    n: usize,
    ghost few: { n ≤ 16 },
    ghost inside: { toks + (line + n * 2) ≤ length img.now },
}

impl<'a> Services<'a> {
    // Where the tokens of service k stand.
    fn place(&self, k: usize) -> usize
        requires { k < self.now.n }
        ensures { result ≡ tok_place self.now.img.now self.now.toks self.now.line self.now.prov k }
    {
        self.toks + (self.line + k * 2)
    }

    // Service k is provided, and has the tokens at at.
    fn has(&self, k: usize, at: usize) -> bool
        requires { (k < self.now.n) × (at + 2 ≤ length self.now.img.now) }
        ensures { result ≡ has_tok self.now.img.now self.now.toks self.now.line self.now.prov at k }
    {
        bits::has_bit(self.prov, k) && bytes::same_tok(self.img, at, self.place(k))
    }

    // None of the first n has the tokens at at.
    fn is_new(&self, n: usize, at: usize) -> bool
        requires { (n ≤ self.now.n) × (at + 2 ≤ length self.now.img.now) }
        ensures { result ≡ no_tok self.now.img.now self.now.toks self.now.line self.now.prov n at }
    {
        (0..n).all(|k| !self.has(k, at))
    }

    // The tokens of service k differ from those before it, if their mark was met, and are zero where it is not provided.
    fn fits(&self, k: usize, met: bool) -> bool
        requires { k < self.now.n }
        ensures { result ≡ tok_fits self.now.img.now self.now.toks self.now.line self.now.prov met k }
    {
        let at = self.place(k);
        if !bits::has_bit(self.prov, k) {
            return bytes::zeros_at(self.img, at, 2);
        }
        !met || self.is_new(k, at)
    }

    // All fit, with the marks of those before in seen: only tokens whose mark was met are compared.
    fn fit(&self) -> bool
        ensures { result ≡ every (tok_fits self.now.img.now self.now.toks self.now.line self.now.prov true) (upto self.now.n) }
    {
        // Stays: each turn changes the marks, and a chain that changes what it captures is no plainer.
        let mut seen: u64 = 0;
        for k in 0..self.n {
            let h = tok_mark(self.img, self.place(k));
            if !self.fits(k, bits::is_set(seen, h)) {
                return false;
            }
            seen = bits::with_mark(seen, h);
        }
        true
    }
}

// The mark of the tokens at at.
fn tok_mark(img: &[u8], at: usize) -> usize
    requires { at + 2 ≤ length img.now }
    ensures { result ≡ tok_mark (little (part_at img.now at 2)) }
{
    rows::pair(img, at) as usize % 61
}

// The method tokens of package j are below the card's limit. The limit is a power of 2,
// so a number in which all tokens are gathered is below it where each is.
fn methods_ok(img: &[u8], c: Card, j: usize) -> bool
    requires { (waiting_at (layout_of c) ≤ length img.now) × (j < (layout_of c).packages) }
    ensures { result ≡ methods_ok (layout_of c) img.now j }
{
    let limit = 256 * geometry::methods(c) as u16;
    let n = geometry::services(c);
    let all = (0..n).fold(0, |all, k| all | rows::pair(img, geometry::tok_at(c, j, k)));
    all < limit
}

// An image that has all that stands before the waiting grants.
#[derive(Clone, Copy)]
pub struct Front<'a> {
    pub img: &'a [u8],
    pub c: Card,
    pub ghost inside: { waiting_at (layout_of c) ≤ length img.now },
}

impl<'a> Front<'a> {
    // Package n is used.
    pub fn used(&self, n: usize) -> bool
        requires { n < (layout_of self.now.c).packages }
        ensures { result ≡ bit (used_row (layout_of self.now.c) self.now.img.now) n }
    {
        bits::has_bit(geometry::row_at(self.img, self.c, 3), n)
    }

    // The provided services of package j.
    fn prov_row(&self, j: usize) -> u16
        requires { j < (layout_of self.now.c).packages }
        ensures { result ≡ prov_row (layout_of self.now.c) self.now.img.now j }
    {
        geometry::row_at(self.img, self.c, geometry::prov_at(self.c, j))
    }

    // Package j provides service k.
    pub fn provides(&self, j: usize, k: usize) -> bool
        requires { (j < (layout_of self.now.c).packages) × (k < (layout_of self.now.c).services) }
        ensures { result ≡ bit (prov_row (layout_of self.now.c) self.now.img.now j) k }
    {
        bits::has_bit(self.prov_row(j), k)
    }

    // The lowest package that has the AID at at.
    // Stays: a loop; with `find` a check of the small card takes 6969 instructions, so 5998.
    #[tactic(auto, unfolding(crate::specs::Check::number_at))]
    pub fn number_of(&self, at: usize) -> Option<usize>
        requires { at + 17 ≤ length self.now.img.now }
        ensures { result ≡ number_at (layout_of self.now.c) self.now.img.now at }
    {
        for n in 0..geometry::packages(self.c) {
            if bytes::same_aid(self.img, at, geometry::aid_at(self.c, n)) {
                return Some(n);
            }
        }
        None
    }

    // None of the services of package j has the tokens at at.
    #[tactic(auto, unfolding(crate::specs::Check::new_tok))]
    pub fn new_tok(&self, at: usize, j: usize) -> bool
        requires { (at + 2 ≤ length self.now.img.now) × (j < (layout_of self.now.c).packages) }
        ensures { result ≡ new_tok (layout_of self.now.c) self.now.img.now (layout_of self.now.c).services at j }
    {
        let prov = self.prov_row(j);
        match self.c {
            Card::Small => Services {
                img: self.img,
                toks: 140,
                line: j * 16,
                prov,
                n: 8,
            }
            .is_new(8, at),
            Card::Large => Services {
                img: self.img,
                toks: 277,
                line: j * 32,
                prov,
                n: 16,
            }
            .is_new(16, at),
        }
    }

    #[tactic(auto, unfolding(crate::specs::Check::toks_ok, crate::specs::Check::tok_ok))]
    fn toks_ok(&self, j: usize) -> bool
        requires { j < (layout_of self.now.c).packages }
        ensures { result ≡ toks_ok (layout_of self.now.c) self.now.img.now j }
    {
        let prov = self.prov_row(j);
        match self.c {
            Card::Small => Services {
                img: self.img,
                toks: 140,
                line: j * 16,
                prov,
                n: 8,
            }
            .fit(),
            Card::Large => Services {
                img: self.img,
                toks: 277,
                line: j * 32,
                prov,
                n: 16,
            }
            .fit(),
        }
    }

    // An unused package has no AID, no services and no tokens.
    #[tactic(auto, unfolding(crate::specs::Check::blank_ok))]
    fn blank_ok(&self, n: usize) -> bool
        requires { n < (layout_of self.now.c).packages }
        ensures { result ≡ blank_ok (layout_of self.now.c) self.now.img.now n }
    {
        bytes::zeros_at(self.img, geometry::aid_at(self.c, n), 17)
            && self.prov_row(n) == 0
            && bytes::zeros_at(
                self.img,
                geometry::tok_at(self.c, n, 0),
                geometry::services(self.c) * 2,
            )
    }

    #[tactic(auto, unfolding(crate::specs::Check::package_ok))]
    fn package_ok(&self, n: usize) -> bool
        requires { n < (layout_of self.now.c).packages }
        ensures { result ≡ package_ok (layout_of self.now.c) self.now.img.now n }
    {
        if !self.used(n) {
            return self.blank_ok(n);
        }
        let at = geometry::aid_at(self.c, n);
        bytes::aid_ok(self.img, at)
            && self.number_of(at) == Some(n)
            && methods_ok(self.img, self.c, n)
            && self.toks_ok(n)
    }

    #[tactic(auto, unfolding(crate::specs::Check::packages_ok))]
    pub fn packages_ok(&self) -> bool
        ensures { result ≡ packages_ok (layout_of self.now.c) self.now.img.now }
    {
        (0..geometry::packages(self.c)).all(|n| self.package_ok(n))
    }
}
