// Reading the two lists of a laid image: their counts, their rows, and which rows pass a test.
ghost use Rattle.std.specs.Prelude.{◌≡◌, ◌&&◌, ◌<◌, ℕ, Bool, eqb, length, get_or, IfSome};
ghost use Rattle.policy.specs.Lists.{keep, upto};
ghost use Rattle.policy.specs.Contract.{eq_aid, eq_tok};
ghost use Rattle.policy.specs.Tables.{bit};
ghost use Rattle.policy.specs.Lookup.{number_of};
ghost use Rattle.geometry.specs.Geometry.{layout_of, tok_of, tables_of};
ghost use Rattle.image.specs.Laid.{Laid};
ghost use Rattle.image.specs.Read.{Item, found, items_of, item_aid, item_tok, item_number, item_at, mask_of};
ghost use Rattle.image.specs.Image.{lay, tables};

use crate::Image;
use geometry::{Card, Kept, Tokens};

impl Image<'_> {
    // How many rows a list has.
    pub fn count(self, l: Kept) -> usize
        ensures { result ≡ length (items_of l (tables self.entry)) }
    {
        let at = geometry::list_at(self.card, l);
        self.bytes[at] as usize
    }

    // The package number of row r: the caller of an unmet call, the package that gives a waiting grant.
    pub fn number(self, l: Kept, r: usize) -> usize
        requires { r < length (items_of l (tables self)) }
        ensures { result ≡ item_number l (item_at l (tables self.entry) r) }
    {
        let at = geometry::place_at(self.card, l, r);
        self.bytes[at + geometry::number_in(l)] as usize
    }

    // The tokens of row r.
    pub fn tokens(self, l: Kept, r: usize) -> Tokens
        requires { r < length (items_of l (tables self)) }
        ensures { tok_of result ≡ item_tok l (item_at l (tables self.entry) r) }
    {
        let at = geometry::place_at(self.card, l, r);
        Tokens::at(self.bytes, at + geometry::tokens_in(l))
    }

    // Row r has this AID: of the callee of an unmet call, of the caller that a grant waits for.
    pub fn has_aid(self, l: Kept, r: usize, aid: &[u8]) -> bool
        requires { r < length (items_of l (tables self)) }
        ensures { result ≡ eq_aid (item_aid l (item_at l (tables self.entry) r)) aid.now }
    {
        let at = geometry::place_at(self.card, l, r);
        crate::read::aid_is(self.bytes, at, aid)
    }

    // The number of the package with the AID of row r.
    pub fn find_holder(self, l: Kept, r: usize) -> Option<usize>
        requires { r < length (items_of l (tables self)) }
        ensures is { result ≡ found (number_of (lay self.entry) (tables self.entry) (item_aid l (item_at l (tables self.entry) r))) }
        ensures low { IfSome result (λ n. n < (lay self.entry).packages) }
    {
        let at = geometry::place_at(self.card, l, r);
        let n = self.bytes[at] as usize;
        self.find_package(&self.bytes[at + 1..at + 1 + n])
    }

    // Row r has these tokens.
    pub fn has_tokens(self, l: Kept, r: usize, t: Tokens) -> bool
        requires { r < length (items_of l (tables self)) }
        ensures { result ≡ eq_tok (item_tok l (item_at l (tables self.entry) r)) (tok_of t) }
    {
        self.tokens(l, r) == t
    }

    // Row r has this AID and these tokens. Tokens are the quicker test.
    pub fn has_row(self, l: Kept, r: usize, aid: &[u8], t: Tokens) -> bool
        requires { r < length (items_of l (tables self)) }
        ensures { result ≡ eq_aid (item_aid l (item_at l (tables self.entry) r)) aid.now
            && eq_tok (item_tok l (item_at l (tables self.entry) r)) (tok_of t) }
    {
        self.has_tokens(l, r, t) && self.has_aid(l, r, aid)
    }

    // Which rows pass: `passes` answers for row r.
    pub fn mask<F: Fn(usize) -> bool>(self, l: Kept, passes: F) -> u32
        requires { (r : ℕ) → r < length (items_of l (tables self)) → F.pre passes r }
        ensures { (f : Item l → Bool)
            → ((r : ℕ) → r < length (items_of l (tables self.entry)) → (b : Bool) → F.post passes r b
            → b ≡ f (item_at l (tables self.entry) r))
            → result ≡ mask_of f (items_of l (tables self.entry)) }
    {
        let mut mask: u32 = 0;
        for r in (0..self.count(l)).rev() {
            mask = mask * 2 + (passes(r) as u32);
        }
        mask
    }

    // Which rows have this AID and these tokens: unmet calls on the service of the AID, or waiting grants to the AID.
    pub fn with_row(self, l: Kept, aid: &[u8], t: Tokens) -> u32
        ensures { result ≡ mask_of (λ x. eq_aid (item_aid l x) aid.now && eq_tok (item_tok l x) (tok_of t))
            (items_of l (tables self.entry)) }
    {
        self.mask(l, |r| self.has_row(l, r, aid, t))
    }

    // Which rows have this package number.
    pub fn with_number(self, l: Kept, n: usize) -> u32
        ensures { result ≡ mask_of (λ x. eqb (item_number l x) n) (items_of l (tables self.entry)) }
    {
        self.mask(l, |r| self.number(l, r) == n)
    }

    // Which rows have this package number and these tokens. The number is the quicker test.
    pub fn with_service(self, l: Kept, n: usize, t: Tokens) -> u32
        ensures { result ≡ mask_of (λ x. eqb (item_number l x) n && eq_tok (item_tok l x) (tok_of t))
            (items_of l (tables self.entry)) }
    {
        self.mask(l, |r| self.number(l, r) == n && self.has_tokens(l, r, t))
    }
}

// How many rows a mask names.
pub fn mask_count(mask: u32) -> usize
    ensures { result ≡ length (keep (bit mask) (upto 32)) }
{
    u32::count_ones(mask) as usize
}
