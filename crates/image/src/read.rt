// Reading the places of a laid image: rows of bits, and numbers found by AID and tokens.
ghost use Rattle.std.specs.Prelude.{◌≡◌, ◌&&◌, ℕ, ◌+◌, ◌*◌, ◌≤◌, ◌<◌, length, get_or, IfSome};
ghost use Rattle.policy.specs.Contract.{eq_aid, eq_tok};
ghost use Rattle.policy.specs.Lists.{first, upto};
ghost use Rattle.policy.specs.Tables.{row_of, write_aid};
ghost use Rattle.policy.specs.Lookup.{number_of, service_of, server_of, spot_of, free_number, free_service};
ghost use Rattle.geometry.specs.Geometry.{layout_of, tok_of, tables_of};
ghost use Rattle.image.specs.Laid.{Laid, table_of};
ghost use Rattle.image.specs.Read.{found, found_place, found_spot};
ghost use Rattle.image.specs.Read.{asked, last_of, aid_in, tokens_in, aid_held, tokens_held};
ghost use Rattle.image.specs.Image.{lay, tables};

use crate::Image;
use geometry::{Card, Table, Tokens};

// A service of the card: package and service number.
#[derive(Clone, Copy)]
pub struct Place {
    pub callee: usize,
    pub service: usize,
}

// A grant that is a bit: the caller's number, and the service number.
#[derive(Clone, Copy)]
pub struct Spot {
    pub caller: usize,
    pub service: usize,
}

// The last byte of an AID; 0 for one of no bytes.
fn last_of(aid: &[u8]) -> u8
    ensures { result ≡ last_of aid.now }
{
    aid.last().copied().unwrap_or(0)
}

// The place at `at` holds this AID, whose last byte is the one given. Most AIDs differ in it, so it goes first.
fn holds(img: &[u8], at: usize, aid: &[u8], last: u8) -> bool
    requires place { (at + 17 ≤ length img.now) × (get_or img.now at 0 ≤ 16) }
    requires known { last ≡ last_of aid.now }
    ensures { result ≡ eq_aid (aid_in img.now at) aid.now }
{
    let n = aid.len();
    n <= 16 && img[at + n] == last && img[at] as usize == n && rows::same_short(img, at + 1, aid)
}

// The place at `at` holds this AID.
pub fn aid_is(img: &[u8], at: usize, aid: &[u8]) -> bool
    requires { (at + 17 ≤ length img.now) × (get_or img.now at 0 ≤ 16) }
    ensures { result ≡ eq_aid (aid_in img.now at) aid.now }
{
    holds(img, at, aid, last_of(aid))
}

// The first of n places of AIDs from `at` on that holds this one and whose bit of the row is set.
// The numbers are the caller's, so that the loop asks for no card.
#[inline(never)]
fn find_aid(img: &[u8], at: usize, n: usize, row: u16, aid: &[u8]) -> Option<usize>
    requires { (n ≤ 16) × (at + n * 17 ≤ length img.now) × ((k : ℕ) → k < n → get_or img.now (at + k * 17) 0 ≤ 16) }
    ensures { result ≡ found (first (aid_held img.now at row aid.now) (upto n)) }
{
    let last = last_of(aid);
    (0..n).find(|i| holds(img, at + i * 17, aid, last) && bits::has_bit(row, *i))
}

// The first of n pairs of tokens from `at` on that are these and whose bit of the row is set.
fn find_tokens(img: &[u8], at: usize, n: usize, row: u16, t: Tokens) -> Option<usize>
    requires { (n ≤ 16) × (at + n * 2 ≤ length img.now) }
    ensures { result ≡ found (first (tokens_held img.now at row t) (upto n)) }
{
    (0..n).find(|k| Tokens::at(img, at + k * 2) == t && bits::has_bit(row, *k))
}

impl Image<'_> {
    // The used package numbers.
    pub fn used_row(self) -> u16
        ensures { result ≡ row_of (lay self.entry).packages (tables self.entry).used }
    {
        geometry::row_at(self.bytes, self.card, 3)
    }

    // The services that package j provides.
    pub fn provided_row(self, j: usize) -> u16
        requires { j < (lay self).packages }
        ensures { result ≡ row_of (lay self.entry).services ((tables self.entry).provides j) }
    {
        let at = geometry::prov_at(self.card, j);
        geometry::row_at(self.bytes, self.card, at)
    }

    // The entry of a table in row i, column j.
    pub fn entry(self, tb: Table, i: usize, j: usize) -> u16
        requires { (i < (lay self).packages) × (j < (lay self).packages) }
        ensures { result ≡ row_of (lay self.entry).services (table_of tb (tables self.entry) i j) }
    {
        let at = geometry::entry_at(self.card, tb, i, j);
        geometry::row_at(self.bytes, self.card, at)
    }

    // The tokens of service k of package j.
    pub fn tokens_at(self, j: usize, k: usize) -> Tokens
        requires { (j < (lay self).packages) × (k < (lay self).services) }
        ensures { tok_of result ≡ (tables self.entry).tok j k }
    {
        let at = geometry::tok_at(self.card, j, k);
        Tokens::at(self.bytes, at)
    }

    // The tokens of the services of package j, one after another, of those that it does not provide too; then zeros.
    pub fn token_row(self, j: usize) -> [u8; 32]
        requires { j < (lay self).packages }
        ensures { ((k : ℕ) → k < (lay self.entry).services → tokens_in result (k * 2) ≡ (tables self.entry).tok j k)
            × ((i : ℕ) → (lay self.entry).services * 2 ≤ i → i < 32 → get_or result i 0 ≡ 0) }
    {
        let at = geometry::tok_at(self.card, j, 0);
        let size = geometry::services(self.card) * 2;
        let mut row = [0u8; 32];
        row[..size].copy_from_slice(&self.bytes[at..at + size]);
        row
    }

    // The AID of package n in its place, 17 bytes: length, bytes, zero fill.
    pub fn aid_place(self, n: usize) -> [u8; 17]
        requires { n < (lay self).packages }
        ensures { result ≡ write_aid ((tables self.entry).aid n) }
    {
        let at = geometry::aid_at(self.card, n);
        let mut place = [0u8; 17];
        place.copy_from_slice(&self.bytes[at..at + 17]);
        place
    }

    // Package number n is used and has this AID.
    pub fn is_package(self, n: usize, aid: &[u8]) -> bool
        requires { n < (lay self).packages }
        ensures { result ≡ (tables self.entry).used n && eq_aid ((tables self.entry).aid n) aid.now }
    {
        let at = geometry::aid_at(self.card, n);
        aid_is(self.bytes, at, aid) && bits::has_bit(self.used_row(), n)
    }

    // The number of the package with this AID. Asked often, so it goes into its callers, and the struct not through memory.
    #[inline(always)]
    pub fn find_package(self, aid: &[u8]) -> Option<usize>
        ensures is { result ≡ found (number_of (lay self.entry) (tables self.entry) aid.now) }
        ensures low { IfSome result (λ n. n < (lay self.entry).packages) }
    {
        let n = geometry::packages(self.card);
        let at = geometry::aid_at(self.card, 0);
        find_aid(self.bytes, at, n, self.used_row(), aid)
    }

    // The number of package j's service with these tokens.
    pub fn find_service(self, j: usize, t: Tokens) -> Option<usize>
        requires { j < (lay self).packages }
        ensures is { result ≡ found (service_of (lay self.entry) (tables self.entry) j (tok_of t)) }
        ensures low { IfSome result (λ k. k < (lay self.entry).services) }
    {
        let n = geometry::services(self.card);
        let at = geometry::tok_at(self.card, j, 0);
        find_tokens(self.bytes, at, n, self.provided_row(j), t)
    }

    // Where the service of this AID with these tokens stands.
    #[tactic(auto, unfolding(policy::specs::Lookup::server_of))]
    pub fn find_server(self, aid: &[u8], t: Tokens) -> Option<Place>
        ensures is { result ≡ found_place (server_of (lay self.entry) (tables self.entry) (asked aid.now t)) }
        ensures low { IfSome result (λ p. (p.callee < (lay self.entry).packages) × (p.service < (lay self.entry).services)) }
    {
        let callee = self.find_package(aid)?;
        let service = self.find_service(callee, t)?;
        Some(Place { callee, service })
    }

    // Where a grant of package j to this AID of the service with these tokens stands as a bit: caller and service are on the card.
    #[tactic(auto, unfolding(policy::specs::Lookup::spot_of))]
    pub fn find_spot(self, j: usize, aid: &[u8], t: Tokens) -> Option<Spot>
        requires { j < (lay self).packages }
        ensures is { result ≡ found_spot (spot_of (lay self.entry) (tables self.entry) j (asked aid.now t)) }
        ensures low { IfSome result (λ p. (p.caller < (lay self.entry).packages) × (p.service < (lay self.entry).services)) }
    {
        let caller = self.find_package(aid)?;
        let service = self.find_service(j, t)?;
        Some(Spot { caller, service })
    }

    // The lowest unused package number.
    pub fn free_number(self) -> Option<usize>
        ensures is { result ≡ found (free_number (lay self.entry) (tables self.entry)) }
        ensures low { IfSome result (λ n. n < (lay self.entry).packages) }
    {
        let n = bits::lowest_clear(self.used_row());
        (n < geometry::packages(self.card)).then_some(n)
    }

    // The lowest service number that package j does not provide.
    pub fn free_service(self, j: usize) -> Option<usize>
        requires { j < (lay self).packages }
        ensures is { result ≡ found (free_service (lay self.entry) (tables self.entry) j) }
        ensures low { IfSome result (λ k. k < (lay self.entry).services) }
    {
        let k = bits::lowest_clear(self.provided_row(j));
        (k < geometry::services(self.card)).then_some(k)
    }
}
