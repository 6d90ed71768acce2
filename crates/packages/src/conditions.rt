// The report, definition 7.1: applet B comes to a platform of applications A. Its three conditions, each 'for all applications A', in its
// order. B's contract is that of the record, and its package number is n: a free one, or for kind 11 the one that the package has.
ghost use Rattle.std.specs.Prelude.{◌≡◌, not, ◌&&◌, ◌<◌, T, eqb, length};
ghost use Rattle.std.specs.Int.Bits.{bit_and};
ghost use Rattle.policy.specs.Contract.{eq_tok};
ghost use Rattle.policy.specs.Sound.{sound};
ghost use Rattle.policy.specs.Tables.{bit};
ghost use Rattle.geometry.specs.Geometry.{tok_of};
ghost use Rattle.image.specs.Image.{lay, tables};
ghost use Rattle.image.specs.Read.{mask_of};
ghost use Rattle.record.specs.Listed.{row_of, rows_of, Among};
ghost use Rattle.packages.specs.Conditions.{granted_at, CallsCome, needs_served, grant_fits, granted_to, named_granted, others_granted};
ghost use Rattle.packages.specs.Conditions.{service_granted, row_granted, caller_granted, kept_granted};

use geometry::{Kept, Table, Tokens};
use image::Image;
use image::read::Place;
use record::find::seek;
use record::list::{Row, Rows};

// The waiting grants of the service with these tokens of package j, as far as the mask tells: where it names none, none is looked for.
fn awaited(img: Image, due: u32, j: usize, t: Tokens) -> u32
    ensures { bit_and due result ≡ bit_and due
        (mask_of (λ w. eqb w.callee j && eq_tok w.tok (tok_of t)) (tables img.entry).waiting) }
{
    if due == 0 {
        return 0;
    }
    img.with_service(Kept::WaitingGrants, j, t)
}

// Package n may call the service with these tokens, whose place this is: a grant of it is due, or a bit.
fn may_call(img: Image, n: usize, due: u32, p: Place, t: Tokens) -> bool
    requires { (n < (lay img).packages) × (p.callee < (lay img).packages) × (p.service < (lay img).services) }
    ensures { result ≡ granted_at (lay img.entry) (tables img.entry) due n (tok_of t)
        (record { callee = p.callee; service = p.service }) }
{
    due & awaited(img, due, p.callee, t) != 0
        || bits::is_set(img.entry(Table::Grants, p.callee, n).into(), p.service)
}

// 1. 'B ∈ secrules_A(Provides_A ∩ Calls_B)', the newcomer's rights: each call of the record is granted to package n by its server, if
// there is one; and how many have none.
pub fn newcomer_rights(img: Image, n: usize, due: u32, calls: Rows) -> Option<usize>
    requires { n < (lay img).packages }
    ensures { CallsCome (lay img.entry) (tables img.entry) due n (rows_of calls.entry) result }
{
    let mut unserved: usize = 0;
    for r in calls {
        match img.find_server(r.other.bytes, r.tokens) {
            None => unserved += 1,
            Some(p) => {
                if !may_call(img, n, due, p, r.tokens) {
                    return None;
                }
            }
        }
    }
    Some(unserved)
}

// 2. 'funcrules_B ⊆ ⋃ Provides_A', its needs: the service of each need of the record is on the card.
pub fn newcomer_needs(img: Image, mut needs: Rows) -> bool
    ensures { result ≡ needs_served (lay img.entry) (tables img.entry) (rows_of needs.entry) }
{
    needs.all(|r| img.find_server(r.other.bytes, r.tokens).is_some())
}

// A grant of the record is of these tokens, and to package i.
fn grant_fits(img: Image, i: usize, t: Tokens, g: Row) -> bool
    requires { i < (lay img).packages }
    ensures { result ≡ grant_fits (lay img.entry) (tables img.entry) i (tok_of t) (row_of g.entry) }
{
    t == g.tokens && img.is_package(i, g.other.bytes)
}

// The record grants the service with these tokens to package i.
fn granted_to(img: Image, i: usize, t: Tokens, mut grants: Rows) -> bool
    requires { i < (lay img).packages }
    ensures { result ≡ granted_to (lay img.entry) (tables img.entry) (rows_of grants.entry) i (tok_of t) }
{
    grants.any(|g| grant_fits(img, i, t, g))
}

// Unmet call r is granted by the record, where the mask names it.
fn named_granted(img: Image, r: usize, grants: Rows, met: u32) -> bool
    requires sound { T (sound (lay img) img.bytes.now) }
    requires inside { r < length (tables img).unmet }
    ensures { result ≡ named_granted (lay img.entry) (tables img.entry) (rows_of grants.entry) met r }
{
    let l = Kept::UnmetCalls;
    !bits::is_set(met.into(), r) || granted_to(img, img.number(l, r), img.tokens(l, r), grants)
}

// 3. 'A ∈ secrules_B(Provides_B ∩ Calls_A)', the rights of those already there: each unmet call of the mask is granted by the record.
pub fn others_rights(img: Image, grants: Rows, met: u32) -> bool
    requires { T (sound (lay img) img.bytes.now) }
    ensures { result ≡ others_granted (lay img.entry) (tables img.entry) (rows_of grants.entry) met }
{
    (0..img.count(Kept::UnmetCalls)).all(|r| named_granted(img, r, grants, met))
}

// Service k of package n is granted by the record to package i, where the row has it. The search goes on after the grant found last: a
// contract that was read out has its grants in the order in which they are looked for.
fn service_granted<'a>(
    img: Image,
    n: usize,
    i: usize,
    k: usize,
    row: u16,
    from: &mut Rows<'a>,
    grants: Rows<'a>,
) -> bool
    requires inside { (n < (lay img).packages) × (i < (lay img).packages) × (k < (lay img).services) }
    requires among { Among grants from.old }
    ensures { (result ≡ service_granted (lay img.entry) (tables img.entry) (rows_of grants.entry) n i (bit row) k)
        × Among grants.entry from.new }
{
    if !bits::is_set(row.into(), k) {
        return true;
    }
    let t = img.tokens_at(n, k);
    seek(grants, from, |g| grant_fits(img, i, t, g))
}

// Each service of package n that the row has is granted by the record to package i.
fn row_granted<'a>(
    img: Image,
    n: usize,
    i: usize,
    row: u16,
    from: &mut Rows<'a>,
    grants: Rows<'a>,
) -> bool
    requires inside { (n < (lay img).packages) × (i < (lay img).packages) }
    requires among { Among grants from.old }
    ensures { (result ≡ row_granted (lay img.entry) (tables img.entry) (rows_of grants.entry) n i (bit row)) × Among grants.entry from.new }
{
    // Stays: each turn changes `from`; of a chain whose closure changes what it captures nothing is known.
    for k in 0..geometry::services(img.card) {
        if !service_granted(img, n, i, k, row, from, grants) {
            return false;
        }
    }
    true
}

// The services of package n that package i calls and that stay are granted to it by the record.
fn caller_granted<'a>(
    img: Image,
    n: usize,
    i: usize,
    dropped: u16,
    from: &mut Rows<'a>,
    grants: Rows<'a>,
) -> bool
    requires inside { (n < (lay img).packages) × (i < (lay img).packages) }
    requires among { Among grants from.old }
    ensures { (result ≡ caller_granted (lay img.entry) (tables img.entry) (rows_of grants.entry) n dropped i)
        × Among grants.entry from.new }
{
    let kept = bits::others(img.entry(Table::Calls, i, n), dropped);
    kept == 0 || row_granted(img, n, i, kept, from, grants)
}

// Kind 11: the third of calls on services of package n that stay, which are met: each is granted by the record.
pub fn kept_rights(img: Image, n: usize, dropped: u16, grants: Rows) -> bool
    requires sound { T (sound (lay img) img.bytes.now) }
    requires inside { n < (lay img).packages }
    ensures { result ≡ kept_granted (lay img.entry) (tables img.entry) (rows_of grants.entry) n dropped }
{
    if img.provided_row(n) == 0 {
        return true;
    }
    let mut from = grants;
    // Stays: as in `row_granted`.
    for i in 0..geometry::packages(img.card) {
        if !caller_granted(img, n, i, dropped, &mut from, grants) {
            return false;
        }
    }
    true
}
