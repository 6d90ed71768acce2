// Kinds 1 and 11: whether a contract may come, to a free number or in place of the one that its package has.
ghost use Rattle.std.specs.Prelude.{◌≡◌, not, ◌&&◌, ℕ, ◌≤◌, ◌<◌, T, leb};
ghost use Rattle.policy.specs.Contract.{Aid as Bytes, has_tok};
ghost use Rattle.policy.specs.Sound.{sound};
ghost use Rattle.policy.specs.Tables.{bit};
ghost use Rattle.policy.specs.ShortCheck.{count, now_met};
ghost use Rattle.answers.specs.Numbers.{answered};
ghost use Rattle.image.specs.Image.{lay, tables};
ghost use Rattle.image.specs.Read.{mask_of};
ghost use Rattle.record.specs.Listed.{row_of, toks_of, rows_of, contract_by, change_by, load_by, replace_by};
ghost use Rattle.changes.specs.Asked.{Asked};
ghost use Rattle.changes.specs.Joins.{GivenIn};
ghost use Rattle.changes.specs.Left.{in_column};
ghost use Rattle.packages.specs.Decides.{comes_due, both_there, limit_cause, bring_cause, Newcomes, Replaces};
ghost use Rattle.packages.specs.Decides.{Loads, Renews, AcceptedAs, Decides};

use crate::conditions;
use answers::Refusal;
use changes::{left, lists};
use geometry::{Kept, Table};
use image::Image;
use record::ContractKind;
use record::find::has_tokens;
use record::list::{Lists, Row, Rows, Services};

// What is found of a contract that comes to package number `at`: the unmet calls that it meets and the waiting grants that are due,
// which become bits; the unmet calls and the waiting grants that leave their lists; and the services of the number that it drops.
#[derive(Clone, Copy)]
pub struct Bring {
    pub at: usize,
    pub met: u32,
    pub due: u32,
    pub calls: u32,
    pub grants: u32,
    pub dropped: u16,
}

// A grant of the record waits: its caller is not on the card, or its service is none of the record's.
fn waits(img: Image, provides: Services, g: Row) -> bool
    ensures { result ≡ not (both_there (lay img.entry) (tables img.entry) (toks_of provides.entry) (row_of g.entry)) }
{
    !has_tokens(g.tokens, provides) || img.find_package(g.other.bytes).is_none()
}

// At most `room` grants of the record wait.
fn waiters_fit(img: Image, provides: Services, grants: Rows, room: usize) -> bool
    ensures { result ≡ leb (count (λ x. not (both_there (lay img.entry) (tables img.entry) (toks_of provides.entry) x))
        (rows_of grants.entry)) room }
{
    grants
        .filter(|g| waits(img, provides, *g))
        .nth(room)
        .is_none()
}

// Which unmet calls are on services of the package `own` with the services of the record.
fn met_rows(img: Image, own: &[u8], l: Lists) -> u32
    ensures { result ≡ mask_of (now_met (lay img.entry) (tables img.entry) (contract_by own.now l.entry)) (tables img.entry).unmet }
{
    let unmet = Kept::UnmetCalls;
    img.mask(
        unmet,
        |r| img.has_aid(unmet, r, own) && has_tokens(img.tokens(unmet, r), l.provides),
    )
}

// Which waiting grants are those that wait for the package `own` alone: their services are provided.
fn due_rows(img: Image, own: &[u8]) -> u32
    requires { GivenIn (lay img) (tables img).waiting }
    ensures { result ≡ mask_of (comes_due (lay img.entry) (tables img.entry) own.now) (tables img.entry).waiting }
{
    let waiting = Kept::WaitingGrants;
    img.mask(
        waiting,
        |r| img.has_aid(waiting, r, own) && lists::granted_service(img, r).is_some(),
    )
}

// How many bits of the services d column n of a table has, where d may name none.
fn bits_on(img: Image, tb: Table, n: usize, d: u16) -> usize
    requires { n < (lay img).packages }
    ensures { (result ≡ in_column (lay img.entry) tb (tables img.entry) n (bit d)) × (result ≤ 256) }
{
    if d == 0 {
        return 0;
    }
    left::column(img, tb, n, d)
}

// Cause 10 or 11, for so many more unmet calls, where a list has no room.
fn limits(img: Image, l: Lists, more: usize, b: Bring) -> Result<(), Refusal>
    ensures { answered result ≡ limit_cause (lay img.entry) (tables img.entry) b.calls b.grants more
        (toks_of l.entry.provides) (rows_of l.entry.grants) }
{
    if lists::room_after(img, Kept::UnmetCalls, b.calls) < more {
        return Err(Refusal::UnmetFull);
    }
    if !waiters_fit(
        img,
        l.provides,
        l.grants,
        lists::room_after(img, Kept::WaitingGrants, b.grants),
    ) {
        return Err(Refusal::WaitingFull);
    }
    Ok(())
}

// The cause from 8 to 11 against the lists of the record. The report's three conditions come in its order, then the needs of others on
// services that kind 11 drops, then the limits. 8 stands before 9: the third is worked where the second has failed, too.
fn cause(img: Image, l: Lists, b: Bring) -> Result<(), Refusal>
    requires sound { T (sound (lay img) img.bytes.now) }
    requires inside { b.at < (lay img).packages }
    ensures { (a : Bytes) → answered result ≡ bring_cause (lay img.entry) (tables img.entry) (contract_by a l.entry) b }
{
    let Some(unserved) = conditions::newcomer_rights(img, b.at, b.due, l.calls) else {
        return Err(Refusal::Ungranted);
    };
    let needs = conditions::newcomer_needs(img, l.needs);
    if !conditions::others_rights(img, l.grants, b.met) {
        return Err(Refusal::Ungranted);
    }
    if !needs || bits_on(img, Table::Needs, b.at, b.dropped) != 0 {
        return Err(Refusal::NeedUnmet);
    }
    limits(
        img,
        l,
        unserved + bits_on(img, Table::Calls, b.at, b.dropped),
        b,
    )
}

// The package `own`, which is not on the card, comes to number `at`, which is free, with the lists of the record.
fn newcomer(img: Image, own: &[u8], l: Lists, at: usize) -> Bring
    requires { T (sound (lay img) img.bytes.now) }
    ensures { Newcomes (lay img.entry) (tables img.entry) (contract_by own.now l.entry) at result }
{
    let met = met_rows(img, own, l);
    let due = due_rows(img, own);
    Bring {
        at,
        met,
        due,
        calls: met,
        grants: due,
        dropped: 0,
    }
}

// Service k of package n, which provides those of the row, is none of the record's.
fn is_dropped(img: Image, n: usize, row: u16, k: usize, provides: Services) -> bool
    requires { (n < (lay img).packages) × (k < (lay img).services) }
    ensures { result ≡ bit row k && not (has_tok ((tables img.entry).tok n k) (toks_of provides.entry)) }
{
    bits::is_set(row.into(), k) && !has_tokens(img.tokens_at(n, k), provides)
}

// Which services of package n are none of the record's.
fn dropped_services(img: Image, n: usize, provides: Services) -> u16
    requires { n < (lay img).packages }
    ensures { (z : ℕ) → bit result z ≡ (tables img.entry).provides n z
        && not (has_tok ((tables img.entry).tok n z) (toks_of provides.entry)) }
{
    let row = img.provided_row(n);
    let mut mask: u16 = 0;
    // Stays: each turn changes the mask, which is of services; `Image::mask` is of a list's rows.
    for k in 0..geometry::services(img.card) {
        if is_dropped(img, n, row, k, provides) {
            mask = bits::with_bit(mask, k);
        }
    }
    mask
}

// The lists of the record come in place of the contract of the package `own`, which has number n.
fn renewal(img: Image, own: &[u8], l: Lists, n: usize) -> Bring
    requires { n < (lay img).packages }
    ensures { Replaces (lay img.entry) (tables img.entry) (contract_by own.now l.entry) n result }
{
    let met = met_rows(img, own, l);
    Bring {
        at: n,
        met,
        due: 0,
        calls: met | img.with_number(Kept::UnmetCalls, n),
        grants: img.with_number(Kept::WaitingGrants, n),
        dropped: dropped_services(img, n, l.provides),
    }
}

// Decides whether the package `own` is loaded with the lists of the record.
pub fn load(img: Image, own: &[u8], l: Lists) -> Result<Bring, Refusal>
    requires { Asked (lay img) img.bytes.now own.now (load_by l) }
    ensures { Decides (lay img.entry) img.entry.bytes.now (contract_by own.now l.entry) (load_by l.entry)
        (Loads (lay img.entry) img.entry.bytes.now (contract_by own.now l.entry)) result }
{
    if img.find_package(own).is_some() {
        return Err(Refusal::Installed);
    }
    let Some(at) = img.free_number() else {
        return Err(Refusal::NoNumber);
    };
    let b = newcomer(img, own, l, at);
    cause(img, l, b)?;
    Ok(b)
}

// Decides whether the lists of the record replace the contract of the package `own`.
pub fn replace(img: Image, own: &[u8], l: Lists) -> Result<Bring, Refusal>
    requires { Asked (lay img) img.bytes.now own.now (replace_by l) }
    ensures { Decides (lay img.entry) img.entry.bytes.now (contract_by own.now l.entry) (replace_by l.entry)
        (Renews (lay img.entry) img.entry.bytes.now (contract_by own.now l.entry)) result }
{
    let Some(n) = img.find_package(own) else {
        return Err(Refusal::NotInstalled);
    };
    let b = renewal(img, own, l, n);
    if !conditions::kept_rights(img, n, b.dropped, l.grants) {
        return Err(Refusal::Ungranted);
    }
    cause(img, l, b)?;
    Ok(b)
}

// Decides whether the lists of the record come.
pub fn contract(img: Image, own: &[u8], k: ContractKind, l: Lists) -> Result<Bring, Refusal>
    requires { Asked (lay img) img.bytes.now own.now (change_by k l) }
    ensures { Decides (lay img.entry) img.entry.bytes.now (contract_by own.now l.entry) (change_by k l.entry)
        (AcceptedAs k (lay img.entry) img.entry.bytes.now (contract_by own.now l.entry)) result }
{
    match k {
        ContractKind::Load => load(img, own, l),
        ContractKind::Replace => replace(img, own, l),
    }
}
