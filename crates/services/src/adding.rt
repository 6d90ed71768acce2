// Kind 3: a service with its grants. Unmet calls on it and waiting grants of it become bits; a grant waits, once, where its caller is not
// installed.
ghost use Rattle.std.specs.Prelude.{◌≡◌, Bool, true, false, ◌&&◌, ◌||◌, ◌<◌, T, leb, length};
ghost use Rattle.policy.specs.Lists.{implies, every, exists};
ghost use Rattle.policy.specs.Contract.{eq_aid};
ghost use Rattle.policy.specs.Record.{add_service};
ghost use Rattle.policy.specs.Tables.{Unmet, Waiting, bit};
ghost use Rattle.policy.specs.Lookup.{number_of};
ghost use Rattle.policy.specs.Sound.{sound};
ghost use Rattle.policy.specs.Draft.{installed_aid};
ghost use Rattle.policy.specs.ShortCheck.{count};
ghost use Rattle.policy.specs.Settled.{settled};
ghost use Rattle.answers.specs.Numbers.{Answers};
ghost use Rattle.geometry.specs.Geometry.{layout_of, tok_of, tables_of};
ghost use Rattle.image.specs.Image.{lay, tables};
ghost use Rattle.image.specs.Laid.{Laid};
ghost use Rattle.image.specs.Wrote.{Wrote};
ghost use Rattle.image.specs.Read.{mask_of, unmet_row};
ghost use Rattle.record.specs.Listed.{bytes_of, aids_of};
ghost use Rattle.changes.specs.Asked.{Asked};
ghost use Rattle.services.specs.Adding.{waits_in, waited_at, is_lone, granted_at, granted_to_all, RoomFor, added, AddFits, due_to};
ghost use Rattle.services.specs.Adding.{by_callers, adding_at, adding_plan};

use answers::{Refusal, Verdict};
use geometry::{Card, Kept, Table, Tokens};
use image::Image;
use record::list::{Aid, Aids};

// A service that comes: its package, its number there, and its tokens.
#[derive(Clone, Copy)]
pub struct Service {
    pub provider: usize,
    pub number: usize,
    pub tokens: Tokens,
}

// What kind 3 comes to: the service, and which unmet calls and waiting grants become bits.
#[derive(Clone, Copy)]
pub struct Adding {
    pub service: Service,
    pub met: u32,
    pub due: u32,
}

// Whether package n, a used one, is among the callers.
fn is_among(img: Image, n: usize, mut callers: Aids) -> bool
    requires { (n < (lay img).packages) × T ((tables img).used n) }
    ensures { result ≡ exists (eq_aid ((tables img.entry).aid n)) (aids_of callers.entry) }
{
    callers.any(|a| img.is_package(n, a.bytes))
}

// Which waiting grants of the mask are to installed packages.
fn due_rows(img: Image, granting: u32) -> u32
    ensures { (f : Waiting → Bool) → granting ≡ mask_of f (tables img.entry).waiting
        → result ≡ mask_of (λ w. f w && installed_aid (lay img.entry) (tables img.entry) w.caller) (tables img.entry).waiting }
{
    img.mask(
        Kept::WaitingGrants,
        |r| bits::is_set(granting.into(), r) && img.find_holder(Kept::WaitingGrants, r).is_some(),
    )
}

// Whether a waiting grant of the mask is to package n.
fn is_due_to(img: Image, due: u32, n: usize) -> bool
    requires { n < (lay img).packages }
    ensures { result ≡ due_to (lay img.entry) due (tables img.entry) n }
{
    (0..img.count(Kept::WaitingGrants)).any(|r| bits::is_set(due.into(), r)
        && img.find_holder(Kept::WaitingGrants, r) == Some(n))
}

// Whether unmet call r, if the mask names it, is by one of the callers, or a waiting grant that is due is to its caller.
fn row_granted(img: Image, asking: u32, due: u32, r: usize, callers: Aids) -> bool
    requires is_sound { T (sound (lay img) img.bytes.now) }
    requires inside { r < length (tables img).unmet }
    ensures { result ≡ implies (bit asking r)
        (exists (eq_aid ((tables img.entry).aid (unmet_row (tables img.entry) r).caller)) (aids_of callers.entry)
        || due_to (lay img.entry) due (tables img.entry) (unmet_row (tables img.entry) r).caller) }
{
    if !bits::is_set(asking.into(), r) {
        return true;
    }
    let n = img.number(Kept::UnmetCalls, r);
    is_among(img, n, callers) || is_due_to(img, due, n)
}

// Whether each unmet call of the mask is by one of the callers, or a waiting grant that is due is to its caller.
fn all_granted(img: Image, asking: u32, due: u32, callers: Aids) -> bool
    requires { T (sound (lay img) img.bytes.now) }
    ensures { (f : Unmet → Bool) → asking ≡ mask_of f (tables img.entry).unmet
        → result ≡ every (by_callers (lay img.entry) (tables img.entry) (aids_of callers.entry) due f) (tables img.entry).unmet }
{
    (0..img.count(Kept::UnmetCalls)).all(|r| row_granted(img, asking, due, r, callers))
}

// Whether a waiting grant of the mask is to this AID.
fn waits(img: Image, mask: u32, a: Aid) -> bool
    ensures { result ≡ waits_in mask (tables img.entry) (bytes_of a.entry) }
{
    mask != 0
        && (0..img.count(Kept::WaitingGrants)).any(|r| bits::is_set(mask.into(), r)
            && img.has_aid(Kept::WaitingGrants, r, a.bytes))
}

// Whether no package has this AID, and no waiting grant of the mask is to it.
fn is_lone(img: Image, mask: u32, a: Aid) -> bool
    ensures { result ≡ is_lone (lay img.entry) mask (tables img.entry) (bytes_of a.entry) }
{
    img.find_package(a.bytes).is_none() && !waits(img, mask, a)
}

// Whether there is room for the grants to callers that are not installed and do not wait among those of the mask: no more than `room`.
fn callers_fit(img: Image, granting: u32, room: usize, callers: Aids) -> bool
    ensures { result ≡ leb (count (is_lone (lay img.entry) granting (tables img.entry)) (aids_of callers.entry)) room }
{
    callers
        .filter(|a| is_lone(img, granting, *a))
        .nth(room)
        .is_none()
}

// What kind 3 comes to with its new service, of the package whose AID is own: causes 8 and 11.
fn plan_lists(img: Image, own: &[u8], service: Service, callers: Aids) -> Result<Adding, Refusal>
    requires is_sound { T (sound (lay img) img.bytes.now) }
    requires is_own { (tables img).aid service.provider ≡ own.now }
    ensures { result ≡ adding_at (lay img.entry) (tables img.entry) service.tokens (aids_of callers.entry) service.provider service.number }
{
    let met = img.with_row(Kept::UnmetCalls, own, service.tokens);
    let granting = img.with_service(Kept::WaitingGrants, service.provider, service.tokens);
    let due = due_rows(img, granting);
    if !all_granted(img, met, due, callers) {
        return Err(Refusal::Ungranted);
    }
    let room = changes::lists::room_after(img, Kept::WaitingGrants, due);
    if !callers_fit(img, granting, room, callers) {
        return Err(Refusal::WaitingFull);
    }
    Ok(Adding { service, met, due })
}

// What kind 3 comes to: causes 5 to 7 too.
fn plan_adding(img: Image, own: &[u8], tokens: Tokens, callers: Aids) -> Result<Adding, Refusal>
    requires { T (sound (lay img) img.bytes.now) }
    ensures { result ≡ adding_plan (lay img.entry) (tables img.entry) tokens (aids_of callers.entry) own.now }
{
    let provider = img.find_package(own).ok_or(Refusal::NotInstalled)?;
    if img.find_service(provider, tokens).is_some() {
        return Err(Refusal::Pointless);
    }
    let number = img.free_service(provider).ok_or(Refusal::NoNumber)?;
    let service = Service {
        provider,
        number,
        tokens,
    };
    plan_lists(img, own, service, callers)
}

// A grant of the service to this AID waits, if no waiting grant of the mask is to it.
fn wait(img: &mut [u8], c: Card, mask: u32, s: Service, a: Aid)
    requires laid { Laid (layout_of c) img.old }
    requires inside { s.provider < (layout_of c).packages }
    requires room { waits_in mask (tables_of c img.old) (bytes_of a) ≡ false
        → length (tables_of c img.old).waiting < (layout_of c).capacity }
    ensures { Wrote (layout_of c) img.new
        (waited_at mask s.provider (tok_of s.tokens) (bytes_of a.entry) (tables_of c img.old)) }
{
    let view = Image {
        bytes: img,
        card: c,
    };
    if !waits(view, mask, a) {
        image::write::append_row(img, c, Kept::WaitingGrants, a.bytes, s.tokens, s.provider);
    }
}

// The service is granted to this AID: a bit where it is installed, else the grant waits.
fn grant(img: &mut [u8], c: Card, mask: u32, s: Service, a: Aid)
    requires laid { Laid (layout_of c) img.old }
    requires numbers { (s.provider < (layout_of c).packages) × (s.number < (layout_of c).services) }
    requires room { is_lone (layout_of c) mask (tables_of c img.old) (bytes_of a) ≡ true → length (tables_of c img.old).waiting
        < (layout_of c).capacity }
    ensures { Wrote (layout_of c) img.new
        (granted_at (layout_of c) mask s.provider s.number (tok_of s.tokens) (bytes_of a.entry) (tables_of c img.old)
        (number_of (layout_of c) (tables_of c img.old) (bytes_of a.entry))) }
{
    let view = Image {
        bytes: img,
        card: c,
    };
    match view.find_package(a.bytes) {
        Some(i) => image::write::put_bit(img, c, Table::Grants, s.provider, i, s.number, true),
        None => wait(img, c, mask, s, a),
    }
}

// The service is granted to the callers; none of them waits for it twice.
fn grant_all(img: &mut [u8], c: Card, s: Service, callers: Aids)
    requires laid { Laid (layout_of c) img.old }
    requires numbers { (s.provider < (layout_of c).packages) × (s.number < (layout_of c).services) }
    requires room { RoomFor (layout_of c) s.provider (tok_of s.tokens) (aids_of callers) (tables_of c img.old) }
    ensures { Wrote (layout_of c) img.new
        (granted_to_all (layout_of c) s.provider s.number (tok_of s.tokens) (aids_of callers.entry) (tables_of c img.old)) }
{
    let view = Image {
        bytes: img,
        card: c,
    };
    let still = view.with_service(Kept::WaitingGrants, s.provider, s.tokens);
    for a in callers {
        grant(img, c, still, s, a);
    }
}

// The service comes, with the unmet calls on it and the waiting grants of it that the plan names; the callers are granted it.
fn serve(img: &mut [u8], c: Card, plan: Adding, callers: Aids)
    requires laid { Laid (layout_of c) img.old }
    requires fit { AddFits (layout_of c) plan.met plan.due plan.service.provider plan.service.number
        (tok_of plan.service.tokens) (aids_of callers) (tables_of c img.old) }
    ensures { Wrote (layout_of c) img.new (added (layout_of c) plan.met plan.due plan.service.provider plan.service.number
        (tok_of plan.service.tokens) (aids_of callers.entry) (tables_of c img.old)) }
{
    let s = plan.service;
    changes::service::open_service(img, c, s.provider, s.number, s.tokens);
    changes::lists::take_in(img, c, s.provider, plan.met, plan.due, plan.met, plan.due);
    grant_all(img, c, s, callers);
}

// Kind 3: a service of the package with AID own, with the callers that it is granted to.
pub fn add_service(img: &mut [u8], c: Card, own: &[u8], t: Tokens, callers: Aids) -> Verdict
    requires { Asked (layout_of c) img.old own.now (add_service (tok_of t) (aids_of callers)) }
    ensures { Answers (settled (layout_of c) img.old own.now (add_service (tok_of t) (aids_of callers.entry))) result img.new }
{
    let view = Image {
        bytes: img,
        card: c,
    };
    let plan = plan_adding(view, own, t, callers)?;
    serve(img, c, plan, callers);
    Ok(plan.service.provider as u8)
}
