// Judging a record on an image: the causes in the order of document 01, then one function for each kind.
#![tactic(auto)]

ghost use Rattle.policy.specs.Record.{add_service};
ghost use Rattle.policy.specs.Judge.{judge as judgement};
ghost use Rattle.answers.specs.Numbers.{Answers};
ghost use Rattle.geometry.specs.Geometry.{layout_of, tok_of};
ghost use Rattle.record.specs.Meaning.{change_of};
ghost use Rattle.record.specs.Listed.{bytes_of, row_of, aids_of, change_by};
ghost use Rattle.record.specs.Parsing.{kind_of};
ghost use Rattle.judging.specs.Properly.{properly, Taken};

use answers::{Refusal, Verdict};
use geometry::{Card, Tokens};
use record::list::{Aid, Aids, Lists, Row};
use record::reading::{Kind, Record};
use record::{ContractKind, RowKind};

pub mod checking;
pub mod empty;

// Kinds 1 and 11, with cause 3.
fn contract(img: &mut [u8], c: Card, own: Aid, k: ContractKind, l: Lists) -> Verdict
    requires { Taken (layout_of c) img.old (bytes_of own) (change_by k l) }
    ensures { Answers (properly (layout_of c) img.old (bytes_of own.entry) (change_by k l.entry)) result img.new }
{
    if !record::proper::contract_proper(own.bytes, l) {
        return Err(Refusal::Contradictory);
    }
    packages::bring(img, c, own.bytes, k, l)
}

// Kind 3, with cause 3.
fn add_service(img: &mut [u8], c: Card, own: Aid, t: Tokens, callers: Aids) -> Verdict
    requires { Taken (layout_of c) img.old (bytes_of own) (add_service (tok_of t) (aids_of callers)) }
    ensures { Answers (properly (layout_of c) img.old (bytes_of own.entry) (add_service (tok_of t) (aids_of callers.entry)))
        result img.new }
{
    if !record::proper::callers_proper(own.bytes, callers) {
        return Err(Refusal::Contradictory);
    }
    services::adding::add_service(img, c, own.bytes, t, callers)
}

// Kinds 5 to 8, with cause 3.
fn change(img: &mut [u8], c: Card, own: Aid, k: RowKind, r: Row) -> Verdict
    requires { Taken (layout_of c) img.old (bytes_of own) (change_of k (row_of r)) }
    ensures { Answers (properly (layout_of c) img.old (bytes_of own.entry) (change_of k (row_of r.entry))) result img.new }
{
    if !record::proper::other_proper(own.bytes, r.other.bytes) {
        return Err(Refusal::Contradictory);
    }
    links::change(img, c, own.bytes, r.other.bytes, r.tokens, k)
}

// Causes 3 to 11, and the change, of a record that was read, on a sound image. Out of line, so that it takes the stack that reading took.
#[inline(never)]
fn judge_read(img: &mut [u8], c: Card, r: Record) -> Verdict
    requires { Taken (layout_of c) img.old (bytes_of r.aid) (kind_of r.kind) }
    ensures { Answers (properly (layout_of c) img.old (bytes_of r.entry.aid) (kind_of r.entry.kind)) result img.new }
{
    let own = r.aid;
    match r.kind {
        Kind::Contract(k, l) => contract(img, c, own, k, l),
        Kind::Remove => packages::removal::remove(img, c, own.bytes),
        Kind::AddService(t, callers) => add_service(img, c, own, t, callers),
        Kind::RemoveService(t) => services::removal::remove_service(img, c, own.bytes, t),
        Kind::Row(k, row) => change(img, c, own, k, row),
    }
}

// A record on an image, both of any bytes: the answer, and the image that is left.
pub fn judge(img: &mut [u8], c: Card, rec: &[u8]) -> Verdict
    ensures { Answers (judgement (layout_of c) img.old rec.now) result img.new }
{
    if !soundness::is_sound(img, c) {
        return Err(Refusal::Unsound);
    }
    let Some(r) = record::reading::read_record(rec, c) else {
        return Err(Refusal::Malformed);
    };
    judge_read(img, c, r)
}
