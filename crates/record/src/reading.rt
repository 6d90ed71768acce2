// Reads a record: the first AID and the change, or that it is malformed.
ghost use Rattle.std.specs.Prelude.{◌≡◌, ◌≤◌, length, drop};
ghost use Rattle.policy.specs.Record.{change, a_contract, a_service};
ghost use Rattle.geometry.specs.Geometry.{layout_of};
ghost use Rattle.record.specs.declared.ContractKind.{ContractKind};
ghost use Rattle.record.specs.Meaning.{whole_of};
ghost use Rattle.record.specs.Listed.{change_by};
ghost use Rattle.record.specs.Reading.{ReadsOn, ReadsAll};
ghost use Rattle.record.specs.Parsing.{kind_of, Parses};

use crate::list::{Aid, Aids, Lists, Row};
use crate::reader::Reader;
use crate::{ContractKind, RowKind};
use geometry::{Card, Tokens};

// What follows the first AID, for the kinds from 1 to 8, and 11.
#[derive(Clone, Copy)]
pub enum Kind<'a> {
    Contract(ContractKind, Lists<'a>),
    Remove,
    AddService(Tokens, Aids<'a>),
    RemoveService(Tokens),
    Row(RowKind, Row<'a>),
}

// A record: the first AID, and the change of its contract.
#[derive(Clone, Copy)]
pub struct Record<'a> {
    pub aid: Aid<'a>,
    pub kind: Kind<'a>,
}

// A contract's four lists.
#[inline(always)]
fn lists<'a>(r: &mut Reader<'a>, c: Card) -> Option<Lists<'a>>
    ensures { (k : ContractKind) → ReadsOn (change_by k) (a_contract (layout_of c) (whole_of k)) (drop r.old.at r.old.src.now) result
        (drop r.new.at r.new.src.now) }
{
    let provides = r.services(c)?;
    let calls = r.rows(c)?;
    let grants = r.rows(c)?;
    let needs = r.rows(c)?;
    Some(Lists {
        provides,
        calls,
        grants,
        needs,
    })
}

// A service that comes, and its callers.
#[inline(always)]
fn new_service<'a>(r: &mut Reader<'a>, c: Card) -> Option<Kind<'a>>
    ensures { ReadsOn kind_of (a_service (layout_of c)) (drop r.old.at r.old.src.now) result (drop r.new.at r.new.src.now) }
{
    let tokens = r.tokens(c)?;
    let callers = r.callers(c)?;
    Some(Kind::AddService(tokens, callers))
}

// A contract's four lists, from a position to the end of the bytes.
pub fn read_lists(rec: &[u8], at: usize, c: Card) -> Option<Lists<'_>>
    requires { at ≤ length rec.now }
    ensures { (k : ContractKind) → ReadsAll (change_by k) (a_contract (layout_of c) (whole_of k)) (drop at rec.now) result }
{
    let mut r = Reader { src: rec, at };
    let read = lists(&mut r, c)?;
    if r.at != r.src.len() {
        return None;
    }
    Some(read)
}

// A service that comes, and its callers, from a position to the end of the bytes.
pub fn read_add_service(rec: &[u8], at: usize, c: Card) -> Option<Kind<'_>>
    requires { at ≤ length rec.now }
    ensures { ReadsAll kind_of (a_service (layout_of c)) (drop at rec.now) result }
{
    let mut r = Reader { src: rec, at };
    let read = new_service(&mut r, c)?;
    if r.at != r.src.len() {
        return None;
    }
    Some(read)
}

// What follows the first AID, by the kind byte.
#[inline(always)]
fn read_kind<'a>(r: &mut Reader<'a>, c: Card, kind: u8) -> Option<Kind<'a>>
    ensures { ReadsOn kind_of (change (layout_of c) kind) (drop r.old.at r.old.src.now) result (drop r.new.at r.new.src.now) }
{
    if let Some(k) = ContractKind::of(kind) {
        return Some(Kind::Contract(k, lists(r, c)?));
    }
    if let Some(k) = RowKind::of(kind) {
        return Some(Kind::Row(k, r.row(c)?));
    }
    match kind {
        2 => Some(Kind::Remove),
        3 => new_service(r, c),
        4 => Some(Kind::RemoveService(r.tokens(c)?)),
        _ => None,
    }
}

// The whole record: its length, the card's version, a kind byte, the first AID, and what follows it, with no bytes left over.
// Laid into its callers: of what one of them does not use nothing is kept on the stack.
#[inline(always)]
pub(crate) fn read(rec: &[u8], c: Card) -> Option<Record<'_>>
    ensures { Parses (layout_of c) rec.now result }
{
    if rec.len() < 4 {
        return None;
    }
    let length = geometry::number_at(rec, 0, 2) as usize;
    if length != rec.len() {
        return None;
    }
    if rec[2] != geometry::version(c) {
        return None;
    }
    let mut r = Reader { src: rec, at: 4 };
    let aid = r.aid()?;
    let kind = read_kind(&mut r, c, rec[3])?;
    if r.at < r.src.len() {
        return None;
    }
    Some(Record { aid, kind })
}

// The same, for those that use all of it.
#[inline(never)]
pub fn read_record(rec: &[u8], c: Card) -> Option<Record<'_>>
    ensures { Parses (layout_of c) rec.now result }
{
    read(rec, c)
}
