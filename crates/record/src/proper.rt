// Cause 3, by kind: whether a record that was read is proper. Those of kinds 2 and 4 always are.
ghost use Rattle.std.specs.Prelude.{◌≡◌, ◌&&◌, ◌<◌, ℕ, take};
ghost use Rattle.policy.specs.Lists.{every, distinct};
ghost use Rattle.policy.specs.Contract.{Tok, Row as RowOf, eq_tok, eq_row, has_row};
ghost use Rattle.policy.specs.Record.{add_service, not_own, proper};
ghost use Rattle.geometry.specs.declared.Card.{Card};
ghost use Rattle.geometry.specs.Geometry.{layout_of};
ghost use Rattle.record.specs.declared.ContractKind.{ContractKind};
ghost use Rattle.record.specs.declared.RowKind.{RowKind};
ghost use Rattle.record.specs.Meaning.{change_of};
ghost use Rattle.record.specs.Listed.{row_of, toks_of, aids_of, rows_of, change_by};
ghost use Rattle.record.specs.Marks.{row_mark, marked, with_mark, Sifts};

use crate::find::{has_aid, has_tokens, seek};
use crate::list::{Aids, Lists, Row, Rows, Services};
use crate::same::{same_bytes, same_rows};

// Whether no tokens stand twice in a list.
fn tokens_once(of: Services) -> bool
    ensures { result ≡ distinct eq_tok (toks_of of.entry) }
{
    let mut todo = of;
    while let Some(t) = todo.next() {
        if has_tokens(t, todo) {
            return false;
        }
    }
    true
}

// Kind 3: whether no caller stands twice in the list, and none is the own AID.
pub fn callers_proper(own: &[u8], of: Aids) -> bool
    ensures { (c : Card) (s : Tok) → result ≡ proper (layout_of c) own.now (add_service s (aids_of of.entry)) }
{
    let mut todo = of;
    while let Some(a) = todo.next() {
        if same_bytes(a.bytes, own) {
            return false;
        }
        if has_aid(a, todo) {
            return false;
        }
    }
    true
}

// The mark of a row.
fn row_mark(r: Row) -> usize
    ensures { result ≡ row_mark (row_of r.entry) }
{
    let end = r.other.bytes.len();
    let last = r.other.bytes[end - 1] as usize;
    let other = r.other.bytes[end - 2] as usize;
    (last + 256 * other + 65536 * (r.tokens.method as usize + 256 * r.tokens.interface as usize))
        % 2039
}

// Whether mark h was met; from then on it was.
fn mark(seen: &mut [u64; 32], h: usize) -> bool
    requires { h < 2048 }
    ensures { (result ≡ marked seen.old h) × (seen.new ≡ with_mark h seen.old) }
{
    let k = h / 64;
    let low = h % 64;
    let w = seen[k];
    seen[k] = bits::with_mark(w, low);
    bits::is_set(w, low)
}

// Whether a row is among the first k of a list: they are compared only where its mark was met. From then on it was.
fn repeats(r: Row, k: usize, of: Rows, seen: &mut [u64; 32]) -> bool
    ensures { Sifts (row_of r.entry) (take k (rows_of of.entry)) seen.old result seen.new }
{
    let h = row_mark(r);
    if !mark(seen, h) {
        return false;
    }
    of.take(k).any(|s| same_rows(r, s))
}

// Whether no row stands twice in a list, and none has the own AID as the other end.
fn rows_proper(own: &[u8], of: Rows) -> bool
    ensures { result ≡ (not_own own.now (rows_of of.entry) && distinct eq_row (rows_of of.entry)) }
{
    let mut seen = [0u64; 32];
    for (k, row) in of.enumerate() {
        if same_bytes(row.other.bytes, own) {
            return false;
        }
        if repeats(row, k, of, &mut seen) {
            return false;
        }
    }
    true
}

// Whether each row of a list is among those of another: the needs of a contract among its calls, most often in their order.
fn all_called(needs: Rows, calls: Rows) -> bool
    ensures { result ≡ every (λ x. has_row x (rows_of calls.entry)) (rows_of needs.entry) }
{
    let mut from = calls;
    for need in needs {
        if !seek(calls, &mut from, |call| same_rows(need, call)) {
            return false;
        }
    }
    true
}

// Kinds 1 and 11: whether the lists of a contract are proper.
pub fn contract_proper(own: &[u8], l: Lists) -> bool
    ensures { (c : Card) (k : ContractKind) → result ≡ proper (layout_of c) own.now (change_by k l.entry) }
{
    tokens_once(l.provides)
        && rows_proper(own, l.calls)
        && rows_proper(own, l.grants)
        && rows_proper(own, l.needs)
        && all_called(l.needs, l.calls)
}

// Kinds 5 to 8: whether the other end of a row is not the own AID.
pub fn other_proper(own: &[u8], other: &[u8]) -> bool
    ensures { (c : Card) (k : RowKind) (r : RowOf) → r.aid ≡ other.now
        → result ≡ proper (layout_of c) own.now (change_of k r) }
{
    !same_bytes(other, own)
}
