// Looks for things in the lists of a record.
ghost use Rattle.std.specs.Prelude.{◌≡◌, Bool};
ghost use Rattle.policy.specs.Lists.{exists};
ghost use Rattle.policy.specs.Contract.{Row as RowOf, eq_aid, has_tok, has_row};
ghost use Rattle.geometry.specs.Geometry.{tok_of};
ghost use Rattle.record.specs.Listed.{bytes_of, row_of, toks_of, aids_of, rows_of, Among};

use crate::list::{Aid, Aids, Row, Rows, Services};
use crate::same::{same_aids, same_rows};
use geometry::Tokens;

// Whether tokens are among those of a list.
pub fn has_tokens(t: Tokens, of: Services) -> bool
    ensures { result ≡ has_tok (tok_of t) (toks_of of.entry) }
{
    let mut todo = of;
    todo.any(|u| t == u)
}

// Whether an AID is among those of a list.
pub fn has_aid(a: Aid, of: Aids) -> bool
    ensures { result ≡ exists (eq_aid (bytes_of a.entry)) (aids_of of.entry) }
{
    let mut todo = of;
    todo.any(|b| same_aids(a, b))
}

// Whether a row is among those of a list.
pub fn has_row(r: Row, of: Rows) -> bool
    ensures { result ≡ has_row (row_of r.entry) (rows_of of.entry) }
{
    let mut todo = of;
    todo.any(|s| same_rows(r, s))
}

// Looks for a row that passes, first in what the last search left, and then among all of them. The rows after the one that was found
// are left for the next search.
pub fn seek<'a, F: Fn(Row<'a>) -> bool + Copy>(
    all: Rows<'a>,
    from: &mut Rows<'a>,
    passes: F,
) -> bool
    requires callable { F.IsAlwaysCallable passes }
    ensures { (t : RowOf → Bool) → ((r : _) (b : Bool) → F.post passes r b → b ≡ t (row_of r)) → Among all.entry from.old
        → (result ≡ exists t (rows_of all.entry)) × Among all.entry from.new }
{
    if from.any(passes) {
        return true;
    }
    *from = all;
    from.any(passes)
}
