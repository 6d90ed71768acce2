// Compares AIDs and rows of a record.
ghost use Rattle.std.specs.Prelude.{◌≡◌};
ghost use Rattle.policy.specs.Lists.{eq_bytes};
ghost use Rattle.policy.specs.Contract.{eq_aid, eq_row};
ghost use Rattle.record.specs.Listed.{bytes_of, row_of};

use crate::list::{Aid, Row};

// Stays: `==` of slices starts at the first byte, and most AIDs that differ do in the last one.
pub fn same_bytes(a: &[u8], b: &[u8]) -> bool
    ensures { result ≡ eq_bytes a.now b.now }
{
    if a.len() != b.len() {
        return false;
    }
    rows::same_at(a, 0, b)
}

// Two AIDs.
pub fn same_aids(a: Aid, b: Aid) -> bool
    ensures { result ≡ eq_aid (bytes_of a.entry) (bytes_of b.entry) }
{
    same_bytes(a.bytes, b.bytes)
}

// Two rows: their tokens first.
pub fn same_rows(r: Row, s: Row) -> bool
    ensures { result ≡ eq_row (row_of r.entry) (row_of s.entry) }
{
    r.tokens == s.tokens && same_aids(r.other, s.other)
}
