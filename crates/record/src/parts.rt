// Reads the parts of a record: each at the front of a slice, with the bytes after it.
ghost use Rattle.std.specs.Prelude.{◌≡◌, ◌<◌, ◌≤◌, ℕ, List, Option};
ghost use Rattle.policy.specs.Record.{aid, valid_row, token_list, caller_list, row_list};
ghost use Rattle.geometry.specs.Geometry.{layout_of};
ghost use Rattle.record.specs.Listed.{bytes_of, row_of, toks_of, aids_of, rows_of};
ghost use Rattle.record.specs.Reading.{Reads, TokensTaken, CountTaken, rest_of, times};

use crate::list::{Aid, Aids, Row, Rows, Services};
use geometry::{Card, Tokens};

// An AID: a length byte from 5 to 16, and as many bytes.
pub fn read_aid(part: &[u8]) -> Option<(Aid<'_>, &[u8])>
    ensures { Reads bytes_of aid part.now result }
{
    let (first, rest) = part.split_first()?;
    let n = *first as usize;
    if n < 5 || 16 < n || rest.len() < n {
        return None;
    }
    let (bytes, rest) = rest.split_at(n);
    Some((Aid { bytes }, rest))
}

// Two token bytes, the method token below the card's limit.
pub fn read_tokens(part: &[u8], c: Card) -> Option<(Tokens, &[u8])>
    ensures { TokensTaken (layout_of c) part.now result }
{
    if part.len() < 2 || geometry::methods(c) <= part[1] {
        return None;
    }
    Some((Tokens::at(part, 0), &part[2..]))
}

// A row: an AID and two token bytes.
pub fn read_row(part: &[u8], c: Card) -> Option<(Row<'_>, &[u8])>
    ensures { Reads row_of (valid_row (layout_of c)) part.now result }
{
    let (other, rest) = read_aid(part)?;
    let (tokens, rest) = read_tokens(rest, c)?;
    Some((Row { other, tokens }, rest))
}

// The count of a list, a number of w bytes, and at most this high.
fn read_count(part: &[u8], w: usize, most: usize) -> Option<(usize, &[u8])>
    requires { (0 < w) × (w ≤ 2) }
    ensures { CountTaken w most part.now result }
{
    if part.len() < w {
        return None;
    }
    let count = geometry::number_at(part, 0, w) as usize;
    if most < count {
        return None;
    }
    Some((count, &part[w..]))
}

// What follows so many things, each read after the one before it.
fn read_many<'a, F: Fn(&'a [u8]) -> Option<&'a [u8]>>(
    part: &'a [u8],
    count: usize,
    item: F,
) -> Option<&'a [u8]>
    requires callable { F.IsAlwaysCallable item }
    ensures { (t : List ℕ → Option (List ℕ)) → ((s r : _) → F.post item s r → rest_of r ≡ t s.now)
        → rest_of result ≡ times t count part.now }
{
    let mut rest = part;
    for _ in 0..count {
        rest = item(rest)?;
    }
    Some(rest)
}

// The services of a contract: a count, and as many tokens.
pub fn read_services(part: &[u8], c: Card) -> Option<(Services<'_>, &[u8])>
    ensures { Reads toks_of (token_list (layout_of c)) part.now result }
{
    let (left, part) = read_count(part, 1, geometry::services(c))?;
    let rest = read_many(part, left, |s| Some(read_tokens(s, c)?.1))?;
    Some((Services { part, left }, rest))
}

// The callers of a service: a count, and as many AIDs.
pub fn read_callers(part: &[u8], c: Card) -> Option<(Aids<'_>, &[u8])>
    ensures { Reads aids_of (caller_list (layout_of c)) part.now result }
{
    let (left, part) = read_count(part, 1, geometry::most_callers(c))?;
    let rest = read_many(part, left, |s| Some(read_aid(s)?.1))?;
    Some((Aids { part, left }, rest))
}

// The calls, grants or needs of a contract: a count, and as many rows.
pub fn read_rows(part: &[u8], c: Card) -> Option<(Rows<'_>, &[u8])>
    ensures { Reads rows_of (row_list (layout_of c)) part.now result }
{
    let (left, part) = read_count(part, geometry::count_width(c), geometry::most_rows(c))?;
    let rest = read_many(part, left, |s| Some(read_row(s, c)?.1))?;
    Some((Rows { part, left }, rest))
}
