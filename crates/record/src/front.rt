// What stands at the front of a part of a record, and the lists of a record taken one by one.
ghost use Rattle.std.specs.Prelude.{◌≡◌, T};
ghost use Rattle.std.specs.Iterator.{YieldsFirstBy, item_count};
ghost use Rattle.policy.specs.Record.{got, aid, tokens, a_row};
ghost use Rattle.geometry.specs.Geometry.{tok_of};
ghost use Rattle.record.specs.Readable.{is_got};
ghost use Rattle.record.specs.Listed.{bytes_of, row_of, toks_of, aids_of, rows_of};

use crate::list::{Aid, Aids, Row, Rows, Services};
use geometry::Tokens;

// The tokens at the front of a part, and what follows them.
fn split_tokens(part: &[u8]) -> (Tokens, &[u8])
    requires { T (is_got (tokens part.now)) }
    ensures { tokens part.now ≡ got (tok_of result.0) result.1.now }
{
    let tokens = Tokens {
        interface: part[0],
        method: part[1],
    };
    (tokens, &part[2..])
}

// The AID at the front of a part, after its length byte, and what follows it.
fn split_aid(part: &[u8]) -> (Aid<'_>, &[u8])
    requires { T (is_got (aid part.now)) }
    ensures { aid part.now ≡ got (bytes_of result.0) result.1.now }
{
    let end = 1 + part[0] as usize;
    let bytes = &part[1..end];
    (Aid { bytes }, &part[end..])
}

// The row at the front of a part, and what follows it.
fn split_row(part: &[u8]) -> (Row<'_>, &[u8])
    requires { T (is_got (a_row part.now)) }
    ensures { a_row part.now ≡ got (row_of result.0) result.1.now }
{
    let (other, rest) = split_aid(part);
    let (tokens, rest) = split_tokens(rest);
    (Row { other, tokens }, rest)
}

impl<'a> Iterator for Services<'a> {
    type Item = Tokens;

    ghost next_gives = { YieldsFirstBy tok_of toks_of };

    ghost remaining = { item_count toks_of };

    fn next(&mut self) -> Option<Tokens> {
        if self.left == 0 {
            return None;
        }
        let (tokens, rest) = split_tokens(self.part);
        *self = Services {
            part: rest,
            left: self.left - 1,
        };
        Some(tokens)
    }
}

impl<'a> Iterator for Aids<'a> {
    type Item = Aid<'a>;

    ghost next_gives = { YieldsFirstBy bytes_of aids_of };

    ghost remaining = { item_count aids_of };

    fn next(&mut self) -> Option<Aid<'a>> {
        if self.left == 0 {
            return None;
        }
        let (aid, rest) = split_aid(self.part);
        *self = Aids {
            part: rest,
            left: self.left - 1,
        };
        Some(aid)
    }
}

impl<'a> Iterator for Rows<'a> {
    type Item = Row<'a>;

    ghost next_gives = { YieldsFirstBy row_of rows_of };

    ghost remaining = { item_count rows_of };

    fn next(&mut self) -> Option<Row<'a>> {
        if self.left == 0 {
            return None;
        }
        let (row, rest) = split_row(self.part);
        *self = Rows {
            part: rest,
            left: self.left - 1,
        };
        Some(row)
    }
}
