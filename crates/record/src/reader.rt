// A reader: a record and a position in it, which moves on. Its methods are thin, over covered functions.
// Stays: one method for all would ask of each reader that what it leaves is an end of the part, which is longer than the six bodies.
ghost use Rattle.std.specs.Prelude.{◌≤◌, length, drop};
ghost use Rattle.policy.specs.Record.{aid, valid_row, token_list, caller_list, row_list};
ghost use Rattle.geometry.specs.Geometry.{layout_of};
ghost use Rattle.record.specs.Listed.{bytes_of, row_of, toks_of, aids_of, rows_of};
ghost use Rattle.record.specs.Reading.{ReadsOn, TokensOn, Moves};

use crate::list::{Aid, Aids, Row, Rows, Services};
use crate::parts;
use geometry::{Card, Tokens};

#[derive(Clone, Copy)]
pub struct Reader<'a> {
    pub src: &'a [u8],
    pub at: usize,
    pub ghost inside: { at ≤ length src.now },
}

impl<'a> Reader<'a> {
    // The AID at the position.
    pub fn aid(&mut self) -> Option<Aid<'a>>
        ensures reads { ReadsOn bytes_of aid (drop self.old.at self.old.src.now) result (drop self.new.at self.new.src.now) }
        ensures moves { Moves self.old.src self.old.at result self.new.src self.new.at }
    {
        let (aid, rest) = parts::read_aid(&self.src[self.at..])?;
        *self = Reader {
            src: self.src,
            at: self.src.len() - rest.len(),
        };
        Some(aid)
    }

    // The tokens at the position.
    pub fn tokens(&mut self, c: Card) -> Option<Tokens>
        ensures reads { TokensOn (layout_of c) (drop self.old.at self.old.src.now) result (drop self.new.at self.new.src.now) }
        ensures moves { Moves self.old.src self.old.at result self.new.src self.new.at }
    {
        let (tokens, rest) = parts::read_tokens(&self.src[self.at..], c)?;
        *self = Reader {
            src: self.src,
            at: self.src.len() - rest.len(),
        };
        Some(tokens)
    }

    // The row at the position.
    pub fn row(&mut self, c: Card) -> Option<Row<'a>>
        ensures reads { ReadsOn row_of (valid_row (layout_of c)) (drop self.old.at self.old.src.now) result (drop self.new.at self.new.src.now) }
        ensures moves { Moves self.old.src self.old.at result self.new.src self.new.at }
    {
        let (row, rest) = parts::read_row(&self.src[self.at..], c)?;
        *self = Reader {
            src: self.src,
            at: self.src.len() - rest.len(),
        };
        Some(row)
    }

    // The services of a contract, at the position.
    pub fn services(&mut self, c: Card) -> Option<Services<'a>>
        ensures reads { ReadsOn toks_of (token_list (layout_of c)) (drop self.old.at self.old.src.now)
            result (drop self.new.at self.new.src.now) }
        ensures moves { Moves self.old.src self.old.at result self.new.src self.new.at }
    {
        let (services, rest) = parts::read_services(&self.src[self.at..], c)?;
        *self = Reader {
            src: self.src,
            at: self.src.len() - rest.len(),
        };
        Some(services)
    }

    // The callers of a service, at the position.
    pub fn callers(&mut self, c: Card) -> Option<Aids<'a>>
        ensures reads { ReadsOn aids_of (caller_list (layout_of c)) (drop self.old.at self.old.src.now)
            result (drop self.new.at self.new.src.now) }
        ensures moves { Moves self.old.src self.old.at result self.new.src self.new.at }
    {
        let (callers, rest) = parts::read_callers(&self.src[self.at..], c)?;
        *self = Reader {
            src: self.src,
            at: self.src.len() - rest.len(),
        };
        Some(callers)
    }

    // The calls, grants or needs of a contract, at the position.
    pub fn rows(&mut self, c: Card) -> Option<Rows<'a>>
        ensures reads { ReadsOn rows_of (row_list (layout_of c)) (drop self.old.at self.old.src.now) result (drop self.new.at self.new.src.now) }
        ensures moves { Moves self.old.src self.old.at result self.new.src self.new.at }
    {
        let (rows, rest) = parts::read_rows(&self.src[self.at..], c)?;
        *self = Reader {
            src: self.src,
            at: self.src.len() - rest.len(),
        };
        Some(rows)
    }
}
