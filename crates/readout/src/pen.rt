// A pen over a buffer: what it puts is written where the buffer has room for it, and counted where it has none.
ghost use Rattle.std.specs.Prelude.{◌≡◌, ◌+◌, ◌≤◌, [], ◌++◌, length};
ghost use Rattle.policy.specs.Tables.{write_number, write_tok};
ghost use Rattle.geometry.specs.Geometry.{layout_of, tok_of};
ghost use Rattle.rows.specs.Area.{over};
ghost use Rattle.readout.specs.Parts.{Put, Short};

use geometry::{Card, Tokens};

// The buffer, and the position of the next byte.
#[derive(Drop)]
pub struct Pen<'a> {
    pub out: &'a mut [u8],
    pub at: usize,
}

// Bytes over those of a buffer from index `at` on, eight at a time.
// Stays: `copy_from_slice` of a length that is not known calls `memmove`, which a host on bare metal would have to supply.
fn write(out: &mut [u8], at: usize, src: &[u8])
    requires { at + length src.now ≤ length out.old }
    ensures { out.new ≡ over at src.now out.old }
{
    let words = src.len() / 8;
    for k in 0..words {
        let j = k * 8;
        out[at + j..at + j + 8].copy_from_slice(&src[j..j + 8]);
    }
    let done = words * 8;
    rows::put(out, at + done, &src[done..]);
}

impl Pen<'_> {
    // These bytes.
    pub fn put(&mut self, src: &[u8])
        requires { Short self.old src.now }
        ensures { Put self.old src.now self.new }
    {
        let end = self.at + src.len();
        if end <= self.out.len() {
            write(self.out, self.at, src);
        }
        self.at = end;
    }

    // Tokens.
    pub fn put_tokens(&mut self, t: Tokens)
        requires { Short self.old (write_tok (tok_of t)) }
        ensures { Put self.old (write_tok (tok_of t)) self.new }
    {
        self.put(&[t.interface, t.method]);
    }

    // A row: an AID, with its length before it, and tokens.
    #[inline(never)]
    pub fn put_row(&mut self, aid: &[u8], t: Tokens)
        requires { Short self.old (aid.now ++ write_tok (tok_of t)) }
        ensures { Put self.old (aid.now ++ write_tok (tok_of t)) self.new }
    {
        self.put(aid);
        self.put_tokens(t);
    }

    // A count of rows, in the bytes that it has on the card.
    pub fn put_count(&mut self, c: Card, n: usize)
        requires { Short self.old (write_number (layout_of c).count_width n []) }
        ensures { Put self.old (write_number (layout_of c).count_width n []) self.new }
    {
        let low = (n % 256) as u8;
        if geometry::count_width(c) == 1 {
            self.put(&[low]);
            return;
        }
        self.put(&[(n / 256 % 256) as u8, low]);
    }
}
