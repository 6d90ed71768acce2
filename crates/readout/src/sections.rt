// The four lists of a contract: a count, then what it counts.
ghost use Rattle.std.specs.Prelude.{◌≡◌, length};
ghost use Rattle.readout.specs.Parts.{Put, Short, of, beside, kept_rows, kept_bytes, provide_bytes, need_bytes};

use crate::package::Package;
use crate::pen::Pen;
use geometry::{Kept, Table};

// The table that holds the other rows of the kind: the met calls, or the grants that are in force.
fn table_beside(l: Kept) -> Table
    ensures { result ≡ beside l }
{
    match l {
        Kept::UnmetCalls => Table::Calls,
        Kept::WaitingGrants => Table::Grants,
    }
}

impl Package<'_> {
    // How many calls or grants it has: bits of its row, and rows of the list.
    fn count_rows(self, l: Kept) -> usize
        ensures { result ≡ length (of kept_rows self.entry l) }
    {
        let mask = self.img.with_number(l, self.n);
        self.count_bits(table_beside(l)) + image::lists::mask_count(mask)
    }

    // What it provides.
    pub fn put_provides(self, pen: &mut Pen)
        requires { Short pen.old (of provide_bytes self) }
        ensures { Put pen.old (of provide_bytes self.entry) pen.new }
    {
        let count = bits::count(self.img.provided_row(self.n));
        pen.put(&[(count % 256) as u8]);
        self.put_services(pen);
    }

    // What it calls, or grants.
    pub fn put_rows(self, l: Kept, pen: &mut Pen)
        requires { Short pen.old (of kept_bytes self l) }
        ensures { Put pen.old (of kept_bytes self.entry l) pen.new }
    {
        pen.put_count(self.img.card, self.count_rows(l));
        self.put_table(table_beside(l), pen);
        self.put_list(l, pen);
    }

    // What it needs.
    pub fn put_needs(self, pen: &mut Pen)
        requires { Short pen.old (of need_bytes self) }
        ensures { Put pen.old (of need_bytes self.entry) pen.new }
    {
        pen.put_count(self.img.card, self.count_bits(Table::Needs));
        self.put_table(Table::Needs, pen);
    }
}
