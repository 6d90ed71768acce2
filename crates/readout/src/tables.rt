// The rows of a table of bits: those of a package's row, by column and service number.
ghost use Rattle.std.specs.Prelude.{◌≡◌, ◌≤◌, ◌<◌, length};
ghost use Rattle.policy.specs.Lists.{keep, upto};
ghost use Rattle.policy.specs.Tables.{row_of};
ghost use Rattle.image.specs.Image.{lay, tables};
ghost use Rattle.image.specs.Laid.{table_of};
ghost use Rattle.readout.specs.Parts.{Put, Short, of, server, bit_bytes, column_bytes, table_bytes, table_rows};

use crate::package;
use crate::package::Package;
use crate::pen::Pen;
use geometry::Table;

impl Package<'_> {
    // The package whose service a bit of column j is: a grant is on a service of the package itself.
    fn serving(self, tb: Table, j: usize) -> usize
        ensures { result ≡ server tb self.entry.n j }
    {
        match tb {
            Table::Calls => j,
            Table::Grants => self.n,
            Table::Needs => j,
        }
    }

    // The row of service k of column j, whose bits are these, where its bit is set.
    fn put_bit(self, tb: Table, j: usize, row: u16, k: usize, pen: &mut Pen)
        requires inside { (j < (lay self.img).packages) × (k < (lay self.img).services) }
        requires known { row ≡ row_of (lay self.img).services (table_of tb (tables self.img) self.n j) }
        requires short { Short pen.old (of bit_bytes self tb j k) }
        ensures { Put pen.old (of bit_bytes self.entry tb j k) pen.new }
    {
        if bits::has_bit(row, k) {
            let tokens = self.img.tokens_at(self.serving(tb, j), k);
            pen.put_row(package::aid(self.img, j), tokens);
        }
    }

    // The rows of column j.
    fn put_column(self, tb: Table, j: usize, pen: &mut Pen)
        requires inside { j < (lay self.img).packages }
        requires short { Short pen.old (of column_bytes self tb j) }
        ensures { Put pen.old (of column_bytes self.entry tb j) pen.new }
    {
        let row = self.img.entry(tb, self.n, j);
        for k in 0..geometry::services(self.img.card) {
            self.put_bit(tb, j, row, k, pen);
        }
    }

    // The rows of all columns.
    pub fn put_table(self, tb: Table, pen: &mut Pen)
        requires { Short pen.old (of table_bytes self tb) }
        ensures { Put pen.old (of table_bytes self.entry tb) pen.new }
    {
        for j in 0..geometry::packages(self.img.card) {
            self.put_column(tb, j, pen);
        }
    }

    // How many rows column j has.
    fn count_column(self, tb: Table, j: usize) -> usize
        requires { j < (lay self.img).packages }
        ensures { (result ≡ length (keep (table_of tb (tables self.entry.img) self.entry.n j) (upto (lay self.entry.img).services)))
            × (result ≤ 16) }
    {
        bits::count(self.img.entry(tb, self.n, j))
    }

    // How many rows there are.
    pub fn count_bits(self, tb: Table) -> usize
        ensures { (result ≡ length (of table_rows self.entry tb)) × (result < 1024) }
    {
        (0..geometry::packages(self.img.card))
            .map(|j| self.count_column(tb, j))
            .sum()
    }
}
