// The rows of the two lists that are a package's, in list order; and the tokens of its services.
ghost use Rattle.std.specs.Prelude.{◌<◌, length};
ghost use Rattle.policy.specs.Lists.{flat, upto};
ghost use Rattle.image.specs.Image.{lay, tables};
ghost use Rattle.image.specs.Read.{items_of};
ghost use Rattle.readout.specs.Parts.{Put, Short, of, item_bytes, list_bytes, tok_bytes};

use crate::package;
use crate::package::Package;
use crate::pen::Pen;
use geometry::Kept;

impl Package<'_> {
    // Row r of a list, where it is the package's: its AID and its tokens.
    fn put_item(self, l: Kept, r: usize, pen: &mut Pen)
        requires inside { r < length (items_of l (tables self.img)) }
        requires short { Short pen.old (of item_bytes self l r) }
        ensures { Put pen.old (of item_bytes self.entry l r) pen.new }
    {
        if self.img.number(l, r) == self.n {
            pen.put_row(package::item_aid(self.img, l, r), self.img.tokens(l, r));
        }
    }

    // The rows of a list that are the package's: its unmet calls, or the waiting grants that it gives.
    pub fn put_list(self, l: Kept, pen: &mut Pen)
        requires { Short pen.old (of list_bytes self l) }
        ensures { Put pen.old (of list_bytes self.entry l) pen.new }
    {
        for r in 0..self.img.count(l) {
            self.put_item(l, r, pen);
        }
    }

    // The tokens of service k, where the package provides it.
    fn put_service(self, k: usize, pen: &mut Pen)
        requires inside { k < (lay self.img).services }
        requires short { Short pen.old (of tok_bytes self k) }
        ensures { Put pen.old (of tok_bytes self.entry k) pen.new }
    {
        if bits::has_bit(self.img.provided_row(self.n), k) {
            pen.put_tokens(self.img.tokens_at(self.n, k));
        }
    }

    // The tokens of all its services.
    pub fn put_services(self, pen: &mut Pen)
        requires { Short pen.old (flat (of tok_bytes self) (upto (lay self.img).services)) }
        ensures { Put pen.old (flat (of tok_bytes self.entry) (upto (lay self.entry.img).services)) pen.new }
    {
        for k in 0..geometry::services(self.img.card) {
            self.put_service(k, pen);
        }
    }
}
