// Reading out a package's contract as a kind 1 record: measured first, then written from front to back.
#![tactic(auto)]

ghost use Rattle.std.specs.Prelude.{◌≡◌, ◌&&◌, ◌++◌, ◌≤◌, ◌<◌, ltb, length, drop};
ghost use Rattle.policy.specs.Lookup.{contract_at};
ghost use Rattle.policy.specs.Judge.{aid_bytes, load_record, read_out};
ghost use Rattle.policy.specs.Settled.{Gives};
ghost use Rattle.geometry.specs.Geometry.{layout_of};
ghost use Rattle.image.specs.Image.{lay, tables};
ghost use Rattle.answers.specs.Numbers.{answered, second_or};
ghost use Rattle.readout.specs.Parts.{Put, Short, of, row_lists, body_bytes};

use answers::Refusal;
use geometry::{Card, Kept};
use image::Image;
use package::Package;
use pen::Pen;

mod lists;
mod package;
mod pen;
mod sections;
mod tables;

impl Package<'_> {
    // What it calls, grants and needs.
    fn put_lists(self, pen: &mut Pen)
        requires { Short pen.old (of row_lists self) }
        ensures { Put pen.old (of row_lists self.entry) pen.new }
    {
        self.put_rows(Kept::UnmetCalls, pen);
        self.put_rows(Kept::WaitingGrants, pen);
        self.put_needs(pen);
    }

    // Its contract: what follows the version and the kind.
    fn put_body(self, pen: &mut Pen)
        requires { Short pen.old (of body_bytes self) }
        ensures { Put pen.old (of body_bytes self.entry) pen.new }
    {
        pen.put(package::aid(self.img, self.n));
        self.put_provides(pen);
        self.put_lists(pen);
    }

    // The length of its record, found by writing its contract where nothing of it is kept.
    fn measure(self) -> usize
        ensures { (result ≡ length (load_record (lay self.entry.img) (of contract_at self.entry))) × (result < 65536) }
    {
        let mut nowhere = [0];
        let mut pen = Pen {
            out: &mut nowhere,
            at: 4,
        };
        self.put_body(&mut pen);
        pen.at
    }

    // Its record, of so many bytes, at the front of a buffer that has room for it.
    fn write_record(self, len: usize, out: &mut [u8])
        requires { (len ≡ length (load_record (lay self.img) (of contract_at self))) × (len ≤ length out.old) }
        ensures { out.new ≡ load_record (lay self.entry.img) (of contract_at self.entry) ++ drop len out.old }
    {
        let front = [
            (len / 256 % 256) as u8,
            (len % 256) as u8,
            geometry::version(self.img.card),
            1,
        ];
        let mut pen = Pen { out, at: 0 };
        pen.put(&front);
        self.put_body(&mut pen);
    }
}

// Whether n is the number of an installed package.
fn is_used(img: Image, n: usize) -> bool
    ensures { result ≡ ltb n (lay img.entry).packages && (tables img.entry).used n }
{
    n < geometry::packages(img.card) && bits::has_bit(img.used_row(), n)
}

// Package n's contract as a kind 1 record into a buffer of any size, for any image and any number: the length of the record.
pub fn read_out(img: &[u8], c: Card, n: usize, out: &mut [u8]) -> Result<u16, Refusal>
    ensures { Gives (read_out (layout_of c) img.now n out.old) (answered result) (second_or 0 result) out.new }
{
    if !soundness::is_sound(img, c) {
        return Err(Refusal::Unsound);
    }
    let img = Image {
        bytes: img,
        card: c,
    };
    if !is_used(img, n) {
        return Err(Refusal::NotInstalled);
    }
    let package = Package { img, n };
    let len = package.measure();
    if out.len() < len {
        return Err(Refusal::BufferShort);
    }
    package.write_record(len, out);
    Ok(len as u16)
}
