// A save: an old file is read and a new one written, with one record added or replaced.
ghost use Rattle.std.specs.Prelude.{◌≡◌, ◌+◌, ◌*◌, ◌-◌, ◌≤◌, ◌<◌, ◌^◌, length, drop};
ghost use Rattle.contents.specs.Format.{most, entries, contents_end};
ghost use Rattle.contents.specs.Laid.{laid};
ghost use Rattle.contents.specs.Records.{header, entry_bytes};
ghost use Rattle.contents.specs.Save.{number as number_of_error, saved_file, saved, output_of};
ghost use Rattle.contents.specs.declared.save.SaveError.TheVariants.{FileWrong as FileIsWrong};
ghost use Rattle.contents.specs.Table.{table, end_of, place_of, table_with, bodies_with};

use crate::format::{Contents, FileWrong, MAGIC, MOST, VERSION};
use crate::little_endian::{put_bytes, put_number};

// Why nothing is saved, by the refusal's number.
#[derive(Clone, Copy, Debug, PartialEq, Eq)]
pub enum SaveError {
    FileWrong = 14,
    StoreFull = 20,
    OutputShort = 19,
}

impl SaveError {
    // The refusal's number. (No `From`: `e.number()` says which number it is, by the same body.)
    pub fn number(self) -> u32
        ensures { result ≡ number_of_error self }
    {
        self as u32
    }
}

impl From<FileWrong> for SaveError {
    ghost from_gives = { λ _ e. e ≡ FileIsWrong };

    fn from(_: FileWrong) -> SaveError {
        SaveError::FileWrong
    }
}

// Where a satellite goes: how many entries are below it, where their bodies end, how many entries it replaces, 0 or 1, and
// where the bodies past its own begin.
#[derive(Clone, Copy, Debug, PartialEq, Eq)]
pub(crate) struct Place {
    pub below: usize,
    pub cut: usize,
    pub old: usize,
    pub rest: usize,
}

impl Contents<'_> {
    // Where a satellite goes.
    fn place(self, satellite: u32) -> Place
        ensures { result ≡ place_of satellite 0 (contents_end self.entry.count) (entries self.entry.count (drop 8 self.entry.file.now)) }
    {
        let mut cut = 8 + 12 * self.count;
        for below in 0..self.count {
            let e = self.entry(below);
            if satellite < e.satellite {
                return Place {
                    below,
                    cut,
                    old: 0,
                    rest: cut,
                };
            }
            let size = e.size as usize;
            if satellite == e.satellite {
                return Place {
                    below,
                    cut,
                    old: 1,
                    rest: cut + size,
                };
            }
            cut += size;
        }
        Place {
            below: self.count,
            cut,
            old: 0,
            rest: cut,
        }
    }
}

// Writes the first eight bytes of a file of n records.
fn put_header(out: &mut [u8], n: usize)
    requires { (8 ≤ length out.old) × (n ≤ most) }
    ensures { out.new ≡ laid 0 (header n) out.old }
{
    put_number::<4>(out, 0, MAGIC as u64);
    put_number::<2>(out, 4, VERSION as u64);
    put_number::<2>(out, 6, n as u64);
}

// Writes entry i of a file. (No `Entry`: its offset has 32 bits, and that a new one fits is known of the whole file alone.)
fn put_entry(out: &mut [u8], i: usize, satellite: u32, offset: usize, size: usize)
    requires { contents_end (i + 1) ≤ length out.old }
    ensures { out.new ≡ laid (contents_end i) (entry_bytes satellite offset size) out.old }
{
    let at = 8 + 12 * i;
    put_number::<4>(out, at, satellite as u64);
    put_number::<4>(out, at + 4, offset as u64);
    put_number::<4>(out, at + 8, size as u64);
}

// Writes the n entries of a file that stand from `from` on as those from `to` on, with bodies from `start` on. Returns where
// these end.
fn put_entries(
    out: &mut [u8],
    to: usize,
    contents: Contents<'_>,
    from: usize,
    n: usize,
    start: usize,
) -> usize
    requires { (contents_end (to + n) ≤ length out.old) × (from + n ≤ contents.count) × (start < 2 ^ 48) }
    ensures { (result ≡ end_of start (entries n (drop (contents_end from) contents.entry.file.now)))
        × (out.new ≡ laid (contents_end to) (table start (entries n (drop (contents_end from) contents.entry.file.now))) out.old) }
{
    let mut body = start;
    for i in 0..n {
        let e = contents.entry(from + i);
        let size = e.size as usize;
        put_entry(out, to + i, e.satellite, body, size);
        body += size;
    }
    body
}

// Writes the contents of the new file, with the new entry in its place among those of the old one.
fn put_table(out: &mut [u8], contents: Contents<'_>, p: Place, satellite: u32, size: usize)
    requires { (p.old ≤ 1) × (p.below + p.old ≤ contents.count) × (contents_end (contents.count + 1 - p.old) ≤ length out.old)
        × (end_of (contents_end (contents.count + 1 - p.old)) (entries p.below (drop 8 contents.file.now)) + size < 2 ^ 48) }
    ensures { out.new ≡ laid 8 (table_with contents.entry.file.now contents.entry.count p.below p.old satellite size) out.old }
{
    let past = p.below + p.old;
    let mid = put_entries(
        out,
        0,
        contents,
        0,
        p.below,
        8 + 12 * (contents.count + 1 - p.old),
    );
    put_entry(out, p.below, satellite, mid, size);
    put_entries(
        out,
        p.below + 1,
        contents,
        past,
        contents.count - past,
        mid + size,
    );
}

// Writes the bodies of the new file at `at`: those of the old file from `end` to the place, the new one, and those past it.
fn put_bodies(out: &mut [u8], at: usize, file: &[u8], end: usize, p: Place, body: &[u8])
    requires { (end ≤ p.cut) × (p.cut ≤ p.rest) × (p.rest ≤ length file.now)
        × (at + (p.cut - end) + length body.now + (length file.now - p.rest) ≤ length out.old) }
    ensures { out.new ≡ laid at (bodies_with file.now end p.cut p.rest body.now) out.old }
{
    put_bytes(out, at, &file[end..p.cut]);
    let here = at + (p.cut - end);
    put_bytes(out, here, body);
    put_bytes(out, here + body.len(), &file[p.rest..]);
}

// Writes the old file with one record added or replaced into `out`. Returns the length of the new file.
// (File, room and satellite one by one, as the C call has them: a struct would be made and taken apart again in each of four
// crates.)
pub fn save(file: &[u8], out: &mut [u8], satellite: u32, body: &[u8]) -> Result<usize, SaveError>
    ensures { (result ≡ saved file.now satellite body.now (length out.old))
        × (out.new ≡ output_of result (saved_file file.now satellite body.now) out.old) }
{
    let contents = Contents::read(file)?;
    let p = contents.place(satellite);
    let count = contents.count + 1 - p.old;
    if MOST < count {
        return Err(SaveError::StoreFull);
    }
    let size = body.len();
    if 0xFFFF_FFFF < size {
        return Err(SaveError::StoreFull);
    }
    let end = 8 + 12 * contents.count;
    let start = 8 + 12 * count;
    let total = start + (p.cut - end) + size + (file.len() - p.rest);
    if 0xFFFF_FFFF < total {
        return Err(SaveError::StoreFull);
    }
    if out.len() < total {
        return Err(SaveError::OutputShort);
    }
    put_header(out, count);
    put_table(out, contents, p, satellite, size);
    put_bodies(out, start, file, end, p, body);
    Ok(total)
}
