// The header and the contents of a store file, and the check of them: refusal 14.
ghost use Rattle.std.specs.Prelude.{◌≡◌, ◌≤◌, ◌<◌, false, length, drop, MatchResult};
ghost use Rattle.contents.specs.Format.{most, entry_of, entries, header_right, follows, chained, contents_end, contents_right, wrong_number, IsContents};

use crate::little_endian::{u16_at, u32_at};

// The bytes 4F 52 42 54, as a number.
pub(crate) const MAGIC: u32 = 0x5442_524F;

// The version of the files that are read and written.
pub(crate) const VERSION: u16 = 1;

// The most records that a file has.
pub(crate) const MOST: usize = 128;

// A file whose header or contents are wrong: refusal 14.
#[derive(Clone, Copy, Debug, PartialEq, Eq)]
pub struct FileWrong;

impl FileWrong {
    // The refusal's number. (No `From`: `e.number()` says which number it is, by the same body.)
    pub fn number(self) -> u32
        ensures { result ≡ wrong_number }
    {
        14
    }
}

// An entry of the contents: a satellite, and its body's offset and length.
#[derive(Clone, Copy, Debug, PartialEq, Eq)]
pub struct Entry {
    pub satellite: u32,
    pub offset: u32,
    pub size: u32,
}

// Whether the first eight bytes of a file are a header that is right.
#[tactic(auto, unfolding(crate::specs::Format::header_right))]
pub fn is_header(file: &[u8]) -> bool
    ensures { result ≡ header_right file.now }
{
    if file.len() < 8 {
        return false;
    }
    let magic = u32_at(file, 0);
    let version = u16_at(file, 4);
    let n = u16_at(file, 6) as usize;
    (magic == MAGIC) & ((version == VERSION) & (n <= MOST))
}

// Whether an entry may follow the one before it: its satellite is at least `least`, which is the one before and 1, or 0 at first, and its body
// starts at `end`, where the one before ends, or the contents at first.
#[tactic(auto, unfolding(crate::specs::Format::follows))]
pub fn is_next(least: u64, end: u64, entry: Entry) -> bool
    ensures { result ≡ follows least end entry }
{
    let satellite = entry.satellite as u64;
    let offset = entry.offset as u64;
    (least <= satellite) & (offset == end)
}

// A file, and how many entries its header counts: no more than a file may have, and the file has room for them.
#[derive(Clone, Copy)]
pub(crate) struct Contents<'a> {
    pub file: &'a [u8],
    pub count: usize,
    ghost few: { count ≤ most },
    ghost inside: { contents_end count ≤ length file.now },
}

impl<'a> Contents<'a> {
    // The contents of a file that is right.
    #[tactic(auto, unfolding(crate::specs::Format::contents_right))]
    pub fn read(file: &'a [u8]) -> Result<Contents<'a>, FileWrong>
        ensures { MatchResult result (λ c. IsContents file.now c.file.now c.count) (λ _. contents_right file.now ≡ false) }
    {
        if !is_header(file) {
            return Err(FileWrong);
        }
        let count = u16_at(file, 6) as usize;
        if file.len() < 8 + 12 * count {
            return Err(FileWrong);
        }
        let contents = Contents { file, count };
        if !contents.is_chained() {
            return Err(FileWrong);
        }
        Ok(contents)
    }

    // Entry i, the first being 0.
    pub(crate) fn entry(self, i: usize) -> Entry
        requires { i < self.count }
        ensures { result ≡ entry_of (drop (contents_end i) self.entry.file.now) }
    {
        let at = 8 + 12 * i;
        Entry {
            satellite: u32_at(self.file, at),
            offset: u32_at(self.file, at + 4),
            size: u32_at(self.file, at + 8),
        }
    }

    // Whether each entry may follow the one before it, and the last body ends with the file.
    fn is_chained(self) -> bool
        ensures { result ≡ chained (length self.entry.file.now) 0 (contents_end self.entry.count) (entries self.entry.count (drop 8 self.entry.file.now)) }
    {
        let mut least: u64 = 0;
        let mut end = 8 + 12 * (self.count as u64);
        for i in 0..self.count {
            let e = self.entry(i);
            if !is_next(least, end, e) {
                return false;
            }
            least = (e.satellite as u64) + 1;
            end += e.size as u64;
        }
        end == self.file.len() as u64
    }
}

// Whether header and contents are right: not refusal 14.
pub fn is_right(file: &[u8]) -> bool
    ensures { result ≡ contents_right file.now }
{
    Contents::read(file).is_ok()
}
