// What a store file has: the search for a satellite's body, and the list of its satellites.
ghost use Rattle.std.specs.Prelude.{◌≡◌, drop};
ghost use Rattle.contents.specs.Format.{entries};
ghost use Rattle.contents.specs.Find.{number as number_of_error, sought, found_in, counted_in, listed_in};
ghost use Rattle.contents.specs.declared.find.FindError.TheVariants.{FileWrong as FileIsWrong};

use crate::format::{Contents, FileWrong};

// Why nothing is found in a file, by the refusal's number.
#[derive(Clone, Copy, Debug, PartialEq, Eq)]
pub enum FindError {
    FileWrong = 14,
    SatelliteMissing = 15, // of a satellite, or of a place past the last record
}

impl FindError {
    // The refusal's number. (No `From`: `e.number()` says which number it is, by the same body.)
    pub fn number(self) -> u32
        ensures { result ≡ number_of_error self }
    {
        self as u32
    }
}

impl From<FileWrong> for FindError {
    ghost from_gives = { λ _ e. e ≡ FileIsWrong };

    fn from(_: FileWrong) -> FindError {
        FindError::FileWrong
    }
}

// Where a body is in a file.
#[derive(Clone, Copy, Debug, PartialEq, Eq)]
pub struct Span {
    pub offset: usize,
    pub size: usize,
}

impl Contents<'_> {
    // Where the body of a satellite is, by the first entry that has it.
    fn find(self, satellite: u32) -> Option<Span>
        ensures { result ≡ sought satellite (entries self.entry.count (drop 8 self.entry.file.now)) }
    {
        // by a loop: with a chain of `map` and `find`, which was proved, a restore among 128 records takes
        // 377 ns for 300
        for i in 0..self.count {
            let e = self.entry(i);
            if e.satellite == satellite {
                return Some(Span {
                    offset: e.offset as usize,
                    size: e.size as usize,
                });
            }
        }
        None
    }
}

// Where the body of a satellite is in a file.
#[tactic(auto, unfolding(crate::specs::Find::found_in))]
pub fn find(file: &[u8], satellite: u32) -> Result<Span, FindError>
    ensures { result ≡ found_in file.now satellite }
{
    let contents = Contents::read(file)?;
    contents.find(satellite).ok_or(FindError::SatelliteMissing)
}

// How many records a file has.
#[tactic(auto, unfolding(crate::specs::Find::counted_in))]
pub fn record_count(file: &[u8]) -> Result<usize, FileWrong>
    ensures { result ≡ counted_in file.now }
{
    let contents = Contents::read(file)?;
    Ok(contents.count)
}

// The satellite of record i of a file, the first being 0.
#[tactic(auto, unfolding(crate::specs::Find::listed_in))]
pub fn satellite_at(file: &[u8], i: usize) -> Result<u32, FindError>
    ensures { result ≡ listed_in file.now i }
{
    let contents = Contents::read(file)?;
    if contents.count <= i {
        return Err(FindError::SatelliteMissing);
    }
    Ok(contents.entry(i).satellite)
}
