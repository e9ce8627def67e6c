// A restore: header, contents and the one body are checked, and constants and state come together.
ghost use Rattle.std.specs.Prelude.{◌≡◌, Err};
ghost use Rattle.store.specs.Restore.{number as number_of_answer, of_file, of_body, restored_from};

use body::examine::{BodyError, Record};
use body::read::read_body;
use contents::find::{FindError, find};

// Why nothing is restored.
#[derive(Clone, Copy, Debug, PartialEq, Eq)]
pub enum RestoreError {
    FileWrong, // refusal 14
    SatelliteMissing, // refusal 15
    BodyWrong, // refusal 16
    NumberNotFinite, // refusal 17
    StateWrong { steps: u32 }, // refusal 18, and the steps of the replay made before it
}

impl RestoreError {
    // The refusal's number. (No `From`: `e.number()` says which number it is, by the same body.)
    pub fn number(self) -> u32
        ensures { result ≡ number_of_answer (Err self) }
    {
        match self {
            RestoreError::FileWrong => 14,
            RestoreError::SatelliteMissing => 15,
            RestoreError::BodyWrong => 16,
            RestoreError::NumberNotFinite => 17,
            RestoreError::StateWrong { .. } => 18,
        }
    }
}

impl From<FindError> for RestoreError {
    ghost from_gives = { λ e r. r ≡ of_file e };

    fn from(e: FindError) -> RestoreError {
        match e {
            FindError::FileWrong => RestoreError::FileWrong,
            FindError::SatelliteMissing => RestoreError::SatelliteMissing,
        }
    }
}

impl From<BodyError> for RestoreError {
    ghost from_gives = { λ e r. r ≡ of_body e };

    fn from(e: BodyError) -> RestoreError {
        match e {
            BodyError::Wrong => RestoreError::BodyWrong,
            BodyError::NumberNotFinite => RestoreError::NumberNotFinite,
            BodyError::StateWrong { steps } => RestoreError::StateWrong { steps },
        }
    }
}

// Constants and state of a satellite, from the bytes of a file. No other body is looked into.
#[tactic(auto, unfolding(crate::specs::Restore::restored_from))]
pub fn restore(file: &[u8], satellite: u32) -> Result<Record, RestoreError>
    ensures { result ≡ restored_from file.now satellite }
{
    let body = find(file, satellite)?;
    let end = body.offset + body.size;
    let record = read_body(&file[body.offset..end])?;
    Ok(record)
}
