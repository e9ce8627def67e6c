// A save: constants with none or a state, examined and written into a new file as one record.
ghost use Rattle.std.specs.Prelude.{◌≡◌, length, Err};
ghost use Rattle.store.specs.Save.{number as number_of_answer, is_resonant as is_resonant_kind, of_body, of_file, stored_file, stored, output_after};

use body::bytes::{body_of, body_size};
use body::examine::{BodyError, examine};
use contents::format::is_right;
use contents::save::{SaveError, save as save_body};
use orbit::propagator::{Constants, Resonant};
use resonance::state::ResonanceState;

// Why nothing is saved, by the refusal's number.
#[derive(Clone, Copy, Debug, PartialEq, Eq)]
pub enum StoreError {
    OrbitNonResonant = 4,
    NoState = 5,
    FileWrong = 14,
    BodyWrong = 16,
    NumberNotFinite = 17,
    StateWrong = 18,
    StoreFull = 20,
    OutputShort = 19,
}

impl StoreError {
    // The refusal's number. (No `From`: `e.number()` says which number it is, by the same body.)
    pub fn number(self) -> u32
        ensures { result ≡ number_of_answer (Err self) }
    {
        self as u32
    }
}

impl From<BodyError> for StoreError {
    ghost from_gives = { λ e r. r ≡ of_body e };

    fn from(e: BodyError) -> StoreError {
        match e {
            BodyError::Wrong => StoreError::BodyWrong,
            BodyError::NumberNotFinite => StoreError::NumberNotFinite,
            BodyError::StateWrong { .. } => StoreError::StateWrong,
        }
    }
}

impl From<SaveError> for StoreError {
    ghost from_gives = { λ e r. r ≡ of_file e };

    fn from(e: SaveError) -> StoreError {
        match e {
            SaveError::FileWrong => StoreError::FileWrong,
            SaveError::StoreFull => StoreError::StoreFull,
            SaveError::OutputShort => StoreError::OutputShort,
        }
    }
}

// The number of a save's answer: the refusal's, and 0 where the new file was written.
// (Public, and its clause cites `number` of specs/, which has the 0 too.)
pub fn number(answer: Result<usize, StoreError>) -> u32
    ensures { result ≡ number_of_answer answer }
{
    match answer {
        Ok(_) => 0,
        Err(e) => e.number(),
    }
}

// Whether the kind that constants carry is resonant.
fn is_resonant(c: Constants) -> bool
    ensures { result ≡ is_resonant_kind c.resonant }
{
    matches!(c.resonant, Resonant::Yes { .. })
}

// Writes the old file with the record of a satellite added or replaced into `out`. Returns the length of the new file.
// (File, room and satellite one by one, for the reason that contents::save gives.)
#[tactic(auto, unfolding(crate::specs::Save::stored))]
pub fn save(
    file: &[u8],
    out: &mut [u8],
    satellite: u32,
    constants: Constants,
    state: Option<ResonanceState>,
) -> Result<usize, StoreError>
    ensures { (result ≡ stored file.now satellite constants state (length out.old))
        × (out.new ≡ output_after result (stored_file file.now satellite constants state) out.old) }
{
    let resonant = is_resonant(constants);
    let given = state.is_some();
    if given & !resonant {
        return Err(StoreError::OrbitNonResonant);
    }
    if !given & resonant {
        return Err(StoreError::NoState);
    }
    if !is_right(file) {
        return Err(StoreError::FileWrong);
    }
    examine(constants, state)?;
    let b = body_of(constants, state);
    let size = body_size(constants, state);
    let written = save_body(file, out, satellite, &b[..size])?;
    Ok(written)
}
