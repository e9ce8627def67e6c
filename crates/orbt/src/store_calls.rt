// The calls on a store's file, which is bytes that the caller holds.
// Kinds, flags, `held` and refusals are numbers, and each parameter stands alone, as C takes them.
ghost use Rattle.std.specs.Prelude.{◌≡◌};
ghost use Rattle.std.specs.Result.{result_unwrap_or};
ghost use Rattle.contents.specs.Find.{counted_in, listed_in, counted_number, listed_number};
ghost use Rattle.store.specs.Restore.{restored_from};
ghost use Rattle.orbt.specs.Store.{RestoreLeaves, SaveLeaves};

use crate::answer::put;
use crate::orbit_calls::{is_wrong, maybe_state, state_list};
use contents::find::{FindError, record_count, satellite_at};
use record::{constants_of, kind_of, numbers_of};
use store::restore::{RestoreError, restore};
use store::save::{StoreError, save};

// ---- the list of a file

// How many records a file has, or 14.
#[unsafe(no_mangle)]
pub extern "C" fn orbt_contents(file: &[u8], count: &mut u32) -> u32
    ensures { (result ≡ counted_number (counted_in file.now))
        × (count.new ≡ result_unwrap_or (counted_in file.now) count.old) }
{
    // by a match and not by `put`: a closure of `map` is not told that the count fits 32 bits
    match record_count(file) {
        Ok(n) => {
            *count = n as u32;
            0
        }
        Err(e) => e.number(),
    }
}

// The satellite of a record, the first being 0, or 14, or 15 past the last.
#[unsafe(no_mangle)]
pub extern "C" fn orbt_satellite(file: &[u8], place: u32, satellite: &mut u32) -> u32
    ensures { (result ≡ listed_number (listed_in file.now place))
        × (satellite.new ≡ result_unwrap_or (listed_in file.now place) satellite.old) }
{
    put(
        satellite_at(file, place as usize).map_err(FindError::number),
        satellite,
    )
}

// ---- restore

// Constants and state of a satellite together, or 14 to 18, which leave all but the steps.
#[unsafe(no_mangle)]
pub extern "C" fn orbt_restore(
    file: &[u8],
    satellite: u32,
    kind: &mut u32,
    flag: &mut u32,
    constants: &mut [f64; 34],
    held: &mut u32,
    state: &mut [f64; 3],
    steps: &mut u32,
) -> u32
    ensures { RestoreLeaves (restored_from file.now satellite)
        kind.old flag.old constants.old held.old state.old
        result kind.new flag.new constants.new held.new state.new steps.new }
{
    match restore(file, satellite) {
        Ok(record) => {
            *kind = kind_of(record.constants);
            *flag = record.constants.afspc_compatibility_mode as u32;
            *constants = numbers_of(record.constants);
            *held = record.state.is_some() as u32;
            if let Some(s) = record.state {
                *state = state_list(s);
            }
            *steps = record.steps;
            0
        }
        Err(e) => {
            // as the controller's `steps_before`: a method for these four lines would be public, with a
            // clause and an edit
            *steps = match e {
                RestoreError::StateWrong { steps } => steps,
                _ => 0,
            };
            e.number()
        }
    }
}

// ---- save

// Writes the file with one record added or replaced, or gives 4, 5, 14, 16, 17, 18, 20 or 19; 16 first
// where kind, flag or `held` is wrong.
#[unsafe(no_mangle)]
pub extern "C" fn orbt_save(
    file: &[u8],
    out: &mut [u8],
    satellite: u32,
    kind: u32,
    flag: u32,
    constants: &[f64; 34],
    held: u32,
    state: &[f64; 3],
    size: &mut usize,
) -> u32
    ensures { SaveLeaves file.now out.old satellite kind flag constants.now held state.now size.old
        result out.new size.new }
{
    if is_wrong(kind, flag, held) {
        return 16;
    }
    let c = constants_of(kind, flag == 1, constants);
    let state = maybe_state(held, *state);
    put(
        save(file, out, satellite, c, state).map_err(StoreError::number),
        size,
    )
}
