// The running controller: constants and state in force as one value. Only its methods change it.
#![tactic(auto)]

ghost use Rattle.std.specs.Prelude.{◌≡◌, length, Err};
ghost use Rattle.store.specs.Save.{stored, stored_file, output_after};
ghost use Rattle.store.specs.Restore.{steps_of};
ghost use Rattle.controller.specs.Running.{number as number_of, started, asked_of, kept, restored_by, restore_of};

use body::examine::Record;
use elements::elements::Question;
use orbit::propagator::Constants;
use resonance::ask::{Answer, Asked, ask};
use resonance::state::{ResonanceState, initial_state};
use store::restore::{RestoreError, restore};
use store::save::{StoreError, save};

// Constants and state in force. A non-resonant orbit has no state.
#[derive(Clone, Copy, Debug, PartialEq)]
pub struct Controller {
    constants: Constants,
    state: Option<ResonanceState>,
}

// An answer, the controller after it, and the steps made.
#[derive(Clone, Copy, Debug, PartialEq)]
pub struct After<A> {
    pub answer: A,
    pub controller: Controller,
    pub steps: u32,
}

// After an ask.
pub type Reply = After<Answer>;

// After a restore: its steps are those of the replay.
pub type Resumed = After<Result<(), RestoreError>>;

// The number of a restore's refusal, and 0 where the restore was accepted.
// (Public, and its clause cites `number` of specs/, which has the 0 too.)
pub fn number(answer: Result<(), RestoreError>) -> u32
    ensures { result ≡ number_of answer }
{
    match answer {
        Ok(()) => 0,
        Err(error) => error.number(),
    }
}

// The steps of a replay that 18 refuses, and none of any other refusal.
fn steps_before(error: RestoreError) -> u32
    ensures { result ≡ steps_of (Err error) }
{
    match error {
        RestoreError::StateWrong { steps } => steps,
        _ => 0,
    }
}

impl Controller {
    // A controller of an orbit, with its fresh state.
    pub fn start(constants: Constants) -> Controller
        ensures { result ≡ started constants }
    {
        Controller {
            constants,
            state: initial_state(constants),
        }
    }

    // The constants in force.
    pub fn constants(self) -> Constants
        ensures { result ≡ self.constants }
    {
        self.constants
    }

    // The state in force, or none.
    pub fn state(self) -> Option<ResonanceState>
        ensures { result ≡ self.state }
    {
        self.state
    }

    // The elements at a time, or refusals 1 to 12.
    pub fn ask(self, q: Question) -> Reply
        ensures { result ≡ asked_of self q }
    {
        let Asked {
            answer,
            state,
            steps,
        } = ask(self.state, self.constants, q);
        After {
            answer,
            controller: Controller { state, ..self },
            steps,
        }
    }

    // Writes the file with the record of a satellite added or replaced into `out`; the controller stays
    // as it is.
    // (File, room and satellite one by one, for the reason that contents::save gives.)
    pub fn save(self, file: &[u8], out: &mut [u8], satellite: u32) -> Result<usize, StoreError>
        ensures { (result ≡ stored file.now satellite self.constants self.state (length out.old))
            × (out.new ≡ output_after result (stored_file file.now satellite self.constants self.state) out.old) }
    {
        save(file, out, satellite, self.constants, self.state)
    }

    // A restore with this controller in force after it.
    fn kept(self, answer: Result<(), RestoreError>, steps: u32) -> Resumed
        ensures { result ≡ kept self answer steps }
    {
        After {
            answer,
            controller: self,
            steps,
        }
    }

    // The controller of what was restored, or this one.
    fn resumed(self, restored: Result<Record, RestoreError>) -> Resumed
        ensures { result ≡ restored_by self restored }
    {
        match restored {
            Ok(r) => {
                let controller = Controller {
                    constants: r.constants,
                    state: r.state,
                };
                controller.kept(Ok(()), r.steps)
            }
            Err(error) => self.kept(Err(error), steps_before(error)),
        }
    }

    // Constants and state of a satellite from the bytes of a file, together, or all as it was.
    pub fn restore(self, file: &[u8], satellite: u32) -> Resumed
        ensures { result ≡ restore_of self file.now satellite }
    {
        self.resumed(restore(file, satellite))
    }

    // The fresh state of the constants in force.
    pub fn reset(self) -> Controller
        ensures { result ≡ started self.constants }
    {
        Controller::start(self.constants)
    }
}
