// How a call ends whose answer goes behind one pointer.
ghost use Rattle.std.specs.Prelude.{◌≡◌};
ghost use Rattle.std.specs.Result.{result_unwrap_or};
ghost use Rattle.orbt.specs.Answer.{number};

// Puts an answer behind its pointer and gives 0; a refusal gives its number, and leaves what is there.
pub(crate) fn put<T: Copy>(answer: Result<T, u32>, place: &mut T) -> u32
    ensures { (result ≡ number answer) × (place.new ≡ result_unwrap_or answer place.old) }
{
    match answer {
        Ok(value) => {
            *place = value;
            0
        }
        Err(number) => number,
    }
}
