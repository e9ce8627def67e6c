// Why a build or a geometry is refused, by the refusal's number.
ghost use Rattle.std.specs.Prelude.{◌≡◌};
ghost use Rattle.constants.specs.Error.{number as number_of};

#[derive(Clone, Copy, Debug, PartialEq, Eq)]
pub enum BuildError {
    NumberNotFinite = 3,
    AngleOutside = 9,
    NotFinite = 13,
}

impl BuildError {
    // The refusal's number. (No `From`: `e.number()` says which number it is, by the same body.)
    pub fn number(self) -> u32
        ensures { result ≡ number_of self }
    {
        self as u32
    }
}
