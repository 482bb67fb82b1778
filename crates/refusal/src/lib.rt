// Rules 11: the refusals and their numbers, once for every call. A test of the input is a `Result<(), Refusal>`.
#![tactic(auto)]

ghost use Rattle.std.specs.Prelude.{◌≡◌};
ghost use Rattle.refusal.specs.Refusals.{number_of};

#[derive(Clone, Copy, Debug, PartialEq, Eq)]
pub enum Refusal {
    Steps = 1,
    Length = 2,
    Room = 3,
    Coordinate = 4,
    Texture = 5,
    Count = 6,
    Direction = 7,
    NotThere = 8,
    Mark = 9,
    Sample = 10,
    NoStep = 11,
    Full = 12,
    Tolerance = 13,
    Mapping = 14,
}

// Its number.
impl From<Refusal> for u8 {
    ghost from_gives = { λ refusal number. number ≡ number_of refusal };

    fn from(refusal: Refusal) -> u8
        ensures { result ≡ number_of refusal }
    {
        refusal as u8
    }
}
