// The kinds of bodies and the airs, by the file's numbers.
ghost use Rattle.question.specs.Numbers.{NamesKind, NamesAir};

// What a body is of.
#[derive(Clone, Copy, Debug, PartialEq, Eq)]
pub enum Kind {
    Frames,
    Echo,
    Silence,
    Snr,
    Families,
    Prices,
    Seed,
}

// A first byte that names no kind. (This and `UnknownAir` are two types, and not one over the number's: each says what its number does not name, and
// neither is printed.)
#[derive(Clone, Copy, Debug, PartialEq, Eq)]
pub struct UnknownKind(pub u8);

impl TryFrom<u8> for Kind {
    type Error = UnknownKind;

    ghost try_from_gives = { NamesKind };

    fn try_from(number: u8) -> Result<Self, UnknownKind> {
        match number {
            1 => Ok(Kind::Frames),
            2 => Ok(Kind::Echo),
            3 => Ok(Kind::Silence),
            4 => Ok(Kind::Snr),
            5 => Ok(Kind::Families),
            6 => Ok(Kind::Prices),
            7 => Ok(Kind::Seed),
            _ => Err(UnknownKind(number)),
        }
    }
}

// An air. (Not called `Air`: that is the ladder's struct of a table's small facts.)
#[derive(Clone, Copy, Debug, PartialEq, Eq)]
pub enum Bandwidth {
    Wide,
    Narrow,
}

// A number that names no air.
#[derive(Clone, Copy, Debug, PartialEq, Eq)]
pub struct UnknownAir(pub u32);

impl TryFrom<u32> for Bandwidth {
    type Error = UnknownAir;

    ghost try_from_gives = { NamesAir };

    fn try_from(number: u32) -> Result<Self, UnknownAir> {
        match number {
            1 => Ok(Bandwidth::Wide),
            2 => Ok(Bandwidth::Narrow),
            _ => Err(UnknownAir(number)),
        }
    }
}
