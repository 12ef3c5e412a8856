// The numbers of relations and of the codes of 77.
ghost use Rattle.std.specs.Prelude.{◌≡◌, OkIff, IsTrue};
ghost use Rattle.base_program.specs.Ranges.{within, relations};
ghost use Rattle.base_program.specs.Codes.{relation_of, relation_number, is_code, code_of, code_number};

use crate::{Relation, TimeCode};

// The relation with a number; of numbers that have none, the last.
#[tactic(auto, unfolding(crate::specs::Codes::relation_of))]
pub fn relation_of(n: u16) -> Relation
    ensures { result ≡ relation_of n }
{
    match n {
        1 => Relation::Equal,
        2 => Relation::NotEqual,
        3 => Relation::AtLeast,
        _ => Relation::Below,
    }
}

// The code of 77 with a number; of numbers that have none, the last.
#[tactic(auto, unfolding(crate::specs::Codes::code_of))]
pub fn code_of(n: u16) -> TimeCode
    ensures { result ≡ code_of n }
{
    match n {
        10 => TimeCode::HoursMinutes,
        100 => TimeCode::Day,
        _ => TimeCode::DayHoursMinutes,
    }
}

// A number that stands for no relation, or for no code.
#[derive(Clone, Copy)]
pub struct NoSuchNumber(pub u16);

impl TryFrom<u16> for Relation {
    type Error = NoSuchNumber;

    ghost try_from_gives = { λ n r. OkIff r (IsTrue (within relations n)) (relation_of n) };

    fn try_from(n: u16) -> Result<Relation, NoSuchNumber> {
        match n {
            1..=4 => Ok(relation_of(n)),
            _ => Err(NoSuchNumber(n)),
        }
    }
}

impl From<Relation> for u16 {
    ghost from_gives = { λ r n. n ≡ relation_number r };

    #[tactic(auto, unfolding(crate::specs::Codes::relation_number))]
    fn from(r: Relation) -> u16 {
        match r {
            Relation::Equal => 1,
            Relation::NotEqual => 2,
            Relation::AtLeast => 3,
            Relation::Below => 4,
        }
    }
}

impl TryFrom<u16> for TimeCode {
    type Error = NoSuchNumber;

    ghost try_from_gives = { λ n r. OkIff r (IsTrue (is_code n)) (code_of n) };

    #[tactic(auto, unfolding(crate::specs::Codes::is_code))]
    fn try_from(n: u16) -> Result<TimeCode, NoSuchNumber> {
        match n {
            10 | 100 | 110 => Ok(code_of(n)),
            _ => Err(NoSuchNumber(n)),
        }
    }
}

impl From<TimeCode> for u16 {
    ghost from_gives = { λ c n. n ≡ code_number c };

    #[tactic(auto, unfolding(crate::specs::Codes::code_number))]
    fn from(c: TimeCode) -> u16 {
        match c {
            TimeCode::HoursMinutes => 10,
            TimeCode::Day => 100,
            TimeCode::DayHoursMinutes => 110,
        }
    }
}
