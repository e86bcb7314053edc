// Why no record can be read at a place of an input.
ghost use Rattle.std.specs.Prelude.{◌≡◌};
ghost use Rattle.reader.specs.Unreadable.{refusal_of};

use answers::Refusal;

#[derive(Clone, Copy, PartialEq, Eq, Debug)]
pub enum Unreadable {
    // the kind byte is none of those that are known
    Unknown,
    // the input ends within the record
    Cut,
}

impl From<Unreadable> for Refusal {
    ghost from_gives = { λ why refusal. refusal ≡ refusal_of why };

    fn from(why: Unreadable) -> Refusal {
        match why {
            Unreadable::Unknown => Refusal::UnknownRecord,
            Unreadable::Cut => Refusal::CutRecord,
        }
    }
}
