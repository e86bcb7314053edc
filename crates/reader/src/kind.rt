// The kinds of records: one table of kind bytes and body lengths.
ghost use Rattle.std.specs.Prelude.{◌≡◌};
ghost use Rattle.reader.specs.Records.{OfByte, body_length};

use crate::unreadable::Unreadable;

#[derive(Clone, Copy)]
pub(crate) enum Kind {
    Open,
    Enter,
    Withdraw,
    Place,
    Judge,
    JudgeByChapter,
    Read,
    List,
    Audit,
}

// The kind that a byte stands for.
impl TryFrom<u8> for Kind {
    type Error = Unreadable;

    ghost try_from_gives = { OfByte };

    fn try_from(byte: u8) -> Result<Kind, Unreadable> {
        match byte {
            1 => Ok(Kind::Open),
            2 => Ok(Kind::Enter),
            3 => Ok(Kind::Withdraw),
            4 => Ok(Kind::Place),
            5 => Ok(Kind::Judge),
            6 => Ok(Kind::JudgeByChapter),
            7 => Ok(Kind::Read),
            8 => Ok(Kind::List),
            9 => Ok(Kind::Audit),
            _ => Err(Unreadable::Unknown),
        }
    }
}

impl Kind {
    pub(crate) fn body_length(self) -> usize
        ensures { result ≡ body_length self }
    {
        match self {
            Kind::Read | Kind::List | Kind::Audit => 0,
            Kind::Open | Kind::Withdraw => 1,
            Kind::Place => 2,
            Kind::Judge | Kind::JudgeByChapter => 16,
            Kind::Enter => 33,
        }
    }
}
