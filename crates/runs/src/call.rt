// Calls on a marker, as data.
use rulings::Ruling;

// A call and what it is given. A listing and an audit say how many rows are lent to them.
#[derive(Clone, Copy)]
pub enum Call {
    Open { size: u8 },
    Enter { point: u8, p: Ruling, q: Ruling },
    Withdraw { point: u8 },
    Place { point: u8, chapter: u8 },
    Judge { ruling: Ruling },
    JudgeByChapter { ruling: Ruling },
    Read,
    List { rows: usize },
    Audit { rows: usize },
}
