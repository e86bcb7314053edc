// Questions put to a marker, each kept with what it was answered.
ghost use Rattle.std.specs.Prelude.{◌≡◌, ℕ, ◌&&◌, nat_lt};
ghost use Rattle.rulings.specs.Points.{listed as is_listed};
ghost use Rattle.rulings.specs.Rulings.{has};
ghost use Rattle.marker.specs.Judging.{Judged, JudgedByChapter};
ghost use Rattle.marker.specs.State.{book_of, placing};
ghost use Rattle.telling.specs.Asking.{ReadAfresh, ListedAfresh};

use answers::{ChapterVerdict, Fault, Listing, Verdict};
use books::Book;
use marker::Marker;
use rulings::Ruling;

// A ruling, judged by the whole book.
#[derive(Clone, Copy)]
pub struct Judgement {
    pub ruling: Ruling,
    pub outcome: Result<Verdict, Fault>,
}

// Judges the ruling of the points listed.
pub fn judged<B: Book>(marker: &Marker<B>, points: &[u8]) -> Judgement
    ensures ruling { (a : ℕ) → has result.ruling a ≡ is_listed points.now a && nat_lt a 128 }
    ensures judged { Judged (B.meaning (book_of marker.now)) result.ruling result.outcome }
{
    let ruling = Ruling::from_points(points);
    Judgement {
        ruling,
        outcome: marker.judge(ruling),
    }
}

// A ruling, judged chapter by chapter.
#[derive(Clone, Copy)]
pub struct ChapterJudgement {
    pub ruling: Ruling,
    pub outcome: Result<ChapterVerdict, Fault>,
}

// Judges the ruling of the points listed, by chapters.
pub fn judged_by_chapter<B: Book>(marker: &Marker<B>, points: &[u8]) -> ChapterJudgement
    ensures ruling { (a : ℕ) → has result.ruling a ≡ is_listed points.now a && nat_lt a 128 }
    ensures judged { JudgedByChapter (B.meaning (book_of marker.now)) (placing marker.now) result.ruling result.outcome }
{
    let ruling = Ruling::from_points(points);
    ChapterJudgement {
        ruling,
        outcome: marker.judge_by_chapter(ruling),
    }
}

// What is sure and what is possible, where the reading was not denied.
#[derive(Clone, Copy)]
pub struct Reading {
    pub outcome: Result<(), Fault>,
    pub sure: Ruling,
    pub possible: Ruling,
}

// Reads into two empty rulings.
pub fn read<B: Book>(marker: &Marker<B>) -> Reading
    ensures { ReadAfresh (B.meaning (book_of marker.now)) (placing marker.now) result.outcome result.sure result.possible }
{
    let mut sure = Ruling::empty();
    let mut possible = Ruling::empty();
    let outcome = marker.read(&mut sure, &mut possible);
    Reading {
        outcome,
        sure,
        possible,
    }
}

// The rows of a listing, and how many of them are listed, where it was not denied.
#[derive(Clone, Copy)]
pub struct ListedRulings {
    pub outcome: Result<Listing, Fault>,
    pub rows: [Ruling; 8],
}

// Lists into eight empty rows.
pub fn listed<B: Book>(marker: &Marker<B>) -> ListedRulings
    ensures { ListedAfresh (B.meaning (book_of marker.now)) (placing marker.now) result.outcome result.rows }
{
    let mut rows = [Ruling::empty(); 8];
    let outcome = marker.list(&mut rows);
    ListedRulings { outcome, rows }
}
