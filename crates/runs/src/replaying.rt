// Carrying out a list of calls on a marker, one after another.
ghost use Rattle.std.specs.Prelude.{◌≡◌, map, vec_len, MatchResult};
ghost use Rattle.runs.specs.History.{History, BrokenOff};
ghost use Rattle.runs.specs.Step.{call_does, marker_calls, Reads, Lists, Audits};
ghost use Rattle.runs.specs.Told.{told};

use crate::answer::Answer;
use crate::call::Call;
use answers::{Fault, UpwardReading};
use books::Book;
use marker::Marker;
use rulings::Ruling;
use std::alloc::{AllocError, Global};

// Makes the calls and answers what each answered. Where memory runs out, the marker stands at the end of a history
// of the calls made so far.
pub fn replay<B: Book>(
    marker: &mut Marker<B>,
    calls: &[Call],
    heap: Global,
) -> Result<Vec<Result<Answer, Fault>>, AllocError>
    ensures { MatchResult result (λ v. History (marker_calls B.Book) marker.old calls.now (map told v.items) marker.new) (λ _. BrokenOff (marker_calls B.Book) marker.old calls.now marker.new) }
{
    let mut answers = Vec::new(heap);
    for call in calls {
        let answer = answer(marker, *call, heap)?;
        answers.push(answer)?;
    }
    Ok(answers)
}

// Makes one call. Where memory runs out, it is not made.
fn answer<B: Book>(
    marker: &mut Marker<B>,
    call: Call,
    heap: Global,
) -> Result<Result<Answer, Fault>, AllocError>
    ensures { MatchResult result (λ a. call_does B.Book call marker.old (told a) marker.new) (λ _. marker.new ≡ marker.old) }
{
    match call {
        Call::Open { size } => Ok(marker.open(size).map(|()| Answer::Done)),
        Call::Enter { point, p, q } => Ok(marker.enter(point, p, q).map(|()| Answer::Done)),
        Call::Withdraw { point } => Ok(marker.withdraw(point).map(|()| Answer::Done)),
        Call::Place { point, chapter } => Ok(marker.place(point, chapter).map(|()| Answer::Done)),
        Call::Judge { ruling } => Ok(marker.judge(ruling).map(Answer::Verdict)),
        Call::JudgeByChapter { ruling } => Ok(
            marker.judge_by_chapter(ruling).map(Answer::ChapterVerdict),
        ),
        Call::Read => Ok(read(marker)),
        Call::List { rows } => Ok(list(marker, vec![in heap; Ruling::empty(); rows]?)),
        Call::Audit { rows } => Ok(audit(marker, vec![in heap; UpwardReading::default(); rows]?)),
    }
}

fn read<B: Book>(marker: &Marker<B>) -> Result<Answer, Fault>
    ensures { Reads B.Book.meaning marker.now (told result) marker.now }
{
    let mut sure = Ruling::empty();
    let mut possible = Ruling::empty();
    marker.read(&mut sure, &mut possible)?;
    Ok(Answer::Reading { sure, possible })
}

// Lists into the rows; the answer keeps those that were written.
fn list<B: Book>(marker: &Marker<B>, mut rows: Vec<Ruling>) -> Result<Answer, Fault>
    ensures { Lists B.Book.meaning (vec_len rows) marker.now (told result) marker.now }
{
    let listing = marker.list(&mut rows)?;
    rows.truncate(listing.rows);
    Ok(Answer::Listing {
        rows,
        effort: listing.effort,
    })
}

fn audit<B: Book>(marker: &Marker<B>, mut rows: Vec<UpwardReading>) -> Result<Answer, Fault>
    ensures { Audits B.Book.meaning (vec_len rows) marker.now (told result) marker.now }
{
    let count = marker.audit(&mut rows)?;
    rows.truncate(count);
    Ok(Answer::Audit(rows))
}
