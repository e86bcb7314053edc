// Calls carried out, and the replies to them written into a buffer that is lent.
ghost use Rattle.std.specs.Prelude.{◌≡◌, ◌≤◌, ◌∷◌, length};
ghost use Rattle.runs.specs.declared.call.Call.TheVariants as call;
ghost use Rattle.runs.specs.Told.{outcome_told};
ghost use Rattle.reader.specs.Records.{Lends64};
ghost use Rattle.reader.specs.Replies.{fault_reply, mark_byte};
ghost use Rattle.reader.specs.Writing.{WroteAll};
ghost use Rattle.reader.specs.Carrying.{Carried, RepliesAs};

use crate::limits::{LONGEST_INPUT, LONGEST_REPLY};
use crate::mark::Mark;
use crate::reply::Reply;
use answers::{Fault, UpwardReading};
use books::Book;
use marker::Marker;
use rulings::Ruling;
use runs::Call;

// Makes the call and writes the reply to it, whose length it answers; a fault is passed on, and nothing is written.
pub(crate) fn carry_out<B: Book>(
    marker: &mut Marker<B>,
    call: Call,
    reply: &mut [u8],
) -> Result<usize, Fault>
    requires room { LONGEST_REPLY ≤ length reply.old }
    requires lends { Lends64 call }
    ensures { Carried B.Book call marker.old reply.old result reply.new marker.new }
{
    match call {
        Call::Open { size } => done(marker.open(size), reply),
        Call::Enter { point, p, q } => done(marker.enter(point, p, q), reply),
        Call::Withdraw { point } => done(marker.withdraw(point), reply),
        Call::Place { point, chapter } => done(marker.place(point, chapter), reply),
        Call::Judge { ruling } => Ok(verdict(marker.judge(ruling)?.told(), reply)),
        Call::JudgeByChapter { ruling } => Ok(verdict(
            marker.judge_by_chapter(ruling)?.told(),
            reply,
        )),
        Call::Read => read(marker, reply),
        Call::List { .. } => list(marker, reply),
        Call::Audit { .. } => audit(marker, reply),
    }
}

fn done(outcome: Result<(), Fault>, reply: &mut [u8]) -> Result<usize, Fault>
    requires { LONGEST_REPLY ≤ length reply.old }
    ensures { RepliesAs (outcome_told outcome) reply.old result reply.new }
{
    outcome?;
    Ok(Reply::new(reply, Mark::Done).length)
}

fn verdict(told: [u8; 3], reply: &mut [u8]) -> usize
    requires { LONGEST_REPLY ≤ length reply.old }
    ensures { WroteAll (mark_byte Mark.Verdict ∷ told) reply.old result reply.new }
{
    Reply::new(reply, Mark::Verdict).with(&told).length
}

fn read<B: Book>(marker: &Marker<B>, reply: &mut [u8]) -> Result<usize, Fault>
    requires { LONGEST_REPLY ≤ length reply.old }
    ensures { Carried B.Book call.Read marker.now reply.old result reply.new marker.now }
{
    let mut sure = Ruling::empty();
    let mut possible = Ruling::empty();
    marker.read(&mut sure, &mut possible)?;
    Ok(
        Reply::new(reply, Mark::Reading)
            .with(&sure.bytes())
            .with(&possible.bytes())
            .length,
    )
}

fn list<B: Book>(marker: &Marker<B>, reply: &mut [u8]) -> Result<usize, Fault>
    requires { LONGEST_REPLY ≤ length reply.old }
    ensures { Carried B.Book (call.List 64) marker.now reply.old result reply.new marker.now }
{
    let mut rows = [Ruling::empty(); 64];
    let listing = marker.list(&mut rows)?;
    Ok(
        Reply::new(reply, Mark::Listing)
            .with(&(listing.rows as u16).to_le_bytes())
            .with(&listing.effort.to_le_bytes())
            .with_rows(&rows[..listing.rows])
            .length,
    )
}

fn audit<B: Book>(marker: &Marker<B>, reply: &mut [u8]) -> Result<usize, Fault>
    requires { LONGEST_REPLY ≤ length reply.old }
    ensures { Carried B.Book (call.Audit 64) marker.now reply.old result reply.new marker.now }
{
    let mut rows = [UpwardReading::default(); 64];
    let count = marker.audit(&mut rows)?;
    Ok(
        Reply::new(reply, Mark::Audit)
            .with(&(count as u16).to_le_bytes())
            .with_rows(&rows[..count])
            .length,
    )
}

// Writes the denial of the record at an offset, and answers its length.
pub(crate) fn denial(fault: Fault, offset: usize, reply: &mut [u8]) -> usize
    requires room { LONGEST_REPLY ≤ length reply.old }
    requires within { offset ≤ LONGEST_INPUT }
    ensures { WroteAll (fault_reply offset fault) reply.old result reply.new }
{
    let (first, second) = fault.places();
    Reply::new(reply, Mark::Denial)
        .with(&[
            fault.number(),
            fault.layer().number(),
            first.unwrap_or(255),
            second.unwrap_or(255),
        ])
        .with(&(offset as u32).to_le_bytes())
        .length
}
