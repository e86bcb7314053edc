// What stands at a place of an input.
ghost use Rattle.std.specs.Prelude.{◌≡◌, ℕ, ◌+◌, ◌<◌, ◌≤◌, ◌∷◌, length, take, drop, IfOk, IfSome};
ghost use Rattle.reader.specs.Records.{AtFront, Lends64, kind_byte, body_length, record_of};

use crate::kind::Kind;
use crate::unreadable::Unreadable;
use rulings::Ruling;
use runs::Call;

// The record of a call, and how many bytes it takes.
#[derive(Clone, Copy)]
pub struct Record {
    pub call: Call,
    pub length: usize,
}

// The record that stands at a place of the input; none at its end. A listing and an audit lend 64 rows.
pub fn front_of(input: &[u8], place: usize) -> Result<Option<Record>, Unreadable>
    ensures stands { AtFront (drop place input.now) result }
    ensures within { IfOk result (λ found. IfSome found (λ it. (0 < it.length) × (place + it.length ≤ length input.now))) }
{
    if place >= input.len() {
        return Ok(None);
    }
    let kind = Kind::try_from(input[place])?;
    let body = &input[place + 1..];
    if body.len() < kind.body_length() {
        return Err(Unreadable::Cut);
    }
    Ok(Some(Record {
        call: call_of(kind, body),
        length: kind.body_length() + 1,
    }))
}

// The call of a record with this kind and body.
fn call_of(kind: Kind, body: &[u8]) -> Call
    requires { body_length kind ≤ length body.now }
    ensures lends { Lends64 result }
    ensures record { record_of result ≡ kind_byte kind ∷ take (body_length kind) body.now }
{
    match kind {
        Kind::Open => Call::Open { size: body[0] },
        Kind::Enter => Call::Enter {
            point: body[0],
            p: ruling_at(body, 1),
            q: ruling_at(body, 17),
        },
        Kind::Withdraw => Call::Withdraw { point: body[0] },
        Kind::Place => Call::Place {
            point: body[0],
            chapter: body[1],
        },
        Kind::Judge => Call::Judge {
            ruling: ruling_at(body, 0),
        },
        Kind::JudgeByChapter => Call::JudgeByChapter {
            ruling: ruling_at(body, 0),
        },
        Kind::Read => Call::Read,
        Kind::List => Call::List { rows: 64 },
        Kind::Audit => Call::Audit { rows: 64 },
    }
}

// The ruling whose sixteen bytes stand at a place of the body.
fn ruling_at(body: &[u8], place: usize) -> Ruling
    requires { place + 16 ≤ length body.now }
    ensures { result.bytes ≡ take 16 (drop place body.now) }
{
    let bytes = body[place..].first_chunk().unwrap();
    Ruling::from(*bytes)
}
