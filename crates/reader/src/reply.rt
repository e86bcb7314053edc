// A reply under way: its bytes stand at the front of a buffer that is lent, each part put behind the others.
ghost use Rattle.std.specs.Prelude.{◌≡◌, ℕ, ◌+◌, ◌*◌, ◌<◌, ◌≤◌, List, [], ◌∷◌, length};
ghost use Rattle.std.specs.List.{flat_map};
ghost use Rattle.std.proofs.Common.{rules};
ghost use Rattle.reader.specs.Replies.{mark_byte, ruling_row, upward_row};
ghost use Rattle.reader.specs.Writing.{Holds, Adds};

use crate::mark::Mark;
use answers::UpwardReading;
use rulings::Ruling;

#[derive(Drop)]
pub(crate) struct Reply<'a> {
    buffer: &'a mut [u8],
    pub(crate) length: usize,
}

impl<'a> Reply<'a> {
    // A reply of one byte, its mark.
    pub(crate) fn new(buffer: &'a mut [u8], mark: Mark) -> Reply<'a>
        requires { 0 < length buffer.old }
        ensures lent { result.buffer.ghost_name ≡ buffer.entry.ghost_name }
        ensures room { length result.buffer.now ≡ length buffer.old }
        ensures count { result.length ≡ 1 }
        ensures holds { Holds (mark_byte mark ∷ []) buffer.old result }
    {
        buffer[0] = mark.byte();
        Reply { buffer, length: 1 }
    }

    // The reply with more bytes behind it.
    pub(crate) fn with(&mut self, bytes: &[u8]) -> &mut Reply<'a>
        requires { self.old.length + length bytes.now ≤ length self.old.buffer.now }
        ensures same { result.ghost_name ≡ self.entry.ghost_name }
        ensures lent { result.now.buffer.ghost_name ≡ self.old.buffer.ghost_name }
        ensures room { length result.now.buffer.now ≡ length self.old.buffer.now }
        ensures count { result.now.length ≡ self.old.length + length bytes.now }
        ensures adds { Adds bytes.now self.old result.now }
    {
        let end = self.length + bytes.len();
        self.buffer[self.length..end].copy_from_slice(bytes);
        self.length = end;
        self
    }

    // The reply with all rows behind it.
    pub(crate) fn with_rows<R: ReplyRow>(&mut self, rows: &[R]) -> &mut Reply<'a>
        requires { self.old.length + R.ReplyRow.width * length rows.now ≤ length self.old.buffer.now }
        ensures same { result.ghost_name ≡ self.entry.ghost_name }
        ensures lent { result.now.buffer.ghost_name ≡ self.old.buffer.ghost_name }
        ensures adds { Adds (flat_map R.ReplyRow.told rows.now) self.old result.now }
    {
        for row in rows {
            row.behind(self);
        }
        self
    }
}

// A row as it stands in a reply, in so many bytes.
pub(crate) trait ReplyRow: Copy {
    ghost told: { Self → List ℕ };

    ghost width: { ℕ };

    // Puts the row behind the reply.
    fn behind(self, reply: &mut Reply)
        requires { reply.old.length + width ≤ length reply.old.buffer.now }
        ensures lent { reply.new.buffer.ghost_name ≡ reply.old.buffer.ghost_name }
        ensures room { length reply.new.buffer.now ≡ length reply.old.buffer.now }
        ensures count { reply.new.length ≡ reply.old.length + width }
        ensures adds { Adds (told self) reply.old reply.new };

    ghost long: { (row : Self) → length (told row) ≡ width };
}

impl ReplyRow for Ruling {
    ghost told = { ruling_row };

    ghost width = { 17 };

    ghost long = { Prim.search rules };

    fn behind(self, reply: &mut Reply) {
        reply.with(&[Mark::RulingRow.byte()]).with(&self.bytes());
    }
}

impl ReplyRow for UpwardReading {
    ghost told = { upward_row };

    ghost width = { 4 };

    ghost long = { Prim.search rules };

    fn behind(self, reply: &mut Reply) {
        reply.with(&[Mark::UpwardRow.byte(), self.drop, self.reader, self.read]);
    }
}
