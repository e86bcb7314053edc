// What replies, and rows in them, begin with.
ghost use Rattle.std.specs.Prelude.{◌≡◌};
ghost use Rattle.reader.specs.Replies.{mark_byte};

#[derive(Clone, Copy)]
pub(crate) enum Mark {
    Done = 0x81,
    Verdict = 0x82,
    Reading = 0x83,
    Listing = 0x84,
    RulingRow = 0x85,
    Audit = 0x86,
    UpwardRow = 0x87,
    Denial = 0xFF,
}

impl Mark {
    pub(crate) fn byte(self) -> u8
        ensures { result ≡ mark_byte self }
    {
        self as u8
    }
}
