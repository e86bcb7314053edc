// Refusals: why a call was denied, at which places, and by which layer.
ghost use Rattle.std.specs.Prelude.{◌≡◌};
ghost use Rattle.answers.specs.Faults.{number, word, places, layer_number, fault_of};

mod checks;
mod of_refusal;
pub mod words;

// Why a call was denied. A case carries the places that it names.
#[derive(Clone, Copy, PartialEq, Eq, Debug)]
pub enum Refusal {
    BadSize,
    NoSuchPoint(u8),
    StrayMark(u8),
    NoSupportersHere(u8),
    BookFull,
    NothingEntered(u8),
    NoSuchChapter(u8),
    ReadsUpward(u8, u8),
    ChapterTooWide(u8),
    TooMuchToTry,
    ListTooShort,
    InputTooLong,
    ReplyTooShort,
    UnknownRecord,
    CutRecord,
}

impl Refusal {
    // The number of the refusal, 1 to 15.
    pub fn number(self) -> u8
        ensures { result ≡ number self }
    {
        match self {
            Refusal::BadSize => 1,
            Refusal::NoSuchPoint(_) => 2,
            Refusal::StrayMark(_) => 3,
            Refusal::NoSupportersHere(_) => 4,
            Refusal::BookFull => 5,
            Refusal::NothingEntered(_) => 6,
            Refusal::NoSuchChapter(_) => 7,
            Refusal::ReadsUpward(_, _) => 8,
            Refusal::ChapterTooWide(_) => 9,
            Refusal::TooMuchToTry => 10,
            Refusal::ListTooShort => 11,
            Refusal::InputTooLong => 12,
            Refusal::ReplyTooShort => 13,
            Refusal::UnknownRecord => 14,
            Refusal::CutRecord => 15,
        }
    }

    // The word for the refusal.
    pub fn word(self) -> &'static str
        ensures { result.now ≡ word self }
    {
        match self {
            Refusal::BadSize => "bad size",
            Refusal::NoSuchPoint(_) => "no such point",
            Refusal::StrayMark(_) => "stray mark",
            Refusal::NoSupportersHere(_) => "no supporters here",
            Refusal::BookFull => "book full",
            Refusal::NothingEntered(_) => "nothing entered",
            Refusal::NoSuchChapter(_) => "no such chapter",
            Refusal::ReadsUpward(_, _) => "reads upward",
            Refusal::ChapterTooWide(_) => "chapter too wide",
            Refusal::TooMuchToTry => "too much to try",
            Refusal::ListTooShort => "list too short",
            Refusal::InputTooLong => "input too long",
            Refusal::ReplyTooShort => "reply too short",
            Refusal::UnknownRecord => "unknown record",
            Refusal::CutRecord => "cut record",
        }
    }

    // The places that the refusal names, at most two.
    pub fn places(self) -> (Option<u8>, Option<u8>)
        ensures { result ≡ places self }
    {
        match self {
            Refusal::ReadsUpward(a, b) => (Some(a), Some(b)),
            Refusal::NoSuchPoint(a)
            | Refusal::StrayMark(a)
            | Refusal::NoSupportersHere(a)
            | Refusal::NothingEntered(a)
            | Refusal::NoSuchChapter(a)
            | Refusal::ChapterTooWide(a) => (Some(a), None),
            _ => (None, None),
        }
    }
}

// Which layer denied it.
#[derive(Clone, Copy, PartialEq, Eq, Debug)]
pub enum Layer {
    Book = 1,
    Marker = 2,
    Reader = 3,
}

impl Layer {
    // The number of the layer, 1 to 3.
    pub fn number(self) -> u8
        ensures { result ≡ layer_number self }
    {
        self as u8
    }
}

// A denial: the refusal and its layer, handed up unaltered.
#[derive(Clone, Copy, PartialEq, Eq, Debug)]
pub struct Fault {
    refusal: Refusal,
    layer: Layer,
}

impl Fault {
    pub fn new(layer: Layer, refusal: Refusal) -> Fault
        ensures { result ≡ fault_of layer refusal }
    {
        Fault { refusal, layer }
    }

    pub fn refusal(self) -> Refusal
        ensures { result ≡ self.refusal }
    {
        self.refusal
    }

    pub fn layer(self) -> Layer
        ensures { result ≡ self.layer }
    {
        self.layer
    }
}
