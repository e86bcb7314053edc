// Verdicts on rulings.
ghost use Rattle.std.specs.Prelude.{◌≡◌, None};
ghost use Rattle.answers.specs.Verdicts.{verdict_number, verdict_point, verdict_told, is_stable};

pub mod words;

// What came of judging a ruling.
#[derive(Clone, Copy, PartialEq, Eq, Debug)]
pub enum Verdict {
    // the ruling is its own closure (a stable model)
    Stable,
    // the ruling has the point, and its closure does not
    Unfounded(u8),
    // the closure has the point, and the ruling does not
    Missing(u8),
}

impl Verdict {
    pub fn number(self) -> u8
        ensures { result ≡ verdict_number self }
    {
        match self {
            Verdict::Stable => 0,
            Verdict::Unfounded(_) => 1,
            Verdict::Missing(_) => 2,
        }
    }

    pub fn is_stable(self) -> bool
        ensures { result ≡ is_stable self }
    {
        matches!(self, Verdict::Stable)
    }

    // The verdict as it is told to others: its number and its point, and no chapter.
    pub fn told(self) -> [u8; 3]
        ensures { result ≡ verdict_told self None }
    {
        ChapterVerdict::from(self).told()
    }

    // The point that decided, unless the ruling is stable.
    pub fn point(self) -> Option<u8>
        ensures { result ≡ verdict_point self }
    {
        match self {
            Verdict::Stable => None,
            Verdict::Unfounded(a) | Verdict::Missing(a) => Some(a),
        }
    }
}

// What came of judging a ruling chapter by chapter.
#[derive(Clone, Copy, PartialEq, Eq, Debug)]
pub struct ChapterVerdict {
    verdict: Verdict,
    chapter: Option<u8>,
}

// A verdict on the whole ruling names no chapter.
impl From<Verdict> for ChapterVerdict {
    ghost from_gives = { λ verdict r. (r.verdict ≡ verdict) × (r.chapter ≡ None) };

    fn from(verdict: Verdict) -> ChapterVerdict {
        ChapterVerdict::new(verdict, None)
    }
}

impl ChapterVerdict {
    pub fn new(verdict: Verdict, chapter: Option<u8>) -> ChapterVerdict
        ensures verdict { result.verdict ≡ verdict }
        ensures chapter { result.chapter ≡ chapter }
    {
        ChapterVerdict { verdict, chapter }
    }

    pub fn verdict(self) -> Verdict
        ensures { result ≡ self.verdict }
    {
        self.verdict
    }

    // The verdict as it is told to others: its number, its point and its chapter.
    pub fn told(self) -> [u8; 3]
        ensures { result ≡ verdict_told self.verdict self.chapter }
    {
        let point = self.verdict.point().unwrap_or(255);
        [self.verdict.number(), point, self.chapter.unwrap_or(255)]
    }

    // The lowest chapter whose part is not stable; none where all are.
    pub fn chapter(self) -> Option<u8>
        ensures { result ≡ self.chapter }
    {
        self.chapter
    }
}
