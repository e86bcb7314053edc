// What the definitions say that the calls of a marker are to answer.
use crate::masks::Mask;
use crate::parts::Parts;
use crate::saying::{Answer, Said};
use crate::small_book::{Case, SmallBook};
use crate::upward;
use crate::whole::{Model, Whole};
use answers::{Fault, Layer, Refusal, UpwardReading};
use rulings::Ruling;
use std::alloc::{AllocError, Global};

#[derive(Drop)]
pub(crate) struct Expected<'a, S> {
    pub(crate) case: &'a Case<'a, S>,
    whole: &'a Whole,
    // what goes by the chapters, unless it is denied because they do not fit
    parts: Result<Parts<'a>, Fault>,
    // every ruling whose parts are all stable; none where the listing is denied before it tries anything
    pub(crate) listing: Written<Ruling>,
    // every upward reading
    pub(crate) audit: Written<UpwardReading>,
}

// What a call is to write into rows that it is lent, and to answer if they are enough.
#[derive(Drop)]
pub(crate) struct Written<T> {
    pub(crate) rows: Vec<T>,
    answer: Answer,
}

impl<'a, S: SmallBook> Expected<'a, S> {
    pub(crate) fn of(
        heap: Global,
        case: &'a Case<'a, S>,
        whole: &'a Whole,
    ) -> Result<Expected<'a, S>, AllocError> {
        let upward = upward::readings(heap, case)?;
        // the lowest reader is named, with the lowest point that it reads upward
        let lowest = upward.iter().min_by_key(|found| (found.reader, found.read));
        let parts = match lowest {
            Some(found) => Err(denial(Refusal::ReadsUpward(found.reader, found.read))),
            None => Ok(Parts::of(heap, case)?),
        };
        Ok(Expected {
            case,
            whole,
            listing: listing(heap, &parts)?,
            audit: Written {
                answer: Ok(Said::Audited(upward.len())),
                rows: upward,
            },
            parts,
        })
    }

    pub(crate) fn chapters_fit(&self) -> bool {
        self.parts.is_ok()
    }

    fn parts(&self) -> Result<&Parts<'a>, Fault> {
        self.parts.as_ref().map_err(|fault| *fault)
    }

    pub(crate) fn judged(&self, ruling: Mask) -> Answer {
        Ok(Said::Judged(self.whole.verdict(ruling)))
    }

    pub(crate) fn is_stable(&self, ruling: Mask) -> bool {
        self.whole.is_stable(ruling)
    }

    pub(crate) fn judged_by_chapter(&self, ruling: Mask) -> Answer {
        Ok(Said::JudgedByChapter(self.parts()?.verdict(ruling)))
    }

    // Whether all parts of the ruling are stable in their chapters, and these fit.
    pub(crate) fn is_stable_by_chapter(&self, ruling: Mask) -> bool {
        self.parts().is_ok_and(|parts| parts.are_stable(ruling))
    }

    // The well-founded model of the book read whole, whatever the chapters.
    pub(crate) fn read(&self) -> Answer {
        self.parts()?;
        Ok(Said::Reading(self.whole.well_founded().map(Model::from)))
    }
}

impl<T> Written<T> {
    // Whether so many rows are enough.
    pub(crate) fn fits(&self, lent: usize) -> bool {
        self.rows.len() <= lent
    }

    pub(crate) fn answer(&self, lent: usize) -> Answer {
        if self.fits(lent) {
            self.answer
        } else {
            Err(denial(Refusal::ListTooShort))
        }
    }
}

fn listing(heap: Global, parts: &Result<Parts, Fault>) -> Result<Written<Ruling>, AllocError> {
    match parts {
        Err(fault) => Ok(Written {
            rows: Vec::new(heap),
            answer: Err(*fault),
        }),
        Ok(parts) => {
            let rows = parts.stable(heap)?;
            let answer = Ok(Said::Listing {
                rows: rows.len(),
                effort: parts.effort(),
            });
            Ok(Written { rows, answer })
        }
    }
}

fn denial(refusal: Refusal) -> Fault {
    Fault::new(Layer::Marker, refusal)
}
