// Listings and audits: what is answered, and every row lent.
use super::Trial;
use crate::expected::Written;
use crate::saying::{Answer, Call, RowsOf, Said};
use crate::small_book::{Case, SmallBook};
use answers::UpwardReading;
use books::Book;
use marker::Marker;
use rulings::Ruling;
use std::alloc::AllocError;

// A row of a listing or of an audit.
// Its default is the row of zeros, which is in every row where there were too few.
pub(super) trait Row: Copy + PartialEq + Default + Drop {
    const OF: RowsOf;

    // As many rows as six points can need.
    const LENT: usize;

    // What no answer is: a row that holds it was left as found.
    fn as_found() -> Self;

    fn said(self) -> Said;

    // Has a marker write into the rows.
    fn ask<B: Book>(marker: &Marker<B>, rows: &mut [Self]) -> Answer;
}

impl Row for Ruling {
    const OF: RowsOf = RowsOf::Listing;

    const LENT: usize = 64;

    fn as_found() -> Ruling {
        Ruling::from_points(&[99])
    }

    fn said(self) -> Said {
        Said::Row(self)
    }

    fn ask<B: Book>(marker: &Marker<B>, rows: &mut [Ruling]) -> Answer {
        let listing = marker.list(rows)?;
        Ok(Said::Listing {
            rows: listing.rows,
            effort: listing.effort as usize,
        })
    }
}

impl Row for UpwardReading {
    const OF: RowsOf = RowsOf::Audit;

    const LENT: usize = 36;

    fn as_found() -> UpwardReading {
        UpwardReading {
            drop: 99,
            reader: 99,
            read: 99,
        }
    }

    fn said(self) -> Said {
        Said::AuditRow(self)
    }

    fn ask<B: Book>(marker: &Marker<B>, rows: &mut [UpwardReading]) -> Answer {
        marker.audit(rows).map(Said::Audited)
    }
}

impl<B: Book + Drop> Trial<B> {
    // Lends as many rows as there can be, and one fewer than there are rows to write.
    pub(super) fn compare_written<S: SmallBook, T: Row>(
        &mut self,
        case: &Case<S>,
        expected: &Written<T>,
    ) -> Result<(), AllocError> {
        self.compare_lent(case, expected, T::LENT)?;
        if let Some(fewer) = expected.rows.len().checked_sub(1) {
            self.compare_lent(case, expected, fewer.min(T::LENT))?;
        }
        Ok(())
    }

    fn compare_lent<S: SmallBook, T: Row>(
        &mut self,
        case: &Case<S>,
        expected: &Written<T>,
        lent: usize,
    ) -> Result<(), AllocError> {
        let mut rows = vec![in self.heap; T::as_found(); lent]?;
        let found = T::ask(&self.marker, &mut rows);
        let call = Call::Rows { of: T::OF, lent };
        self.tally
            .compare(case, call, expected.answer(lent), found)?;
        if expected.fits(lent) {
            self.compare_rows(case, &expected.rows, &rows)?;
            self.compare_later(case, expected.rows.len(), &rows)
        } else {
            let zeros = vec![in self.heap; T::default(); lent]?;
            self.compare_rows(case, &zeros, &rows)
        }
    }

    // The first rows are those expected.
    fn compare_rows<S: SmallBook, T: Row>(
        &mut self,
        case: &Case<S>,
        expected: &[T],
        found: &[T],
    ) -> Result<(), AllocError> {
        let lent = found.len();
        for (row, (expected, found)) in expected.iter().zip(found).enumerate() {
            let call = Call::Row {
                of: T::OF,
                lent,
                row,
            };
            self.tally
                .compare(case, call, Ok(expected.said()), Ok(found.said()))?;
        }
        Ok(())
    }

    // The rows from one on stay as found.
    fn compare_later<S: SmallBook, T: Row>(
        &mut self,
        case: &Case<S>,
        row: usize,
        found: &[T],
    ) -> Result<(), AllocError> {
        let call = Call::Later {
            of: T::OF,
            lent: found.len(),
            row,
        };
        let stay = found.iter().skip(row).all(|row| *row == T::as_found());
        self.tally
            .compare(case, call, Ok(Said::Holds(true)), Ok(Said::Holds(stay)))
    }
}
