// The checks that a book and the marker both make: each layer denies in its own name.
ghost use Rattle.std.specs.Prelude.{◌<◌, None, OnOk, IfErr};
ghost use Rattle.rulings.specs.Points.{Lowest};
ghost use Rattle.rulings.specs.Rulings.{has};
ghost use Rattle.answers.specs.Checks.{stray, PointDenied, MarkDenied};

use super::{Fault, Layer, Refusal};
use rulings::Ruling;

impl Layer {
    // A book of this size has the point.
    pub fn check_point(self, point: u8, size: u8) -> Result<(), Fault>
        ensures ok { OnOk result (point < size) }
        ensures err { IfErr result (PointDenied self size point) }
    {
        if point < size {
            Ok(())
        } else {
            Err(Fault::new(self, Refusal::NoSuchPoint(point)))
        }
    }

    // A book of this size has every point of the ruling; else the lowest that it does not have is named.
    pub fn check_marks(self, ruling: Ruling, size: u8) -> Result<(), Fault>
        ensures ok { OnOk result (Lowest (stray size (has ruling)) None) }
        ensures err { IfErr result (MarkDenied self size (has ruling)) }
    {
        match ruling.first_from(size) {
            Some(point) => Err(Fault::new(self, Refusal::StrayMark(point))),
            None => Ok(()),
        }
    }
}
