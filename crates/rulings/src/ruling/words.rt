// Rulings in words, for people.
use super::Ruling;
use std::fmt;

// The points in braces, as in `{0, 2, 3}`, whatever form and width are asked for.
impl fmt::Display for Ruling {
    fn fmt<W: fmt::Write>(&self, f: &mut fmt::Formatter<W>) -> fmt::Result {
        write!(f, "{{")?;
        let mut points = self.points();
        if let Some(lowest) = points.next() {
            write!(f, "{lowest}")?;
        }
        for point in points {
            write!(f, ", {point}")?;
        }
        write!(f, "}}")
    }
}
