// Rulings made of the points for which a test holds.
ghost use Rattle.chapters.specs.Picking.{Picked};

use rulings::Ruling;

// The points below a size (and below 128) for which a test holds.
pub(crate) fn points_where<F: Fn(u8) -> bool>(size: u8, test: F) -> Ruling
    requires { F.IsAlwaysCallable test }
    ensures { Picked (F.post test) size result }
{
    let mut ruling = Ruling::empty();
    for point in 0..size.min(128) {
        if test(point) {
            ruling.insert(point);
        }
    }
    ruling
}
