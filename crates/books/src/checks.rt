// The check of a size, which only books make, and a denial by the book.
ghost use Rattle.std.specs.Prelude.{◌≡◌, OnOk, IfErr};
ghost use Rattle.answers.specs.declared.fault.Layer.TheVariants.{Book};
ghost use Rattle.answers.specs.declared.fault.Refusal.TheVariants.{BadSize};
ghost use Rattle.answers.specs.Faults.{fault_of};
ghost use Rattle.books.specs.Promise.{BadSizeFor};

use answers::{Fault, Layer, Refusal};

// A denial by the book.
pub(crate) fn fault(refusal: Refusal) -> Fault
    ensures { result ≡ fault_of Book refusal }
{
    Fault::new(Layer::Book, refusal)
}

// A book has 1 to 128 points.
pub(crate) fn size(size: u8) -> Result<(), Fault>
    ensures ok { OnOk result (BadSizeFor size → ⊥) }
    ensures err { IfErr result (λ f. BadSizeFor size × (f ≡ fault_of Book BadSize)) }
{
    if (1..=128).contains(&size) {
        Ok(())
    } else {
        Err(fault(Refusal::BadSize))
    }
}
