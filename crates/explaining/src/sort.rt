// The sorts of book that can be asked for.
ghost use Rattle.std.specs.Prelude.{◌≡◌};
ghost use Rattle.explaining.specs.declared.sort.Sort.{Sort};
ghost use Rattle.explaining.specs.Sorts.{OfName};

use books::{ProtestBook, RuleBook};
use std::fmt;
use std::str::FromStr;

#[derive(Clone, Copy, Default)]
pub enum Sort {
    #[default]
    Rules,
    Protests,
}

// A name that is that of no sort.
#[derive(Clone, Copy)]
pub struct UnknownSort;

impl FromStr for Sort {
    type Err = UnknownSort;

    ghost from_str_gives = { OfName };

    fn from_str(name: &str) -> Result<Sort, UnknownSort> {
        match name {
            "rules" => Ok(Sort::Rules),
            "protests" => Ok(Sort::Protests),
            _ => Err(UnknownSort),
        }
    }
}

impl fmt::Display for UnknownSort {
    fn fmt<W: fmt::Write>(&self, f: &mut fmt::Formatter<W>) -> fmt::Result {
        write!(
            f,
            "usage: explain [protests] <records; without an argument, the records are for a rule book"
        )
    }
}

// A book that has a sort.
pub trait Sorted {
    ghost of_sort: { Sort };

    fn sort() -> Sort
        ensures { result ≡ of_sort };
}

impl Sorted for RuleBook {
    ghost of_sort = { Sort.Rules };

    fn sort() -> Sort {
        Sort::Rules
    }
}

impl Sorted for ProtestBook {
    ghost of_sort = { Sort.Protests };

    fn sort() -> Sort {
        Sort::Protests
    }
}
