// Rows of an audit.
ghost use Rattle.std.proofs.Common.{rules};
ghost use Rattle.std.specs.Cmp.{partial_order_from_own_ties, partial_order_from_total};
ghost use Rattle.std.specs.Cmp.Rules.{comparing};
ghost use Rattle.std.specs.Ordering.{as_partial_cmp};
ghost use Rattle.answers.specs.AuditRows.{AuditedBefore, audit_cmp};
ghost use Rattle.answers.specs.AuditOrder.{audit_order, audit_ordered, audit_total};

use rows::Row;
use std::cmp::Ordering;

// An upward reading: the reader, the point of a higher chapter that it reads, and how many chapters higher that lies.
#[derive(Clone, Copy, PartialEq, Eq, Default, Debug)]
pub struct UpwardReading {
    pub drop: u8,
    pub reader: u8,
    pub read: u8,
}

// Larger drops first, then smaller readers, then smaller points read.
impl Ord for UpwardReading {
    ghost cmp = { audit_cmp };

    ghost total = { audit_total };

    ghost matches_partial_cmp = { Prim.search (comparing, rules) };

    ghost matches_eq = { Prim.search (comparing, rules) };

    fn cmp(&self, other: &UpwardReading) -> Ordering {
        other
            .drop
            .cmp(&self.drop)
            .then(self.reader.cmp(&other.reader))
            .then(self.read.cmp(&other.read))
    }
}

impl PartialOrd for UpwardReading {
    ghost partial_cmp = { as_partial_cmp audit_cmp };

    ghost laws = { partial_order_from_own_ties (partial_order_from_total audit_total) (Prim.search (comparing, rules)) };

    fn partial_cmp(&self, other: &UpwardReading) -> Option<Ordering> {
        Some(self.cmp(other))
    }
}

impl Row for UpwardReading {
    ghost before = { AuditedBefore };

    ghost strict = { audit_order };

    fn comes_before(self, other: UpwardReading) -> bool {
        self < other
    }
}
