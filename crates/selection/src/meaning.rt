//! Of which headers a comparison holds.

ghost use Rattle.std.specs.Prelude.{◌≡◌, length};
ghost use Rattle.std.specs.List.{list_any};
ghost use Rattle.std.specs.Ordering.{nat_cmp};
ghost use Rattle.selection.specs.Meaning.{data_satisfies, number, relates, satisfies};
ghost use Rattle.selection.specs.Values.{comparison_value};

use crate::token::{Comparison, Relation};
use pfh_items::{Header, is_number};
use std::cmp::Ordering;

impl Relation {
    /// Whether data that compares so with the constant is in this relation to it.
    fn relates(self, order: Ordering) -> bool
        ensures { result ≡ relates self order }
    {
        match self {
            Relation::EqualTo => order.is_eq(),
            Relation::NotEqualTo => order.is_ne(),
            Relation::LessThan => order.is_lt(),
            Relation::AtMost => order.is_le(),
            Relation::GreaterThan => order.is_gt(),
            Relation::AtLeast => order.is_ge(),
        }
    }
}

impl Comparison<'_> {
    /// Whether some item of the header satisfies it. It looks at each item once. Takes no memory.
    pub fn holds(&self, header: &Header<'_>) -> bool
        ensures { result ≡ list_any (λ item. satisfies (comparison_value self.now) item) header.now.items }
    {
        for item in header.items() {
            if item.id == self.id && self.is_satisfied(item.bytes) {
                return true;
            }
        }
        false
    }

    /// Whether an item's data is in the relation to the constant, as a number where it is one, and else octet by octet.
    fn is_satisfied(&self, content: &[u8]) -> bool
        ensures { result ≡ data_satisfies (comparison_value self.now) content.now }
    {
        if is_number(self.id) {
            content.len() == self.constant.len()
                && self
                    .relation
                    .relates(compare_numbers(content, self.constant))
        } else {
            self.relation.relates(content.cmp(self.constant))
        }
    }
}

/// Compares two numbers of the same length, least significant octet first.
fn compare_numbers(one: &[u8], other: &[u8]) -> Ordering
    requires { length one.now ≡ length other.now }
    ensures { result ≡ nat_cmp (number one.now) (number other.now) }
{
    let mut order = Ordering::Equal;
    for (i, octet) in one.iter().enumerate() {
        order = octet.cmp(&other[i]).then(order);
    }
    order
}
