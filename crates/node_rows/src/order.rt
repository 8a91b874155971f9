//! Children put in order by one sort. It takes no memory.
ghost use Rattle.std.specs.Prelude.{◌≡◌};
ghost use Rattle.std.specs.List.Sorted.{IsPermutation, IsSortedBy};
ghost use Rattle.std.specs.Ordering.{is_lt};
ghost use Rattle.volume_spec.specs.Order.{stands_before};
ghost use Rattle.node_rows.specs.Children.{child_order};

use crate::child::Child;
use std::cmp::Ordering;

/// Which of two children stands before the other: by parent, and then by key.
fn order_of(a: &Child, b: &Child) -> Ordering
    ensures { is_lt result ≡ stands_before (child_order a.now) (child_order b.now) }
{
    match a.parent.0.cmp(&b.parent.0) {
        Ordering::Less => Ordering::Less,
        Ordering::Equal => a.key.as_slice().cmp(b.key.as_slice()),
        Ordering::Greater => Ordering::Greater,
    }
}

/// Puts children in order by parent and then by key.
pub(crate) fn sort(children: &mut Vec<Child>)
    ensures same { IsPermutation children.old.items children.new.items }
    ensures sorted { IsSortedBy (λ (a : Child) b. stands_before (child_order a) (child_order b)) children.new.items }
{
    children.sort_unstable_by(|a, b| order_of(a, b));
}
