ghost use Rattle.std.specs.Prelude.{◌≡◌, Some, IsSomeAnd, refl};
ghost use Rattle.std.specs.declared.cmp.Ordering.{Ordering};
ghost use Rattle.std.specs.Cmp.{IsTotalOrder, IsPartialOrder, on_total, on_po};
ghost use Rattle.std.specs.Cmp.Lexicographic.{nat_list_cmp_total, texts_po};
ghost use Rattle.names.specs.Names.{text_of};
ghost use Rattle.names.specs.Order.{ByBytes, InOrder, by_bytes, in_order};
ghost use Rattle.names.specs.CmpLaws.{then_equal, bytes_ordered, in_order_ordered};
ghost use Rattle.std.proofs.Common.{rules, subst};
ghost use Rattle.names.specs.OrderLaws.{in_order_total};
ghost use Rattle.names.specs.PartialLaw.{references_partial};

use crate::name::Text;
use crate::table_reference::TableReference;
use std::cmp::Ordering;

/// Values that `cmp` puts in a known order.
pub trait StandsInOrder: Ord {
    // the function that computes the order, and the order
    ghost order: { Self → Self → Ordering };

    ghost is_ordered: { Self → Self → Ordering → Type 0 };

    ghost total_order: { IsTotalOrder order };

    ghost partial_order: { IsPartialOrder Self.eq (λ a b. Some (order a b)) };

    ghost tested: { (a b : Self) → Self.cmp a b ≡ order a b };

    ghost ordered: { (a b : Self) → is_ordered a b (Self.cmp a b) };

    /// What `cmp` says.
    final fn compared_to(&self, other: &Self) -> Ordering
        ensures tested { result ≡ order self.now other.now }
        ensures ordered { is_ordered self.now other.now result }
    {
        self.cmp(other)
    }

    /// What `partial_cmp` says.
    final fn partly_compared_to(&self, other: &Self) -> Option<Ordering>
        ensures tested { result ≡ Some (order self.now other.now) }
        ensures ordered { IsSomeAnd result (is_ordered self.now other.now) }
    {
        self.partial_cmp(other)
    }
}

// Byte by byte.
impl<const N: usize> StandsInOrder for Text<N> {
    ghost order = { λ a b. by_bytes (text_of a) (text_of b) };

    ghost is_ordered = { λ a b. ByBytes (text_of a) (text_of b) };

    ghost total_order = { on_total text_of nat_list_cmp_total };

    ghost partial_order = { on_po text_of texts_po };

    ghost tested = { λ a b. refl };

    ghost ordered = { λ a b. bytes_ordered (text_of a) (text_of b) };
}

// Bare before partial before full, then part by part from the widest in.
impl StandsInOrder for TableReference {
    ghost order = { in_order };

    ghost is_ordered = { InOrder };

    ghost total_order = { in_order_total };

    ghost partial_order = { references_partial };

    ghost tested = { Prim.search (rules, then_equal) };

    ghost ordered = { λ a b. subst (InOrder a b) (Prim.search (rules, then_equal)) (in_order_ordered a b) };
}
