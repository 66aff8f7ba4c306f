ghost use Rattle.std.specs.Prelude.{◌≡◌, ℕ, Bool, List, Option, Decides, refl};
ghost use Rattle.std.proofs.Common.{rules};
ghost use Rattle.std.specs.Cmp.{IsEquivalence};
ghost use Rattle.std.specs.Cmp.Lexicographic.{nat_list_eq_equiv};
ghost use Rattle.std.specs.Str.{bytes_eq};
ghost use Rattle.names.specs.Columns.{column_of};
ghost use Rattle.names.specs.Named.{Named, missing_of, schema_of, refusal_of};
ghost use Rattle.names.specs.Names.{text_of};
ghost use Rattle.names.specs.References.{parts_of};
ghost use Rattle.names.specs.Same.{same_texts, same_parts_and_text, same_named, same_schema_error, same_refusal};
ghost use Rattle.names.specs.SameLaws.{reference_eq, column_eq, missing_eq, schema_error_eq, refusal_eq, same_texts_equiv, same_parts_and_text_equiv, same_named_equiv, same_schema_error_equiv, same_refusal_equiv};

use crate::column::Column;
use crate::error::{MissingField, Refusal, SchemaError};
use crate::name::Text;
use crate::table_reference::TableReference;

/// Values that `==` tells apart by what they stand for.
pub trait StandsFor: PartialEq {
    ghost View: { Type 0 };

    ghost view: { Self → View };

    // the test of two views
    ghost same: { View → View → Bool };

    ghost equivalence: { IsEquivalence same };

    ghost tested: { (a b : Self) → Self.eq a b ≡ same (view a) (view b) };

    ghost decided: { (a b : Self) → Decides (Self.eq a b) (view a ≡ view b) };

    /// What `==` says.
    final fn same_as(&self, other: &Self) -> bool
        ensures tested { result ≡ same (view self.now) (view other.now) }
        ensures decides { Decides result (view self.now ≡ view other.now) }
    {
        *self == *other
    }
}

impl<const N: usize> StandsFor for Text<N> {
    ghost View = { List ℕ };

    ghost view = { text_of };

    ghost same = { bytes_eq };

    ghost equivalence = { nat_list_eq_equiv };

    ghost tested = { λ a b. refl };

    ghost decided = { Prim.search rules };
}

impl StandsFor for TableReference {
    ghost View = { List (List ℕ) };

    ghost view = { parts_of };

    ghost same = { same_texts };

    ghost equivalence = { same_texts_equiv };

    ghost tested = { reference_eq };

    ghost decided = { Prim.search rules };
}

impl StandsFor for Column {
    ghost View = { List (List ℕ) × List ℕ };

    ghost view = { column_of };

    ghost same = { same_parts_and_text };

    ghost equivalence = { same_parts_and_text_equiv };

    ghost tested = { column_eq };

    ghost decided = { Prim.search rules };
}

impl StandsFor for MissingField {
    ghost View = { Named };

    ghost view = { missing_of };

    ghost same = { same_named };

    ghost equivalence = { same_named_equiv };

    ghost tested = { missing_eq };

    ghost decided = { Prim.search rules };
}

impl StandsFor for SchemaError {
    ghost View = { ℕ × Named };

    ghost view = { schema_of };

    ghost same = { same_schema_error };

    ghost equivalence = { same_schema_error_equiv };

    ghost tested = { schema_error_eq };

    ghost decided = { Prim.search rules };
}

impl StandsFor for Refusal {
    ghost View = { ℕ × Option Named };

    ghost view = { refusal_of };

    ghost same = { same_refusal };

    ghost equivalence = { same_refusal_equiv };

    ghost tested = { refusal_eq };

    ghost decided = { Prim.search rules };
}
