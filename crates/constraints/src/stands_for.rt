ghost use Rattle.std.specs.Prelude.{List};
ghost use Rattle.std.proofs.Common.{rules};
ghost use Rattle.constraints.specs.Keys.{Key};
ghost use Rattle.constraints.specs.Same.{same_key, same_keys};
ghost use Rattle.constraints.specs.SameLaws.{same_key_equiv, same_keys_equiv, key_eq, keys_eq, keys_decide};
ghost use Rattle.constraints.specs.View.{key_of, keys_of};

use crate::constraints::{Constraint, Constraints};
use names::stands_for::StandsFor;

impl StandsFor for Constraint {
    ghost View = { Key };

    ghost view = { key_of };

    ghost same = { same_key };

    ghost equivalence = { same_key_equiv };

    ghost tested = { key_eq };

    ghost decided = { Prim.search rules };
}

impl StandsFor for Constraints {
    ghost View = { List Key };

    ghost view = { keys_of };

    ghost same = { same_keys };

    ghost equivalence = { same_keys_equiv };

    ghost tested = { keys_eq };

    ghost decided = { keys_decide };
}
