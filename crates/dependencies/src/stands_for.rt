ghost use Rattle.std.specs.Prelude.{List};
ghost use Rattle.dependencies.specs.Model.{Dep};
ghost use Rattle.dependencies.specs.Same.{same_dep, same_deps};
ghost use Rattle.dependencies.specs.SameLaws.{same_dep_equiv, same_deps_equiv, dep_eq, dep_decides, deps_eq, deps_decide};
ghost use Rattle.dependencies.specs.View.{dep_of, deps_of};

use crate::functional_dependencies::{FunctionalDependence, FunctionalDependencies};
use names::stands_for::StandsFor;

impl StandsFor for FunctionalDependence {
    ghost View = { Dep };

    ghost view = { dep_of };

    ghost same = { same_dep };

    ghost equivalence = { same_dep_equiv };

    ghost tested = { dep_eq };

    ghost decided = { dep_decides };
}

impl StandsFor for FunctionalDependencies {
    ghost View = { List Dep };

    ghost view = { deps_of };

    ghost same = { same_deps };

    ghost equivalence = { same_deps_equiv };

    ghost tested = { deps_eq };

    ghost decided = { deps_decide };
}
