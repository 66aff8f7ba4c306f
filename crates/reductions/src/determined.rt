ghost use Rattle.std.specs.Prelude.{◌≡◌, ◌<◌, ℕ, Bool, map};
ghost use Rattle.bounded.specs.Calls.{Computes};
ghost use Rattle.dependencies.specs.View.{dep_of};
ghost use Rattle.reductions.specs.Determined.{determined_by, is_determined};

use columns::filter::Predicate;
use dependencies::functional_dependencies::FunctionalDependence;

// whether the column is a target of the dependency, whose sources are all known
fn determines<F: Fn(u16) -> bool>(dependency: &FunctionalDependence, known: &F, column: u16) -> bool
    requires { F.IsAlwaysCallable known.now }
    ensures { (p : ℕ → Bool) → Computes (λ c b. (c < 65536) × F.post known.now c b) p → result ≡ determined_by p column (dep_of dependency.now) }
{
    dependency.target_indices().contains(column)
        && dependency
            .source_indices()
            .all_pass_by(|source| known(source))
}

/// Whether the column is a target of one dependency whose sources all pass.
pub fn is_determined<P: Predicate>(
    dependencies: &[FunctionalDependence],
    known: &P,
    column: u16,
) -> bool
    ensures { result ≡ is_determined (P.passes known.now) (map dep_of dependencies.now) column }
{
    is_determined_by(dependencies, |source| known.test(source), column)
}

/// The same of a closure that is true at the sources that are known.
pub fn is_determined_by<F: Fn(u16) -> bool>(
    dependencies: &[FunctionalDependence],
    known: F,
    column: u16,
) -> bool
    requires { F.IsAlwaysCallable known }
    ensures { (p : ℕ → Bool) → Computes (λ c b. (c < 65536) × F.post known c b) p → result ≡ is_determined p (map dep_of dependencies.now) column }
{
    dependencies
        .iter()
        .any(|dependency| determines(dependency, &known, column))
}
