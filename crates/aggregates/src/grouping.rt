ghost use Rattle.std.specs.Prelude.{◌≤◌, length};

use dependencies::functional_dependencies::FunctionalDependence;
use names::name::FullName;

// the columns and the dependencies of a relation, and the names that its rows are grouped by
#[derive(Clone, Copy)]
pub(crate) struct Grouping<'a> {
    pub(crate) field_names: &'a [FullName],
    pub(crate) dependencies: &'a [FunctionalDependence],
    pub(crate) names: &'a [FullName],
    ghost few_fields: { length field_names.now ≤ 64 },
    ghost few_dependencies: { length dependencies.now ≤ 32 },
    ghost few_names: { length names.now ≤ 64 },
}
