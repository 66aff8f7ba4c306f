use crate::answers::Answer;
use crate::reading::{Case, Reading, unfit};
use aggregates::aggregate::aggregate_functional_dependencies;
use aggregates::target::get_target_functional_dependencies;
use dependencies::functional_dependencies::FunctionalDependencies;
use names::error::Refusal;
use names::qualified::qualified_name;
use reductions::group_by::get_required_group_by_exprs_indices;
use reductions::sort::{SortExpr, get_required_sort_exprs_indices};

/// Reads a case and performs its call.
pub fn perform(case: &mut Case) -> Reading<Answer> {
    match case.word()? {
        "constraints_project" => constraints_project(case),
        "new_from_constraints" => new_from_constraints(case),
        "is_valid" => is_valid(case),
        "add_offset" => add_offset(case),
        "with_dependency" => with_dependency(case),
        "project_functional_dependencies" => project_functional_dependencies(case),
        "fd_join" => fd_join(case),
        "extend_target_indices" => extend_target_indices(case),
        "aggregate_functional_dependencies" => aggregate(case),
        "get_target_functional_dependencies" => targets(case),
        "get_required_group_by_exprs_indices" => required_group_by(case),
        "get_required_sort_exprs_indices" => required_sort(case),
        "check_names" => check_names(case),
        "with_functional_dependencies" => with_functional_dependencies(case),
        "schema_join" => schema_join(case),
        "merge" => merge(case),
        "index_of_column_by_name" => index_of_column_by_name(case),
        "qualified_field_with_unqualified_name" => field_with_unqualified_name(case),
        "qualified_name" => full_name(case),
        "resolved_eq" => resolved_eq(case),
        "reference_cmp" => reference_cmp(case),
        "swap" => swap(case),
        "is_outer" => is_outer(case),
        "on_lr_is_preserved" => on_lr_is_preserved(case),
        word => Err(unfit("the name of a call", word)),
    }
}

fn constraints_project(case: &mut Case) -> Reading<Answer> {
    let keys = case.keys()?;
    let columns = case.numbers()?;
    case.end()?;
    Ok(Answer::Keys(keys.project(&columns)))
}

fn new_from_constraints(case: &mut Case) -> Reading<Answer> {
    let keys = case.optional_keys()?;
    let width = case.number()?;
    case.end()?;
    let made = FunctionalDependencies::new_from_constraints(keys.as_ref(), width)?;
    Ok(Answer::Dependencies(made))
}

fn is_valid(case: &mut Case) -> Reading<Answer> {
    let dependencies = case.dependencies()?;
    let width = case.number()?;
    case.end()?;
    Ok(Answer::Flag(dependencies.is_valid(width)?))
}

fn add_offset(case: &mut Case) -> Reading<Answer> {
    let mut dependencies = case.dependencies()?;
    let offset = case.number()?;
    case.end()?;
    dependencies.add_offset(offset)?;
    Ok(Answer::Dependencies(dependencies))
}

fn with_dependency(case: &mut Case) -> Reading<Answer> {
    let mut dependencies = case.dependencies()?;
    let mode = case.mode()?;
    case.end()?;
    dependencies.with_dependency(mode);
    Ok(Answer::Dependencies(dependencies))
}

fn project_functional_dependencies(case: &mut Case) -> Reading<Answer> {
    let dependencies = case.dependencies()?;
    let columns = case.numbers()?;
    let width = case.number()?;
    case.end()?;
    let projected = dependencies.project_functional_dependencies(&columns, width)?;
    Ok(Answer::Dependencies(projected))
}

fn fd_join(case: &mut Case) -> Reading<Answer> {
    let join_type = case.join_type()?;
    let left = case.dependencies()?;
    let right = case.dependencies()?;
    let left_width = case.number()?;
    case.end()?;
    let joined = left.join(&right, join_type, left_width)?;
    Ok(Answer::Dependencies(joined))
}

fn extend_target_indices(case: &mut Case) -> Reading<Answer> {
    let mut dependencies = case.dependencies()?;
    let width = case.number()?;
    case.end()?;
    dependencies.extend_target_indices(width)?;
    Ok(Answer::Dependencies(dependencies))
}

fn aggregate(case: &mut Case) -> Reading<Answer> {
    let input = case.schema()?;
    let names = case.texts()?;
    let output = case.columns()?;
    case.end()?;
    let made = aggregate_functional_dependencies(&input, names.as_slice(), &output)?;
    Ok(Answer::Dependencies(made))
}

fn targets(case: &mut Case) -> Reading<Answer> {
    let schema = case.schema()?;
    let names = case.texts()?;
    case.end()?;
    let columns = get_target_functional_dependencies(&schema, names.as_slice())?;
    Ok(Answer::Columns(columns))
}

fn required_group_by(case: &mut Case) -> Reading<Answer> {
    let schema = case.schema()?;
    let names = case.texts()?;
    case.end()?;
    let positions = get_required_group_by_exprs_indices(&schema, names.as_slice())?;
    Ok(Answer::Columns(positions))
}

fn required_sort(case: &mut Case) -> Reading<Answer> {
    let schema = case.schema()?;
    let names = case.texts()?;
    case.end()?;
    let mut exprs: Vec<SortExpr> = names
        .iter()
        .map(|name| SortExpr {
            name: *name,
            kept: false,
        })
        .collect(case.heap())?;
    get_required_sort_exprs_indices(&schema, exprs.as_mut_slice())?;
    let kept = exprs
        .iter()
        .enumerate()
        .filter(|(_, expr)| expr.kept)
        .map(|(i, _)| i)
        .collect(case.heap())?;
    Ok(Answer::Positions(kept))
}

fn check_names(case: &mut Case) -> Reading<Answer> {
    let columns = case.columns()?;
    case.end()?;
    columns.check_names()?;
    Ok(Answer::Passed)
}

fn with_functional_dependencies(case: &mut Case) -> Reading<Answer> {
    let columns = case.columns()?;
    let dependencies = case.dependencies()?;
    case.end()?;
    match columns.with_functional_dependencies(dependencies) {
        Ok(schema) => Ok(Answer::Schema(schema)),
        Err(Refusal::NoColumn) => Ok(Answer::Plan),
        Err(refusal) => Err(refusal.into()),
    }
}

fn schema_join(case: &mut Case) -> Reading<Answer> {
    let left = case.schema()?;
    let right = case.schema()?;
    case.end()?;
    Ok(Answer::Schema(left.join(&right)?))
}

fn merge(case: &mut Case) -> Reading<Answer> {
    let mut schema = case.schema()?;
    let other = case.schema()?;
    case.end()?;
    schema.merge(&other)?;
    Ok(Answer::Merged(schema))
}

fn index_of_column_by_name(case: &mut Case) -> Reading<Answer> {
    let columns = case.columns()?;
    let reference = case.reference()?;
    let name = case.text()?;
    case.end()?;
    Ok(Answer::Position(columns.index_of_column_by_name(reference, &name)))
}

fn field_with_unqualified_name(case: &mut Case) -> Reading<Answer> {
    let columns = case.columns()?;
    let name = case.text()?;
    case.end()?;
    Ok(Answer::Field(columns.qualified_field_with_unqualified_name(&name)?))
}

fn full_name(case: &mut Case) -> Reading<Answer> {
    let reference = case.reference()?;
    let name = case.text()?;
    case.end()?;
    Ok(Answer::FullName(qualified_name(reference.as_ref(), &name)))
}

fn resolved_eq(case: &mut Case) -> Reading<Answer> {
    let first = case.table()?;
    let second = case.table()?;
    case.end()?;
    Ok(Answer::Flag(first.resolved_eq(&second)))
}

fn reference_cmp(case: &mut Case) -> Reading<Answer> {
    let first = case.table()?;
    let second = case.table()?;
    case.end()?;
    Ok(Answer::Order(first.cmp(&second)))
}

fn swap(case: &mut Case) -> Reading<Answer> {
    let join_type = case.join_type()?;
    case.end()?;
    Ok(Answer::JoinType(join_type.swap()))
}

fn is_outer(case: &mut Case) -> Reading<Answer> {
    let join_type = case.join_type()?;
    case.end()?;
    Ok(Answer::Flag(join_type.is_outer()))
}

fn on_lr_is_preserved(case: &mut Case) -> Reading<Answer> {
    let join_type = case.join_type()?;
    case.end()?;
    let (left, right) = join_type.on_lr_is_preserved();
    Ok(Answer::Flags(left, right))
}
