use names::column::Column;
use names::error::{Refusal, SchemaError};
use names::name::Name;
use names::table_reference::TableReference;
use schemas::check_names::check_names;
use schemas::dfschema::{DFSchema, Field, Kind};
use std::test::Fail;

pub(crate) fn bare(table: &[u8], name: &[u8]) -> Result<Column, Refusal> {
    let reference = TableReference::bare(Name::new(table)?);
    Ok(Column::new(Some(reference), Name::new(name)?))
}

pub(crate) fn unqualified(name: &[u8]) -> Result<Column, Refusal> {
    Ok(Column::new_unqualified(Name::new(name)?))
}

pub(crate) fn field(column: Column) -> Field {
    Field {
        column,
        kind: Kind::Number,
        nullable: false,
    }
}

// written out, not converted, as all expected refusals here
fn twice_qualified() -> Result<Refusal, Refusal> {
    let qualifier = TableReference::bare(Name::new(b"t")?);
    let name = Name::new(b"a")?;
    Ok(Refusal::Schema(SchemaError::DuplicateQualifiedField { qualifier, name }))
}

fn twice_unqualified() -> Result<Refusal, Refusal> {
    let name = Name::new(b"b")?;
    Ok(Refusal::Schema(SchemaError::DuplicateUnqualifiedField { name }))
}

#[test]
fn the_second_column_that_comes_first_is_named(rt: HostRuntime) -> Result<(), Fail> {
    let a = bare(b"t", b"a")?;
    let b = unqualified(b"b")?;
    assert_eq!(rt; check_names(&[a, b, a, b]).err(), Some(twice_qualified()?));
    assert_eq!(rt;
        check_names(&[a, b, b, a]).err(),
        Some(twice_unqualified()?)
    );
    assert_eq!(rt; check_names(&[a, b]), Ok(()));
    assert_eq!(rt; check_names(&[]), Ok(()));
    Ok(())
}

#[test]
fn the_least_ambiguous_column_is_named(rt: HostRuntime) -> Result<(), Fail> {
    let u = bare(b"u", b"a")?;
    let t = bare(b"t", b"a")?;
    let a = unqualified(b"a")?;
    let ambiguous = Refusal::Schema(SchemaError::AmbiguousReference { field: t });
    assert_eq!(rt; check_names(&[u, a, t]).err(), Some(ambiguous));
    assert_eq!(rt; check_names(&[t, a, u]).err(), Some(ambiguous));
    assert_eq!(rt; check_names(&[u, a, t, u]).err().is_some(), true);
    assert_eq!(rt; check_names(&[u, t]), Ok(()));
    Ok(())
}

#[test]
fn a_schema_of_64_columns_is_taken_and_of_65_refused_before_its_names(
    rt: HostRuntime,
) -> Result<(), Fail> {
    let same = field(unqualified(b"b")?);
    assert_eq!(rt; DFSchema::new_unchecked(&[same; 64])?.fields().len(), 64);
    assert_eq!(rt;
        DFSchema::new_unchecked(&[same; 65]).err(),
        Some(Refusal::Oversize)
    );
    assert_eq!(rt; DFSchema::new(&[same; 65]).err(), Some(Refusal::Oversize));
    assert_eq!(rt;
        DFSchema::new(&[same; 64]).err(),
        Some(twice_unqualified()?)
    );
    assert_eq!(rt; DFSchema::new(&[same])?.fields().len(), 1);
    Ok(())
}

#[test]
fn a_join_is_oversize_before_its_names_clash(rt: HostRuntime) -> Result<(), Fail> {
    let same = field(unqualified(b"b")?);
    let wide = DFSchema::new_unchecked(&[same; 64])?;
    let one = DFSchema::new(&[same])?;
    assert_eq!(rt; wide.join(&one).err(), Some(Refusal::Oversize));
    assert_eq!(rt; one.join(&one).err(), Some(twice_unqualified()?));
    assert_eq!(rt; one.join(&DFSchema::empty())?.fields().len(), 1);
    Ok(())
}
