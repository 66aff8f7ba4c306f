use crate::names_and_sizes::{bare, field, unqualified};
use names::column::Column;
use names::error::{MissingField, Refusal, SchemaError};
use names::name::Name;
use names::table_reference::TableReference;
use schemas::dfschema::{DFSchema, Field};
use std::test::Fail;

// the column that the name alone stands for
fn named(fields: &[Field], name: &[u8]) -> Result<Column, Refusal> {
    let schema = DFSchema::new_unchecked(fields)?;
    Ok(
        schema
            .qualified_field_with_unqualified_name(&Name::new(name)?)?
            .column,
    )
}

// written out, not converted, as all expected refusals here
fn unknown(column: Column) -> Refusal {
    let field = MissingField::Column(column);
    Refusal::Schema(SchemaError::FieldNotFound { field })
}

#[test]
fn a_name_alone_stands_for_its_only_field_or_the_only_unqualified_one(
    rt: HostRuntime,
) -> Result<(), Fail> {
    let t = bare(b"t", b"a")?;
    let u = bare(b"u", b"a")?;
    let a = unqualified(b"a")?;
    assert_eq!(rt; named(&[field(t)], b"a"), Ok(t));
    assert_eq!(rt; named(&[field(t), field(a), field(u)], b"a"), Ok(a));
    Ok(())
}

#[test]
fn a_name_of_several_fields_is_ambiguous_and_of_none_unknown(rt: HostRuntime) -> Result<(), Fail> {
    let t = bare(b"t", b"a")?;
    let a = unqualified(b"a")?;
    let ambiguous = Refusal::Schema(SchemaError::AmbiguousReference { field: a });
    assert_eq!(rt; named(&[field(t), field(t)], b"a"), Err(ambiguous));
    assert_eq!(rt; named(&[field(a), field(a)], b"a"), Err(ambiguous));
    assert_eq!(rt; named(&[field(t)], b"b"), Err(unknown(unqualified(b"b")?)));
    Ok(())
}

#[test]
fn a_column_is_had_by_its_own_reference_and_found_by_one_that_fits(
    rt: HostRuntime,
) -> Result<(), Fail> {
    let reference = TableReference::partial(Name::new(b"s")?, Name::new(b"t")?);
    let partial = Column::new(Some(reference), Name::new(b"a")?);
    let loose = bare(b"t", b"a")?;
    let schema = DFSchema::new(&[field(partial)])?;
    assert!(rt; schema.has_column(&partial) && schema.has_column(&unqualified(b"a")?));
    assert!(rt; schema.is_column_from_schema(&loose) && !schema.has_column(&loose));
    assert_eq!(rt; schema.index_of_column(&loose), Ok(0));
    let other = bare(b"u", b"a")?;
    assert_eq!(rt; schema.index_of_column(&other), Err(unknown(other)));
    Ok(())
}

#[test]
fn a_merge_takes_64_columns_and_refuses_one_more(rt: HostRuntime) -> Result<(), Fail> {
    let mut schema = DFSchema::new_unchecked(&[field(unqualified(b"a")?); 63])?;
    let t = DFSchema::new(&[field(bare(b"t", b"a")?)])?;
    let u = DFSchema::new(&[field(bare(b"u", b"a")?)])?;
    schema.merge(&t)?;
    assert_eq!(rt; schema.fields().len(), 64);
    assert_eq!(rt; schema.merge(&u), Err(Refusal::Oversize));
    schema.merge(&t)?;
    assert_eq!(rt; schema.fields().len(), 64);
    Ok(())
}

#[test]
fn the_parts_of_a_reference_come_from_the_widest_in(rt: HostRuntime) -> Result<(), Fail> {
    let c = Name::new(b"c")?;
    let s = Name::new(b"s")?;
    let t = Name::new(b"t")?;
    assert_eq!(rt; TableReference::bare(t).to_vec().as_slice(), &[t][..]);
    assert_eq!(rt;
        TableReference::partial(s, t).to_vec().as_slice(),
        &[s, t][..]
    );
    assert_eq!(rt;
        TableReference::full(c, s, t).to_vec().as_slice(),
        &[c, s, t][..]
    );
    Ok(())
}
