use names::error::Refusal;
use names::name::Name;
use names::table_reference::TableReference;
use std::cmp::Ordering;
use std::process::Abort;
use std::test::Fail;

fn bare(table: &[u8]) -> Result<TableReference, Refusal> {
    Ok(TableReference::bare(Name::new(table)?))
}

fn partial(schema: &[u8], table: &[u8]) -> Result<TableReference, Refusal> {
    Ok(TableReference::partial(Name::new(schema)?, Name::new(table)?))
}

fn full(catalog: &[u8], schema: &[u8], table: &[u8]) -> Result<TableReference, Refusal> {
    Ok(TableReference::full(Name::new(catalog)?, Name::new(schema)?, Name::new(table)?))
}

// Each reference before all later ones, in both directions, and equal to itself alone.
fn check_ascends(rt: &impl Abort, list: &[TableReference]) {
    for (i, a) in list.iter().enumerate() {
        for (j, b) in list.iter().enumerate() {
            assert_eq!(rt; a.cmp(b), i.cmp(&j), "{}; {}", i, j);
            assert_eq!(rt; *a == *b, i == j, "{}; {}", i, j);
        }
    }
}

#[test]
fn equal_references_have_one_form_and_the_same_parts(rt: HostRuntime) -> Result<(), Fail> {
    let t = partial(b"", b"t")?;
    assert_eq!(rt; bare(b"t")?, bare(b"t")?);
    assert_ne!(rt; bare(b"t")?, t);
    assert_ne!(rt; t, full(b"", b"", b"t")?);
    assert_ne!(rt; partial(b"s", b"t")?, partial(b"t", b"s")?);
    assert_ne!(rt; partial(b"st", b"")?, partial(b"s", b"t")?);
    let kst = full(b"k", b"s", b"t")?;
    assert_eq!(rt; kst, full(b"k", b"s", b"t")?);
    assert_ne!(rt; kst, full(b"j", b"s", b"t")?);
    Ok(())
}

#[test]
fn resolved_eq_compares_the_parts_that_both_have(rt: HostRuntime) -> Result<(), Fail> {
    let t = bare(b"t")?;
    let st = partial(b"s", b"t")?;
    let kst = full(b"k", b"s", b"t")?;
    for a in [t, st, kst] {
        for b in [t, st, kst] {
            assert!(rt; a.resolved_eq(&b));
        }
    }
    for other in [bare(b"u")?, partial(b"r", b"t")?, full(b"k", b"r", b"t")?] {
        assert!(rt; !st.resolved_eq(&other));
        assert!(rt; !other.resolved_eq(&st));
    }
    let jst = full(b"j", b"s", b"t")?;
    assert!(rt; !kst.resolved_eq(&jst));
    assert!(rt;
        st.resolved_eq(&kst) && st.resolved_eq(&jst),
        "it is not transitive"
    );
    Ok(())
}

#[test]
fn every_bare_stands_before_every_partial_before_every_full(rt: HostRuntime) -> Result<(), Fail> {
    let last = [255; 32];
    let list = [
        bare(b"")?,
        bare(&last)?,
        partial(b"", b"")?,
        partial(&last, &last)?,
        full(b"", b"", b"")?,
        full(&last, &last, &last)?,
    ];
    check_ascends(&rt, &list[..]);
    Ok(())
}

#[test]
fn the_schema_is_compared_before_the_table(rt: HostRuntime) -> Result<(), Fail> {
    let list = [
        partial(b"a", b"b")?,
        partial(b"a", b"c")?,
        partial(b"b", b"a")?,
        full(b"a", b"b", b"c")?,
        full(b"a", b"c", b"b")?,
        full(b"b", b"a", b"a")?,
    ];
    check_ascends(&rt, &list[..]);
    Ok(())
}

#[test]
fn parts_are_ordered_as_bytes_and_a_prefix_comes_first(rt: HostRuntime) -> Result<(), Fail> {
    let list = [
        bare(b"")?,
        bare(&[0])?,
        bare(&[0, 0])?,
        bare(&[0, 255])?,
        bare(b"T")?,
        bare(b"t")?,
        bare(&[127; 31])?,
        bare(&[127; 32])?,
        bare(&[128])?,
        bare(&[255; 31])?,
        bare(&[255; 32])?,
    ];
    check_ascends(&rt, &list[..]);
    assert_eq!(rt; bare(b"t")?.cmp(&bare(b"t")?), Ordering::Equal);
    Ok(())
}
