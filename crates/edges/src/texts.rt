use names::column::Column;
use names::error::{MissingField, Refusal, SchemaError};
use names::first::first_position;
use names::name::{FullName, Name};
use names::qualified::qualified_name;
use names::table_reference::TableReference;
use std::process::Abort;
use std::test::Fail;

// The words of the refusals 1 to 16.
const WORDS: [&str; 16] = [
    "standing",
    "oversize",
    "overrun",
    "no column",
    "twice qualified",
    "twice unqualified",
    "ambiguous",
    "unknown",
    "same text",
    "empty key",
    "wrong kind",
    "short cells",
    "broken key",
    "crowded",
    "long walk",
    "no row",
];

fn check_full_name(rt: &impl Abort, relation: Option<TableReference>, name: &Name, text: &[u8]) {
    assert_eq!(rt; qualified_name(relation.as_ref(), name).as_bytes(), text);
}

#[test]
fn a_name_of_32_bytes_is_taken_and_of_33_refused(rt: HostRuntime) -> Result<(), Fail> {
    assert!(rt; Name::new(&[])?.as_bytes().is_empty());
    assert_eq!(rt; Name::new(&[b'a'; 32])?.as_bytes(), &[b'a'; 32][..]);
    assert_eq!(rt; Name::new(&[b'a'; 33]).err(), Some(Refusal::Oversize));
    Ok(())
}

#[test]
fn a_full_name_of_131_bytes_is_taken_and_of_132_refused(rt: HostRuntime) -> Result<(), Fail> {
    assert!(rt; FullName::new(&[])?.as_bytes().is_empty());
    assert_eq!(rt; FullName::new(&[b'.'; 131])?.as_bytes(), &[b'.'; 131][..]);
    assert_eq!(rt; FullName::new(&[b'.'; 132]).err(), Some(Refusal::Oversize));
    Ok(())
}

#[test]
fn every_byte_may_stand_in_a_name(rt: HostRuntime) -> Result<(), Fail> {
    for b in 0..=255 {
        assert_eq!(rt; Name::new(&[b, 0, b])?.as_bytes(), &[b, 0, b][..]);
        assert_eq!(rt; FullName::new(&[b, 255])?.as_bytes(), &[b, 255][..]);
    }
    assert!(rt; !(Name::new(&[0])? == Name::new(&[])?));
    assert!(rt; !(Name::new(&[0])? == Name::new(&[0, 0])?));
    Ok(())
}

#[test]
fn the_longest_column_has_a_full_name_of_131_bytes(rt: HostRuntime) -> Result<(), Fail> {
    let catalog = Name::new(&[b'k'; 32])?;
    let schema = Name::new(&[b's'; 32])?;
    let reference = TableReference::full(catalog, schema, Name::new(&[b't'; 32])?);
    let name = Name::new(&[b'c'; 32])?;
    let full = qualified_name(Some(&reference), &name);
    assert_eq!(rt; full.as_bytes().len(), 131);
    for (place, b) in full.as_bytes().iter().enumerate() {
        let expected = match place {
            32 | 65 | 98 => b'.',
            0..32 => b'k',
            33..65 => b's',
            66..98 => b't',
            _ => b'c',
        };
        assert_eq!(rt; *b, expected, "{}", place);
    }
    assert_eq!(rt; Column::new(Some(reference), name).flat_name(), full);
    Ok(())
}

#[test]
fn first_position_of_a_number_is_the_least(rt: HostRuntime) {
    let list = [65535u16, 0, 65534, 0, 65534];
    assert_eq!(rt; first_position(&list[..], &65535), Some(0));
    assert_eq!(rt; first_position(&list[..], &0), Some(1));
    assert_eq!(rt; first_position(&list[..], &65534), Some(2));
    assert_eq!(rt; first_position(&list[..], &1), None);
    assert_eq!(rt; first_position(&list[..0], &65535), None, "no entry");
}

#[test]
fn first_position_of_a_name_is_the_least(rt: HostRuntime) -> Result<(), Fail> {
    let longest = Name::new(&[255; 32])?;
    let list = [
        Name::new(&[255; 31])?,
        longest,
        Name::new(&[])?,
        longest,
        Name::new(&[])?,
    ];
    assert_eq!(rt; first_position(&list[..], &longest), Some(1));
    assert_eq!(rt; first_position(&list[..], &Name::new(&[])?), Some(2));
    assert_eq!(rt; first_position(&list[..], &Name::new(&[255; 30])?), None);
    assert_eq!(rt; first_position(&list[..0], &longest), None, "no entry");
    Ok(())
}

// The refusals are written out, not converted: they are the expected values.
#[test]
fn each_refusal_has_its_number_and_word(rt: HostRuntime) -> Result<(), Fail> {
    let name = Name::new(&[b'c'; 32])?;
    let qualifier = TableReference::full(name, name, name);
    let field = Column::new(Some(qualifier), name);
    let missing = MissingField::Column(field);
    let refusals = [
        Refusal::Standing,
        Refusal::Oversize,
        Refusal::Overrun,
        Refusal::NoColumn,
        Refusal::Schema(SchemaError::DuplicateQualifiedField { qualifier, name }),
        Refusal::Schema(SchemaError::DuplicateUnqualifiedField { name }),
        Refusal::Schema(SchemaError::AmbiguousReference { field }),
        Refusal::Schema(SchemaError::FieldNotFound { field: missing }),
        Refusal::SameText,
        Refusal::EmptyKey,
        Refusal::WrongKind,
        Refusal::ShortCells,
        Refusal::BrokenKey,
        Refusal::Crowded,
        Refusal::LongWalk,
        Refusal::NoRow,
    ];
    assert_eq!(rt; refusals.len(), WORDS.len());
    for (place, refusal) in refusals.iter().enumerate() {
        assert_eq!(rt; usize::from(refusal.number()), place + 1);
        assert_eq!(rt; Some(refusal.word()), WORDS.get(place).copied());
    }
    Ok(())
}
