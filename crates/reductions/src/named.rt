ghost use Rattle.std.specs.Prelude.{◌≡◌, ◌<◌, ◌≤◌, map, length, IfSome};
ghost use Rattle.std.specs.Str.{bytes_eq};
ghost use Rattle.bounded.specs.View.{list_of};
ghost use Rattle.names.specs.FirstPlaces.{first_places};
ghost use Rattle.names.specs.Names.{text_of};
ghost use Rattle.columns.specs.Columns.{columns_of};
ghost use Rattle.reductions.specs.Meant.{column_named, text_at};

use bounded::list::Bounded;
use columns::column_list::{ColumnList, MAX_COLUMNS};
use names::first::first_position;
use names::name::FullName;

/// The name at that place of the list, and no text past its end.
pub fn name_at(field_names: &[FullName], column: u16) -> FullName
    ensures { text_of result ≡ text_at (map text_of field_names.now) column }
{
    field_names
        .get(usize::from(column))
        .copied()
        .unwrap_or_else(FullName::empty)
}

/// The names at those places of the list.
pub fn names_at(field_names: &[FullName], columns: &ColumnList) -> Bounded<FullName, MAX_COLUMNS>
    ensures { map text_of (list_of result) ≡ map (text_at (map text_of field_names.now)) (columns_of columns.now) }
{
    let mut names = Bounded::new(FullName::empty());
    // a `for` loop, as all that go over columns and names
    for column in columns.as_slice() {
        // there is room: at most 64 columns are listed
        let _ = names.push(name_at(field_names, *column));
    }
    names
}

/// The least place of the name in the list.
pub fn place_of(list: &[FullName], name: &FullName) -> Option<usize>
    ensures found { result ≡ column_named (map text_of list.now) (text_of name.now) }
    ensures inside { IfSome result (λ place. place < length list.now) }
{
    first_position(list, name)
}

// the least places in the list of those names that are there
pub(crate) fn places(list: &[FullName], names: &[FullName]) -> ColumnList
    requires few { length list.now ≤ 64 }
    requires few_names { length names.now ≤ 64 }
    ensures { columns_of result ≡ first_places bytes_eq (map text_of list.now) (map text_of names.now) }
{
    let mut places = ColumnList::empty();
    for name in names {
        if let Some(place) = place_of(list, name) {
            // there is room: at most one is pushed for each of at most 64
            let _ = places.push(place as u16);
        }
    }
    places
}
