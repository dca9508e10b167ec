//! Makes the initialised arrays of a loaded package (Java Card Virtual Machine Specification, StaticField component,
//! array_init_info).

ghost use Rattle.std.specs.Prelude.{◌≡◌, ◌+◌, ◌∷◌, [], length, map, true, false, nat_le, slice_get};
ghost use Rattle.jc_interp.specs.Loading.{TellsRoom, with_arrays, word_array, word_arrays};
ghost use Rattle.jc_interp.specs.PrivateMaking.{HasRoomFor, cells_of_arrays, do_fit, filled, with_component};
ghost use Rattle.jc_safety.specs.Loading.{byte_word, kind_of_array, owner_of_arrays, short_word, type_of_array};
ghost use Rattle.jc_safety.specs.Loading.{words_of_array};
ghost use Rattle.jc_store.specs.Store.{IsFull};

use crate::creation::OBJECT;
use crate::seen::put;
use jc_link::{ArrayKind, InitialArray, LinkedBody};
use jc_names::Owner;
use jc_store::{Mark, ObjectKind, ObjectType, Store};

/// The context of the runtime.
const RUNTIME: u8 = 0;

#[inline]
fn byte_word(value: i16) -> u16
    ensures { result ≡ byte_word value }
{
    value.cast_unsigned() % 256
}

#[inline]
fn short_word(value: i16) -> u16
    ensures { result ≡ short_word value }
{
    value.cast_unsigned()
}

/// The number of components of an array.
fn count_of(array: &InitialArray) -> usize
    ensures { result ≡ length (words_of_array array.now) }
{
    match array.kind {
        ArrayKind::Boolean | ArrayKind::Byte | ArrayKind::Short => array.values.len(),
    }
}

/// Its component at an index.
fn component_of(array: &InitialArray, index: usize) -> Option<u16>
    ensures { result ≡ slice_get (words_of_array array.now) index }
{
    let value = *array.values.get(index)?;
    match array.kind {
        ArrayKind::Boolean | ArrayKind::Byte => Some(byte_word(value)),
        ArrayKind::Short => Some(short_word(value)),
    }
}

fn type_of(array: &InitialArray) -> ObjectType
    ensures { result ≡ type_of_array array.now }
{
    match array.kind {
        ArrayKind::Boolean => ObjectType::BooleanArray,
        ArrayKind::Byte => ObjectType::ByteArray,
        ArrayKind::Short => ObjectType::ShortArray,
    }
}

fn kind_of(body: &LinkedBody, array: &InitialArray) -> ObjectKind
    ensures { result ≡ kind_of_array body.now array.now }
{
    let mark = match &body.kept().applets {
        Some(_) => Mark::Plain,
        None => Mark::GlobalArray,
    };
    ObjectKind {
        object_type: type_of(array),
        mark,
        clears: None,
    }
}

fn owner_of(number: u8, body: &LinkedBody) -> Owner
    ensures { result ≡ owner_of_arrays number body.now.kept.applets }
{
    let context = match &body.kept().applets {
        Some(_) => number,
        None => RUNTIME,
    };
    Owner {
        context,
        instance: 0,
    }
}

/// Puts an array's word at an index into that component of an object.
fn put_component(store: &mut Store, number: u16, array: &InitialArray, index: usize)
    ensures { store.new ≡ with_component store.old number index (words_of_array array.now) }
{
    if let Some(word) = component_of(array, index) {
        put(store, number, index, word);
    }
}

/// Puts an array's words into the components of an object.
fn fill(store: &mut Store, number: u16, array: &InitialArray)
    ensures { store.new ≡ filled store.old number 0 (words_of_array array.now) }
{
    let count = count_of(array);
    for index in 0..count {
        put_component(store, number, array, index);
    }
}

/// Makes an array of the package with a number, if there is room for it.
fn make_array(store: &mut Store, number: u8, body: &LinkedBody, array: &InitialArray) -> bool
    ensures made { result ≡ true → store.new ≡ with_arrays store.old (word_array number body.now array.now ∷ []) }
    ensures full { result ≡ false → IsFull store.old (length (words_of_array array.now)) }
{
    let kind = kind_of(body, array);
    let owner = owner_of(number, body);
    match store.make(kind, owner, count_of(array), OBJECT) {
        Some(made) => {
            fill(store, made, array);
            true
        }
        None => false,
    }
}

/// Makes arrays of the package with a number.
fn make_each(store: &mut Store, number: u8, body: &LinkedBody, arrays: &[InitialArray]) -> bool
    ensures made { result ≡ true → store.new ≡ with_arrays store.old (map (word_array number body.now) arrays.now) }
    ensures full { result ≡ false → HasRoomFor store.old (map (word_array number body.now) arrays.now) → ⊥ }
{
    for array in arrays {
        if !make_array(store, number, body, array) {
            return false;
        }
    }
    true
}

/// The initialised arrays of a package.
fn arrays_of(body: &LinkedBody) -> &[InitialArray]
    ensures { result.now ≡ body.now.kept.statics.arrays }
{
    &body.kept().statics.arrays
}

/// Makes the initialised arrays of the package with a number, with their values, and reports whether there was room for
/// all. If not, it may have made some.
pub(crate) fn make_arrays(store: &mut Store, number: u8, body: &LinkedBody) -> bool
    ensures made { result ≡ true → store.new ≡ with_arrays store.old (word_arrays number body.now) }
    ensures full { result ≡ false → HasRoomFor store.old (word_arrays number body.now) → ⊥ }
{
    make_each(store, number, body, arrays_of(body))
}

/// Whether the cells that arrays take fit, if so many are in use.
fn do_cells_fit(cells_used: u16, cells: u16, arrays: &[InitialArray]) -> bool
    ensures { result ≡ nat_le (cells_used + cells_of_arrays arrays.now) cells }
{
    if cells_used > cells {
        return false;
    }
    let mut left = usize::from(cells - cells_used);
    for array in arrays {
        let count = count_of(array);
        if left <= count {
            return false;
        }
        left -= 1 + count;
    }
    true
}

/// Whether arrays fit in a store, if so many objects and cells are in use.
fn do_fit(
    objects_used: u16,
    cells_used: u16,
    objects: u16,
    cells: u16,
    arrays: &[InitialArray],
) -> bool
    ensures { result ≡ do_fit objects_used cells_used objects cells arrays.now }
{
    objects_used <= objects
        && arrays.len() <= usize::from(objects - objects_used)
        && do_cells_fit(cells_used, cells, arrays)
}

/// Whether there is room for a linked package's initialised arrays, in a store of at most so many objects and cells.
pub fn has_room_for(store: &Store, objects: u16, cells: u16, body: &LinkedBody) -> bool
    ensures { TellsRoom objects cells store.now.objects body.now result }
{
    do_fit(
        store.objects_used(),
        store.cells_used(),
        objects,
        cells,
        arrays_of(body),
    )
}
