//! Static fields in their image.

ghost use Rattle.std.specs.Prelude.{◌≡◌, ◌≤◌, ◌<◌, ◌==◌, List, [], ◌∷◌, false};
ghost use Rattle.std.specs.List.{filter_map};
ghost use Rattle.jc_base.specs.NumberSet.{has_number};
ghost use Rattle.jc_link.specs.PrivateStatics.{earlier, bad_offset, first_bad_among, second_byte};
ghost use Rattle.jc_link.specs.PrivateStatics.{AreTaken, WereTaken, HaveTaken, AreAmong};
ghost use Rattle.jc_link.specs.Statics.{StaticField as Shaped};
ghost use Rattle.jc_link.specs.Statics.{static_of, static_fields, holds_reference, width_of, behind, leaves_image};
ghost use Rattle.jc_link.specs.Statics.{is_misplaced, overlaps_another, is_of_type, is_of_another_array};
ghost use Rattle.jc_link.specs.Statics.{is_bad_static, first_bad_static};

use jc_base::{ClassRef, DeclaredType, NumberSet};
use jc_cap::{StaticArray, StaticFields};
use jc_cap_desc::FieldPlace;
use jc_classes::{Field, PackageShape};
use std::marker::Model;

/// A static field.
#[derive(Drop)]
struct StaticField {
    offset: u16,
    declared: DeclaredType<ClassRef>,
}

impl Model for StaticField {
    ghost use Rattle.jc_link.specs.Statics.{StaticField as Shaped};

    ghost Value = { Shaped };

    ghost view = { λ f. record { offset = f.offset; type = f.declared } };
}

/// A field, if it is static.
fn static_of(field: &Field) -> Option<StaticField>
    ensures { result ≡ static_of field.now }
{
    match field.place() {
        FieldPlace::Static { offset } => Some(StaticField {
            offset,
            declared: field.declared_type(),
        }),
        FieldPlace::Instance { .. } => None,
    }
}

/// Whether a field of a type holds a reference.
fn holds_reference(declared: DeclaredType<ClassRef>) -> bool
    ensures { result ≡ holds_reference declared }
{
    match declared {
        DeclaredType::Boolean | DeclaredType::Byte | DeclaredType::Short => false,
        DeclaredType::Reference(_)
        | DeclaredType::BooleanArray
        | DeclaredType::ByteArray
        | DeclaredType::ShortArray
        | DeclaredType::ReferenceArray(_) => true,
    }
}

/// How many bytes a field of a type takes.
fn width_of(declared: DeclaredType<ClassRef>) -> u8
    ensures width { result ≡ width_of declared }
    ensures most { result ≤ 2 }
{
    match declared {
        DeclaredType::Boolean | DeclaredType::Byte => 1,
        DeclaredType::Short
        | DeclaredType::Reference(_)
        | DeclaredType::BooleanArray
        | DeclaredType::ByteArray
        | DeclaredType::ShortArray
        | DeclaredType::ReferenceArray(_) => 2,
    }
}

impl StaticField {
    /// The offset after it in the image.
    fn behind(&self) -> usize
        ensures { result ≡ behind self.now }
    {
        usize::from(self.offset) + usize::from(width_of(self.declared))
    }

    /// Whether it runs past the image.
    fn leaves(&self, statics: &StaticFields) -> bool
        ensures leaves { result ≡ leaves_image statics.now self.now }
        ensures within { result ≡ false → behind self.now < 65536 }
    {
        usize::from(statics.image_size()) < self.behind()
    }

    /// Whether it is a reference that isn't one of the image's first references, or a primitive that isn't after them.
    fn is_misplaced(&self, statics: &StaticFields) -> bool
        ensures { result ≡ is_misplaced statics.now self.now }
    {
        let in_front = usize::from(self.offset) < 2 * usize::from(statics.reference_count());
        if holds_reference(self.declared) {
            !(self.offset % 2 == 0 && in_front)
        } else {
            in_front
        }
    }

    /// The first byte of the image that it takes.
    fn first_byte(&self) -> u16
        ensures { result ≡ self.now.offset }
    {
        self.offset
    }

    /// The second byte of the image that it takes, if it takes two, and if that byte's number is below 65,536.
    fn second_byte(&self) -> Option<u16>
        ensures { result ≡ second_byte self.now }
    {
        if width_of(self.declared) == 2 {
            self.offset.checked_add(1)
        } else {
            None
        }
    }
}

/// The bytes of the image that static fields take, for numbers below 65,536: those that at least one field takes, and
/// those that at least two take.
#[derive(Drop)]
struct TakenBytes {
    once: NumberSet,
    twice: NumberSet,
}

impl Model for TakenBytes {
    ghost use Rattle.jc_link.specs.PrivateStatics.{Taken};

    ghost Value = { Taken };

    ghost view = { λ t. record { once = t.once; twice = t.twice } };
}

impl TakenBytes {
    /// No byte is taken.
    fn none() -> TakenBytes
        ensures { AreTaken result [] }
    {
        TakenBytes {
            once: NumberSet::empty(),
            twice: NumberSet::empty(),
        }
    }

    /// Takes a byte once more.
    fn take_byte(&mut self, byte: u16)
        ensures { WereTaken (λ n. n == byte) self.old self.new }
    {
        if self.once.contains(byte) {
            self.twice.insert(byte);
        }
        self.once.insert(byte);
    }

    /// Takes the bytes of a field.
    fn take_field(&mut self, field: &StaticField)
        ensures { HaveTaken (field.now ∷ []) self.old self.new }
    {
        self.take_byte(field.first_byte());
        if let Some(second) = field.second_byte() {
            self.take_byte(second);
        }
    }

    /// Takes the bytes of a field, if it is static.
    fn take_static(&mut self, field: &Field)
        ensures { HaveTaken (filter_map static_of (field.now ∷ [])) self.old self.new }
    {
        if let Some(found) = static_of(field) {
            self.take_field(&found);
        }
    }

    /// Takes the bytes of the static fields among these.
    fn take_all(&mut self, fields: &[Field])
        ensures { HaveTaken (filter_map static_of fields.now) self.old self.new }
    {
        for field in fields {
            self.take_static(field);
        }
    }

    /// The bytes that a package's static fields take.
    fn of_package(shape: &PackageShape) -> TakenBytes
        ensures { AreTaken result (static_fields shape.now) }
    {
        let mut taken = TakenBytes::none();
        for class in shape.classes() {
            taken.take_all(class.fields());
        }
        taken
    }

    /// Whether two fields take a byte.
    fn is_twice(&self, byte: u16) -> bool
        ensures { result ≡ has_number self.now.twice byte }
    {
        self.twice.contains(byte)
    }

    /// Whether another field takes a byte of this field, which is among those counted and ends below 65,536.
    fn shares(&self, field: &StaticField) -> bool
        ensures { (all : List Shaped) → AreTaken self.now all → AreAmong (field.now ∷ []) all
            → behind field.now < 65536 → result ≡ overlaps_another all field.now }
    {
        self.is_twice(field.first_byte())
            || match field.second_byte() {
                Some(second) => self.is_twice(second),
                None => false,
            }
    }
}

/// Whether an initialised array has exactly this type.
fn is_of_type(array: &StaticArray, declared: DeclaredType<ClassRef>) -> bool
    ensures { result ≡ is_of_type array.now declared }
{
    match (array, declared) {
        (StaticArray::Boolean(_), DeclaredType::BooleanArray) => true,
        (StaticArray::Byte(_), DeclaredType::ByteArray) => true,
        (StaticArray::Short(_), DeclaredType::ShortArray) => true,
        _ => false,
    }
}

/// Whether a field refers to an initialised array, and has another type.
fn is_of_another_array(statics: &StaticFields, field: &StaticField) -> bool
    ensures { result ≡ is_of_another_array statics.now field.now }
{
    if field.offset % 2 != 0 {
        return false;
    }
    match statics.arrays().get(field.offset / 2) {
        Some(array) => !is_of_type(&array, field.declared),
        None => false,
    }
}

/// Whether a static field, of those counted, is bad.
fn is_bad_static(statics: &StaticFields, taken: &TakenBytes, field: &StaticField) -> bool
    ensures { (all : List Shaped) → AreTaken taken.now all → AreAmong (field.now ∷ []) all
        → result ≡ is_bad_static statics.now all field.now }
{
    field.leaves(statics)
        || field.is_misplaced(statics)
        || taken.shares(field)
        || is_of_another_array(statics, field)
}

/// The offset of a field, if it is static and bad.
fn bad_offset(statics: &StaticFields, taken: &TakenBytes, field: &Field) -> Option<u16>
    ensures { (all : List Shaped) → AreTaken taken.now all → AreAmong (filter_map static_of (field.now ∷ [])) all
        → result ≡ bad_offset statics.now all field.now }
{
    let found = static_of(field)?;
    if is_bad_static(statics, taken, &found) {
        Some(found.offset)
    } else {
        None
    }
}

/// The lesser of two offsets, or the one that is there.
fn earlier(one: Option<u16>, other: Option<u16>) -> Option<u16>
    ensures { result ≡ earlier one other }
{
    let Some(offset) = one else {
        return other;
    };
    match other {
        Some(second) => Some(offset.min(second)),
        None => Some(offset),
    }
}

/// The least offset of a bad static field among these fields, which are among those counted.
fn first_bad_among(statics: &StaticFields, taken: &TakenBytes, fields: &[Field]) -> Option<u16>
    ensures { (all : List Shaped) → AreTaken taken.now all → AreAmong (filter_map static_of fields.now) all
        → result ≡ first_bad_among statics.now all fields.now }
{
    let mut first = None;
    for field in fields {
        first = earlier(first, bad_offset(statics, taken, field));
    }
    first
}

/// The least offset of a bad static field of a package (Java Card Virtual Machine Specification, StaticField
/// component).
pub(crate) fn first_bad_static(statics: &StaticFields, shape: &PackageShape) -> Option<u16>
    ensures { result ≡ first_bad_static statics.now shape.now }
{
    let taken = TakenBytes::of_package(shape);
    let mut first = None;
    for class in shape.classes() {
        first = earlier(first, first_bad_among(statics, &taken, class.fields()));
    }
    first
}
