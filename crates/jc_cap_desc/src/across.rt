//! The tests of class rows against records, and of methods against each other.

ghost use Rattle.std.specs.Prelude.{◌≡◌, ◌&&◌, ◌||◌, ◌∷◌, ℕ, true, false, List, [], map, not, IfSome, IfNone};
ghost use Rattle.std.specs.List.{list_all};
ghost use Rattle.jc_base.specs.NumberSet.{has_number};
ghost use Rattle.jc_base.specs.declared.placed_rows.Placed.{Placed};
ghost use Rattle.jc_cap.specs.declared.record.Record.{Record};
ghost use Rattle.jc_cap_desc.specs.Across.{is_row_of, rows_match, class_methods};
ghost use Rattle.jc_cap_desc.specs.Across.{is_interface_row, is_among, are_distinct, methods_differ};
ghost use Rattle.jc_cap_desc.specs.PrivateFreshNumbers.{are_fresh, put_in, Holds};
ghost use Rattle.jc_cap_desc.specs.PrivateInterfaceRows.{HoldsInterfaces};
ghost use Rattle.jc_cap_desc.specs.PrivateMethods.{class_offsets};
ghost use Rattle.jc_cap_desc.specs.PrivateRecordRows.{AreNamed, HoldsRecords, is_in, offset_named};

use crate::class_row::{ClassRow, ClassRows, MethodRows};
use crate::interfaces::is_interface_row;
use jc_base::{ClassRef, NumberSet};
use jc_cap::Records;

/// Whether a row is of the record at an offset.
pub(crate) fn is_row_of(offset: usize, row: &ClassRow) -> bool
    ensures { result ≡ is_row_of offset row.now }
{
    match row.this {
        ClassRef::Internal { offset: this } => usize::from(this) == offset,
        ClassRef::External { .. } => false,
    }
}

/// The offset of the record that a row names.
fn offset_named(row: &ClassRow) -> Option<u16>
    ensures { result ≡ offset_named row.now }
{
    match row.this {
        ClassRef::Internal { offset } => Some(offset),
        ClassRef::External { .. } => None,
    }
}

/// Whether a record begins at an offset that no earlier row named.
fn is_named_anew(starts: &NumberSet, named: &NumberSet, offset: u16) -> bool
    ensures { result ≡ (has_number starts.now offset && not (has_number named.now offset)) }
{
    starts.contains(offset) && !named.contains(offset)
}

/// The offsets of the records that rows name, or `None` if a row names no record, or two rows name the same one.
fn offsets_named(starts: &NumberSet, rows: &ClassRows) -> Option<NumberSet>
    ensures named { IfSome result (λ named. AreNamed starts.now named rows.now []) }
    ensures refused { IfNone result ((records : List (Placed Record)) → HoldsRecords starts.now records
        → false ≡ rows_match records rows.now) }
{
    let mut left = rows.again();
    let mut named = NumberSet::empty();
    while let Some(row) = left.next() {
        let Some(offset) = offset_named(&row) else {
            return None;
        };
        if !is_named_anew(starts, &named, offset) {
            return None;
        }
        named.insert(offset);
    }
    Some(named)
}

/// Whether an offset is in a set; an offset above 65,535 isn't.
fn is_in(set: &NumberSet, offset: usize) -> bool
    ensures { result ≡ is_in set.now offset }
{
    match u16::try_from(offset) {
        Ok(number) => set.contains(number),
        Err(_) => false,
    }
}

/// Whether the offset of each record is in a set.
fn records_are_in(set: &NumberSet, records: &Records) -> bool
    ensures { result ≡ list_all (λ p. is_in set.now p.offset) records.now }
{
    let mut left = records.again();
    while let Some(placed) = left.next() {
        if !is_in(set, placed.offset) {
            return false;
        }
    }
    true
}

/// Whether each record has exactly one row, and each row names a record: one pass over the rows, and one over the
/// records.
#[tactic(auto, using(crate::proofs::Matching::matched))]
pub(crate) fn rows_match(records: &Records, starts: &NumberSet, rows: &ClassRows) -> bool
    ensures { HoldsRecords starts.now records.now → result ≡ rows_match records.now rows.now }
{
    match offsets_named(starts, rows) {
        Some(named) => records_are_in(&named, records),
        None => false,
    }
}

/// Puts a number into a set, and returns whether it is new.
fn is_fresh(seen: &mut NumberSet, number: u16) -> bool
    ensures fresh { (before : List ℕ) → Holds seen.old before → result ≡ not (is_among number before) }
    ensures put { (before : List ℕ) → Holds seen.old before → Holds seen.new (number ∷ before) }
{
    let fresh = !seen.contains(number);
    seen.insert(number);
    fresh
}

/// Puts the offsets of methods into a set, and returns whether each is new.
fn offsets_are_fresh(seen: &mut NumberSet, methods: &MethodRows) -> bool
    ensures fresh { (before : List ℕ) → Holds seen.old before
        → result ≡ are_fresh before (map (λ m. m.offset) methods.now) }
    ensures put { (before : List ℕ) → Holds seen.old before → result ≡ true
        → Holds seen.new (put_in before (map (λ m. m.offset) methods.now)) }
{
    let mut left = methods.again();
    while let Some(method) = left.next() {
        if !is_fresh(seen, method.offset) {
            return false;
        }
    }
    true
}

/// Puts the offsets of a class's methods into a set, and returns whether each is new. It ignores an interface's
/// methods.
fn row_is_fresh(interfaces: &NumberSet, seen: &mut NumberSet, row: &ClassRow) -> bool
    ensures fresh { (records : List (Placed Record)) (before : List ℕ) → HoldsInterfaces interfaces.now records
        → Holds seen.old before → result ≡ are_fresh before (class_offsets records row.now) }
    ensures put { (records : List (Placed Record)) (before : List ℕ) → HoldsInterfaces interfaces.now records
        → Holds seen.old before → result ≡ true → Holds seen.new (put_in before (class_offsets records row.now)) }
{
    is_interface_row(interfaces, row) || offsets_are_fresh(seen, &row.methods)
}

/// Whether the methods of classes have different offsets.
fn offsets_differ(interfaces: &NumberSet, rows: &ClassRows) -> bool
    ensures { (records : List (Placed Record)) → HoldsInterfaces interfaces.now records
        → result ≡ are_distinct (map (λ m. m.offset) (class_methods records rows.now)) }
{
    let mut left = rows.again();
    let mut seen = NumberSet::empty();
    while let Some(row) = left.next() {
        if !row_is_fresh(interfaces, &mut seen, &row) {
            return false;
        }
    }
    true
}

/// Whether methods have different tokens.
fn tokens_differ(methods: &MethodRows) -> bool
    ensures { result ≡ are_distinct (map (λ m. m.token) methods.now) }
{
    let mut left = methods.again();
    let mut seen = NumberSet::empty();
    while let Some(method) = left.next() {
        if !is_fresh(&mut seen, u16::from(method.token)) {
            return false;
        }
    }
    true
}

/// Whether the methods of each interface have different tokens.
fn interfaces_differ(interfaces: &NumberSet, rows: &ClassRows) -> bool
    ensures { (records : List (Placed Record)) → HoldsInterfaces interfaces.now records → result ≡ list_all
        (λ row. not (is_interface_row records row) || are_distinct (map (λ m. m.token) row.methods)) rows.now }
{
    let mut left = rows.again();
    while let Some(row) = left.next() {
        if is_interface_row(interfaces, &row) && !tokens_differ(&row.methods) {
            return false;
        }
    }
    true
}

/// Whether the methods of classes have different offsets, and the methods of each interface different tokens.
pub(crate) fn methods_differ(interfaces: &NumberSet, rows: &ClassRows) -> bool
    ensures { (records : List (Placed Record)) → HoldsInterfaces interfaces.now records
        → result ≡ methods_differ records rows.now }
{
    offsets_differ(interfaces, rows) && interfaces_differ(interfaces, rows)
}
