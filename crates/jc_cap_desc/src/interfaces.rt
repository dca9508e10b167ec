//! Which class rows belong to interfaces.

ghost use Rattle.std.specs.Prelude.{◌≡◌, List, not};
ghost use Rattle.jc_base.specs.declared.placed_rows.Placed.{Placed};
ghost use Rattle.jc_cap.specs.ClassComponent.{is_class};
ghost use Rattle.jc_cap.specs.declared.record.Record.{Record};
ghost use Rattle.jc_cap_desc.specs.Across.{is_interface_row};
ghost use Rattle.jc_cap_desc.specs.PrivateInterfaceRows.{HoldsInterfaces};
ghost use Rattle.jc_cap_desc.specs.PrivateRecordRows.{HoldsRecords};

use crate::class_row::ClassRow;
use crate::offsets::{mark, put};
use jc_base::{ClassRef, NumberSet};
use jc_cap::{RecordBody, Records};

/// Whether a record is an interface's.
pub(crate) fn is_interface(body: &RecordBody) -> bool
    ensures { result ≡ not (is_class body.now) }
{
    match body {
        RecordBody::Interface(_) => true,
        RecordBody::Class(_) => false,
    }
}

/// The offsets at which records begin.
#[derive(Drop)]
pub(crate) struct RecordOffsets {
    /// The offsets of all records.
    pub(crate) starts: NumberSet,
    /// The offsets of interfaces' records.
    pub(crate) interfaces: NumberSet,
}

/// The offsets of records, from one pass over them.
pub(crate) fn record_offsets(records: &Records) -> RecordOffsets
    ensures starts { HoldsRecords result.starts records.now }
    ensures interfaces { HoldsInterfaces result.interfaces records.now }
{
    let mut starts = NumberSet::empty();
    let mut interfaces = NumberSet::empty();
    let mut left = records.again();
    while let Some(placed) = left.next() {
        mark(
            &starts,
            &mut interfaces,
            placed.offset,
            is_interface(&placed.row.body),
        );
        put(&mut starts, placed.offset);
    }
    RecordOffsets { starts, interfaces }
}

/// Whether a row is an interface's: whether it names an interface's record.
pub(crate) fn is_interface_row(interfaces: &NumberSet, row: &ClassRow) -> bool
    ensures { (records : List (Placed Record)) → HoldsInterfaces interfaces.now records
        → result ≡ is_interface_row records row.now }
{
    match row.this {
        ClassRef::Internal { offset } => interfaces.contains(offset),
        ClassRef::External { .. } => false,
    }
}
