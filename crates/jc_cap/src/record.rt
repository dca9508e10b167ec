//! Records of classes and interfaces.

ghost use Rattle.std.specs.Prelude.{◌≡◌};
ghost use Rattle.jc_base.specs.Cursor.{Gives};
ghost use Rattle.jc_cap.specs.Record.{superclass_of, next_table_size, next_methods, next_interface};
ghost use Rattle.jc_cap.specs.Record.{next_class_record, next_body, next_record};
ghost use Rattle.jc_cap.specs.PrivateRecord.{record_shrinks};

use crate::interfaces::{ImplementedInterfaces, Superinterfaces};
use jc_base::tag::CLASS;
use jc_base::{ClassRef, Cursor, LoadFault, PlacedRow, Row, Rows, U2s, class_ref_of, has_flag};

/// The record is an interface's.
const ACC_INTERFACE: u8 = 8;
/// The record is a remote class's or interface's.
const ACC_REMOTE: u8 = 2;
/// The number of a class without a superclass.
const NO_SUPERCLASS: u16 = 0xFFFF;

/// A table of virtual methods.
#[derive(Drop)]
pub struct VirtualTable<'a> {
    /// The token of the first method.
    pub base: u8,
    /// The methods' offsets in the Method component, `FFFF` if another package declares the method.
    pub methods: U2s<'a>,
}

/// An interface's record.
#[derive(Drop)]
pub struct InterfaceRecord<'a> {
    /// The interfaces that it extends.
    pub superinterfaces: Superinterfaces<'a>,
}

/// A class's record.
#[derive(Drop)]
pub struct ClassRecord<'a> {
    /// The superclass, or `None` if the record names none.
    pub superclass: Option<ClassRef>,
    /// How many cells of an object the class itself declares.
    pub declared_size: u8,
    /// The public and protected virtual methods.
    pub public_methods: VirtualTable<'a>,
    /// The package-visible virtual methods.
    pub package_methods: VirtualTable<'a>,
    /// The interfaces that it implements.
    pub interfaces: ImplementedInterfaces<'a>,
}

/// The contents of a record.
#[derive(Drop)]
pub enum RecordBody<'a> {
    Interface(InterfaceRecord<'a>),
    Class(ClassRecord<'a>),
}

/// A record (Java Card Virtual Machine Specification, Class component: `interface_info` and `class_info`). Of the flags
/// only ACC_INTERFACE and ACC_REMOTE are read.
#[derive(Drop)]
pub struct Record<'a> {
    /// Whether it is a remote class's or interface's. The card refuses such records.
    pub is_remote: bool,
    pub body: RecordBody<'a>,
}

/// The superclass that a number names.
fn superclass_of(number: u16) -> Option<ClassRef>
    ensures { result ≡ superclass_of number }
{
    if number == NO_SUPERCLASS {
        return None;
    }
    Some(class_ref_of(number))
}

/// The first token and the number of methods of a table.
#[derive(Clone, Copy)]
struct TableSize {
    base: u8,
    count: u8,
}

#[tactic(auto, unfolding(crate::specs::Record::next_table_size))]
fn next_table_size(cursor: &mut Cursor) -> Result<TableSize, LoadFault>
    ensures { Gives (λ size. size) result cursor.new (next_table_size cursor.old) }
{
    let base = cursor.u1().ok_or(LoadFault::Malformed(CLASS))?;
    let count = cursor.u1().ok_or(LoadFault::Malformed(CLASS))?;
    Ok(TableSize { base, count })
}

/// The next `count` offsets of methods.
#[tactic(auto, unfolding(crate::specs::Record::next_methods))]
fn next_methods<'a>(count: u8, cursor: &mut Cursor<'a>) -> Result<U2s<'a>, LoadFault>
    ensures { Gives (λ methods. methods) result cursor.new (next_methods count cursor.old) }
{
    let bytes = cursor
        .take(2 * usize::from(count))
        .ok_or(LoadFault::Malformed(CLASS))?;
    Ok(U2s::new(bytes))
}

/// An interface's record after its first byte, which counts the superinterfaces.
#[tactic(auto, unfolding(crate::specs::Record::next_interface))]
fn next_interface<'a>(count: u8, cursor: &mut Cursor<'a>) -> Result<InterfaceRecord<'a>, LoadFault>
    ensures { Gives (λ r. r) result cursor.new (next_interface count cursor.old) }
{
    let superinterfaces = Rows::read(cursor, u16::from(count))?;
    Ok(InterfaceRecord { superinterfaces })
}

/// A class's record after its first byte, which counts the interfaces.
#[tactic(auto, unfolding(crate::specs::Record::next_class_record))]
fn next_class_record<'a>(count: u8, cursor: &mut Cursor<'a>) -> Result<ClassRecord<'a>, LoadFault>
    ensures { Gives (λ r. r) result cursor.new (next_class_record count cursor.old) }
{
    let superclass = cursor.u2().ok_or(LoadFault::Malformed(CLASS))?;
    let declared_size = cursor.u1().ok_or(LoadFault::Malformed(CLASS))?;
    cursor.take(2).ok_or(LoadFault::Malformed(CLASS))?;
    let public = next_table_size(cursor)?;
    let package = next_table_size(cursor)?;
    let public_methods = next_methods(public.count, cursor)?;
    let package_methods = next_methods(package.count, cursor)?;
    let interfaces = Rows::read(cursor, u16::from(count))?;
    Ok(ClassRecord {
        superclass: superclass_of(superclass),
        declared_size,
        public_methods: VirtualTable {
            base: public.base,
            methods: public_methods,
        },
        package_methods: VirtualTable {
            base: package.base,
            methods: package_methods,
        },
        interfaces,
    })
}

/// A record after its first byte.
#[tactic(auto, unfolding(crate::specs::Record::next_body))]
fn next_body<'a>(front: u8, cursor: &mut Cursor<'a>) -> Result<RecordBody<'a>, LoadFault>
    ensures { Gives (λ body. body) result cursor.new (next_body front cursor.old) }
{
    if has_flag(front / 16, ACC_INTERFACE) {
        let record = next_interface(front % 16, cursor)?;
        Ok(RecordBody::Interface(record))
    } else {
        let record = next_class_record(front % 16, cursor)?;
        Ok(RecordBody::Class(record))
    }
}

impl<'a> Row<Cursor<'a>> for Record<'a> {
    ghost next_row = { next_record };

    #[tactic(auto, unfolding(crate::specs::Record::next_record))]
    fn next_row(cursor: &mut Cursor<'a>) -> Result<Record<'a>, LoadFault> {
        let front = cursor.u1().ok_or(LoadFault::Malformed(CLASS))?;
        let body = next_body(front, cursor)?;
        Ok(Record {
            is_remote: has_flag(front / 16, ACC_REMOTE),
            body,
        })
    }
}

impl<'a> PlacedRow<Cursor<'a>> for Record<'a> {
    ghost shrinks = { record_shrinks };
}
