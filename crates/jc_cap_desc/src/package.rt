//! A whole package.

ghost use Rattle.std.specs.Prelude.{◌≡◌, ◌<◌, ◌≤◌, ◌^◌, IfOk, length, slice_get};
ghost use Rattle.std.specs.Option.{option_and_then};
ghost use Rattle.jc_cap_desc.specs.Package.{package_fault, package_of};
ghost use Rattle.jc_cap_desc.specs.Shape.{StandApart, HaveBodies, HaveHeaders, InstallMethods};
ghost use Rattle.jc_cap_desc.specs.Whole.{HasWholeOf};
ghost use Rattle.jc_cap_desc.specs.PrivatePackage.{records_in, components_in, records_fault, class_fault_in};
ghost use Rattle.jc_cap_desc.specs.PrivatePackage.{descriptor_fault, component_fault_in, package_fault_in};
ghost use Rattle.jc_cap_desc.specs.PrivatePackage.{HasFewRows, HasFewRecords, HasFewImports, HasTypes, HasEachRow};
ghost use Rattle.jc_cap_desc.specs.PrivatePackage.{IsIndexOf, joined};

use crate::bodies::MethodBodies;
use crate::classes::Classes;
use crate::component::{DescriptorInfo, descriptor_layout};
use crate::faults::{across_fault, fault_of, told, unless};
use crate::type_index::TypeIndex;
use crate::types::{NO_TYPE, types_are_there};
use jc_base::tag::{CLASS, DESCRIPTOR};
use jc_base::{LoadFault, PackageInfo, Parts};
use jc_cap::{
    Applets, ConstantPool, Descriptor, Exports, Header, Imports, MethodInfo, Records, StaticFields,
    class_layout, none_remote, read_applets, read_exports, read_header, read_imports, read_method,
    read_pool, read_static_fields,
};
use std::marker::Model;

/// A package, borrowed from its image.
#[derive(Drop)]
pub struct Package<'a> {
    header: Header<'a>,
    applets: Option<Applets<'a>>,
    imports: Imports<'a>,
    pool: ConstantPool<'a>,
    records: Records<'a>,
    methods: MethodInfo<'a>,
    statics: StaticFields<'a>,
    exports: Exports<'a>,
    descriptor: DescriptorInfo<'a>,
}

impl<'a> Model for Package<'a> {
    ghost use Rattle.std.specs.Prelude.{◌≡◌, ◌≤◌, length, true};
    ghost use Rattle.jc_cap_desc.specs.Shape.{Package as PackageRecord, shape_of, body_of};
    ghost use Rattle.jc_cap_desc.specs.PrivateRecordRows.{each_has_row};
    ghost use Rattle.jc_cap_desc.specs.Types.{classes_are_typed};

    ghost Value = { PackageRecord };

    ghost view = { λ p. record {
      shape = shape_of p.header.«package» p.imports p.exports p.records p.descriptor p.methods;
      body = body_of p.header.name p.applets p.pool p.statics p.records p.descriptor p.methods;
    } };

    ghost invariant = { λ p. (length p.records ≤ 255) × (length p.imports ≤ 255)
        × (classes_are_typed p.descriptor.types p.descriptor.classes ≡ true)
        × (each_has_row p.records p.descriptor.classes ≡ true) };
}

impl<'a> Package<'a> {
    /// The package's own AID and version.
    pub fn package(&self) -> PackageInfo
        ensures { result ≡ self.now.shape.«package» }
    {
        self.header.package()
    }

    /// The package's name in UTF-8, unchecked. It is empty if there is none.
    pub fn name(&self) -> &'a [u8]
        ensures { result.now ≡ self.now.body.name }
    {
        self.header.name()
    }

    /// The applets, or `None` if the package is a library.
    pub fn applets(&self) -> Option<Applets<'a>>
        ensures { result ≡ self.now.body.applets }
    {
        match &self.applets {
            Some(applets) => Some(applets.again()),
            None => None,
        }
    }

    /// The packages that are imported, by their package tokens.
    pub fn imports(&self) -> Imports<'a>
        ensures imports { result ≡ self.now.shape.imports }
        ensures few { length self.now.shape.imports ≤ 255 }
    {
        self.imports.again()
    }

    /// The classes that are exported, by their class tokens.
    pub fn exports(&self) -> Exports<'a>
        ensures { result ≡ self.now.shape.exports }
    {
        self.exports.again()
    }

    /// The classes and interfaces, in the order of their records. Each has a row, and a byte counts the rows.
    #[tactic(auto, using(crate::proofs::Few::fewer))]
    pub fn classes(&self) -> Classes<'_, 'a>
        ensures classes { result ≡ self.now.shape.classes }
        ensures few { length self.now.shape.classes ≤ 255 }
    {
        Classes {
            info: &self.descriptor,
            bodies: &self.methods,
            left: self.records.again(),
            ahead: self.descriptor.classes.again(),
        }
    }

    /// The constant pool.
    pub fn pool(&self) -> ConstantPool<'a>
        ensures { result ≡ self.now.body.pool }
    {
        self.pool.again()
    }

    /// The type of the constant pool's entry at an index, or `None` if it has none.
    pub fn pool_type(&self, index: u16) -> Option<Descriptor<'a>>
        ensures { result ≡ option_and_then (λ type. type) (slice_get self.now.body.pool_types index) }
    {
        let offset = self.descriptor.pool_types.get(usize::from(index))?;
        if offset == NO_TYPE {
            return None;
        }
        self.descriptor.types.at(offset)
    }

    /// The methods with code, in the order of their rows.
    pub fn bodies(&self) -> MethodBodies<'_, 'a>
        ensures { result ≡ self.now.body.methods }
    {
        MethodBodies::new(
            &self.methods,
            &self.records,
            self.descriptor.classes.again(),
        )
    }

    /// The static fields.
    pub fn statics(&self) -> &StaticFields<'a>
        ensures { result.now ≡ self.now.body.statics }
    {
        &self.statics
    }
}

/// Each component, read alone; the Class and the Descriptor component are read by their layouts only.
#[derive(Drop)]
struct Components<'a> {
    header: Result<Header<'a>, LoadFault>,
    applets: Result<Option<Applets<'a>>, LoadFault>,
    imports: Result<Imports<'a>, LoadFault>,
    pool: Result<ConstantPool<'a>, LoadFault>,
    records: Result<Records<'a>, LoadFault>,
    methods: Result<MethodInfo<'a>, LoadFault>,
    statics: Result<StaticFields<'a>, LoadFault>,
    exports: Result<Exports<'a>, LoadFault>,
    descriptor: Result<DescriptorInfo<'a>, LoadFault>,
}

/// The records by the layout of the Class component, remote ones too. The Header states the format.
fn read_records<'a>(
    parts: &Parts<'a>,
    header: &Result<Header, LoadFault>,
) -> Result<Records<'a>, LoadFault>
    ensures { result ≡ records_in header.now parts.now.class }
{
    match header {
        Ok(header) => class_layout(parts, header.format()),
        Err(fault) => Err(*fault),
    }
}

/// Reads each component alone, each once.
fn read_components<'a>(parts: &Parts<'a>) -> Components<'a>
    ensures read { result ≡ components_in parts.now }
    ensures few { HasFewRows result }
    ensures imports { HasFewImports result }
    ensures short { length parts.now.method < 2 ^ 16 }
{
    let header = read_header(parts);
    let records = read_records(parts, &header);
    Components {
        header,
        applets: read_applets(parts),
        imports: read_imports(parts),
        pool: read_pool(parts),
        records,
        methods: read_method(parts),
        statics: read_static_fields(parts),
        exports: read_exports(parts),
        descriptor: descriptor_layout(parts),
    }
}

/// The fault of records: of their layout, or of the test that none is remote.
fn records_fault(records: &Result<Records, LoadFault>) -> Option<LoadFault>
    ensures { result ≡ records_fault records.now }
{
    match records {
        Ok(records) => unless(none_remote(records), CLASS),
        Err(fault) => Some(*fault),
    }
}

/// The fault of the Class component. If the Header has a fault, there is none, since the Header's comes first.
fn class_fault(found: &Components) -> Option<LoadFault>
    ensures { result ≡ class_fault_in found.now.header found.now.records }
{
    match &found.header {
        Ok(_) => records_fault(&found.records),
        Err(_) => None,
    }
}

/// The index of the type descriptors, if the Descriptor component follows its layout.
fn index_of(descriptor: &Result<DescriptorInfo, LoadFault>) -> TypeIndex
    ensures { IsIndexOf result descriptor.now }
{
    match descriptor {
        Ok(info) => TypeIndex::of(&info.types),
        Err(_) => TypeIndex::empty(),
    }
}

/// The fault of the Descriptor component: of its layout, or of the test that all types exist.
fn descriptor_fault(
    descriptor: &Result<DescriptorInfo, LoadFault>,
    index: &TypeIndex,
) -> Option<LoadFault>
    ensures { IsIndexOf index.now descriptor.now → result ≡ descriptor_fault descriptor.now }
{
    match descriptor {
        Ok(info) => unless(types_are_there(info, index), DESCRIPTOR),
        Err(fault) => Some(*fault),
    }
}

/// The reported fault of single components.
fn component_fault(found: &Components, index: &TypeIndex) -> Option<LoadFault>
    ensures { IsIndexOf index.now found.now.descriptor → result ≡ component_fault_in found.now }
{
    let fault = descriptor_fault(&found.descriptor, index);
    let fault = told(fault_of(&found.exports), fault);
    let fault = told(fault_of(&found.statics), fault);
    let fault = told(fault_of(&found.methods), fault);
    let fault = told(class_fault(found), fault);
    let fault = told(fault_of(&found.pool), fault);
    let fault = told(fault_of(&found.imports), fault);
    let fault = told(fault_of(&found.applets), fault);
    told(fault_of(&found.header), fault)
}

/// The reported fault.
fn package_fault(found: &Components) -> Option<LoadFault>
    ensures { result ≡ package_fault_in found.now }
{
    let index = index_of(&found.descriptor);
    let fault = across_fault(
        &found.descriptor,
        &index,
        &found.records,
        &found.pool,
        &found.applets,
        &found.methods,
    );
    told(component_fault(found, &index), fault)
}

/// The package, if all components were read.
#[tactic(auto, unfolding(crate::specs::PrivatePackage::joined))]
fn joined<'a>(found: Components<'a>) -> Result<Package<'a>, LoadFault>
    requires records { HasFewRecords found }
    requires imports { HasFewImports found }
    requires typed { HasTypes found }
    requires rows { HasEachRow found }
    ensures { result ≡ joined found.entry }
{
    Ok(Package {
        header: found.header?,
        applets: found.applets?,
        imports: found.imports?,
        pool: found.pool?,
        records: found.records?,
        methods: found.methods?,
        statics: found.statics?,
        exports: found.exports?,
        descriptor: found.descriptor?,
    })
}

/// The package of an image, or its refusal.
fn package_in<'a>(parts: &Parts<'a>) -> Result<Package<'a>, LoadFault>
    ensures package { result ≡ package_of parts.now }
    ensures short { length parts.now.method < 2 ^ 16 }
{
    let found = read_components(parts);
    match package_fault(&found) {
        Some(fault) => Err(fault),
        None => joined(found),
    }
}

/// Reads a whole package of an image: all components, and then the tests across them. Of several refusals the one with
/// the smallest number is reported, and of `Malformed` the one with the least tag.
pub fn read_package<'a>(parts: &Parts<'a>) -> Result<Package<'a>, LoadFault>
    ensures package { result ≡ package_of parts.now }
    ensures apart { IfOk result (λ p. StandApart p.body.methods) }
    ensures headers { IfOk result (λ p. HaveHeaders p.shape) }
    ensures bodies { IfOk result HaveBodies }
    ensures installs { IfOk result InstallMethods }
    ensures whole { IfOk result (HasWholeOf parts.now) }
{
    package_in(parts)
}
