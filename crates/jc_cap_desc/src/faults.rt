//! Which of several faults is reported.

ghost use Rattle.std.specs.Prelude.{◌≡◌, ◌&&◌, List};
ghost use Rattle.std.specs.Result.{result_ok};
ghost use Rattle.jc_base.specs.declared.placed_rows.Placed.{Placed};
ghost use Rattle.jc_cap.specs.declared.record.Record.{Record};
ghost use Rattle.jc_cap_desc.specs.Package.{fault_of, unless, told, methods_fault, applets_fault, classes_fault};
ghost use Rattle.jc_cap_desc.specs.Package.{pool_fault, across_fault};
ghost use Rattle.jc_cap_desc.specs.PrivateInterfaceRows.{HoldsInterfaces};
ghost use Rattle.jc_cap_desc.specs.PrivatePackage.{IsIndexOf};
ghost use Rattle.jc_cap_desc.specs.PrivateTypes.{IndexesTypes};

use crate::across::{methods_differ, rows_match};
use crate::applets::applets_install;
use crate::component::DescriptorInfo;
use crate::interfaces::record_offsets;
use crate::standing::methods_standing;
use crate::type_index::TypeIndex;
use jc_base::tag::{APPLET, DESCRIPTOR, METHOD};
use jc_base::{LoadFault, NumberSet};
use jc_cap::{Applets, ConstantPool, MethodInfo, Records};

/// The fault of a read that failed.
pub(crate) fn fault_of<T>(read: &Result<T, LoadFault>) -> Option<LoadFault>
    ensures { result ≡ fault_of read.now }
{
    match read {
        Ok(_) => None,
        Err(fault) => Some(*fault),
    }
}

/// The fault of a component if a test finds it malformed.
pub(crate) fn unless(fine: bool, tag: u8) -> Option<LoadFault>
    ensures { result ≡ unless fine tag }
{
    if fine {
        None
    } else {
        Some(LoadFault::Malformed(tag))
    }
}

/// The one of two faults that is reported.
pub(crate) fn told(a: Option<LoadFault>, b: Option<LoadFault>) -> Option<LoadFault>
    ensures { result ≡ told a b }
{
    let Some(first) = a else {
        return b;
    };
    match b {
        Some(second) => Some(first.least_of(second)),
        None => Some(first),
    }
}

/// The fault of the tests on methods, if the handler table fits.
fn methods_fault(
    interfaces: &NumberSet,
    info: &DescriptorInfo,
    methods: &Result<MethodInfo, LoadFault>,
) -> Option<LoadFault>
    ensures { (records : List (Placed Record)) → HoldsInterfaces interfaces.now records
        → result ≡ methods_fault records info.now (result_ok methods.now) }
{
    let Ok(methods) = methods else {
        return None;
    };
    let found = methods_standing(interfaces, &info.classes, methods);
    told(
        unless(found.inside, METHOD),
        unless(found.described, DESCRIPTOR),
    )
}

/// The fault of the test on applets, if there are any.
fn applets_fault(
    interfaces: &NumberSet,
    info: &DescriptorInfo,
    index: &TypeIndex,
    applets: &Result<Option<Applets>, LoadFault>,
) -> Option<LoadFault>
    ensures { (records : List (Placed Record)) → HoldsInterfaces interfaces.now records
        → IndexesTypes index.now info.now.types → result ≡ applets_fault records info.now (result_ok applets.now) }
{
    match applets {
        Ok(Some(applets)) => unless(
            applets_install(interfaces, &info.classes, index, applets),
            APPLET,
        ),
        Ok(None) | Err(_) => None,
    }
}

/// The fault of the tests with classes, if the Class component follows its layout.
fn classes_fault(
    records: &Result<Records, LoadFault>,
    info: &DescriptorInfo,
    index: &TypeIndex,
    applets: &Result<Option<Applets>, LoadFault>,
    methods: &Result<MethodInfo, LoadFault>,
) -> Option<LoadFault>
    ensures { IndexesTypes index.now info.now.types → result
        ≡ classes_fault (result_ok records.now) info.now (result_ok applets.now) (result_ok methods.now) }
{
    let Ok(records) = records else {
        return None;
    };
    let offsets = record_offsets(records);
    let interfaces = &offsets.interfaces;
    let rows_fit = rows_match(records, &offsets.starts, &info.classes)
        && methods_differ(interfaces, &info.classes);
    let fault = told(
        methods_fault(interfaces, info, methods),
        unless(rows_fit, DESCRIPTOR),
    );
    told(applets_fault(interfaces, info, index, applets), fault)
}

/// The fault of the test with the constant pool.
fn pool_fault(pool: &Result<ConstantPool, LoadFault>, info: &DescriptorInfo) -> Option<LoadFault>
    ensures { result ≡ pool_fault (result_ok pool.now) info.now }
{
    match pool {
        Ok(pool) => unless(pool.len() == info.pool_types.len(), DESCRIPTOR),
        Err(_) => None,
    }
}

/// The fault of all tests across components, if the Descriptor component follows its layout.
pub(crate) fn across_fault(
    layout: &Result<DescriptorInfo, LoadFault>,
    index: &TypeIndex,
    records: &Result<Records, LoadFault>,
    pool: &Result<ConstantPool, LoadFault>,
    applets: &Result<Option<Applets>, LoadFault>,
    methods: &Result<MethodInfo, LoadFault>,
) -> Option<LoadFault>
    ensures { IsIndexOf index.now layout.now → result ≡ across_fault (result_ok layout.now) (result_ok records.now)
        (result_ok pool.now) (result_ok applets.now) (result_ok methods.now) }
{
    match layout {
        Ok(info) => told(
            pool_fault(pool, info),
            classes_fault(records, info, index, applets, methods),
        ),
        Err(_) => None,
    }
}
