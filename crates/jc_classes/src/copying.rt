//! Owned copies of a package's shape, which borrows from its image.

ghost use Rattle.std.specs.Prelude.{◌≡◌, ◌<◌, ◌≤◌, ◌^◌, length, vec_capacity, IfOk};
ghost use Rattle.jc_cap.specs.declared.record.RecordBody.TheVariants as Read;
ghost use Rattle.jc_classes.specs.Limits.{most_classes_of_one};
ghost use Rattle.jc_classes.specs.PrivateShape.{record_of};
ghost use Rattle.jc_classes.specs.declared.shape.Body.TheVariants as Kept;

use crate::shape::{
    Body, Class, ClassBody, DescribedMethod, Export, Field, ImplementedInterface, PackageShape,
    Table,
};
use jc_base::{U2s, owned_rows};
use jc_cap::{ClassRecord, ExportedClass, RecordBody, VirtualTable};
use jc_cap_desc::{ClassMethod, Package};
use std::alloc::{AllocError, Global};

#[tactic(auto, using(crate::proofs::Copied::at_more))]
fn numbers_of(alloc: Global, numbers: &U2s) -> Result<Vec<u16>, AllocError>
    ensures { IfOk result (λ copied. copied.items ≡ numbers.now) }
{
    let mut copied = Vec::new(alloc);
    for at in 0..numbers.len() {
        copied.push(numbers.get(at).unwrap_or(0))?;
    }
    Ok(copied)
}

fn table_of(alloc: Global, table: &VirtualTable) -> Result<Table, AllocError>
    ensures { IfOk result (λ copied. copied ≡ table.now) }
{
    let methods = numbers_of(alloc, &table.methods)?;
    Ok(Table {
        base: table.base,
        methods,
    })
}

fn implemented_of(
    alloc: Global,
    row: &jc_cap::ImplementedInterface,
) -> Result<ImplementedInterface, AllocError>
    ensures { IfOk result (λ copied. copied ≡ row.now) }
{
    let indexes = Vec::from_slice(alloc, row.indexes())?;
    Ok(ImplementedInterface {
        interface: row.interface(),
        indexes,
    })
}

fn all_implemented_of(
    alloc: Global,
    rows: &jc_cap::ImplementedInterfaces,
) -> Result<Vec<ImplementedInterface>, AllocError>
    ensures { IfOk result (λ copied. copied.items ≡ rows.now) }
{
    let mut copied = Vec::new(alloc);
    let mut left = rows.again();
    while let Some(row) = left.next() {
        copied.push(implemented_of(alloc, &row)?)?;
    }
    Ok(copied)
}

fn class_body_of(alloc: Global, from: &ClassRecord) -> Result<ClassBody, AllocError>
    ensures { IfOk result (λ copied. record_of (Kept.Class copied) ≡ Read.Class from.now) }
{
    let public_methods = table_of(alloc, &from.public_methods)?;
    let package_methods = table_of(alloc, &from.package_methods)?;
    let interfaces = all_implemented_of(alloc, &from.interfaces)?;
    Ok(ClassBody {
        superclass: from.superclass,
        declared_size: from.declared_size,
        public_methods,
        package_methods,
        interfaces,
    })
}

fn body_of(alloc: Global, body: &RecordBody) -> Result<Body, AllocError>
    ensures { IfOk result (λ copied. record_of copied ≡ body.now) }
{
    match body {
        RecordBody::Interface(record) => {
            let superinterfaces = owned_rows(alloc, &record.superinterfaces)?;
            Ok(Body::Interface(superinterfaces))
        }
        RecordBody::Class(record) => {
            let copied = class_body_of(alloc, record)?;
            Ok(Body::Class(copied))
        }
    }
}

fn fields_of(alloc: Global, class: &jc_cap_desc::Class) -> Result<Vec<Field>, AllocError>
    ensures { IfOk result (λ copied. copied.items ≡ class.now.fields) }
{
    let mut copied = Vec::new(alloc);
    let mut left = class.fields();
    while let Some(field) = left.next() {
        copied.push(Field {
            place: field.place(),
            declared: field.declared_type(),
        })?;
    }
    Ok(copied)
}

fn method_of(alloc: Global, method: &ClassMethod) -> Result<DescribedMethod, AllocError>
    ensures { IfOk result (λ copied. copied ≡ method.now) }
{
    let signature = method.signature();
    let parameters = owned_rows(alloc, &signature.parameters())?;
    Ok(DescribedMethod {
        token: method.token(),
        is_static: method.is_static(),
        offset: method.offset(),
        header: method.header(),
        parameters,
        result: signature.result(),
    })
}

fn methods_of(alloc: Global, class: &jc_cap_desc::Class) -> Result<Vec<DescribedMethod>, AllocError>
    ensures copied { IfOk result (λ copied. copied.items ≡ class.now.methods) }
    ensures room { IfOk result (λ copied. vec_capacity copied ≡ length class.now.methods) }
    ensures few { IfOk result (λ copied. length copied.items < 2 ^ 16) }
{
    let mut left = class.methods();
    let mut copied = Vec::with_capacity(alloc, usize::from(left.len()))?;
    while let Some(method) = left.next() {
        copied.push_reserved(method_of(alloc, &method)?);
    }
    Ok(copied)
}

fn class_of(alloc: Global, class: &jc_cap_desc::Class) -> Result<Class, AllocError>
    ensures { IfOk result (λ copied. copied ≡ class.now) }
{
    let body = body_of(alloc, class.body())?;
    let fields = fields_of(alloc, class)?;
    let methods = methods_of(alloc, class)?;
    Ok(Class {
        offset: class.offset(),
        body,
        is_abstract: class.is_abstract(),
        fields,
        methods,
    })
}

fn classes_of(alloc: Global, from: &Package) -> Result<Vec<Class>, AllocError>
    ensures copied { IfOk result (λ copied. copied.items ≡ from.now.shape.classes) }
    ensures few { IfOk result (λ u. length from.now.shape.classes ≤ most_classes_of_one) }
{
    let mut copied = Vec::new(alloc);
    let mut left = from.classes();
    while let Some(class) = left.next() {
        copied.push(class_of(alloc, &class)?)?;
    }
    Ok(copied)
}

fn export_of(alloc: Global, row: &ExportedClass) -> Result<Export, AllocError>
    ensures { IfOk result (λ copied. copied ≡ row.now) }
{
    let fields = numbers_of(alloc, &row.fields)?;
    let methods = numbers_of(alloc, &row.methods)?;
    Ok(Export {
        class: row.class,
        fields,
        methods,
    })
}

fn exports_of(alloc: Global, from: &Package) -> Result<Vec<Export>, AllocError>
    ensures { IfOk result (λ copied. copied.items ≡ from.now.shape.exports) }
{
    let mut copied = Vec::new(alloc);
    let mut left = from.exports();
    while let Some(row) = left.next() {
        copied.push(export_of(alloc, &row)?)?;
    }
    Ok(copied)
}

/// An owned copy of a package's shape.
pub(crate) fn shape_of(alloc: Global, from: &Package) -> Result<PackageShape, AllocError>
    ensures copied { IfOk result (λ copied. copied ≡ from.now.shape) }
    ensures few { IfOk result (λ u. length from.now.shape.classes ≤ most_classes_of_one) }
{
    let imports = owned_rows(alloc, &from.imports())?;
    let exports = exports_of(alloc, from)?;
    let classes = classes_of(alloc, from)?;
    PackageShape::new(alloc, from.package(), imports, exports, classes)
}
