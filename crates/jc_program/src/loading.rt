//! Loads the methods of packages into one list.

ghost use Rattle.std.specs.Prelude.{◌≡◌, ◌≤◌, true, [], ◌∷◌, ◌++◌, length, map, take, is_some, Some, IfErr, IfOk};
ghost use Rattle.jc_link.specs.Linked.{IsKnown, IsResolved};
ghost use Rattle.jc_program.specs.Methods.{AreLoaded, header_at, loaded_method, methods_of};
ghost use Rattle.jc_program.specs.PrivateLaid.{HaveHeaders};
ghost use Rattle.jc_names.specs.Names.{home_at};

use crate::handler::loaded_handlers;
use crate::methods::Methods;
use jc_cap::MethodHeader;
use jc_classes::ClassTable;
use jc_link::{LinkedBody, MethodCode, World};
use jc_names::MethodName;
use std::alloc::{AllocError, Global};

/// The header of the method at an offset of the package with a number.
fn header_at(table: &ClassTable, package: u8, offset: u16) -> Option<MethodHeader>
    ensures { result ≡ header_at table.now «package» offset }
{
    let declared = table.method_at(MethodName::Loaded { package, offset })?;
    declared.method.header()
}

/// Appends a method.
fn put_method(
    alloc: Global,
    loaded: &mut Methods,
    table: &ClassTable,
    package: u8,
    body: &LinkedBody,
    method: &MethodCode,
) -> Result<(), AllocError>
    requires resolved { IsResolved table.now (home_at «package») body.now }
    requires headed { is_some (header_at table.now «package» method.now.offset) ≡ true }
    ensures done { IfOk result (λ u. map Some loaded.new
        ≡ map Some loaded.old ++ loaded_method table.now «package» body.now method.now ∷ []) }
    ensures kept { IfErr result (λ e. loaded.new ≡ loaded.old) }
{
    let handlers = loaded_handlers(alloc, body, method.code_offset, &method.handlers)?;
    let header = header_at(table, package, method.offset).unwrap();
    loaded.push(
        alloc,
        package,
        method.offset,
        header,
        &method.code,
        handlers,
    )
}

/// Appends methods of a package.
fn put_methods(
    alloc: Global,
    loaded: &mut Methods,
    table: &ClassTable,
    package: u8,
    body: &LinkedBody,
    methods: &[MethodCode],
) -> Result<(), AllocError>
    requires resolved { IsResolved table.now (home_at «package») body.now }
    requires headed { HaveHeaders table.now «package» methods.now }
    ensures done { IfOk result (λ u. map Some loaded.new
        ≡ map Some loaded.old ++ map (loaded_method table.now «package» body.now) methods.now) }
    ensures begins { take (length loaded.old) loaded.new ≡ loaded.old }
{
    for method in methods {
        put_method(alloc, loaded, table, package, body, method)?;
    }
    Ok(())
}

/// Appends all methods of a package.
#[tactic(auto, using(crate::proofs::Known::have_headers))]
pub(crate) fn put_package(
    alloc: Global,
    loaded: &mut Methods,
    table: &ClassTable,
    package: u8,
    body: &LinkedBody,
) -> Result<(), AllocError>
    requires known { IsKnown table.now (home_at «package») body.now }
    requires first { 1 ≤ «package» }
    ensures done { IfOk result (λ u. map Some loaded.new
        ≡ map Some loaded.old ++ methods_of table.now «package» body.now) }
    ensures begins { take (length loaded.old) loaded.new ≡ loaded.old }
{
    let kept = body.kept();
    put_methods(alloc, loaded, table, package, body, &kept.methods)
}

/// Loads the methods of all loaded packages into an empty list.
pub(crate) fn put_all(alloc: Global, loaded: &mut Methods, world: &World) -> Result<(), AllocError>
    requires first { loaded.old ≡ [] }
    ensures { IfOk result (λ u. AreLoaded world.now loaded.new) }
{
    let table = world.table();
    let bodies = world.bodies();
    for at in 0..bodies.len() {
        put_package(alloc, loaded, table, (at + 1) as u8, &bodies[at])?;
    }
    Ok(())
}
