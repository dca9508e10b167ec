//! Where the headers, codes and handlers of methods stand, and whether their rows describe them.

ghost use Rattle.std.specs.Prelude.{◌≡◌, ◌+◌, ◌&&◌, List};
ghost use Rattle.std.specs.List.{list_all};
ghost use Rattle.jc_base.specs.declared.placed_rows.Placed.{Placed};
ghost use Rattle.jc_cap.specs.declared.record.Record.{Record};
ghost use Rattle.jc_cap_desc.specs.Across.{class_methods, has_code, stays_inside, stands_inside, is_described};
ghost use Rattle.jc_cap_desc.specs.PrivateInterfaceRows.{HoldsInterfaces};
ghost use Rattle.jc_cap_desc.specs.PrivateMethods.{code_is_described, handlers_are_inside, is_inside, IsStandingOf};

use crate::class_row::{ClassRows, MethodRow, MethodRows};
use crate::interfaces::is_interface_row;
use jc_base::NumberSet;
use jc_cap::{Handler, Handlers, Method, MethodInfo};

/// Whether a method has code.
pub(crate) fn has_code(row: &MethodRow) -> bool
    ensures { result ≡ has_code row.now }
{
    row.bytecode_count > 0
}

/// Whether a handler stays inside the `count` bytes of code from `first` on.
fn stays_inside(first: usize, count: usize, handler: &Handler) -> bool
    ensures { result ≡ stays_inside first (first + count) handler.now }
{
    let start = usize::from(handler.start);
    let target = usize::from(handler.handler);
    first <= start
        && start - first + usize::from(handler.active_length) <= count
        && first <= target
        && target - first < count
}

/// Whether all handlers stay inside the `count` bytes of code from `first` on.
fn all_stay_inside(first: usize, count: usize, handlers: &Handlers) -> bool
    ensures { result ≡ list_all (stays_inside first (first + count)) handlers.now }
{
    let mut left = handlers.again();
    while let Some(handler) = left.next() {
        if !stays_inside(first, count, &handler) {
            return false;
        }
    }
    true
}

/// Whether the handlers of a method, if the table has them, stay inside its code.
fn handlers_are_inside(row: &MethodRow, found: &Method, handlers: &Option<Handlers>) -> bool
    ensures { result ≡ handlers_are_inside row.now found.now handlers.now }
{
    match handlers {
        Some(handlers) => all_stay_inside(
            found.code_offset(),
            usize::from(row.bytecode_count),
            handlers,
        ),
        None => true,
    }
}

/// Whether the header, code and handlers of a class's method stand inside the component and its code.
fn is_inside(row: &MethodRow, found: &Option<Method>, handlers: &Option<Handlers>) -> bool
    ensures { result ≡ is_inside row.now found.now handlers.now }
{
    match found {
        Some(found) => {
            usize::from(row.bytecode_count) <= found.code().len()
                && handlers_are_inside(row, found, handlers)
        }
        None => false,
    }
}

/// Whether a method has code if and only if it isn't abstract.
fn code_is_described(row: &MethodRow, found: &Option<Method>) -> bool
    ensures { result ≡ code_is_described row.now found.now }
{
    match found {
        Some(found) => found.header().is_abstract != has_code(row),
        None => true,
    }
}

/// The results of the tests on the methods so far.
#[derive(Clone, Copy)]
pub(crate) struct MethodTests {
    /// Header, code and handlers of each stand where they may.
    pub(crate) inside: bool,
    /// Each has code if and only if it isn't abstract, and the table has the handlers that it names.
    pub(crate) described: bool,
}

/// The results with one method more, whose header and handlers are looked up once. A test that failed before isn't
/// repeated.
fn with_method(before: MethodTests, methods: &MethodInfo, row: &MethodRow) -> MethodTests
    ensures inside { result.inside ≡ (before.inside && stands_inside methods.now row.now) }
    ensures described { result.described ≡ (before.described && is_described methods.now row.now) }
{
    let found = methods.method_at(row.offset);
    let handlers = methods.handlers(row.handler_index, row.handler_count);
    MethodTests {
        inside: before.inside && is_inside(row, &found, &handlers),
        described: before.described && code_is_described(row, &found) && handlers.is_some(),
    }
}

/// The results with the methods of a class.
fn with_methods(before: MethodTests, methods: &MethodInfo, rows: &MethodRows) -> MethodTests
    ensures { IsStandingOf before methods.now rows.now result }
{
    let mut standing = before;
    let mut left = rows.again();
    while let Some(row) = left.next() {
        standing = with_method(standing, methods, &row);
    }
    standing
}

/// The results of the tests on all methods of classes; an interface's methods are ignored.
pub(crate) fn methods_standing(
    interfaces: &NumberSet,
    rows: &ClassRows,
    methods: &MethodInfo,
) -> MethodTests
    ensures inside { (records : List (Placed Record)) → HoldsInterfaces interfaces.now records
        → result.inside ≡ list_all (stands_inside methods.now) (class_methods records rows.now) }
    ensures described { (records : List (Placed Record)) → HoldsInterfaces interfaces.now records
        → result.described ≡ list_all (is_described methods.now) (class_methods records rows.now) }
{
    let mut standing = MethodTests {
        inside: true,
        described: true,
    };
    let mut left = rows.again();
    while let Some(row) = left.next() {
        if !is_interface_row(interfaces, &row) {
            standing = with_methods(standing, methods, &row.methods);
        }
    }
    standing
}
