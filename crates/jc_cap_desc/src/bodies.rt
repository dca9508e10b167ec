//! The methods with code.

ghost use Rattle.std.specs.Prelude.{◌≡◌, ◌<◌, ◌^◌, ◌∷◌, List, [], length, IfSome, IfNone, if◌then◌else◌};
ghost use Rattle.std.specs.List.{filter_map};
ghost use Rattle.jc_base.specs.declared.placed_rows.Placed.{Placed};
ghost use Rattle.jc_cap.specs.declared.record.Record.{Record};
ghost use Rattle.jc_cap_desc.specs.Across.{class_methods, is_interface_row};
ghost use Rattle.jc_cap_desc.specs.PrivateInterfaceRows.{HoldsInterfaces};
ghost use Rattle.jc_cap_desc.specs.Shape.{body_of_method};

use crate::class_row::{ClassRow, ClassRows, MethodRow, MethodRows};
use crate::interfaces::{is_interface_row, record_offsets};
use crate::standing::has_code;
use jc_base::{Cursor, NumberSet, Rows};
use jc_cap::{Handlers, MethodInfo, Records};
use std::marker::Model;

/// A method with code.
#[derive(Drop)]
pub struct MethodBody<'a> {
    offset: u16,
    code_offset: usize,
    code: &'a [u8],
    handlers: Handlers<'a>,
}

impl<'a> Model for MethodBody<'a> {
    ghost use Rattle.std.specs.Prelude.{◌<◌, ◌^◌, length};
    ghost use Rattle.jc_cap_desc.specs.Shape.{MethodBody as Body};

    ghost Value = { Body };

    ghost view = { λ b. record {
      offset = b.offset;
      code_offset = b.code_offset;
      code = b.code.now;
      handlers = b.handlers;
    } };

    ghost invariant = { λ b. length b.code.now < 2 ^ 16 };
}

impl<'a> MethodBody<'a> {
    /// The offset of the method's header in the Method component.
    pub fn offset(&self) -> u16
        ensures { result ≡ self.now.offset }
    {
        self.offset
    }

    /// The offset of its code in the Method component, after the header.
    pub fn code_offset(&self) -> usize
        ensures { result ≡ self.now.code_offset }
    {
        self.code_offset
    }

    /// Its code, at most 65,535 bytes.
    pub fn code(&self) -> &'a [u8]
        ensures code { result.now ≡ self.now.code }
        ensures short { length self.now.code < 2 ^ 16 }
    {
        self.code
    }

    /// Its handlers, in table order. Their offsets count in the Method component.
    pub fn handlers(&self) -> Handlers<'a>
        ensures { result ≡ self.now.handlers }
    {
        self.handlers.again()
    }
}

/// The code and the handlers of a class's method, if it has code.
fn body_of_method<'a>(methods: &MethodInfo<'a>, row: &MethodRow) -> Option<MethodBody<'a>>
    ensures { result ≡ body_of_method methods.now row.now }
{
    if !has_code(row) {
        return None;
    }
    let found = methods.method_at(row.offset)?;
    let handlers = methods.handlers(row.handler_index, row.handler_count)?;
    let count = found.code().len().min(usize::from(row.bytecode_count));
    Some(MethodBody {
        offset: row.offset,
        code_offset: found.code_offset(),
        code: &found.code()[..count],
        handlers,
    })
}

/// The rows of a class's methods; none for an interface.
fn rows_of<'a>(interfaces: &NumberSet, class: &ClassRow<'a>) -> MethodRows<'a>
    ensures { (records : List (Placed Record)) → HoldsInterfaces interfaces.now records
        → result ≡ if is_interface_row records class.now then [] else class.now.methods }
{
    if is_interface_row(interfaces, class) {
        Rows::none(Cursor::new(&[]))
    } else {
        class.methods.again()
    }
}

/// The rows of the methods of classes.
#[derive(Drop)]
struct ClassMethodRows<'p, 'a> {
    records: &'p Records<'a>,
    interfaces: NumberSet,
    classes: ClassRows<'a>,
    rows: MethodRows<'a>,
}

impl<'p, 'a> Model for ClassMethodRows<'p, 'a> {
    ghost use Rattle.std.specs.Prelude.{List, ◌++◌};
    ghost use Rattle.jc_cap_desc.specs.Across.{class_methods};
    ghost use Rattle.jc_cap_desc.specs.PrivateInterfaceRows.{HoldsInterfaces};
    ghost use Rattle.jc_cap_desc.specs.declared.class_row.MethodRow.{MethodRow};

    ghost Value = { List MethodRow };

    ghost view = { λ m. m.rows ++ class_methods m.records.now m.classes };

    ghost invariant = { λ m. HoldsInterfaces m.interfaces m.records.now };
}

impl<'p, 'a> ClassMethodRows<'p, 'a> {
    /// Takes the first row off, or returns `None` if there is none.
    fn next(&mut self) -> Option<MethodRow>
        ensures some { IfSome result (λ row. self.old ≡ row ∷ self.new) }
        ensures none { IfNone result ((self.old ≡ []) × (self.new ≡ [])) }
    {
        while self.rows.is_empty() {
            let class = self.classes.next()?;
            self.rows = rows_of(&self.interfaces, &class);
        }
        self.rows.next()
    }
}

/// The methods with code, in the order of their rows.
#[derive(Drop)]
pub struct MethodBodies<'p, 'a> {
    methods: &'p MethodInfo<'a>,
    left: ClassMethodRows<'p, 'a>,
}

impl<'p, 'a> Model for MethodBodies<'p, 'a> {
    ghost use Rattle.std.specs.Prelude.{List};
    ghost use Rattle.std.specs.List.{filter_map};
    ghost use Rattle.jc_cap_desc.specs.Shape.{MethodBody as Body, body_of_method};

    ghost Value = { List Body };

    ghost view = { λ b. filter_map (body_of_method b.methods.now) b.left };
}

impl<'p, 'a> MethodBodies<'p, 'a> {
    /// The methods with code among the rows of these classes.
    pub(crate) fn new(
        methods: &'p MethodInfo<'a>,
        records: &'p Records<'a>,
        classes: ClassRows<'a>,
    ) -> MethodBodies<'p, 'a>
        ensures { result ≡ filter_map (body_of_method methods.now) (class_methods records.now classes.entry) }
    {
        MethodBodies {
            methods,
            left: ClassMethodRows {
                records,
                interfaces: record_offsets(records).interfaces,
                classes,
                rows: Rows::none(Cursor::new(&[])),
            },
        }
    }

    /// Takes the first method off, or returns `None` if there is none.
    pub fn next(&mut self) -> Option<MethodBody<'a>>
        ensures some { IfSome result (λ body. self.old ≡ body ∷ self.new) }
        ensures none { IfNone result ((self.old ≡ []) × (self.new ≡ [])) }
    {
        while let Some(row) = self.left.next() {
            if let Some(body) = body_of_method(self.methods, &row) {
                return Some(body);
            }
        }
        None
    }
}
