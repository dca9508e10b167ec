//! All tables of a world together.

ghost use Rattle.std.specs.Prelude.{◌≡◌, IfOk};
ghost use Rattle.jc_program.specs.Program.{IsGrownFrom, IsProgramOf, first_tables, program_size};

use crate::class_rows::ClassRows;
use crate::classes::Classes;
use crate::entries::Entries;
use crate::interfaces::InterfaceMethods;
use crate::loading::put_package;
use crate::member_tokens::MemberTokens;
use crate::methods::Methods;
use crate::supertypes::Supertypes;
use crate::virtuals::VirtualMethods;
use crate::visible::VisibleMethods;
use jc_classes::growing_keeps_lookups;
use jc_link::{World, built_worlds_are_sound, growing_keeps_linking};
use std::alloc::{AllocError, Global};

/// All that a machine uses of a world: its methods and constant pool entries by number, and its classes by number.
#[derive(Drop)]
pub struct Program {
    pub methods: Methods,
    pub entries: Entries,
    pub classes: Classes,
    pub virtual_methods: VirtualMethods,
    pub visible_methods: VisibleMethods,
    pub interface_methods: InterfaceMethods,
    pub supertypes: Supertypes,
    pub rows: ClassRows,
    pub member_tokens: MemberTokens,
}

/// How many methods, constant pools and classes a program has.
#[derive(Clone, Copy, Debug)]
pub struct ProgramSize {
    pub methods: usize,
    pub pools: usize,
    pub classes: usize,
}

impl Program {
    /// Creates all tables of a world.
    #[tactic(auto, using(crate::proofs::Interfacing::are_interface_calls))]
    pub fn new(alloc: Global, world: &World) -> Result<Program, AllocError>
        ensures { IfOk result (λ program. IsProgramOf world.now program) }
    {
        let methods = Methods::new(alloc, world)?;
        let entries = Entries::new(alloc, world, &methods)?;
        let classes = Classes::new(alloc, world)?;
        let virtual_methods = VirtualMethods::new(alloc, world, &methods, &classes)?;
        let visible_methods = VisibleMethods::new(alloc, world, &methods, &classes)?;
        let interface_methods = InterfaceMethods::new(alloc, world, &classes)?;
        let supertypes = Supertypes::new(alloc, world, &classes)?;
        let rows = ClassRows::new(alloc, world, &classes, &supertypes)?;
        let member_tokens = MemberTokens::new(alloc, world)?;
        Ok(Program {
            methods,
            entries,
            classes,
            virtual_methods,
            visible_methods,
            interface_methods,
            supertypes,
            rows,
            member_tokens,
        })
    }

    /// Its size.
    pub fn size(&self) -> ProgramSize
        ensures { result ≡ program_size self.now }
    {
        ProgramSize {
            methods: self.methods.len(),
            pools: self.entries.len(),
            classes: self.classes.len(),
        }
    }

    /// Appends the tables of a world's last package to those of the world without it. On failure, the tables still
    /// begin with those of before, so `take_back` restores them.
    pub fn grow(&mut self, alloc: Global, world: &World) -> Result<(), AllocError>
        requires grown { IsGrownFrom self.old world.now }
        ensures done { IfOk result (λ u. IsProgramOf world.now self.new) }
        ensures begins { first_tables self.new (program_size self.old) ≡ self.old }
    {
        growing_keeps_lookups();
        growing_keeps_linking();
        built_worlds_are_sound();
        let table = world.table();
        // Called only for its contract: what always holds of a table.
        let _count = table.len();
        let bodies = world.bodies();
        let body = &bodies[bodies.len() - 1];
        put_package(alloc, &mut self.methods, table, bodies.len() as u8, body)?;
        self.entries.grow(alloc, &self.methods, body)?;
        self.classes.grow(alloc, table)?;
        self.virtual_methods
            .grow(alloc, table, &self.methods, &self.classes)?;
        self.visible_methods
            .grow(alloc, table, &self.methods, &self.classes)?;
        self.interface_methods.grow(table, &self.classes)?;
        self.supertypes.grow(alloc, table, &self.classes)?;
        self.rows.grow(table, &self.classes, &self.supertypes)?;
        Ok(())
    }

    /// Reduces it to the first methods, pools and classes.
    pub fn take_back(&mut self, size: ProgramSize)
        ensures { self.new ≡ first_tables self.old size }
    {
        self.methods.keep(size.methods);
        self.entries.keep(size.pools);
        self.classes.keep(size.classes);
        self.virtual_methods.keep(size.classes);
        self.visible_methods.keep(size.classes);
        self.interface_methods.keep(size.classes);
        self.supertypes.keep(size.classes);
        self.rows.keep(size.classes);
    }
}
