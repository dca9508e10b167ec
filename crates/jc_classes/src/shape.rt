//! Owned shapes of packages.

use jc_base::{ClassRef, DeclaredType, PackageInfo, ReturnType};
use jc_cap::{MethodHeader, Superinterface};
use jc_cap_desc::FieldPlace;
use std::marker::Model;

/// What a package exports of a class.
#[derive(Drop)]
pub struct Export {
    /// The offset of the class.
    pub(crate) class: u16,
    /// The offsets of its static fields by their tokens.
    pub(crate) fields: Vec<u16>,
    /// The offsets of its static methods and constructors by their tokens.
    pub(crate) methods: Vec<u16>,
}

impl Model for Export {
    ghost use Rattle.jc_cap.specs.declared.exports.ExportedClass.{ExportedClass};

    ghost Value = { ExportedClass };

    ghost view = { λ e. record { class = e.class; fields = e.fields.items; methods = e.methods.items } };
}

/// A table of virtual methods.
#[derive(Drop)]
pub(crate) struct Table {
    /// The token of the first.
    pub(crate) base: u8,
    /// Their offsets.
    pub(crate) methods: Vec<u16>,
}

impl Model for Table {
    ghost use Rattle.jc_cap.specs.declared.record.VirtualTable.{VirtualTable};

    ghost Value = { VirtualTable };

    ghost view = { λ t. record { base = t.base; methods = t.methods.items } };
}

/// An interface that a class implements.
#[derive(Drop)]
pub struct ImplementedInterface {
    pub(crate) interface: ClassRef,
    /// The class's virtual tokens for the interface's methods.
    pub(crate) indexes: Vec<u8>,
}

impl Model for ImplementedInterface {
    ghost use Rattle.jc_cap.specs.Interfaces.{Implemented};

    ghost Value = { Implemented };

    ghost view = { λ i. record { interface = i.interface; indexes = i.indexes.items } };
}

/// A class's record.
#[derive(Drop)]
pub(crate) struct ClassBody {
    pub(crate) superclass: Option<ClassRef>,
    pub(crate) declared_size: u8,
    pub(crate) public_methods: Table,
    pub(crate) package_methods: Table,
    pub(crate) interfaces: Vec<ImplementedInterface>,
}

/// The contents of a record.
#[derive(Drop)]
pub(crate) enum Body {
    Interface(Vec<Superinterface>),
    Class(ClassBody),
}

/// A field.
#[derive(Drop)]
pub struct Field {
    pub(crate) place: FieldPlace,
    pub(crate) declared: DeclaredType<ClassRef>,
}

impl Model for Field {
    ghost use Rattle.jc_cap_desc.specs.Shape.{FieldShape};

    ghost Value = { FieldShape };

    ghost view = { λ f. record { place = f.place; type = f.declared } };
}

/// A method.
#[derive(Drop)]
pub struct DescribedMethod {
    pub(crate) token: u8,
    pub(crate) is_static: bool,
    pub(crate) offset: u16,
    pub(crate) header: Option<MethodHeader>,
    pub(crate) parameters: Vec<DeclaredType<ClassRef>>,
    pub(crate) result: ReturnType<ClassRef>,
}

impl Model for DescribedMethod {
    ghost use Rattle.jc_cap_desc.specs.Shape.{MethodShape};

    ghost Value = { MethodShape };

    ghost view = { λ m. record {
      token = m.token;
      is_static = m.is_static;
      offset = m.offset;
      header = m.header;
      signature = record { parameters = m.parameters.items; result = m.result };
    } };
}

/// A class or an interface.
#[derive(Drop)]
pub struct Class {
    pub(crate) offset: u16,
    pub(crate) body: Body,
    pub(crate) is_abstract: bool,
    pub(crate) fields: Vec<Field>,
    pub(crate) methods: Vec<DescribedMethod>,
}

impl Model for Class {
    ghost use Rattle.std.specs.Prelude.{◌<◌, ◌^◌, length};
    ghost use Rattle.jc_cap_desc.specs.Shape.{ClassShape};
    ghost use Rattle.jc_classes.specs.PrivateShape.{record_of};

    ghost Value = { ClassShape };

    ghost view = { λ k. record {
      offset = k.offset;
      body = record_of k.body;
      is_abstract = k.is_abstract;
      fields = k.fields.items;
      methods = k.methods.items;
    } };

    ghost invariant = { λ k. length k.methods.items < 2 ^ 16 };
}

/// The index of a method's class among those of its package, and the method's index in that class.
#[derive(Clone, Copy)]
pub(crate) struct MethodPlace {
    pub(crate) class: u8,
    pub(crate) method: u16,
}

/// A package.
#[derive(Drop)]
pub struct PackageShape {
    pub(crate) package: PackageInfo,
    pub(crate) imports: Vec<PackageInfo>,
    pub(crate) exports: Vec<Export>,
    pub(crate) classes: Vec<Class>,
    /// By an offset: the first class at it.
    pub(crate) class_places: Vec<Option<u8>>,
    /// By an offset: the first method with a header at it.
    pub(crate) method_places: Vec<Option<MethodPlace>>,
}

impl Model for PackageShape {
    ghost use Rattle.jc_cap_desc.specs.Shape.{Shape};
    ghost use Rattle.jc_classes.specs.PrivatePlaces.{ArePlaces};

    ghost Value = { Shape };

    ghost view = { λ p. record {
      «package» = p.«package»;
      imports = p.imports.items;
      exports = p.exports.items;
      classes = p.classes.items;
    } };

    ghost invariant = { λ p. ArePlaces p.class_places.items p.method_places.items p.classes.items };
}
