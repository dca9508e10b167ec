//! What a table lends of its packages.

ghost use Rattle.std.specs.Prelude.{◌≡◌, slice_get};
ghost use Rattle.jc_cap.specs.ClassComponent.{is_class};
ghost use Rattle.jc_classes.specs.Record.{declared_size, public_entries, package_entries, superinterfaces};
ghost use Rattle.jc_classes.specs.Record.{interface_rows};
ghost use Rattle.jc_classes.specs.World.{superclass_ref, listed_refs};

use crate::shape::{
    Body, Class, DescribedMethod, Export, Field, ImplementedInterface, PackageShape, Table,
};
use jc_base::{ClassRef, DeclaredType, PackageInfo, ReturnType};
use jc_cap::{MethodHeader, Superinterface};
use jc_cap_desc::FieldPlace;

impl PackageShape {
    /// The package's AID and version.
    pub fn package(&self) -> PackageInfo
        ensures { result ≡ self.now.«package» }
    {
        self.package
    }

    /// The packages that it imports, by their package tokens.
    pub fn imports(&self) -> &[PackageInfo]
        ensures { result.now ≡ self.now.imports }
    {
        &self.imports
    }

    /// Its exports, by class tokens.
    pub fn exports(&self) -> &[Export]
        ensures { result.now ≡ self.now.exports }
    {
        &self.exports
    }

    /// Its classes and interfaces, in the order of their records.
    pub fn classes(&self) -> &[Class]
        ensures { result.now ≡ self.now.classes }
    {
        &self.classes
    }
}

impl Export {
    /// The offset of the class's record.
    pub fn class(&self) -> u16
        ensures { result ≡ self.now.class }
    {
        self.class
    }

    /// The offsets of its static fields, by their tokens.
    pub fn fields(&self) -> &[u16]
        ensures { result.now ≡ self.now.fields }
    {
        &self.fields
    }

    /// The offsets of its static methods and constructors, by their tokens.
    pub fn methods(&self) -> &[u16]
        ensures { result.now ≡ self.now.methods }
    {
        &self.methods
    }
}

impl Class {
    /// The offset of its record in the Class component; for a class of the API, its number.
    pub fn offset(&self) -> u16
        ensures { result ≡ self.now.offset }
    {
        self.offset
    }

    /// Whether it is a class rather than an interface.
    pub fn is_class(&self) -> bool
        ensures { result ≡ is_class self.now.body }
    {
        match self.body {
            Body::Interface(_) => false,
            Body::Class(_) => true,
        }
    }

    /// Whether its row states that it is abstract.
    pub fn is_abstract(&self) -> bool
        ensures { result ≡ self.now.is_abstract }
    {
        self.is_abstract
    }

    /// The superclass that its record names.
    pub fn superclass(&self) -> Option<ClassRef>
        ensures { result ≡ superclass_ref self.now.body }
    {
        self.body.superclass()
    }

    /// How many cells of an object it declares itself; 0 if it is an interface.
    pub fn declared_size(&self) -> u8
        ensures { result ≡ declared_size self.now.body }
    {
        match &self.body {
            Body::Interface(_) => 0,
            Body::Class(class) => class.declared_size,
        }
    }

    /// The entries of its table of public and protected methods; none if it is an interface.
    pub fn public_entries(&self) -> &[u16]
        ensures { result.now ≡ public_entries self.now.body }
    {
        match &self.body {
            Body::Interface(_) => &[],
            Body::Class(class) => &class.public_methods.methods,
        }
    }

    /// The entries of its table of package-visible methods; none if it is an interface.
    pub fn package_entries(&self) -> &[u16]
        ensures { result.now ≡ package_entries self.now.body }
    {
        match &self.body {
            Body::Interface(_) => &[],
            Body::Class(class) => &class.package_methods.methods,
        }
    }

    /// The interface that its record lists at an index: a class lists those that it implements, an interface those that
    /// it extends.
    pub fn listed(&self, index: usize) -> Option<ClassRef>
        ensures { result ≡ slice_get (listed_refs self.now.body) index }
    {
        match &self.body {
            Body::Interface(list) => Some(list.get(index)?.interface),
            Body::Class(class) => Some(class.interfaces.get(index)?.interface),
        }
    }

    /// The interfaces that it extends; none if it is a class.
    pub fn superinterfaces(&self) -> &[Superinterface]
        ensures { result.now ≡ superinterfaces self.now.body }
    {
        match &self.body {
            Body::Interface(list) => list,
            Body::Class(_) => &[],
        }
    }

    /// The rows of the interfaces that it implements; none if it is an interface.
    pub fn interface_rows(&self) -> &[ImplementedInterface]
        ensures { result.now ≡ interface_rows self.now.body }
    {
        match &self.body {
            Body::Interface(_) => &[],
            Body::Class(class) => &class.interfaces,
        }
    }

    /// Its fields.
    pub fn fields(&self) -> &[Field]
        ensures { result.now ≡ self.now.fields }
    {
        &self.fields
    }

    /// Its methods.
    pub fn methods(&self) -> &[DescribedMethod]
        ensures { result.now ≡ self.now.methods }
    {
        &self.methods
    }
}

impl ImplementedInterface {
    /// The reference to the interface.
    pub fn interface(&self) -> ClassRef
        ensures { result ≡ self.now.interface }
    {
        self.interface
    }

    /// The class's virtual tokens for the interface's methods, by the interface's tokens.
    pub fn indexes(&self) -> &[u8]
        ensures { result.now ≡ self.now.indexes }
    {
        &self.indexes
    }
}

impl Field {
    /// Its place.
    pub fn place(&self) -> FieldPlace
        ensures { result ≡ self.now.place }
    {
        self.place
    }

    /// Its type, with classes as its package spells them.
    pub fn declared_type(&self) -> DeclaredType<ClassRef>
        ensures { result ≡ self.now.type }
    {
        self.declared
    }
}

impl DescribedMethod {
    /// Its token, which is used only in an interface.
    pub fn token(&self) -> u8
        ensures { result ≡ self.now.token }
    {
        self.token
    }

    /// Whether it is static.
    pub fn is_static(&self) -> bool
        ensures { result ≡ self.now.is_static }
    {
        self.is_static
    }

    /// The offset of its header in the Method component; for a member of the API, its number.
    pub fn offset(&self) -> u16
        ensures { result ≡ self.now.offset }
    {
        self.offset
    }

    /// Its header. An interface's methods have none.
    pub fn header(&self) -> Option<MethodHeader>
        ensures { result ≡ self.now.header }
    {
        self.header
    }

    /// The types of its parameters, without `this`, with classes as its package spells them.
    pub fn parameters(&self) -> &[DeclaredType<ClassRef>]
        ensures { result.now ≡ self.now.signature.parameters }
    {
        &self.parameters
    }

    /// Its result.
    pub fn result(&self) -> ReturnType<ClassRef>
        ensures { result ≡ self.now.signature.result }
    {
        self.result
    }
}
