//! The packages of the API as shapes.

ghost use Rattle.std.specs.Prelude.{◌≡◌, ◌≤◌, ◌<◌, ◌^◌, ◌++◌, length, map, IfOk, IfSome, OnOk};
ghost use Rattle.std.specs.Option.{option_map, option_and_then, option_to_list};
ghost use Rattle.jc_api.specs.Class.{last_class};
ghost use Rattle.jc_api.specs.Member.{last_member};
ghost use Rattle.jc_api.specs.Class.{class_of, package_of, superclass_of};
ghost use Rattle.jc_api.specs.Member.{shown};
ghost use Rattle.jc_base.specs.Signature.{type_map, return_map};
ghost use Rattle.jc_classes.specs.Api.{those_to, each_below, member_token, room_of, number_with, token_in, entry_of};
ghost use Rattle.jc_classes.specs.Api.{entries_of, spelled_in, public_table, record_in, is_static, nargs_of, method_in};
ghost use Rattle.jc_classes.specs.Api.{declared_by, method_of, class_in_api, class_with, class_shape_of, export_row};
ghost use Rattle.jc_classes.specs.Api.{export_of, imports_of, api_shape, api_world};
ghost use Rattle.jc_classes.specs.PrivateApi.{counts, if_token, with_room};
ghost use Rattle.jc_classes.specs.PrivateShape.{record_of};
ghost use Rattle.jc_classes.specs.declared.api.Tokens.TheVariants as Of;

use crate::shape::{Body, Class, ClassBody, DescribedMethod, Export, PackageShape, Table};
use crate::shapes::Shapes;
use crate::table::ClassTable;
use jc_api::{
    ApiClass, ApiPackage, Binding, CLASS_COUNT, MEMBER_COUNT, Member, MemberKind, is_at_or_above,
};
use jc_base::{ClassRef, DeclaredType, PackageInfo, ReturnType};
use jc_cap::MethodHeader;
use std::alloc::{AllocError, Global};

/// The greatest number of a class.
const LAST_CLASS: u8 = CLASS_COUNT as u8;
/// The greatest number of a member.
const LAST_MEMBER: u8 = MEMBER_COUNT as u8;
/// The entry of a table for a token that no member has.
const NO_MEMBER: u16 = 0xFFFF;

/// A set of members or classes, whose tokens are used.
#[derive(Clone, Copy)]
pub(crate) enum Tokens {
    /// The classes of a package.
    Classes(ApiPackage),
    /// The virtual methods of a class and of its superclasses.
    Inherited(ApiClass),
    /// The virtual methods that a class itself declares.
    Declared(ApiClass),
    /// The constructors and static methods of a class.
    Called(ApiClass),
}

impl Tokens {
    /// Whether a member is in the set.
    fn counts(self, member: Member) -> bool
        ensures { result ≡ counts self (shown member) }
    {
        let is_virtual = member.kind == MemberKind::Virtual;
        match self {
            Tokens::Classes(_) => false,
            Tokens::Inherited(class) => is_virtual && is_at_or_above(member.class, class),
            Tokens::Declared(class) => is_virtual && member.class.number() == class.number(),
            Tokens::Called(class) => !is_virtual && member.class.number() == class.number(),
        }
    }

    /// The token of the class with a number, if it is in a package.
    fn of_class(binding: &Binding, which: ApiPackage, number: u8) -> Option<u8>
        ensures { result ≡ token_in binding.now (Of.Classes which) number }
    {
        let class = ApiClass::from_number(number)?;
        if class.package() == which {
            binding.class_token(number)
        } else {
            None
        }
    }

    /// The token of the member with a number, if it is in the set.
    fn of_member(self, binding: &Binding, number: u8) -> Option<u8>
        ensures { result ≡ member_token (counts self) binding.now number }
    {
        let member = Member::from_number(number)?;
        if self.counts(member) {
            binding.member_token(number)
        } else {
            None
        }
    }

    /// The token of a number, if what it numbers is in the set.
    fn token(self, binding: &Binding, number: u8) -> Option<u8>
        ensures { result ≡ token_in binding.now self number }
    {
        match self {
            Tokens::Classes(which) => Tokens::of_class(binding, which, number),
            Tokens::Inherited(_) | Tokens::Declared(_) | Tokens::Called(_) => {
                self.of_member(binding, number)
            }
        }
    }

    /// One more than the greatest of these tokens, or 0 if there are none.
    #[tactic(auto, using(crate::proofs::Numbering::room_more, crate::proofs::Numbering::room_none))]
    fn room(self, binding: &Binding) -> u16
        ensures room { result ≡ room_of binding.now self }
        ensures most { result ≤ 256 }
    {
        let mut room = 0u16;
        for before in 0..LAST_MEMBER {
            room = with_room(room, self.token(binding, before + 1));
        }
        room
    }

    /// The first number that has a token.
    #[tactic(auto, using(crate::proofs::Numbering::number_more, crate::proofs::Numbering::number_none))]
    fn number_with(self, binding: &Binding, token: u16) -> Option<u8>
        ensures { result ≡ number_with binding.now self token }
    {
        let mut found = None;
        for before in 0..LAST_MEMBER {
            let number = before + 1;
            found = found.or(if_token(token, number, self.token(binding, number)));
        }
        found
    }

    /// The number of the member that has a token, or FFFF if none has it.
    fn entry(self, binding: &Binding, token: u16) -> u16
        ensures { result ≡ entry_of binding.now self token }
    {
        match self.number_with(binding, token) {
            Some(number) => u16::from(number),
            None => NO_MEMBER,
        }
    }

    /// The members that have the tokens from 0 to below `room`.
    #[tactic(auto, using(crate::proofs::Numbering::each_more, crate::proofs::Numbering::each_none))]
    fn entries(self, alloc: Global, binding: &Binding, room: u16) -> Result<Vec<u16>, AllocError>
        ensures { IfOk result (λ entries. entries.items ≡ entries_of binding.now self room) }
    {
        let mut entries = Vec::new(alloc);
        for token in 0..room {
            entries.push(self.entry(binding, token))?;
        }
        Ok(entries)
    }
}

fn with_room(room: u16, token: Option<u8>) -> u16
    requires { room ≤ 256 }
    ensures room { result ≡ with_room room token }
    ensures most { result ≤ 256 }
{
    match token {
        Some(token) if room <= u16::from(token) => u16::from(token) + 1,
        _ => room,
    }
}

fn if_token(token: u16, number: u8, found: Option<u8>) -> Option<u8>
    ensures { result ≡ if_token token number found }
{
    match found {
        Some(found) if u16::from(found) == token => Some(number),
        _ => None,
    }
}

/// A reference to a class, as a package of the API spells it.
fn spelled_in(binding: &Binding, which: ApiPackage, class: ApiClass) -> ClassRef
    ensures { result ≡ spelled_in binding.now which class }
{
    if class.package() == which {
        return ClassRef::Internal {
            offset: u16::from(class.number()),
        };
    }
    ClassRef::External {
        package: 0,
        class: binding.class_token(class.number()).unwrap_or(0),
    }
}

fn type_in(
    binding: &Binding,
    which: ApiPackage,
    declared: DeclaredType<ApiClass>,
) -> DeclaredType<ClassRef>
    ensures { result ≡ type_map (spelled_in binding.now which) declared }
{
    match declared {
        DeclaredType::Boolean => DeclaredType::Boolean,
        DeclaredType::Byte => DeclaredType::Byte,
        DeclaredType::Short => DeclaredType::Short,
        DeclaredType::Reference(class) => DeclaredType::Reference(spelled_in(
            binding, which, class,
        )),
        DeclaredType::BooleanArray => DeclaredType::BooleanArray,
        DeclaredType::ByteArray => DeclaredType::ByteArray,
        DeclaredType::ShortArray => DeclaredType::ShortArray,
        DeclaredType::ReferenceArray(class) => {
            DeclaredType::ReferenceArray(spelled_in(binding, which, class))
        }
    }
}

fn result_in(
    binding: &Binding,
    which: ApiPackage,
    given: ReturnType<ApiClass>,
) -> ReturnType<ClassRef>
    ensures { result ≡ return_map (spelled_in binding.now which) given }
{
    match given {
        ReturnType::Void => ReturnType::Void,
        ReturnType::Value(declared) => ReturnType::Value(type_in(binding, which, declared)),
    }
}

fn parameters_in(
    alloc: Global,
    binding: &Binding,
    which: ApiPackage,
    types: &[DeclaredType<ApiClass>],
) -> Result<Vec<DeclaredType<ClassRef>>, AllocError>
    ensures { IfOk result (λ spelled. spelled.items ≡ map (type_map (spelled_in binding.now which)) types.now) }
{
    let mut spelled = Vec::new(alloc);
    for at in 0..types.len() {
        spelled.push(type_in(binding, which, types[at]))?;
    }
    Ok(spelled)
}

fn is_static(kind: MemberKind) -> bool
    ensures { result ≡ is_static kind }
{
    match kind {
        MemberKind::Static => true,
        MemberKind::Constructor | MemberKind::Virtual => false,
    }
}

/// How many words of arguments a member takes, `this` included.
fn nargs_of(member: Member) -> u8
    requires { length member.parameters.now < 255 }
    ensures { result ≡ nargs_of (shown member) }
{
    let count = member.parameters.len() as u8;
    if is_static(member.kind) {
        count
    } else {
        count + 1
    }
}

fn method_in(
    alloc: Global,
    binding: &Binding,
    number: u8,
    member: Member,
) -> Result<DescribedMethod, AllocError>
    requires { length member.parameters.now < 255 }
    ensures { IfOk result (λ method. method ≡ method_in binding.now number (shown member)) }
{
    let which = member.class.package();
    let parameters = parameters_in(alloc, binding, which, member.parameters)?;
    Ok(DescribedMethod {
        token: 0,
        is_static: is_static(member.kind),
        offset: u16::from(number),
        header: Some(MethodHeader {
            is_abstract: member.is_abstract,
            max_stack: 0,
            nargs: nargs_of(member),
            max_locals: 0,
        }),
        parameters,
        result: result_in(binding, which, member.result),
    })
}

/// The member with a number, if a class declares it.
fn declared_by(class: ApiClass, number: u8) -> Option<Member>
    ensures declared { option_map shown result ≡ declared_by class number }
    ensures few { IfSome result (λ member. length member.parameters.now < 255) }
{
    let member = Member::from_number(number)?;
    if member.class.number() == class.number() {
        Some(member)
    } else {
        None
    }
}

/// Appends the method with a number, if a class declares it.
fn put_method(
    methods: &mut Vec<DescribedMethod>,
    binding: &Binding,
    class: ApiClass,
    number: u8,
) -> Result<(), AllocError>
    ensures { OnOk result
        (methods.new.items ≡ methods.old.items ++ option_to_list (method_of binding.now class number)) }
{
    let Some(member) = declared_by(class, number) else {
        return Ok(());
    };
    let method = method_in(*methods.allocator(), binding, number, member)?;
    methods.push(method)?;
    Ok(())
}

/// The methods that a class declares.
#[tactic(auto, using(crate::proofs::Numbering::those_more, crate::proofs::Numbering::those_none))]
fn methods_in(
    alloc: Global,
    binding: &Binding,
    class: ApiClass,
) -> Result<Vec<DescribedMethod>, AllocError>
    ensures methods { IfOk result (λ methods. methods.items ≡ those_to last_member (method_of binding.now class)) }
    ensures few { IfOk result (λ methods. length methods.items < 2 ^ 16) }
{
    let mut methods = Vec::new(alloc);
    for before in 0..LAST_MEMBER {
        put_method(&mut methods, binding, class, before + 1)?;
    }
    Ok(methods)
}

/// The table of a class's public methods.
fn public_table(alloc: Global, binding: &Binding, class: ApiClass) -> Result<Table, AllocError>
    ensures { IfOk result (λ table. table ≡ public_table binding.now class) }
{
    let room = Tokens::Inherited(class).room(binding);
    let methods = Tokens::Declared(class).entries(alloc, binding, room)?;
    Ok(Table { base: 0, methods })
}

/// The reference to the superclass, as the class's package spells it.
fn superclass_in(binding: &Binding, class: ApiClass) -> Option<ClassRef>
    ensures { result ≡ option_map (spelled_in binding.now (package_of class)) (superclass_of class) }
{
    let above = class.superclass()?;
    Some(spelled_in(binding, class.package(), above))
}

fn record_in(alloc: Global, binding: &Binding, class: ApiClass) -> Result<Body, AllocError>
    ensures { IfOk result (λ body. record_of body ≡ record_in binding.now class) }
{
    if class.is_interface() {
        return Ok(Body::Interface(Vec::new(alloc)));
    }
    let public_methods = public_table(alloc, binding, class)?;
    Ok(Body::Class(ClassBody {
        superclass: superclass_in(binding, class),
        declared_size: class.size(),
        public_methods,
        package_methods: Table {
            base: 0,
            methods: Vec::new(alloc),
        },
        interfaces: Vec::new(alloc),
    }))
}

fn class_in(alloc: Global, binding: &Binding, class: ApiClass) -> Result<Class, AllocError>
    ensures { IfOk result (λ made. made ≡ class_in_api binding.now class) }
{
    let body = record_in(alloc, binding, class)?;
    let methods = methods_in(alloc, binding, class)?;
    Ok(Class {
        offset: u16::from(class.number()),
        body,
        is_abstract: class.is_abstract(),
        fields: Vec::new(alloc),
        methods,
    })
}

/// The class with a number, if a package has it.
fn class_with(which: ApiPackage, number: u8) -> Option<ApiClass>
    ensures { result ≡ class_with which number }
{
    let class = ApiClass::from_number(number)?;
    if class.package() == which {
        Some(class)
    } else {
        None
    }
}

/// Appends the class with a number, if a package has it.
fn put_class(
    classes: &mut Vec<Class>,
    binding: &Binding,
    which: ApiPackage,
    number: u8,
) -> Result<(), AllocError>
    ensures { OnOk result
        (classes.new.items ≡ classes.old.items ++ option_to_list (class_shape_of binding.now which number)) }
{
    let Some(class) = class_with(which, number) else {
        return Ok(());
    };
    let made = class_in(*classes.allocator(), binding, class)?;
    classes.push(made)?;
    Ok(())
}

/// The classes of a package.
#[tactic(auto, using(crate::proofs::Numbering::those_more, crate::proofs::Numbering::those_none))]
fn classes_in(alloc: Global, binding: &Binding, which: ApiPackage) -> Result<Vec<Class>, AllocError>
    ensures { IfOk result (λ classes. classes.items ≡ those_to last_class (class_shape_of binding.now which)) }
{
    let mut classes = Vec::new(alloc);
    for before in 0..LAST_CLASS {
        put_class(&mut classes, binding, which, before + 1)?;
    }
    Ok(classes)
}

/// The export row of a class.
fn export_row(
    alloc: Global,
    binding: &Binding,
    found: Option<ApiClass>,
) -> Result<Export, AllocError>
    ensures { IfOk result (λ row. row ≡ export_row binding.now found) }
{
    let Some(class) = found else {
        return Ok(Export {
            class: 0,
            fields: Vec::new(alloc),
            methods: Vec::new(alloc),
        });
    };
    let called = Tokens::Called(class);
    let methods = called.entries(alloc, binding, called.room(binding))?;
    Ok(Export {
        class: u16::from(class.number()),
        fields: Vec::new(alloc),
        methods,
    })
}

/// The class of a package with a token, if there is one.
fn exported_with(binding: &Binding, which: ApiPackage, token: u16) -> Option<ApiClass>
    ensures { result ≡ option_and_then class_of (number_with binding.now (Of.Classes which) token) }
{
    let number = Tokens::Classes(which).number_with(binding, token)?;
    ApiClass::from_number(number)
}

/// The exports of a package.
#[tactic(auto, using(crate::proofs::Numbering::each_more, crate::proofs::Numbering::each_none))]
fn exports_in(
    alloc: Global,
    binding: &Binding,
    which: ApiPackage,
) -> Result<Vec<Export>, AllocError>
    ensures { IfOk result (λ rows.
        rows.items ≡ each_below (room_of binding.now (Of.Classes which)) (export_of binding.now which)) }
{
    let mut rows = Vec::new(alloc);
    let room = Tokens::Classes(which).room(binding);
    for token in 0..room {
        let found = exported_with(binding, which, token);
        rows.push(export_row(alloc, binding, found)?)?;
    }
    Ok(rows)
}

/// The imports of a package.
fn imports_in(
    alloc: Global,
    binding: &Binding,
    which: ApiPackage,
) -> Result<Vec<PackageInfo>, AllocError>
    ensures { IfOk result (λ imports. imports.items ≡ imports_of binding.now which) }
{
    let mut imports = Vec::new(alloc);
    match which {
        ApiPackage::Lang => {}
        ApiPackage::Framework => imports.push(binding.package(ApiPackage::Lang))?,
    }
    Ok(imports)
}

/// A package of the API.
fn api_shape(
    alloc: Global,
    binding: &Binding,
    which: ApiPackage,
) -> Result<PackageShape, AllocError>
    ensures { IfOk result (λ made. made ≡ api_shape binding.now which) }
{
    let imports = imports_in(alloc, binding, which)?;
    let exports = exports_in(alloc, binding, which)?;
    let classes = classes_in(alloc, binding, which)?;
    PackageShape::new(alloc, binding.package(which), imports, exports, classes)
}

impl ClassTable {
    /// The classes of the API, with a binding; no package is loaded.
    pub fn new(alloc: Global, binding: &Binding) -> Result<ClassTable, AllocError>
        ensures { IfOk result (λ table. table ≡ api_world binding.now) }
    {
        let lang = api_shape(alloc, binding, ApiPackage::Lang)?;
        let framework = api_shape(alloc, binding, ApiPackage::Framework)?;
        let mut table = ClassTable {
            shapes: Shapes::new(alloc),
            tables: Vec::new(alloc),
        };
        table.put_package(alloc, lang)?;
        table.put_package(alloc, framework)?;
        Ok(table)
    }
}
