//! The body of a package, owned.

ghost use Rattle.std.specs.Prelude.{◌≡◌, IfOk};
ghost use Rattle.std.specs.Option.{option_map};
ghost use Rattle.jc_link.specs.Kept.{kept_of};

use jc_base::{S1s, S2s, owned_rows};
use jc_cap::{Applet, Handler, PoolEntry, StaticArray, StaticFields};
use jc_cap_desc::{MethodBody, Package};
use std::alloc::{AllocError, Global};
use std::marker::Model;

/// The type of an initialised array's components.
#[derive(Clone, Copy)]
pub enum ArrayKind {
    Boolean,
    Byte,
    Short,
}

/// An initialised array of the static fields.
#[derive(Drop)]
pub struct InitialArray {
    pub kind: ArrayKind,
    /// Its components. The byte of a boolean is kept unchanged.
    pub values: Vec<i16>,
}

impl Model for InitialArray {
    ghost use Rattle.jc_cap.specs.declared.arrays.StaticArray.{StaticArray};
    ghost use Rattle.jc_link.specs.PrivateBody.{array_of};

    ghost Value = { StaticArray };

    ghost view = { λ a. array_of a.kind a.values.items };
}

/// The static fields of a package.
#[derive(Drop)]
pub struct StaticImage {
    /// The size of their image in bytes.
    pub size: u16,
    /// How many references it begins with.
    pub references: u16,
    /// The arrays that the first references refer to.
    pub arrays: Vec<InitialArray>,
    /// How many bytes of value 0 follow.
    pub defaults: u16,
    /// The bytes after those.
    pub values: Vec<u8>,
}

impl Model for StaticImage {
    ghost use Rattle.jc_cap.specs.Statics.{StaticImage};

    ghost Value = { StaticImage };

    ghost view = { λ s. record {
      size = s.size;
      references = s.references;
      arrays = s.arrays.items;
      defaults = s.defaults;
      values = s.values.items;
    } };
}

/// A method with code. Offsets count in the Method component.
#[derive(Drop)]
pub struct MethodCode {
    /// The offset of its header.
    pub offset: u16,
    /// The offset of its code.
    pub code_offset: usize,
    /// Its code, at most 65,535 bytes.
    pub code: Vec<u8>,
    /// Its handlers, in table order.
    pub handlers: Vec<Handler>,
}

impl Model for MethodCode {
    ghost use Rattle.std.specs.Prelude.{◌<◌, ◌^◌, length};
    ghost use Rattle.jc_cap_desc.specs.Shape.{MethodBody};

    ghost Value = { MethodBody };

    ghost view = { λ m. record {
      offset = m.offset;
      code_offset = m.code_offset;
      code = m.code.items;
      handlers = m.handlers.items;
    } };

    ghost invariant = { λ m. length m.code.items < 2 ^ 16 };
}

/// The part of a package's body that is kept: all but its name, and the types that entries of its pool state.
#[derive(Drop)]
pub struct PackageBody {
    /// The applets, or `None` if the package is a library.
    pub applets: Option<Vec<Applet>>,
    pub pool: Vec<PoolEntry>,
    pub statics: StaticImage,
    /// The methods with code.
    pub methods: Vec<MethodCode>,
}

impl Model for PackageBody {
    ghost use Rattle.std.specs.Option.{option_map};
    ghost use Rattle.jc_link.specs.Kept.{Kept};

    ghost Value = { Kept };

    ghost view = { λ b. record {
      applets = option_map (λ a. a.items) b.applets;
      pool = b.pool.items;
      statics = b.statics;
      methods = b.methods.items;
    } };
}

fn applets_of(alloc: Global, from: &Package) -> Result<Option<Vec<Applet>>, AllocError>
    ensures { IfOk result (λ applets. option_map (λ a. a.items) applets ≡ from.now.body.applets) }
{
    match from.applets() {
        Some(applets) => Ok(Some(owned_rows(alloc, &applets)?)),
        None => Ok(None),
    }
}

#[tactic(auto, using(crate::proofs::Copied::one_more, crate::proofs::Copied::no_more))]
fn bytes_of(alloc: Global, bytes: &S1s) -> Result<Vec<i16>, AllocError>
    ensures { IfOk result (λ values. values.items ≡ bytes.now) }
{
    let mut values = Vec::new(alloc);
    for at in 0..bytes.len() {
        if let Some(byte) = bytes.get(at) {
            values.push(i16::from(byte))?;
        }
    }
    Ok(values)
}

#[tactic(auto, using(crate::proofs::Copied::one_more, crate::proofs::Copied::no_more))]
fn shorts_of(alloc: Global, shorts: &S2s) -> Result<Vec<i16>, AllocError>
    ensures { IfOk result (λ values. values.items ≡ shorts.now) }
{
    let mut values = Vec::new(alloc);
    for at in 0..shorts.len() {
        if let Some(short) = shorts.get(at) {
            values.push(short)?;
        }
    }
    Ok(values)
}

fn array_of(alloc: Global, from: &StaticArray) -> Result<InitialArray, AllocError>
    ensures { IfOk result (λ array. array ≡ from.now) }
{
    match from {
        StaticArray::Boolean(bytes) => {
            let values = bytes_of(alloc, bytes)?;
            Ok(InitialArray {
                kind: ArrayKind::Boolean,
                values,
            })
        }
        StaticArray::Byte(bytes) => {
            let values = bytes_of(alloc, bytes)?;
            Ok(InitialArray {
                kind: ArrayKind::Byte,
                values,
            })
        }
        StaticArray::Short(shorts) => {
            let values = shorts_of(alloc, shorts)?;
            Ok(InitialArray {
                kind: ArrayKind::Short,
                values,
            })
        }
    }
}

fn arrays_of(alloc: Global, from: &StaticFields) -> Result<Vec<InitialArray>, AllocError>
    ensures { IfOk result (λ arrays. arrays.items ≡ from.now.arrays) }
{
    let mut arrays = Vec::new(alloc);
    let mut left = from.arrays();
    while let Some(array) = left.next() {
        arrays.push(array_of(alloc, &array)?)?;
    }
    Ok(arrays)
}

fn statics_of(alloc: Global, from: &StaticFields) -> Result<StaticImage, AllocError>
    ensures { IfOk result (λ statics. statics ≡ from.now) }
{
    let arrays = arrays_of(alloc, from)?;
    let values = Vec::from_slice(alloc, from.values())?;
    Ok(StaticImage {
        size: from.image_size(),
        references: from.reference_count(),
        arrays,
        defaults: from.default_count(),
        values,
    })
}

fn method_of(alloc: Global, from: &MethodBody) -> Result<MethodCode, AllocError>
    ensures { IfOk result (λ method. method ≡ from.now) }
{
    let code = Vec::from_slice(alloc, from.code())?;
    let handlers = owned_rows(alloc, &from.handlers())?;
    Ok(MethodCode {
        offset: from.offset(),
        code_offset: from.code_offset(),
        code,
        handlers,
    })
}

fn methods_of(alloc: Global, from: &Package) -> Result<Vec<MethodCode>, AllocError>
    ensures { IfOk result (λ methods. methods.items ≡ from.now.body.methods) }
{
    let mut methods = Vec::new(alloc);
    let mut left = from.bodies();
    while let Some(method) = left.next() {
        methods.push(method_of(alloc, &method)?)?;
    }
    Ok(methods)
}

/// The part of a package's body that is kept.
pub(crate) fn body_of(alloc: Global, from: &Package) -> Result<PackageBody, AllocError>
    ensures { IfOk result (λ body. body ≡ kept_of from.now.body) }
{
    let applets = applets_of(alloc, from)?;
    let pool = owned_rows(alloc, &from.pool())?;
    let statics = statics_of(alloc, from.statics())?;
    let methods = methods_of(alloc, from)?;
    Ok(PackageBody {
        applets,
        pool,
        statics,
        methods,
    })
}
