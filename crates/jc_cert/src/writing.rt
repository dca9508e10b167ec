//! Writing a certificate.

ghost use Rattle.std.specs.Prelude.{◌≡◌, [], ◌∷◌, ◌++◌, OnOk, IfOk};
ghost use Rattle.std.specs.List.{flat_map};
ghost use Rattle.jc_cert.specs.Cert.{IsStated, IsRow, IsCert, stated, row, rows};
ghost use Rattle.jc_cert.specs.Writing.{class_bytes, type_bytes, stated_bytes, row_bytes, spelling};

use crate::cert::{Cert, MethodStates, StateRow};
use crate::stated_type::{SpelledClass, StatedType};
use std::alloc::{AllocError, Global};

fn put_class(out: &mut Vec<u8>, class: SpelledClass) -> Result<(), AllocError>
    ensures { OnOk result (out.new.items ≡ out.old.items ++ class_bytes class) }
{
    match class {
        SpelledClass::Own { offset } => {
            out.push(0)?;
            out.extend_from_slice(&offset.to_be_bytes())
        }
        SpelledClass::Api(class) => out.extend_from_slice(&[1, 0, 0, class.number()]),
        SpelledClass::Other { package, offset } => {
            out.push(package.len() as u8)?;
            out.extend_from_slice(package.as_slice())?;
            out.extend_from_slice(&offset.to_be_bytes())
        }
    }
}

fn put_type(out: &mut Vec<u8>, ty: StatedType) -> Result<(), AllocError>
    ensures { OnOk result (out.new.items ≡ out.old.items ++ type_bytes ty) }
{
    match ty {
        StatedType::Top => out.push(0)?,
        StatedType::Word => out.push(1)?,
        StatedType::Null => out.push(2)?,
        StatedType::Class(class) => {
            out.push(3)?;
            put_class(out, class)?;
        }
        StatedType::BooleanArray => out.push(4)?,
        StatedType::ByteArray => out.push(5)?,
        StatedType::ShortArray => out.push(6)?,
        StatedType::ReferenceArray(class) => {
            out.push(7)?;
            put_class(out, class)?;
        }
    }
    Ok(())
}

fn put_types(out: &mut Vec<u8>, types: &[StatedType]) -> Result<(), AllocError>
    ensures { OnOk result (out.new.items ≡ out.old.items ++ flat_map type_bytes types.now) }
{
    for ty in types {
        put_type(out, *ty)?;
    }
    Ok(())
}

fn put_state(out: &mut Vec<u8>, state: &StateRow) -> Result<(), AllocError>
    requires { IsStated (stated state.now) }
    ensures { OnOk result (out.new.items ≡ out.old.items ++ stated_bytes (stated state.now)) }
{
    out.extend_from_slice(&state.pc.to_be_bytes())?;
    out.extend_from_slice(&(state.locals.len() as u16).to_be_bytes())?;
    put_types(out, &state.locals)?;
    out.push(state.operands.len() as u8)?;
    put_types(out, &state.operands)
}

fn put_row(out: &mut Vec<u8>, method: &MethodStates) -> Result<(), AllocError>
    requires { IsRow (row method.now) }
    ensures { OnOk result (out.new.items ≡ out.old.items ++ row_bytes (row method.now)) }
{
    out.extend_from_slice(&method.offset.to_be_bytes())?;
    out.extend_from_slice(&(method.states.len() as u16).to_be_bytes())?;
    for state in &method.states {
        put_state(out, state)?;
    }
    Ok(())
}

fn write_rows(alloc: Global, methods: &[MethodStates]) -> Result<Vec<u8>, AllocError>
    requires { IsCert (rows methods.now) }
    ensures { IfOk result (λ bytes. bytes.items ≡ spelling (rows methods.now)) }
{
    let mut out = Vec::new(alloc);
    out.extend_from_slice(&(methods.len() as u16).to_be_bytes())?;
    for method in methods {
        put_row(&mut out, method)?;
    }
    Ok(out)
}

/// The encoding of a certificate. The only error is out of memory.
pub fn write(alloc: Global, cert: &Cert) -> Result<Vec<u8>, AllocError>
    ensures cert { IsCert cert.now }
    ensures spelled { IfOk result (λ bytes. bytes.items ≡ spelling cert.now) }
{
    write_rows(alloc, cert.rows())
}
