//! The binding of the API's packages, from a file.

ghost use Rattle.std.specs.Prelude.{IfOk, IfErr};
ghost use Rattle.jc_host.specs.Binding.{HasBinding, IsBindingFault, IsBindingFor, IsNoBinding, IsUnbound, SaysBinding};
ghost use Rattle.jc_host.specs.Files.{OfFile};

use crate::files::{FileCause, Files, ReadFault, fault_of};
use jc_api::Binding;
use std::alloc::Global;

/// The most bytes of the file of a binding.
const MOST_BINDING: usize = 1048576;

/// The binding in a file, or the default one.
pub fn binding_for<F: Files>(
    files: &F,
    alloc: Global,
    path: Option<&str>,
) -> Result<Binding, ReadFault>
    ensures bound { IfOk result (IsBindingFor (F.holds files.now) path.entry) }
    ensures faults { IfErr result (OfFile (IsBindingFault (F.holds files.now) path.entry)) }
{
    match path {
        Some(path) => match binding_in(files, alloc, path) {
            Ok(binding) => Ok(binding),
            Err(cause) => Err(fault_of(alloc, path, cause)),
        },
        None => Ok(Binding::default_table()),
    }
}

// The binding in a file.
fn binding_in<F: Files>(files: &F, alloc: Global, path: &str) -> Result<Binding, FileCause>
    ensures bound { IfOk result (HasBinding (F.holds files.now path.now)) }
    ensures unbound { IfErr result (IsUnbound (F.holds files.now path.now)) }
{
    let bytes = files.read(alloc, path, MOST_BINDING)?;
    binding_of(&bytes)
}

// The binding that bytes encode.
fn binding_of(bytes: &[u8]) -> Result<Binding, FileCause>
    ensures says { IfOk result (SaysBinding bytes.now) }
    ensures faults { IfErr result (IsNoBinding bytes.now) }
{
    let text = str::from_utf8(bytes).map_err(|_| FileCause::NotText)?;
    Binding::from_text(text).map_err(FileCause::NoBinding)
}
