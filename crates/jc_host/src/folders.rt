//! Packages in folders of component files.

ghost use Rattle.std.specs.Prelude.{◌≡◌, map, option_map, IfOk, IfErr};
ghost use Rattle.std.specs.List.{AllZip};
ghost use Rattle.std.specs.Path.{path_join};
ghost use Rattle.jc_host.specs.Files.{IsFaultAt, OfFile};
ghost use Rattle.jc_host.specs.Files.Entry.{folder as a_folder};
ghost use Rattle.jc_host.specs.Folders.{AreJoined, FailsFirst, IsComponent, IsComponentFault, IsComponentIn};
ghost use Rattle.jc_host.specs.Folders.{IsFolderFault, IsImage, IsNoComponent, IsNoFolder};
ghost use Rattle.jc_host.specs.PrivateFolders.{IsPutBehind};

use crate::files::{FileCause, Files, ReadFault, fault_of};
use std::alloc::Global;
use std::io;
use std::path::Path;

/// The most bytes of a component's file: a tag, a size, and the greatest such size.
const MOST_COMPONENT: usize = 65538;

/// The component files of a package, in the order in which they make an image.
const COMPONENTS: [&str; 9] = [
    "Header.cap",
    "Applet.cap",
    "Import.cap",
    "ConstantPool.cap",
    "Class.cap",
    "Method.cap",
    "StaticField.cap",
    "Export.cap",
    "Descriptor.cap",
];

/// The images of the packages in folders, in order.
pub fn images_in<F: Files>(
    files: &F,
    alloc: Global,
    folders: &[&str],
) -> Result<Vec<Vec<u8>>, ReadFault>
    ensures images { IfOk result
        (λ images. AllZip (IsImage (F.holds files.now)) (map (λ name. name.now) folders.now)
        (map (λ image. image.items) images.items)) }
    ensures faults { IfErr result
        (OfFile (FailsFirst (IsImage (F.holds files.now)) (IsFolderFault (F.holds files.now))
        (map (λ name. name.now) folders.now))) }
{
    let mut images = Vec::new(alloc);
    for folder in folders {
        let image = image_in(files, alloc, folder)?;
        images.push(image)?;
    }
    Ok(images)
}

/// The image of the package in a folder: its existing component files, one after the other.
pub fn image_in<F: Files>(files: &F, alloc: Global, folder: &str) -> Result<Vec<u8>, ReadFault>
    ensures image { IfOk result (λ image. IsImage (F.holds files.now) folder.now image.items) }
    ensures faults { IfErr result (OfFile (IsFolderFault (F.holds files.now) folder.now)) }
{
    look_for_folder(files, alloc, folder)?;
    joined(files, alloc, folder, &COMPONENTS)
}

// Tests that there is a folder.
fn look_for_folder<F: Files>(files: &F, alloc: Global, folder: &str) -> Result<(), ReadFault>
    ensures there { IfOk result (λ u. F.holds files.now folder.now a_folder) }
    ensures faults { IfErr result (OfFile (IsFaultAt folder.now (IsNoFolder (F.holds files.now folder.now)))) }
{
    match files.is_folder(folder) {
        Ok(true) => Ok(()),
        Ok(false) => Err(fault_of(alloc, folder, FileCause::NoFolder)),
        Err(error) => Err(fault_of(alloc, folder, FileCause::System(error))),
    }
}

// The files in a folder with these names, one after the other.
fn joined<F: Files>(
    files: &F,
    alloc: Global,
    folder: &str,
    names: &[&str],
) -> Result<Vec<u8>, ReadFault>
    ensures joined { IfOk result
        (λ bytes. AreJoined (F.holds files.now) folder.now (map (λ name. name.now) names.now) bytes.items) }
    ensures faults { IfErr result
        (OfFile (FailsFirst (IsComponentIn (F.holds files.now) folder.now)
        (IsComponentFault (F.holds files.now) folder.now) (map (λ name. name.now) names.now))) }
{
    let mut bytes = Vec::new(alloc);
    for name in names {
        put_component(files, alloc, folder, name, &mut bytes)?;
    }
    Ok(bytes)
}

// Appends the bytes of a component's file, if it exists.
fn put_component<F: Files>(
    files: &F,
    alloc: Global,
    folder: &str,
    name: &str,
    bytes: &mut Vec<u8>,
) -> Result<(), ReadFault>
    ensures put { IfOk result
        (λ u. IsPutBehind (F.holds files.now (path_join folder.now name.now)) bytes.old.items bytes.new.items) }
    ensures faults { IfErr result (OfFile (IsComponentFault (F.holds files.now) folder.now name.now)) }
{
    let path = Path::new(folder).join(alloc, name)?;
    match component_in(files, alloc, path.as_str())? {
        Some(component) => Ok(bytes.extend_from_slice(&component)?),
        None => Ok(()),
    }
}

// The bytes of a component's file, if it exists.
fn component_in<F: Files>(
    files: &F,
    alloc: Global,
    path: &str,
) -> Result<Option<Vec<u8>>, ReadFault>
    ensures component { IfOk result
        (λ read. IsComponent (F.holds files.now path.now) (option_map (λ bytes. bytes.items) read)) }
    ensures faults { IfErr result (OfFile (IsFaultAt path.now (IsNoComponent (F.holds files.now path.now)))) }
{
    match files.is_regular(path) {
        Ok(true) => read_component(files, alloc, path),
        Ok(false) => Err(fault_of(alloc, path, FileCause::NotRegular)),
        Err(error) if error.kind() == io::ErrorKind::NotFound => Ok(None),
        Err(error) => Err(fault_of(alloc, path, FileCause::System(error))),
    }
}

// The bytes of a regular file, if it still exists.
fn read_component<F: Files>(
    files: &F,
    alloc: Global,
    path: &str,
) -> Result<Option<Vec<u8>>, ReadFault>
    ensures component { IfOk result
        (λ read. IsComponent (F.holds files.now path.now) (option_map (λ bytes. bytes.items) read)) }
    ensures faults { IfErr result (OfFile (IsFaultAt path.now (IsNoComponent (F.holds files.now path.now)))) }
{
    match files.read(alloc, path, MOST_COMPONENT) {
        Ok(bytes) => Ok(Some(bytes)),
        Err(FileCause::System(error)) if error.kind() == io::ErrorKind::NotFound => Ok(None),
        Err(cause) => Err(fault_of(alloc, path, cause)),
    }
}
