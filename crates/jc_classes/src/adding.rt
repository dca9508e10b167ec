//! A table that grows by a package.

ghost use Rattle.std.specs.Prelude.{◌≡◌, ◌<◌, ◌≤◌, length, IfOk, IfErr};
ghost use Rattle.jc_classes.specs.Growth.{grown};
ghost use Rattle.jc_classes.specs.Limits.{most_packages, most_classes_of_one};

use crate::copying::shape_of;
use crate::shape::PackageShape;
use crate::table::ClassTable;
use jc_cap_desc::Package;
use std::alloc::{AllocError, Global};

impl ClassTable {
    /// Appends a package. If memory runs out, the table is unchanged.
    pub fn add(&mut self, package: &Package) -> Result<(), AllocError>
        requires { length self.now < most_packages }
        ensures done { IfOk result (λ u. self.new ≡ grown self.old «package».now.shape) }
        ensures kept { IfErr result (λ e. self.new ≡ self.old) }
    {
        let alloc = self.shapes.allocator();
        let shape = shape_of(alloc, package)?;
        self.put_package(alloc, shape)
    }

    /// Appends a shape, and makes the tables of its classes. If memory runs out, the table is unchanged.
    pub(crate) fn put_package(
        &mut self,
        alloc: Global,
        shape: PackageShape,
    ) -> Result<(), AllocError>
        requires room { length self.now < most_packages }
        requires few { length shape.classes ≤ most_classes_of_one }
        ensures done { IfOk result (λ u. self.new ≡ grown self.old shape) }
        ensures kept { IfErr result (λ e. self.new ≡ self.old) }
    {
        self.shapes.put(shape)?;
        match self.shapes.put_tables(alloc, &mut self.tables) {
            Ok(()) => Ok(()),
            Err(fault) => {
                self.shapes.drop_last();
                Err(fault)
            }
        }
    }
}
