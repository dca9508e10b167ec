//! The components of an image.

ghost use Rattle.std.specs.Prelude.{◌≡◌, ◌<◌, ◌^◌, length};
ghost use Rattle.std.specs.Option.{option_copied};

use std::marker::Model;

/// The infos of an image's components, borrowed from the image.
#[derive(Drop)]
pub struct Parts<'a> {
    pub(crate) header: &'a [u8],
    pub(crate) applet: Option<&'a [u8]>,
    pub(crate) imports: Option<&'a [u8]>,
    pub(crate) constant_pool: &'a [u8],
    pub(crate) class: &'a [u8],
    pub(crate) method: &'a [u8],
    pub(crate) static_field: &'a [u8],
    pub(crate) export: Option<&'a [u8]>,
    pub(crate) descriptor: &'a [u8],
}

impl<'a> Model for Parts<'a> {
    ghost use Rattle.std.specs.Prelude.{◌<◌, ◌^◌, length};
    ghost use Rattle.std.specs.Option.{option_copied};
    ghost use Rattle.jc_base.specs.Parts.{Infos};

    ghost Value = { Infos };

    ghost view = { λ p. record {
      header = p.header.now;
      applet = option_copied p.applet;
      imports = option_copied p.imports;
      constant_pool = p.constant_pool.now;
      class = p.class.now;
      method = p.method.now;
      static_field = p.static_field.now;
      export = option_copied p.export;
      descriptor = p.descriptor.now;
    } };

    ghost invariant = { λ p. length p.method.now < 2 ^ 16 };
}

impl<'a> Parts<'a> {
    /// The info of the Header component.
    pub fn header(&self) -> &'a [u8]
        ensures { result.now ≡ self.now.header }
    {
        self.header
    }

    /// The info of the Applet component, if there is one.
    pub fn applet(&self) -> Option<&'a [u8]>
        ensures { option_copied result ≡ self.now.applet }
    {
        self.applet
    }

    /// The info of the Import component, if there is one.
    pub fn imports(&self) -> Option<&'a [u8]>
        ensures { option_copied result ≡ self.now.imports }
    {
        self.imports
    }

    /// The info of the ConstantPool component.
    pub fn constant_pool(&self) -> &'a [u8]
        ensures { result.now ≡ self.now.constant_pool }
    {
        self.constant_pool
    }

    /// The info of the Class component.
    pub fn class(&self) -> &'a [u8]
        ensures { result.now ≡ self.now.class }
    {
        self.class
    }

    /// The info of the Method component, at most 65,535 bytes.
    pub fn method(&self) -> &'a [u8]
        ensures info { result.now ≡ self.now.method }
        ensures short { length self.now.method < 2 ^ 16 }
    {
        self.method
    }

    /// The info of the StaticField component.
    pub fn static_field(&self) -> &'a [u8]
        ensures { result.now ≡ self.now.static_field }
    {
        self.static_field
    }

    /// The info of the Export component, if there is one.
    pub fn export(&self) -> Option<&'a [u8]>
        ensures { option_copied result ≡ self.now.export }
    {
        self.export
    }

    /// The info of the Descriptor component.
    pub fn descriptor(&self) -> &'a [u8]
        ensures { result.now ≡ self.now.descriptor }
    {
        self.descriptor
    }
}
