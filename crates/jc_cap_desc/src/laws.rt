//! What the definition of reading a package implies.

ghost use Rattle.std.specs.Prelude.{◌≡◌, ◌<◌, ◌^◌, Ok, length};
ghost use Rattle.jc_base.specs.Parts.{Infos};
ghost use Rattle.jc_cap_desc.specs.Package.{package_of};
ghost use Rattle.jc_cap_desc.specs.Shape.{HaveBodies, HaveHeaders, InstallMethods, Package, StandApart};
ghost use Rattle.jc_cap_desc.specs.Whole.{HasRows};

/// Laws of each package that is read from the parts of an image. Its methods with code have different offsets. The
/// methods of its classes have headers, and those that aren't abstract have code. Its applets have install methods. It
/// has at most as many classes as its Descriptor component has rows. It does nothing.
pub fn read_packages_are_whole()
    ensures apart { (parts : Infos) (p : Package) → package_of parts ≡ Ok p → length parts.method < 2 ^ 16
        → StandApart p.body.methods }
    ensures headers { (parts : Infos) (p : Package) → package_of parts ≡ Ok p → HaveHeaders p.shape }
    ensures bodies { (parts : Infos) (p : Package) → package_of parts ≡ Ok p → HaveBodies p }
    ensures installs { (parts : Infos) (p : Package) → package_of parts ≡ Ok p → InstallMethods p }
    ensures rows { (parts : Infos) (p : Package) → package_of parts ≡ Ok p → HasRows parts p }
{}
