//! Types that name classes of a world.

ghost use Rattle.std.specs.Prelude.{◌≡◌, ℕ, Bool, true, List};
ghost use Rattle.std.specs.List.{list_all};
ghost use Rattle.jc_api.specs.declared.class.ApiClass.TheVariants.{Object};
ghost use Rattle.jc_names.specs.declared.name.ClassName.{ClassName};
ghost use Rattle.jc_names.specs.declared.name.ClassName.TheVariants.{Api};
ghost use Rattle.jc_types.specs.Known.{AreKnown, is_known};
ghost use Rattle.jc_types.specs.State.{Types, entry_types, joined_types};
ghost use Rattle.jc_types.specs.declared.ty.Ty.{Ty};

/// Suppose that Object is known, and that the common class of two is known if the first is. Then a join of two states
/// names only known classes if both states do, and the state at a method's entry does if its arguments do. It does
/// nothing.
pub fn known_laws()
    ensures joins { (known : ClassName → Bool) (common : ClassName → ClassName → ClassName) → known (Api Object) ≡ true
        → ((c d : ClassName) → known c ≡ true → known (common c d) ≡ true)
        → (s t : Types) → AreKnown known s → AreKnown known t → AreKnown known (joined_types common s t) }
    ensures entries { (known : ClassName → Bool) (arguments : List Ty) (max_locals : ℕ)
        → list_all (is_known known) arguments ≡ true → AreKnown known (entry_types arguments max_locals) }
{}
