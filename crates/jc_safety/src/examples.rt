//! Examples, which the prover computes.

ghost use Rattle.std.specs.Prelude.{◌≡◌, [], ◌∷◌, Some};
ghost use Rattle.jc_base.specs.declared.declared_type.DeclaredType.TheVariants.{Boolean, Byte, ByteArray, Short};
ghost use Rattle.jc_base.specs.declared.declared_type.DeclaredType.TheVariants.{ShortArray};
ghost use Rattle.jc_code.specs.declared.object.Form.TheVariants as Forms;
ghost use Rattle.jc_machine.specs.Arrays.{loaded_as};
ghost use Rattle.jc_safety.specs.Loading.{value_at, words_of_array};
ghost use Rattle.jc_safety.specs.LoadingExamples.{one_short, small_image, two_bytes};
ghost use Rattle.jc_words.specs.Values.{Null, Ref, Word};

/// The values of static fields at the offsets of a small image, whose array gets the number 46, and the components of
/// its arrays. A byte is kept without its sign, and loaded with it. It does nothing.
pub fn images_are_read()
    ensures array { value_at 46 small_image 0 ByteArray ≡ Ref 46 }
    ensures no_array { value_at 46 small_image 2 ShortArray ≡ Null }
    ensures default { value_at 46 small_image 4 Boolean ≡ Word 0 }
    ensures short { value_at 46 small_image 5 Short ≡ Word 0x1234 }
    ensures byte { value_at 46 small_image 7 Byte ≡ Word 0x80 }
    ensures signed { loaded_as Forms.Byte (value_at 46 small_image 7 Byte) ≡ Some (Word 0xFF80) }
    ensures bytes { words_of_array two_bytes ≡ 0xFF ∷ 2 ∷ [] }
    ensures shorts { words_of_array one_short ≡ 0xFFFE ∷ [] }
{}
