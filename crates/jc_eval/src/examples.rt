//! Examples of code alone, which the prover computes.

ghost use Rattle.std.specs.Prelude.{◌≡◌, ◌++◌, [], ◌∷◌, None, Some, negsuc, pos, replicate};
ghost use Rattle.jc_eval.specs.Examples.{run_of};
ghost use Rattle.jc_code.specs.declared.instr.BinaryOperator.TheVariants.{Add, Divide};
ghost use Rattle.jc_code.specs.declared.instr.Operation.TheVariants.{Object, Word};
ghost use Rattle.jc_code.specs.declared.instr.When.TheVariants.{Always};
ghost use Rattle.jc_code.specs.declared.instr.WordOperation.TheVariants.{Binary, Branch, Load, Nop, Push};
ghost use Rattle.jc_code.specs.declared.instr.WordOperation.TheVariants.{ReturnWord, Store};
ghost use Rattle.jc_code.specs.declared.object.ObjectOperation.TheVariants.{PushNull};
ghost use Rattle.jc_machine.specs.Examples.{a_value, an_object, stuck, used_up};
ghost use Rattle.jc_words.specs.Values as values;

/// Code alone that runs to an end. It returns a sum, and a sum that wraps; a local that was written is loaded; there is
/// room for eight operands; a division by zero throws; a loop uses up its steps. It does nothing.
pub fn code_runs()
    ensures a_sum { run_of (Word (Push (pos 2)) ∷ Word (Push (pos 3)) ∷ Word (Binary Add) ∷ Word ReturnWord ∷ []) 4
        ≡ a_value (Some (values.Word 5)) }
    ensures a_sum_that_wraps { run_of
        (Word (Push (pos 32767)) ∷ Word (Push (pos 1)) ∷ Word (Binary Add) ∷ Word ReturnWord ∷ []) 4
        ≡ a_value (Some (values.Word 32768)) }
    ensures a_local { run_of (Word (Push (negsuc 0)) ∷ Word (Store 1) ∷ Word (Load 1) ∷ Word ReturnWord ∷ []) 4
        ≡ a_value (Some (values.Word 65535)) }
    ensures as_many_as_may_be { run_of (replicate 8 (Word (Push (pos 2))) ++ Word ReturnWord ∷ []) 9
        ≡ a_value (Some (values.Word 2)) }
    ensures a_division_by_zero { run_of (Word (Push (pos 2)) ∷ Word (Push (pos 0)) ∷ Word (Binary Divide) ∷ []) 3
        ≡ an_object 1 }
    ensures a_loop { run_of (Word (Branch Always (pos 0)) ∷ []) 20 ≡ used_up }
    ensures a_step_too_few { run_of (Word (Push (pos 2)) ∷ Word ReturnWord ∷ []) 1 ≡ used_up }
{}

/// Code alone that the check refuses is stuck. It does nothing.
pub fn stuck_code_runs()
    ensures an_operand_is_missing { run_of (Word ReturnWord ∷ []) 9 ≡ stuck }
    ensures an_operand_too_many { run_of (replicate 9 (Word (Push (pos 2)))) 9 ≡ stuck }
    ensures a_local_was_never_written { run_of (Word (Load 0) ∷ []) 9 ≡ stuck }
    ensures a_local_too_many { run_of (Word (Push (pos 2)) ∷ Word (Store 2) ∷ []) 9 ≡ stuck }
    ensures no_instruction_begins { run_of (Word Nop ∷ []) 9 ≡ stuck }
    ensures before_the_code { run_of (Word (Branch Always (negsuc 0)) ∷ []) 9 ≡ stuck }
    ensures an_instruction_on_objects { run_of (Object PushNull ∷ []) 9 ≡ stuck }
{}
