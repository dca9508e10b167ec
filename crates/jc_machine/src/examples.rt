//! Examples of the defensive machine, which the prover computes.

ghost use Rattle.std.specs.Prelude.{◌≡◌, [], ◌∷◌, ◌++◌, List, None, Some, false, true};
ghost use Rattle.jc_names.specs.declared.name.ClassName.TheVariants as classes;
ghost use Rattle.jc_cap_desc.specs.Shape.{MethodBody, Shape};
ghost use Rattle.jc_code.specs.declared.object.Form.TheVariants as forms;
ghost use Rattle.jc_names.specs.declared.name.MethodName.TheVariants.{Api, Loaded};
ghost use Rattle.jc_firewall.specs.declared.access.Access.TheVariants.{CheckCast, GetField, InvokeInterface};
ghost use Rattle.jc_firewall.specs.declared.access.Access.TheVariants.{InvokeVirtual, LoadComponent, PutField};
ghost use Rattle.jc_firewall.specs.declared.access.Access.TheVariants.{StoreComponent};
ghost use Rattle.jc_firewall.specs.declared.access.Rule.TheVariants.{Components, Fields};
ghost use Rattle.jc_firewall.specs.declared.access.Verdict.TheVariants.{Allowed, AllowedSwitch, Denied};
ghost use Rattle.jc_machine.specs.Arrays.{loaded_as, stored_as};
ghost use Rattle.jc_machine.specs.ExamplePackages.{asker, client, probe, server};
ghost use Rattle.jc_machine.specs.Examples.{a_value, an_object, asking, denied_access, exceptions, have_their_sizes};
ghost use Rattle.jc_machine.specs.Examples.{is_stuck_with, owner, probed, probed_on, probed_with, run, run_with};
ghost use Rattle.jc_machine.specs.Examples.{served_run};
ghost use Rattle.jc_machine.specs.Examples.{shown, start_of, stuck, touch, untouched, used_up, with_served};
ghost use Rattle.jc_machine.specs.Examples.{handler_from, reading};
ghost use Rattle.jc_machine.specs.Idle.{idle};
ghost use Rattle.jc_machine.specs.Machine.{Frame, last_denied};
ghost use Rattle.jc_machine.specs.Step.{is_covered};
ghost use Rattle.jc_machine.specs.Typed.{IsOperand};
ghost use Rattle.jc_words.specs.Values.{Null, Ref, TaggedValue, Unset, Word};
ghost use Rattle.jc_link.specs.Applet.{applet};
ghost use Rattle.jc_store.specs.Heap.{Heap};
ghost use Rattle.jc_types.specs.declared.ty.Ty.{Ty};
ghost use Rattle.jc_api.specs.Bound.{Bound, default_binding};
ghost use Rattle.jc_api.specs.NoClash.{HasNoClash};
ghost use Rattle.jc_link.specs.Built.{IsBuilt};
ghost use Rattle.jc_machine.specs.Accepted.{api_alone};
ghost use Rattle.jc_machine.specs.Running.{MayRun};
ghost use Rattle.jc_machine.specs.Runtime.{HasRuntimeObjects, new_heap};
ghost use Rattle.jc_machine.specs.Typed.{HeapTyped, IsTyped, IsTypedBeside};
ghost use Rattle.jc_machine.specs.TypedExamples.{applet_body, applet_world, idle_in, install_frame};
ghost use Rattle.jc_machine.specs.TypedExamples.{new_machine};
ghost use Rattle.jc_link.specs.Linked.{IsResolved};

use jc_effects::api_classes_have_objects;
use jc_link::{an_applet_is_well_formed, built_worlds_have_the_api};

/// An install makes an applet object, which registers itself. It does nothing.
pub fn install_runs()
    ensures { run (applet ∷ []) 10 (start_of exceptions (owner 1 1) (Loaded 1 1) (Null ∷ Word 0 ∷ Word 0 ∷ []))
        ≡ shown (touch 1 InvokeVirtual 11 Allowed ∷ []) (a_value None) }
{}

/// Calls of methods. It does nothing.
pub fn calls_run()
    ensures an_override_answers { served_run 10 30 (owner 1 1) (Loaded 1 80)
        ≡ shown (touch 1 InvokeVirtual 11 Allowed ∷ []) (a_value (Some (Word 2))) }
    ensures an_inherited_method_answers { served_run 10 10 (owner 1 1) (Loaded 1 80)
        ≡ shown (touch 1 InvokeVirtual 11 Allowed ∷ []) (a_value (Some (Word 1))) }
    ensures an_interface_is_called_across_contexts { served_run 10 30 (owner 2 1) (Loaded 2 1)
        ≡ shown (touch 2 InvokeInterface 11 (AllowedSwitch (owner 1 1)) ∷ []) (a_value (Some (Word 2))) }
    ensures a_field_is_read { served_run 10 30 (owner 1 1) (Loaded 1 100)
        ≡ shown (touch 1 GetField 11 Allowed ∷ []) (a_value (Some (Word 7))) }
    ensures a_field_is_denied_across_contexts { served_run 10 30 (owner 2 1) (Loaded 2 40)
        ≡ shown (touch 2 GetField 11 (Denied Fields) ∷ []) (denied_access 7 GetField 11 Fields) }
    ensures an_exception_passes_two_frames_and_a_switch { served_run 20 50 (owner 2 1) (Loaded 2 20)
        ≡ shown (touch 2 InvokeInterface 11 (AllowedSwitch (owner 1 1)) ∷ []) (a_value (Some (Word 5))) }
    ensures a_service_is_run_by_its_owner { served_run 10 90 (owner 2 1) (Loaded 2 1)
        ≡ shown (touch 2 InvokeInterface 11 (AllowedSwitch (owner 1 1)) ∷ touch 1 GetField 11 Allowed ∷ [])
        (a_value (Some (Word 7))) }
    ensures what_catches_is_run_by_its_owner { served_run 20 50 (owner 2 1) (Loaded 2 60)
        ≡ shown (touch 2 InvokeInterface 11 (AllowedSwitch (owner 1 1)) ∷ touch 2 GetField 11 (Denied Fields) ∷ [])
        (denied_access 7 GetField 11 Fields) }
    ensures an_uncaught_exception_ends_a_call { served_run 20 50 (owner 2 1) (Loaded 2 1)
        ≡ shown (touch 2 InvokeInterface 11 (AllowedSwitch (owner 1 1)) ∷ []) (an_object 1) }
    ensures null_has_no_method { run (server ∷ client ∷ []) 10
        (start_of (with_served 30) (owner 1 1) (Loaded 1 80) (Null ∷ [])) ≡ untouched (an_object 6) }
    ensures steps_are_used_up_inside_a_call { served_run 3 30 (owner 1 1) (Loaded 1 80)
        ≡ shown (touch 1 InvokeVirtual 11 Allowed ∷ []) used_up }
    ensures frames_are_used_up { run (server ∷ client ∷ []) 90 (start_of (with_served 30) (owner 1 1) (Loaded 1 120) [])
        ≡ untouched used_up }
{}

/// Of several accesses the last is told, if it was denied. It does nothing.
pub fn the_last_access_is_told()
    ensures denied_at_last { last_denied (reading 11 Allowed ∷ reading 12 (Denied Components) ∷ [])
        ≡ Some (record { access = LoadComponent; object = 12; rule = Components }) }
    ensures allowed_at_last { last_denied (reading 11 (Denied Components) ∷ reading 12 Allowed ∷ []) ≡ None }
{}

/// A native member calls back a member of an object, as the object's owner. It does nothing.
pub fn callback_runs()
    ensures { run_with asking (applet ∷ server ∷ asker ∷ []) 20 (start_of (with_served 0) (owner 3 1) (Loaded 3 1) [])
        ≡ shown (touch 1 InvokeVirtual 11 Allowed ∷ []) (a_value (Some (Word 1))) }
{}

/// A runtime call may begin with a native member. It does nothing.
pub fn natives_run()
    ensures deselect_gives_nothing { run (applet ∷ []) 10 (start_of (with_served 0) (owner 1 1) (Api 37) (Ref 11 ∷ []))
        ≡ untouched (a_value None) }
    ensures process_is_abstract { run (applet ∷ []) 10
        (start_of (with_served 0) (owner 1 1) (Api 38) (Ref 11 ∷ Null ∷ [])) ≡ untouched stuck }
    ensures a_result_is_missing { run (applet ∷ []) 10 (start_of (with_served 0) (owner 1 1) (Api 36) (Ref 11 ∷ []))
        ≡ untouched stuck }
    ensures idle_natives_give_zero { run_with idle (applet ∷ []) 10
        (start_of (with_served 0) (owner 1 1) (Api 36) (Ref 11 ∷ [])) ≡ untouched (a_value (Some (Word 0))) }
    ensures no_applet { run (server ∷ []) 10 (start_of (with_served 10) (owner 1 1) (Api 37) (Ref 11 ∷ []))
        ≡ untouched stuck }
    ensures a_callback_of_no_applet { run_with asking (server ∷ applet ∷ asker ∷ []) 20
        (start_of (with_served 10) (owner 3 1) (Loaded 3 1) []) ≡ untouched stuck }
{}

/// Each instance among the runtime's own objects has as many components as its class has cells. It does nothing.
pub fn runtime_objects_fit()
    ensures { have_their_sizes ≡ true }
{}

/// Operands must have been written: an unset value has no type as an operand, and a step that drops one gets stuck. It
/// does nothing.
pub fn operands_are_written()
    ensures a_word_is_dropped { is_stuck_with (Word 0) ≡ false }
    ensures an_unset_operand_is_stuck { is_stuck_with Unset ≡ true }
    ensures an_unset_operand_has_no_type { (world : List Shape) (heap : Heap TaggedValue) (type : Ty)
        → IsOperand world heap Unset type → ⊥ }
{}

/// Each of these faults makes the machine stuck. It does nothing.
pub fn stuck_runs()
    ensures an_operand_too_many { probed 1 ≡ untouched stuck }
    ensures an_operand_is_missing { probed 10 ≡ untouched stuck }
    ensures a_local_was_never_written { probed 20 ≡ untouched stuck }
    ensures no_instruction_begins { probed 30 ≡ untouched stuck }
    ensures an_entry_is_missing { probed 40 ≡ untouched stuck }
    ensures a_result_of_another_type { probed 50 ≡ untouched stuck }
    ensures an_operand_of_another_tag { probed_on 0 200 ≡ untouched stuck }
    ensures no_array { probed_on 0 210 ≡ untouched stuck }
    ensures an_argument_of_another_class { probed_on 30 220 ≡ untouched stuck }
    ensures an_object_of_another_class { probed_on 0 240 ≡ untouched stuck }
    ensures a_first_argument_of_another_class { probed_on 30 230 ≡ untouched stuck }
    ensures a_first_argument_is_missing { probed 200 ≡ untouched stuck }
    ensures a_first_header_counts_more { probed 270 ≡ untouched stuck }
    ensures a_header_counts_more { probed 280 ≡ untouched stuck }
    ensures a_component_of_another_tag { probed_with Null ≡ shown (touch 1 LoadComponent 11 Allowed ∷ []) stuck }
    ensures no_room_for_what_is_caught { probed 130 ≡ untouched stuck }
    ensures a_catch_type_is_missing { probed 160 ≡ untouched stuck }
    ensures a_native_argument_of_another_type { run_with idle (probe ∷ []) 20
        (start_of (with_served 60) (owner 1 1) (Loaded 1 260) (Ref 11 ∷ []))
        ≡ shown (touch 1 InvokeInterface 11 Allowed ∷ []) stuck }
    ensures an_abstract_method { probed_on 30 240 ≡ shown (touch 1 InvokeVirtual 11 Allowed ∷ []) stuck }
{}

/// Instructions that throw, and a store, a shift and a cast that don't. It does nothing.
pub fn throws_run()
    ensures a_negative_length { probed 60 ≡ untouched (an_object 5) }
    ensures an_index_past_the_end { probed 70 ≡ shown (touch 1 LoadComponent 11 Allowed ∷ []) (an_object 4) }
    ensures no_room { probed 80 ≡ shown (touch 0 PutField 9 Allowed ∷ []) (an_object 9) }
    ensures a_byte_with_its_sign { probed 100
        ≡ shown (touch 1 StoreComponent 11 Allowed ∷ touch 1 LoadComponent 11 Allowed ∷ [])
        (a_value (Some (Word 0xFFFF))) }
    ensures a_shift_of_sixteen_bits { probed 120 ≡ untouched (a_value (Some (Word 0xFFFF))) }
    ensures a_cast_passes { probed_on 0 250 ≡ shown (touch 1 CheckCast 11 Allowed ∷ []) (a_value (Some (Word 1))) }
    ensures a_cast_fails { probed_on 30 250 ≡ shown (touch 1 CheckCast 11 Allowed ∷ []) (an_object 3) }
{}

/// A new machine has only the runtime's own objects: all of them exist, and they are typed in each built world. If a
/// binding has no clash, the machine is well typed, apart from its frame, in the world with only the API's packages,
/// and it may run there with native members that do nothing. It does nothing.
pub fn new_machines_are_typed()
    ensures there { HasRuntimeObjects new_heap }
    ensures objects { (world : List Shape) → IsBuilt world → HeapTyped world new_heap }
    ensures beside { (bound : Bound) → HasNoClash bound → (frame : Frame)
        → IsTypedBeside (idle_in (api_alone bound)) (new_machine [] frame) }
    ensures runs { (bound : Bound) → HasNoClash bound → MayRun (idle_in (api_alone bound)) }
{
    built_worlds_have_the_api();
    api_classes_have_objects();
}

/// A new machine that begins an applet's install is well typed in a world with the applet's package, whose pool is
/// resolved. It may run there with native members that do nothing. It does nothing.
pub fn first_frames_are_typed()
    ensures resolved { IsResolved applet_world.shapes 2 applet_body }
    ensures typed { IsTyped (idle_in applet_world) (new_machine ([] ∷ []) install_frame) }
    ensures runs { HasNoClash default_binding → MayRun (idle_in applet_world) }
{
    an_applet_is_well_formed();
}

/// A component or field of bytes keeps the low byte of a word, and a load extends its sign; a component or field of
/// shorts keeps the word. It does nothing.
pub fn bytes_are_kept()
    ensures the_low_byte { stored_as forms.Byte (Word 0x1FF) ≡ Word 0xFF }
    ensures the_least { loaded_as forms.Byte (Word 0x80) ≡ Some (Word 0xFF80) }
    ensures minus_one { loaded_as forms.Byte (Word 0xFF) ≡ Some (Word 0xFFFF) }
    ensures the_greatest { loaded_as forms.Byte (Word 0x7F) ≡ Some (Word 0x7F) }
    ensures a_short { stored_as forms.Short (Word 0x1FF) ≡ Word 0x1FF }
{}

/// An exception handler covers the bytes of its range: if code begins at byte 20 of the Method component, a range of
/// three bytes from byte 22 on covers the pcs 2 and 4, but neither 1 nor 5. It does nothing.
pub fn handlers_cover_their_ranges()
    ensures in_front { (body : MethodBody) → body.code_offset ≡ 20 → is_covered body 1 (handler_from 22 3) ≡ false }
    ensures the_first { (body : MethodBody) → body.code_offset ≡ 20 → is_covered body 2 (handler_from 22 3) ≡ true }
    ensures the_last { (body : MethodBody) → body.code_offset ≡ 20 → is_covered body 4 (handler_from 22 3) ≡ true }
    ensures behind { (body : MethodBody) → body.code_offset ≡ 20 → is_covered body 5 (handler_from 22 3) ≡ false }
{}
