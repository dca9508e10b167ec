//! Examples of verdicts, which the prover computes from the table. Context 1 is active if no other is named; context 0
//! is the runtime's.

ghost use Rattle.std.specs.Prelude.{◌≡◌, false, true, None, Some};
ghost use Rattle.jc_store.specs.declared.kind.ClearingEvent.TheVariants.{Deselect, Reset};
ghost use Rattle.jc_store.specs.declared.kind.Mark.TheVariants.{GlobalArray, PermanentEntryPoint, Plain};
ghost use Rattle.jc_store.specs.declared.kind.Mark.TheVariants.{TemporaryEntryPoint};
ghost use Rattle.jc_firewall.specs.Examples.{array_in, object_in, service_in, storing};
ghost use Rattle.jc_firewall.specs.Verdict.{verdict_of};
ghost use Rattle.jc_firewall.specs.declared.access.Access.TheVariants.{ArrayLength, CheckCast, GetField};
ghost use Rattle.jc_firewall.specs.declared.access.Access.TheVariants.{InstanceOf, InvokeInterface, InvokeVirtual};
ghost use Rattle.jc_firewall.specs.declared.access.Access.TheVariants.{LoadComponent, PutField, PutReferenceField};
ghost use Rattle.jc_firewall.specs.declared.access.Access.TheVariants.{PutStaticReference, StoreComponent};
ghost use Rattle.jc_firewall.specs.declared.access.Access.TheVariants.{StoreReference, Throw};
ghost use Rattle.jc_firewall.specs.declared.access.Rule.TheVariants as rules;
ghost use Rattle.jc_firewall.specs.declared.access.Verdict.TheVariants.{Allowed, AllowedSwitch, Denied};

/// Static fields, and stored references. It does nothing.
pub fn references_are_stored()
    ensures own { verdict_of PutStaticReference 1 (object_in 1 Plain) ≡ Allowed }
    ensures foreign { verdict_of PutStaticReference 1 (object_in 2 Plain) ≡ Allowed }
    ensures permanent { verdict_of PutStaticReference 1 (storing PermanentEntryPoint) ≡ Allowed }
    ensures temporary { verdict_of PutStaticReference 1 (storing TemporaryEntryPoint) ≡ Denied rules.Storing }
    ensures global { verdict_of PutStaticReference 1 (storing GlobalArray) ≡ Denied rules.Storing }
    ensures temporary_in_field { verdict_of PutReferenceField 1 (storing TemporaryEntryPoint) ≡ Denied rules.Storing }
    ensures global_in_field { verdict_of PutReferenceField 1 (storing GlobalArray) ≡ Denied rules.Storing }
    ensures temporary_in_array { verdict_of StoreReference 1 (storing TemporaryEntryPoint) ≡ Denied rules.Storing }
    ensures global_in_array { verdict_of StoreReference 1 (storing GlobalArray) ≡ Denied rules.Storing }
{}

/// Fields. It does nothing.
pub fn fields_are_own()
    ensures own_read { verdict_of GetField 1 (object_in 1 Plain) ≡ Allowed }
    ensures own_written { verdict_of PutField 1 (object_in 1 Plain) ≡ Allowed }
    ensures own_reference { verdict_of PutReferenceField 1 (object_in 1 Plain) ≡ Allowed }
    ensures foreign_read { verdict_of GetField 1 (object_in 2 Plain) ≡ Denied rules.Fields }
    ensures foreign_written { verdict_of PutField 1 (object_in 2 Plain) ≡ Denied rules.Fields }
    ensures foreign_reference { verdict_of PutReferenceField 1 (object_in 2 Plain) ≡ Denied rules.Fields }
    ensures permanent { verdict_of GetField 1 (object_in 0 PermanentEntryPoint) ≡ Denied rules.Fields }
    ensures temporary { verdict_of GetField 1 (object_in 0 TemporaryEntryPoint) ≡ Denied rules.Fields }
{}

/// Components and lengths of arrays. It does nothing.
pub fn components_are_own_or_global()
    ensures own_read { verdict_of LoadComponent 1 (array_in 1 Plain None None) ≡ Allowed }
    ensures own_written { verdict_of StoreComponent 1 (array_in 1 Plain None None) ≡ Allowed }
    ensures own_reference { verdict_of StoreReference 1 (array_in 1 Plain None None) ≡ Allowed }
    ensures own_length { verdict_of ArrayLength 1 (array_in 1 Plain None None) ≡ Allowed }
    ensures foreign_read { verdict_of LoadComponent 1 (array_in 2 Plain None None) ≡ Denied rules.Components }
    ensures foreign_written { verdict_of StoreComponent 1 (array_in 2 Plain None None) ≡ Denied rules.Components }
    ensures foreign_reference { verdict_of StoreReference 1 (array_in 2 Plain None None) ≡ Denied rules.Components }
    ensures foreign_length { verdict_of ArrayLength 1 (array_in 2 Plain None None) ≡ Denied rules.Components }
    ensures global_read { verdict_of LoadComponent 1 (array_in 0 GlobalArray None None) ≡ Allowed }
    ensures global_written { verdict_of StoreComponent 1 (array_in 0 GlobalArray None None) ≡ Allowed }
    ensures global_length { verdict_of ArrayLength 1 (array_in 0 GlobalArray None None) ≡ Allowed }
{}

/// Arrays that are cleared on deselect. It does nothing.
pub fn cleared_arrays_are_of_the_selected_context()
    ensures selected { verdict_of LoadComponent 1 (array_in 1 Plain (Some Deselect) (Some 1)) ≡ Allowed }
    ensures other { verdict_of LoadComponent 1 (array_in 1 Plain (Some Deselect) (Some 2)) ≡ Denied rules.Selection }
    ensures none { verdict_of ArrayLength 1 (array_in 1 Plain (Some Deselect) None) ≡ Denied rules.Selection }
    ensures foreign { verdict_of StoreComponent 1 (array_in 2 Plain (Some Deselect) (Some 2)) ≡ Denied rules.Selection }
    ensures reset { verdict_of LoadComponent 1 (array_in 1 Plain (Some Reset) None) ≡ Allowed }
    ensures cast { verdict_of CheckCast 1 (array_in 1 Plain (Some Deselect) (Some 2)) ≡ Denied rules.Selection }
{}

/// Calls of virtual methods. It does nothing.
pub fn methods_are_own_or_the_runtimes()
    ensures own { verdict_of InvokeVirtual 1 (object_in 1 Plain) ≡ Allowed }
    ensures foreign { verdict_of InvokeVirtual 1 (object_in 2 Plain) ≡ Denied rules.Calls }
    ensures shareable { verdict_of InvokeVirtual 1 (service_in 2 Plain true) ≡ Denied rules.Calls }
    ensures permanent { verdict_of InvokeVirtual 1 (object_in 0 PermanentEntryPoint)
        ≡ AllowedSwitch (record { context = 0; instance = 0 }) }
    ensures temporary { verdict_of InvokeVirtual 1 (object_in 0 TemporaryEntryPoint)
        ≡ AllowedSwitch (record { context = 0; instance = 0 }) }
    ensures global { verdict_of InvokeVirtual 1 (array_in 0 GlobalArray None None)
        ≡ AllowedSwitch (record { context = 0; instance = 0 }) }
{}

/// Calls of methods of interfaces, shareable or not. It does nothing.
pub fn services_are_shared()
    ensures own { verdict_of InvokeInterface 1 (object_in 1 Plain) ≡ Allowed }
    ensures foreign { verdict_of InvokeInterface 1 (object_in 2 Plain) ≡ Denied rules.Calls }
    ensures permanent { verdict_of InvokeInterface 1 (object_in 0 PermanentEntryPoint)
        ≡ AllowedSwitch (record { context = 0; instance = 0 }) }
    ensures global { verdict_of InvokeInterface 1 (array_in 0 GlobalArray None None) ≡ Denied rules.Calls }
    ensures own_service { verdict_of InvokeInterface 1 (service_in 1 Plain false) ≡ Allowed }
    ensures service { verdict_of InvokeInterface 1 (service_in 2 Plain true)
        ≡ AllowedSwitch (record { context = 2; instance = 1 }) }
    ensures unshared { verdict_of InvokeInterface 1 (service_in 2 Plain false) ≡ Denied rules.SharedCalls }
    ensures service_of_the_runtime { verdict_of InvokeInterface 1 (service_in 0 PermanentEntryPoint false)
        ≡ AllowedSwitch (record { context = 0; instance = 0 }) }
    ensures global_service { verdict_of InvokeInterface 1 (service_in 0 GlobalArray false) ≡ Denied rules.SharedCalls }
{}

/// Exceptions. It does nothing.
pub fn thrown_objects_are_own_or_the_runtimes()
    ensures own { verdict_of Throw 1 (object_in 1 Plain) ≡ Allowed }
    ensures foreign { verdict_of Throw 1 (object_in 2 Plain) ≡ Denied rules.Throws }
    ensures shareable { verdict_of Throw 1 (service_in 2 Plain true) ≡ Denied rules.Throws }
    ensures permanent { verdict_of Throw 1 (object_in 0 PermanentEntryPoint) ≡ Allowed }
    ensures temporary { verdict_of Throw 1 (object_in 0 TemporaryEntryPoint) ≡ Allowed }
{}

/// Casts and tests of types. It does nothing.
pub fn casts_are_of_own_objects_or_of_services()
    ensures own { verdict_of CheckCast 1 (object_in 1 Plain) ≡ Allowed }
    ensures foreign { verdict_of CheckCast 1 (object_in 2 Plain) ≡ Denied rules.Casts }
    ensures foreign_tested { verdict_of InstanceOf 1 (object_in 2 Plain) ≡ Denied rules.Casts }
    ensures permanent { verdict_of CheckCast 1 (object_in 0 PermanentEntryPoint) ≡ Allowed }
    ensures service { verdict_of CheckCast 1 (service_in 2 Plain true) ≡ Allowed }
    ensures service_tested { verdict_of InstanceOf 1 (service_in 2 Plain true) ≡ Allowed }
    ensures unshared { verdict_of CheckCast 1 (service_in 2 Plain false) ≡ Denied rules.SharedCasts }
    ensures unshared_tested { verdict_of InstanceOf 1 (service_in 2 Plain false) ≡ Denied rules.SharedCasts }
    ensures own_unshared { verdict_of CheckCast 1 (service_in 1 Plain false) ≡ Allowed }
    ensures own_array { verdict_of CheckCast 1 (array_in 1 Plain None None) ≡ Allowed }
    ensures foreign_array { verdict_of InstanceOf 1 (array_in 2 Plain None None) ≡ Denied rules.Components }
    ensures global_array { verdict_of CheckCast 1 (array_in 0 GlobalArray None None) ≡ Allowed }
{}

/// The runtime is active. It does nothing.
pub fn all_is_allowed_to_the_runtime()
    ensures read { verdict_of GetField 0 (object_in 2 Plain) ≡ Allowed }
    ensures written { verdict_of StoreComponent 0 (array_in 2 Plain (Some Deselect) None) ≡ Allowed }
    ensures stored { verdict_of PutStaticReference 0 (storing TemporaryEntryPoint) ≡ Allowed }
    ensures called { verdict_of InvokeVirtual 0 (object_in 2 Plain)
        ≡ AllowedSwitch (record { context = 2; instance = 1 }) }
    ensures called_by_interface { verdict_of InvokeInterface 0 (service_in 2 Plain false)
        ≡ AllowedSwitch (record { context = 2; instance = 1 }) }
    ensures thrown { verdict_of Throw 0 (object_in 2 Plain) ≡ Allowed }
    ensures cast { verdict_of CheckCast 0 (object_in 2 Plain) ≡ Allowed }
{}
