//! Decoded instructions on references.

ghost use Rattle.std.specs.Prelude.{◌≡◌};
ghost use Rattle.jc_code.specs.Targets.{object_flow};

use crate::flow::Flow;

/// What an instruction on references does: to objects, arrays, members and methods. An index is one of the constant
/// pool. Offsets count from the instruction's own opcode.
#[derive(Clone, Copy)]
pub enum ObjectOperation {
    /// aconst_null
    PushNull,
    /// aload: puts the reference of a local on the operand stack.
    Load(u8),
    /// astore: takes a reference into a local.
    Store(u8),
    /// aaload, baload, saload: takes an array and an index, and puts the component.
    LoadComponent(Form),
    /// aastore, bastore, sastore: takes an array, an index and the new component.
    StoreComponent(Form),
    /// arraylength
    ArrayLength,
    /// ifnull, ifnonnull, if_acmpeq, if_acmpne: goes to another place if a condition holds.
    Branch {
        when: ReferenceCondition,
        offset: i16,
    },
    /// getstatic, putstatic, getfield, putfield, and the latter two on this.
    Field {
        access: FieldAccess,
        index: u16,
    },
    /// invokevirtual, invokespecial, invokestatic, invokeinterface
    Invoke(Invocation),
    /// new, newarray, anewarray
    Create(Creation),
    /// checkcast: throws if a reference isn't of the type.
    CheckCast(TestedType),
    /// instanceof: whether a reference is of the type.
    InstanceOf(TestedType),
    /// athrow
    Throw,
    /// areturn: ends the method with a reference.
    ReturnReference,
    /// return: ends the method without a value.
    ReturnVoid,
}

impl ObjectOperation {
    /// Where control flow goes after it.
    pub(crate) fn flow<'a>(self) -> Flow<'a>
        ensures { result ≡ object_flow self }
    {
        match self {
            ObjectOperation::PushNull => Flow::On,
            ObjectOperation::Load(_) | ObjectOperation::Store(_) => Flow::On,
            ObjectOperation::LoadComponent(_) => Flow::On,
            ObjectOperation::StoreComponent(_) => Flow::On,
            ObjectOperation::ArrayLength => Flow::On,
            ObjectOperation::Branch { offset, .. } => Flow::Branch(offset),
            ObjectOperation::Field { .. } => Flow::On,
            ObjectOperation::Invoke(_) | ObjectOperation::Create(_) => Flow::On,
            ObjectOperation::CheckCast(_) | ObjectOperation::InstanceOf(_) => Flow::On,
            ObjectOperation::Throw => Flow::End,
            ObjectOperation::ReturnReference | ObjectOperation::ReturnVoid => Flow::End,
        }
    }
}

/// What is loaded or stored: the letter in an instruction's name.
#[derive(Clone, Copy)]
pub enum Form {
    /// a
    Reference,
    /// b: a boolean or a byte.
    Byte,
    /// s
    Short,
}

/// When a branch on references is taken.
#[derive(Clone, Copy)]
pub enum ReferenceCondition {
    /// If a reference is null.
    Null,
    /// If a reference isn't null.
    NotNull,
    /// If two references are equal.
    Same,
    /// If two references differ.
    Different,
}

/// How a field is used.
#[derive(Clone, Copy)]
pub struct FieldAccess {
    pub action: FieldAction,
    pub holder: Holder,
    pub form: Form,
}

/// What is done to a field.
#[derive(Clone, Copy)]
pub enum FieldAction {
    Get,
    Put,
}

/// What has the field.
#[derive(Clone, Copy)]
pub enum Holder {
    /// A class: the field is static.
    Class,
    /// The object on the operand stack.
    Operand,
    /// The object in local 0.
    This,
}

/// A call.
#[derive(Clone, Copy)]
pub enum Invocation {
    /// invokevirtual
    Virtual {
        index: u16,
    },
    /// invokespecial
    Special {
        index: u16,
    },
    /// invokestatic
    Static {
        index: u16,
    },
    /// invokeinterface: `arguments` counts the words of the arguments, the object included.
    Interface {
        arguments: u8,
        index: u16,
        token: u8,
    },
}

/// What is created.
#[derive(Clone, Copy)]
pub enum Creation {
    /// new: an object of a class.
    Object { index: u16 },
    /// newarray: an array of words.
    WordArray(WordKind),
    /// anewarray: an array of references to a class.
    ReferenceArray { index: u16 },
}

/// The component type of an array of words.
#[derive(Clone, Copy)]
pub enum WordKind {
    Boolean,
    Byte,
    Short,
}

/// A type that a reference is tested against.
#[derive(Clone, Copy)]
pub enum TestedType {
    /// A class.
    Class { index: u16 },
    /// An array of words.
    WordArray(WordKind),
    /// An array of references to a class.
    ReferenceArray { index: u16 },
}
