//! The members of the classes.

ghost use Rattle.std.specs.Prelude.{◌≡◌, length, option_map, map};
ghost use Rattle.jc_api.specs.Numbered.{numbered};
ghost use Rattle.jc_api.specs.Member.{last_member, member_of, members, shown};

use crate::class::ApiClass;
use crate::numbered::numbered;
use jc_base::{DeclaredType, ReturnType};

/// How many members the API has: they are numbered from 1 on.
pub const MEMBER_COUNT: usize = 55;

/// The kind of a member.
#[derive(Clone, Copy, Debug, PartialEq, Eq)]
pub enum MemberKind {
    /// A constructor. Its token is among those of the static methods, but it is called on an object.
    Constructor,
    /// A static method.
    Static,
    /// A virtual method.
    Virtual,
}

/// A member of a class of the API (Java Card API Specification).
#[derive(Clone, Copy, Debug, PartialEq, Eq)]
pub struct Member {
    /// The class that declares it.
    pub class: ApiClass,
    pub kind: MemberKind,
    pub is_abstract: bool,
    /// The types of its parameters, without `this`.
    pub parameters: &'static [DeclaredType<ApiClass>],
    pub result: ReturnType<ApiClass>,
}

impl Member {
    /// The member with a number of 1 to [`MEMBER_COUNT`].
    pub fn from_number(number: u8) -> Option<Member>
        ensures { option_map shown result ≡ member_of number }
    {
        member_in(all_members(), number)
    }
}

fn member_in(rows: &[Member], number: u8) -> Option<Member>
    ensures { option_map shown result ≡ numbered (map shown rows.now) number }
{
    numbered(rows, number)
}

/// The members by their numbers.
pub(crate) fn all_members() -> &'static [Member]
    ensures rows { map shown result.now ≡ members }
    ensures count { length result.now ≡ last_member }
{
    MEMBERS
}

/// A member that isn't abstract: its kind, its class, the types of its parameters, and its result, unless it is void.
macro_rules! row {
    ($kind:ident $class:ident ($($type:ident $(($of:ident))?),*)) => {
        Member {
            class: ApiClass::$class,
            kind: MemberKind::$kind,
            is_abstract: false,
            parameters: &[$(DeclaredType::$type $((ApiClass::$of))?),*],
            result: ReturnType::Void,
        }
    };
    ($kind:ident $class:ident ($($type:ident $(($of:ident))?),*) -> $result:ident $(($result_of:ident))?) => {
        Member {
            class: ApiClass::$class,
            kind: MemberKind::$kind,
            is_abstract: false,
            parameters: &[$(DeclaredType::$type $((ApiClass::$of))?),*],
            result: ReturnType::Value(DeclaredType::$result $((ApiClass::$result_of))?),
        }
    };
}

const MEMBERS: &[Member] = &[
    row!(Constructor Object ()),
    row!(Virtual Object (Reference(Object)) -> Boolean),
    row!(Constructor Throwable ()),
    row!(Constructor Exception ()),
    row!(Constructor RuntimeException ()),
    row!(Constructor ArithmeticException ()),
    row!(Constructor ArrayStoreException ()),
    row!(Constructor ClassCastException ()),
    row!(Constructor IndexOutOfBoundsException ()),
    row!(Constructor ArrayIndexOutOfBoundsException ()),
    row!(Constructor NegativeArraySizeException ()),
    row!(Constructor NullPointerException ()),
    row!(Constructor SecurityException ()),
    row!(Constructor CardRuntimeException (Short)),
    row!(Virtual CardRuntimeException () -> Short),
    row!(Virtual CardRuntimeException (Short)),
    row!(Constructor IsoException (Short)),
    row!(Static IsoException (Short)),
    row!(Constructor SystemException (Short)),
    row!(Static SystemException (Short)),
    row!(Constructor ApduException (Short)),
    row!(Static ApduException (Short)),
    row!(Constructor Aid (ByteArray, Short, Byte)),
    row!(Virtual Aid (ByteArray, Short, Byte) -> Boolean),
    row!(Virtual Aid (ByteArray, Short) -> Byte),
    row!(Virtual Apdu () -> ByteArray),
    row!(Virtual Apdu () -> Short),
    row!(Virtual Apdu () -> Short),
    row!(Virtual Apdu (Short)),
    row!(Virtual Apdu (Short, Short)),
    row!(Virtual Apdu (ByteArray, Short, Short)),
    row!(Virtual Apdu (Short, Short)),
    row!(Constructor Applet ()),
    row!(Virtual Applet ()),
    row!(Virtual Applet (ByteArray, Short, Byte)),
    row!(Virtual Applet () -> Boolean),
    row!(Virtual Applet ()),
    Member {
        class: ApiClass::Applet,
        kind: MemberKind::Virtual,
        is_abstract: true,
        parameters: &[DeclaredType::Reference(ApiClass::Apdu)],
        result: ReturnType::Void,
    },
    row!(Virtual Applet () -> Boolean),
    row!(Virtual Applet (Reference(Aid), Byte) -> Reference(Shareable)),
    row!(Static JcSystem () -> Reference(Aid)),
    row!(Static JcSystem (ByteArray, Short, Byte) -> Reference(Aid)),
    row!(Static JcSystem () -> Reference(Aid)),
    row!(Static JcSystem (Reference(Aid), Byte) -> Reference(Shareable)),
    row!(Static JcSystem (Short, Byte) -> BooleanArray),
    row!(Static JcSystem (Short, Byte) -> ByteArray),
    row!(Static JcSystem (Short, Byte) -> ShortArray),
    row!(Static JcSystem (Short, Byte) -> ReferenceArray(Object)),
    row!(Static Util (ByteArray, Short, ByteArray, Short, Short) -> Short),
    row!(Static Util (ByteArray, Short, ByteArray, Short, Short) -> Short),
    row!(Static Util (ByteArray, Short, Short, Byte) -> Short),
    row!(Static Util (ByteArray, Short, ByteArray, Short, Short) -> Byte),
    row!(Static Util (ByteArray, Short) -> Short),
    row!(Static Util (ByteArray, Short, Short) -> Short),
    row!(Static Util (Byte, Byte) -> Short),
];
