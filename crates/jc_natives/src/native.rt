//! The native members, by their classes and their numbers.

ghost use Rattle.std.specs.Prelude.{◌≡◌};
ghost use Rattle.jc_api.specs.Numbered.{numbered};
ghost use Rattle.jc_natives.specs.Members.{natives};

/// The runtime's exceptions with a reason, by their numbers.
pub(crate) const ISO_EXCEPTION: u16 = 8;

pub(crate) const SYSTEM_EXCEPTION: u16 = 9;

pub(crate) const APDU_EXCEPTION: u16 = 10;

/// Members of Object and of exceptions.
#[derive(Clone, Copy, Debug)]
pub enum ObjectNative {
    /// A constructor that sets nothing.
    Construct,
    Equals,
    /// A constructor that sets the reason.
    ConstructWithReason,
    GetReason,
    SetReason,
    /// Throws the runtime's exception with this number.
    ThrowIt(u16),
}

/// Members of AID.
#[derive(Clone, Copy, Debug)]
pub enum AidNative {
    Construct,
    Equals,
    GetBytes,
}

/// Members of APDU.
#[derive(Clone, Copy, Debug)]
pub enum ApduNative {
    GetBuffer,
    SetIncomingAndReceive,
    SetOutgoing,
    SetOutgoingLength,
    SendBytes,
    SendBytesLong,
    SetOutgoingAndSend,
}

/// Members of Applet, except its constructor.
#[derive(Clone, Copy, Debug)]
pub enum AppletNative {
    Register,
    RegisterBytes,
    Select,
    Deselect,
    /// It is abstract, so no call begins with it.
    Process,
    SelectingApplet,
    GetShareable,
}

/// Members of JCSystem.
#[derive(Clone, Copy, Debug)]
pub enum SystemNative {
    GetAid,
    LookupAid,
    GetPreviousAid,
    AskForShareable,
    MakeBooleans,
    MakeBytes,
    MakeShorts,
    MakeReferences,
}

/// The type of the components of a transient array.
#[derive(Clone, Copy, Debug)]
pub enum Elements {
    Booleans,
    Bytes,
    Shorts,
    /// References to objects of class Object.
    References,
}

/// Members of Util.
#[derive(Clone, Copy, Debug)]
pub enum UtilityNative {
    ArrayCopy,
    ArrayFill,
    ArrayCompare,
    GetShort,
    SetShort,
    MakeShort,
}

/// A native member.
#[derive(Clone, Copy, Debug)]
pub enum Native {
    OfObject(ObjectNative),
    OfAid(AidNative),
    OfApdu(ApduNative),
    OfApplet(AppletNative),
    OfSystem(SystemNative),
    OfUtility(UtilityNative),
}

const NATIVES: &[Native] = &[
    Native::OfObject(ObjectNative::Construct),
    Native::OfObject(ObjectNative::Equals),
    Native::OfObject(ObjectNative::Construct),
    Native::OfObject(ObjectNative::Construct),
    Native::OfObject(ObjectNative::Construct),
    Native::OfObject(ObjectNative::Construct),
    Native::OfObject(ObjectNative::Construct),
    Native::OfObject(ObjectNative::Construct),
    Native::OfObject(ObjectNative::Construct),
    Native::OfObject(ObjectNative::Construct),
    Native::OfObject(ObjectNative::Construct),
    Native::OfObject(ObjectNative::Construct),
    Native::OfObject(ObjectNative::Construct),
    Native::OfObject(ObjectNative::ConstructWithReason),
    Native::OfObject(ObjectNative::GetReason),
    Native::OfObject(ObjectNative::SetReason),
    Native::OfObject(ObjectNative::ConstructWithReason),
    Native::OfObject(ObjectNative::ThrowIt(ISO_EXCEPTION)),
    Native::OfObject(ObjectNative::ConstructWithReason),
    Native::OfObject(ObjectNative::ThrowIt(SYSTEM_EXCEPTION)),
    Native::OfObject(ObjectNative::ConstructWithReason),
    Native::OfObject(ObjectNative::ThrowIt(APDU_EXCEPTION)),
    Native::OfAid(AidNative::Construct),
    Native::OfAid(AidNative::Equals),
    Native::OfAid(AidNative::GetBytes),
    Native::OfApdu(ApduNative::GetBuffer),
    Native::OfApdu(ApduNative::SetIncomingAndReceive),
    Native::OfApdu(ApduNative::SetOutgoing),
    Native::OfApdu(ApduNative::SetOutgoingLength),
    Native::OfApdu(ApduNative::SendBytes),
    Native::OfApdu(ApduNative::SendBytesLong),
    Native::OfApdu(ApduNative::SetOutgoingAndSend),
    Native::OfObject(ObjectNative::Construct),
    Native::OfApplet(AppletNative::Register),
    Native::OfApplet(AppletNative::RegisterBytes),
    Native::OfApplet(AppletNative::Select),
    Native::OfApplet(AppletNative::Deselect),
    Native::OfApplet(AppletNative::Process),
    Native::OfApplet(AppletNative::SelectingApplet),
    Native::OfApplet(AppletNative::GetShareable),
    Native::OfSystem(SystemNative::GetAid),
    Native::OfSystem(SystemNative::LookupAid),
    Native::OfSystem(SystemNative::GetPreviousAid),
    Native::OfSystem(SystemNative::AskForShareable),
    Native::OfSystem(SystemNative::MakeBooleans),
    Native::OfSystem(SystemNative::MakeBytes),
    Native::OfSystem(SystemNative::MakeShorts),
    Native::OfSystem(SystemNative::MakeReferences),
    Native::OfUtility(UtilityNative::ArrayCopy),
    Native::OfUtility(UtilityNative::ArrayCopy),
    Native::OfUtility(UtilityNative::ArrayFill),
    Native::OfUtility(UtilityNative::ArrayCompare),
    Native::OfUtility(UtilityNative::GetShort),
    Native::OfUtility(UtilityNative::SetShort),
    Native::OfUtility(UtilityNative::MakeShort),
];

fn all_natives() -> &'static [Native]
    ensures { result.now ≡ natives }
{
    NATIVES
}

fn native_in(rows: &[Native], number: u16) -> Option<Native>
    ensures { result ≡ numbered rows.now number }
{
    if number == 0 {
        return None;
    }
    rows.get(usize::from(number - 1)).copied()
}

/// The native member with a number, if there is one.
pub(crate) fn native_of(number: u16) -> Option<Native>
    ensures { result ≡ numbered natives number }
{
    native_in(all_natives(), number)
}
