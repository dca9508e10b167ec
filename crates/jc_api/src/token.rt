//! Tokens: their ranges, and which of them have to differ.

ghost use Rattle.std.specs.Prelude.{◌≡◌};
ghost use Rattle.jc_api.specs.Member.{shown};
ghost use Rattle.jc_api.specs.Token.{classes_meet, is_at_or_above, is_same_class, is_virtual, member_token_limit};
ghost use Rattle.jc_api.specs.Token.{members_meet};

use crate::class::{ApiClass, CLASS_COUNT};
use crate::member::{Member, MemberKind};

/// The greatest token of a class.
pub(crate) const CLASS_TOKEN_LIMIT: u8 = 254;

/// The greatest token of a member.
pub(crate) fn member_token_limit(kind: MemberKind) -> u8
    ensures { result ≡ member_token_limit kind }
{
    match kind {
        MemberKind::Constructor | MemberKind::Static => 254,
        MemberKind::Virtual => 127,
    }
}

fn is_virtual(kind: MemberKind) -> bool
    ensures { result ≡ is_virtual kind }
{
    kind == MemberKind::Virtual
}

fn is_same_class(one: ApiClass, other: ApiClass) -> bool
    ensures { result ≡ is_same_class one other }
{
    one.number() == other.number()
}

/// Whether a class is another or a superclass of it.
pub fn is_at_or_above(above: ApiClass, class: ApiClass) -> bool
    ensures { result ≡ is_at_or_above above class }
{
    let mut next = Some(class);
    for _ in 0..CLASS_COUNT {
        let Some(here) = next else {
            return false;
        };
        if is_same_class(above, here) {
            return true;
        }
        next = here.superclass();
    }
    false
}

/// Whether the tokens of two classes have to differ.
pub(crate) fn classes_meet(one: ApiClass, other: ApiClass) -> bool
    ensures { result ≡ classes_meet one other }
{
    one.package() == other.package()
}

/// Whether the tokens of two members have to differ.
#[tactic(auto, unfolding(crate::specs::Token::members_meet))]
pub(crate) fn members_meet(one: Member, other: Member) -> bool
    ensures { result ≡ members_meet (shown one) (shown other) }
{
    if is_virtual(one.kind) {
        is_virtual(other.kind)
            && (is_at_or_above(one.class, other.class) || is_at_or_above(other.class, one.class))
    } else {
        !is_virtual(other.kind) && is_same_class(one.class, other.class)
    }
}
