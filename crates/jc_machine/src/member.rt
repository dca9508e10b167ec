//! Members of the API, by their numbers in names of methods.

ghost use Rattle.std.specs.Prelude.{◌≡◌, option_map};
ghost use Rattle.jc_api.specs.Member.{member_of, shown};

use jc_api::Member;

// The member with a number, if there is one.
#[tactic(auto, using(crate::proofs::ApiResults::member_past))]
pub(crate) fn member_with(number: u16) -> Option<Member>
    ensures { option_map shown result ≡ member_of number }
{
    let number = u8::try_from(number).ok()?;
    Member::from_number(number)
}
