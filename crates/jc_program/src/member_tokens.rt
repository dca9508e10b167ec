//! The virtual tokens of the API's members, by number.

ghost use Rattle.std.specs.Prelude.{◌≡◌, IfOk};
ghost use Rattle.jc_program.specs.MemberTokens.{AreMemberTokens, token_at};
ghost use Rattle.jc_program.specs.PrivateMemberTokens.{HavePlaces, member_place, place_in};

use jc_api::Member;
use jc_classes::{Class, ClassTable};
use jc_link::{World, built_worlds_stand_on_the_api};
use jc_names::ClassName;
use std::alloc::{AllocError, Global};
use std::marker::Model;

/// One more than the greatest member number.
const MEMBERS: u8 = 56;

/// The place of a member among the public methods of a class.
fn place_in(found: &Class, member: u8) -> Option<usize>
    ensures { result ≡ place_in member found.now }
{
    let number = u16::from(member);
    found
        .public_entries()
        .iter()
        .position(|entry| *entry == number)
}

/// The place of the member with a number among the public methods of its class.
fn member_place(table: &ClassTable, member: u8) -> Option<usize>
    ensures { result ≡ member_place table.now member }
{
    let class = Member::from_number(member)?.class;
    place_in(table.class_at(ClassName::Api(class))?, member)
}

/// A place as a token, if it is a byte.
fn token_of(place: usize) -> Result<u8, AllocError>
    ensures { IfOk result (λ token. token ≡ place) }
{
    match u8::try_from(place) {
        Ok(token) => Ok(token),
        Err(_) => Err(AllocError),
    }
}

/// The token of the member with a number, if it has one: it is the member's place, since tables of the API's classes
/// begin at token 0.
fn member_token(table: &ClassTable, member: u8) -> Result<Option<u8>, AllocError>
    ensures { IfOk result (λ token. token ≡ member_place table.now member) }
{
    match member_place(table, member) {
        None => Ok(None),
        Some(place) => Ok(Some(token_of(place)?)),
    }
}

/// The tokens of all members.
fn tokens_of(alloc: Global, table: &ClassTable) -> Result<Vec<Option<u8>>, AllocError>
    ensures { IfOk result (λ tokens. HavePlaces table.now 56 tokens.items) }
{
    let mut tokens = Vec::new(alloc);
    for member in 0..MEMBERS {
        let token = member_token(table, member)?;
        tokens.push(token)?;
    }
    Ok(tokens)
}

/// The token of each member of the API among the virtual methods of its class.
#[derive(Drop)]
pub struct MemberTokens {
    tokens: Vec<Option<u8>>,
}

impl Model for MemberTokens {
    ghost use Rattle.std.specs.Prelude.{ℕ, List, Option};

    ghost Value = { List (Option ℕ) };

    ghost view = { λ t. t.tokens.items };
}

impl MemberTokens {
    /// The tokens of the API's members in a world.
    #[tactic(auto, using(crate::proofs::Tokening::are_member_tokens))]
    pub fn new(alloc: Global, world: &World) -> Result<MemberTokens, AllocError>
        ensures { IfOk result (λ tokens. AreMemberTokens world.now.shapes tokens) }
    {
        built_worlds_stand_on_the_api();
        let tokens = tokens_of(alloc, world.table())?;
        Ok(MemberTokens { tokens })
    }

    /// The token of the member with a number; none if no member has the number, or it isn't virtual.
    #[inline]
    pub fn token(&self, member: u16) -> Option<u8>
        ensures { result ≡ token_at self.now member }
    {
        self.tokens
            .get(usize::from(member))
            .copied()
            .unwrap_or(None)
    }
}
