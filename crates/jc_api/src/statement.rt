//! The statements of a binding's lines.

ghost use Rattle.std.specs.Prelude.{◌≡◌};
ghost use Rattle.jc_api.specs.Statement.{class_stated, member_stated, package_stated, statement_of};

use crate::class::{ApiClass, ApiPackage};
use crate::member::Member;
use crate::text::{Pieces, decimal_up_to, spelled_aid};
use crate::token::{CLASS_TOKEN_LIMIT, member_token_limit};
use jc_base::PackageInfo;

/// The statement of a line.
#[derive(Clone, Copy)]
pub(crate) enum Statement {
    /// A package's AID and version.
    Package {
        package: ApiPackage,
        info: PackageInfo,
    },
    /// A class's token.
    Class {
        class: ApiClass,
        token: u8,
    },
    /// The token of the member with a number.
    Member {
        number: u8,
        token: u8,
    },
}

#[tactic(auto, unfolding(crate::specs::Statement::package_stated))]
fn package_stated(mut words: Pieces) -> Option<Statement>
    ensures { result ≡ package_stated words.entry }
{
    let number = words.next()?;
    let aid = words.next()?;
    let major = words.next()?;
    let minor = words.next()?;
    if words.next().is_some() {
        return None;
    }
    let package = ApiPackage::from_number(decimal_up_to(u8::MAX, number)?)?;
    let aid = spelled_aid(aid)?;
    let major = decimal_up_to(u8::MAX, major)?;
    let minor = decimal_up_to(u8::MAX, minor)?;
    let info = PackageInfo { minor, major, aid };
    Some(Statement::Package { package, info })
}

#[tactic(auto, unfolding(crate::specs::Statement::class_stated))]
fn class_stated(mut words: Pieces) -> Option<Statement>
    ensures { result ≡ class_stated words.entry }
{
    let number = words.next()?;
    let token = words.next()?;
    if words.next().is_some() {
        return None;
    }
    let class = ApiClass::from_number(decimal_up_to(u8::MAX, number)?)?;
    let token = decimal_up_to(CLASS_TOKEN_LIMIT, token)?;
    Some(Statement::Class { class, token })
}

#[tactic(auto, unfolding(crate::specs::Statement::member_stated))]
fn member_stated(mut words: Pieces) -> Option<Statement>
    ensures { result ≡ member_stated words.entry }
{
    let number = words.next()?;
    let token = words.next()?;
    if words.next().is_some() {
        return None;
    }
    let number = decimal_up_to(u8::MAX, number)?;
    let member = Member::from_number(number)?;
    let token = decimal_up_to(member_token_limit(member.kind), token)?;
    Some(Statement::Member { number, token })
}

/// The statement of a line, or `None` if it isn't one.
#[tactic(auto, unfolding(crate::specs::Statement::statement_of, crate::specs::Statement::stated))]
pub(crate) fn statement_of(line: &[u8]) -> Option<Statement>
    ensures { result ≡ statement_of line.now }
{
    let mut words = Pieces::new(line, b' ');
    let keyword = words.next()?;
    if keyword == b"package".as_slice() {
        package_stated(words)
    } else if keyword == b"class".as_slice() {
        class_stated(words)
    } else if keyword == b"member".as_slice() {
        member_stated(words)
    } else {
        None
    }
}
