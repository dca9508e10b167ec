//! A partial binding.

ghost use Rattle.std.specs.Prelude.{◌≡◌, ◌&&◌, zip, IfErr, OnOk};
ghost use Rattle.std.specs.List.{list_any};
ghost use Rattle.jc_api.specs.Options.{all_of};
ghost use Rattle.jc_api.specs.Binding.{with_line, with_lines};
ghost use Rattle.jc_api.specs.Class.{numbered_classes};
ghost use Rattle.jc_api.specs.Draft.{clashes, drafted, empty_draft, is_aid, is_named, is_repeated, is_taken, is_token};
ghost use Rattle.jc_api.specs.Draft.{named_package};
ghost use Rattle.jc_api.specs.Member.{shown};
ghost use Rattle.jc_api.specs.Text.{lines_of};
ghost use Rattle.jc_api.specs.Token.{classes_meet, members_meet};

use crate::class::{ApiClass, ApiPackage, CLASS_COUNT, CLASSES};
use crate::fault::BindingFault;
use crate::member::{MEMBER_COUNT, Member, all_members};
use crate::numbered::{numbered, put};
use crate::statement::{Statement, statement_of};
use crate::text::{Pieces, is_skipped};
use crate::token::{classes_meet, members_meet};
use jc_base::PackageInfo;

/// What the lines so far have named.
#[derive(Clone, Copy)]
pub(crate) struct Draft {
    pub(crate) lang: Option<PackageInfo>,
    pub(crate) framework: Option<PackageInfo>,
    /// The tokens of the classes, by their numbers.
    pub(crate) classes: [Option<u8>; CLASS_COUNT],
    /// The tokens of the members, by their numbers.
    pub(crate) members: [Option<u8>; MEMBER_COUNT],
}

fn is_token(token: u8, named: Option<u8>) -> bool
    ensures { result ≡ is_token token named }
{
    match named {
        Some(named) => named == token,
        None => false,
    }
}

/// Whether a class whose token has to differ from this class's has this token.
#[tactic(auto, unfolding(crate::specs::Draft::is_taken))]
fn is_class_token_taken(class: ApiClass, token: u8, named: &[Option<u8>]) -> bool
    ensures { result ≡ is_taken classes_meet class token numbered_classes named.now }
{
    CLASSES.iter().zip(named).any(|(other, named)| classes_meet(class, *other)
        && is_token(token, *named))
}

/// Whether one of these members, in the order of their numbers, has this token and its token has to differ from this
/// member's.
fn is_member_token_taken(
    member: Member,
    token: u8,
    members: &[Member],
    named: &[Option<u8>],
) -> bool
    ensures { let mine = shown member in
        result ≡ list_any (λ r. members_meet mine (shown r.0) && is_token token r.1) (zip members.now named.now) }
{
    members.iter().zip(named).any(|(other, named)| members_meet(member, *other)
        && is_token(token, *named))
}

fn is_aid(info: PackageInfo, named: Option<PackageInfo>) -> bool
    ensures { result ≡ is_aid info.aid named }
{
    match named {
        Some(named) => named.aid == info.aid,
        None => false,
    }
}

fn is_named(named: Option<Option<u8>>) -> bool
    ensures { result ≡ is_named named }
{
    match named {
        Some(named) => named.is_some(),
        None => false,
    }
}

impl Draft {
    /// A draft without names.
    pub(crate) fn empty() -> Draft
        ensures { result ≡ empty_draft }
    {
        Draft {
            lang: None,
            framework: None,
            classes: [None; CLASS_COUNT],
            members: [None; MEMBER_COUNT],
        }
    }

    fn named_package(&self, which: ApiPackage) -> Option<PackageInfo>
        ensures { result ≡ named_package self.now which }
    {
        match which {
            ApiPackage::Lang => self.lang,
            ApiPackage::Framework => self.framework,
        }
    }

    /// Whether a statement names something that was named before.
    #[tactic(auto, unfolding(crate::specs::Draft::is_repeated))]
    fn is_repeated(&self, statement: &Statement) -> bool
        ensures { result ≡ is_repeated self.now statement.now }
    {
        match statement {
            Statement::Package { package, .. } => self.named_package(*package).is_some(),
            Statement::Class { class, .. } => is_named(numbered(&self.classes, class.number())),
            Statement::Member { number, .. } => is_named(numbered(&self.members, *number)),
        }
    }

    /// Whether a statement assigns an AID or a token that is taken.
    #[tactic(auto, unfolding(crate::specs::Draft::clashes))]
    fn clashes(&self, statement: &Statement) -> bool
        ensures { result ≡ clashes self.now statement.now }
    {
        match statement {
            Statement::Package { package, info } => {
                is_aid(*info, self.named_package(package.other()))
            }
            Statement::Class { class, token } => {
                is_class_token_taken(*class, *token, &self.classes)
            }
            Statement::Member { number, token } => match Member::from_number(*number) {
                Some(member) => {
                    is_member_token_taken(member, *token, all_members(), &self.members)
                },
                None => false,
            },
        }
    }

    /// Adds a statement.
    #[tactic(auto, unfolding(crate::specs::Draft::drafted))]
    fn name(&mut self, statement: &Statement)
        ensures { self.new ≡ drafted self.old statement.now }
    {
        match statement {
            Statement::Package { package, info } => match package {
                ApiPackage::Lang => self.lang = Some(*info),
                ApiPackage::Framework => self.framework = Some(*info),
            },
            Statement::Class { class, token } => {
                put(&mut self.classes, class.number(), Some(*token));
            }
            Statement::Member { number, token } => put(&mut self.members, *number, Some(*token)),
        }
    }

    /// Adds the line with a number, or reports its fault.
    #[tactic(auto, unfolding(crate::specs::Binding::with_line))]
    fn take_line(&mut self, number: usize, line: &[u8]) -> Result<(), BindingFault>
        ensures ok { OnOk result (with_line number self.old line.now ≡ Ok self.new) }
        ensures err { IfErr result (λ fault. with_line number self.old line.now ≡ Err fault) }
    {
        if is_skipped(line) {
            return Ok(());
        }
        let Some(statement) = statement_of(line) else {
            return Err(BindingFault::BadLine(number));
        };
        if self.is_repeated(&statement) {
            return Err(BindingFault::Repeated(number));
        }
        if self.clashes(&statement) {
            return Err(BindingFault::Clash(number));
        }
        self.name(&statement);
        Ok(())
    }

    /// Adds the lines of a text, or reports the first fault.
    pub(crate) fn take_text(&mut self, text: &[u8]) -> Result<(), BindingFault>
        ensures ok { OnOk result (with_lines 1 self.old (lines_of text.now) ≡ Ok self.new) }
        ensures err { IfErr result (λ fault. with_lines 1 self.old (lines_of text.now) ≡ Err fault) }
    {
        let mut lines = Pieces::new(text, b'\n');
        let mut number = 0;
        while let Some(line) = lines.next() {
            number += 1;
            self.take_line(number, line)?;
        }
        Ok(())
    }
}

/// The tokens, if each is named.
pub(crate) fn all_of<const N: usize>(named: &[Option<u8>; N]) -> Option<[u8; N]>
    ensures { result ≡ all_of named.now }
{
    let mut tokens = [0; N];
    for (index, token) in named.iter().enumerate() {
        tokens[index] = (*token)?;
    }
    Some(tokens)
}
