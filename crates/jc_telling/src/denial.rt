//! The words for what the firewall denied, and where.

ghost use Rattle.std.specs.Prelude.{◌≡◌};
ghost use Rattle.jc_telling.specs.Explanation.{access_text, rule_number};

use crate::place::Place;
use jc_firewall::{Access, Denial, Rule};
use jc_machine::CodePoint;
use jc_names::Owner;
use std::fmt;

/// The number of a rule of the firewall.
fn rule_number(rule: Rule) -> u8
    ensures { result ≡ rule_number rule }
{
    match rule {
        Rule::Storing => 1,
        Rule::Components => 2,
        Rule::Fields => 3,
        Rule::Calls => 4,
        Rule::SharedCalls => 5,
        Rule::Throws => 6,
        Rule::Casts => 7,
        Rule::SharedCasts => 8,
        Rule::Selection => 9,
    }
}

/// The words for an access: an instruction, or a read or write of a component, as members of the API do too.
fn access_words(access: Access) -> &'static str
    ensures { result.now ≡ access_text access }
{
    match access {
        Access::PutStaticReference => "putstatic of",
        Access::PutReferenceField | Access::PutField => "putfield of",
        Access::GetField => "getfield of",
        Access::LoadComponent => "a component read from",
        Access::StoreComponent => "a component written to",
        Access::StoreReference => "aastore to",
        Access::ArrayLength => "arraylength of",
        Access::InvokeVirtual => "invokevirtual on",
        Access::InvokeInterface => "invokeinterface on",
        Access::Throw => "athrow of",
        Access::CheckCast => "checkcast of",
        Access::InstanceOf => "instanceof of",
    }
}

/// The context of an owner.
#[derive(Clone, Copy)]
struct Context {
    number: u8,
}

impl fmt::Display for Context {
    ghost use Rattle.std.specs.Prelude.{Some};
    ghost use Rattle.jc_telling.specs.Explanation.{owner_text};

    ghost output = { λ c. Some (owner_text c.number) };

    fn fmt<W: fmt::Write>(&self, f: &mut fmt::Formatter<W>) -> fmt::Result {
        if self.number == Owner::RUNTIME.context {
            write!(f, "the runtime")
        } else {
            write!(f, "package {}", self.number)
        }
    }
}

/// The rule, the access, and the object's owner.
#[derive(Clone, Copy)]
struct Denied {
    denial: Denial,
}

impl fmt::Display for Denied {
    ghost use Rattle.std.specs.Prelude.{Some};
    ghost use Rattle.jc_telling.specs.Explanation.{denial_text};

    ghost output = { λ d. Some (denial_text d.denial) };

    fn fmt<W: fmt::Write>(&self, f: &mut fmt::Formatter<W>) -> fmt::Result {
        let rule = rule_number(self.denial.rule);
        let access = access_words(self.denial.access);
        let owner = Context {
            number: self.denial.owner.context,
        };
        write!(f, ", rule {rule}: {access} an object of {owner}")
    }
}

/// Where an object was thrown, and what the firewall denied there, if it did.
#[derive(Clone, Copy)]
pub(crate) struct Throw {
    pub(crate) denial: Option<Denial>,
    pub(crate) at: Option<CodePoint>,
}

impl fmt::Display for Throw {
    ghost use Rattle.std.specs.Prelude.{Some};
    ghost use Rattle.jc_telling.specs.Explanation.{throw_text};

    ghost output = { λ t. Some (throw_text t.denial t.at) };

    fn fmt<W: fmt::Write>(&self, f: &mut fmt::Formatter<W>) -> fmt::Result {
        let at = self.at;
        match self.denial {
            Some(denial) => {
                let denied = Denied { denial };
                let before = ", in ";
                write!(f, "{denied}{}", Place { before, at })
            }
            None => write!(f, "{}", Place { before: ", ", at }),
        }
    }
}
