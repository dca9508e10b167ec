//! The check of code alone with its certificate.

ghost use Rattle.std.specs.Prelude.{⊤, ◌≡◌, ◌<◌, ◌^◌, map, length, option_map, IfOk, IfErr, IfSome, MatchResult};
ghost use Rattle.jc_cert.specs.Cert.{IsCert, stated};
ghost use Rattle.jc_check.specs.Fault.{IfRefused};
ghost use Rattle.jc_check.specs.Method.{states_of};
ghost use Rattle.jc_check.specs.Typing.{IsWellTyped};
ghost use Rattle.jc_check.specs.Carried.{CertCarriesCode};
ghost use Rattle.jc_check.specs.FirstFault.{IsFirstFaultOf};

use crate::fault::WordFault;
use crate::law::first_fault_laws;
use crate::method::CheckedMethod;
use crate::method_check::check_method;
use crate::rules::WordRules;
use jc_base::Reason;
use jc_cert::{Cert, StateRow};
use jc_code::listing_laws;
use jc_effects::effects_keep_shapes;
use jc_types::order_laws;
use std::alloc::Global;
use std::marker::Model;

/// Code that a certificate carries. Only `check_words` makes one.
#[derive(Drop)]
pub struct CheckedWords<'a> {
    code: &'a [u8],
}

impl<'a> Model for CheckedWords<'a> {
    ghost use Rattle.std.specs.Prelude.{List, ℕ};
    ghost use Rattle.jc_check.specs.Carried.{IsCarriedBySome};
    ghost use Rattle.jc_check.specs.Typing.{IsWellTyped};

    ghost Value = { List ℕ };

    ghost view = { λ c. c.code.now };

    ghost invariant = { λ c. IsCarriedBySome c.code.now × IsWellTyped c.code.now };
}

impl<'a> CheckedWords<'a> {
    ghost use Rattle.jc_check.specs.Carried.{IsCarriedBySome};
    ghost use Rattle.jc_check.specs.Typing.{IsWellTyped};

    /// The code, which a certificate carries and which is well typed.
    pub fn code(&self) -> &'a [u8]
        ensures code { result.now ≡ self.now }
        ensures carried { IsCarriedBySome self.now }
        ensures typed { IsWellTyped self.now }
    {
        self.code
    }
}

// The certificate's states for code alone.
fn states_for(cert: &Cert) -> Option<&[StateRow]>
    ensures cert { IsCert cert.now }
    ensures count { IfSome result (λ states. length states.now < 2 ^ 16) }
    ensures states { option_map (λ states. map stated states.now) result ≡ states_of cert.now }
{
    match cert.rows() {
        [] => Some(&[]),
        [row] if row.offset == 0 => Some(&row.states),
        _ => None,
    }
}

/// Checks that a certificate carries code, as a static method without arguments, with a short result, `WORD_LOCALS`
/// locals and at most `WORD_MAX_STACK` operands. It reports the first fault, in the order of the tests: a row of the
/// certificate for another method, empty code, decoding, the certificate's states, and the instructions by ascending
/// pc.
pub fn check_words<'a>(
    alloc: Global,
    code: &'a [u8],
    cert: &Cert,
) -> Result<CheckedWords<'a>, WordFault>
    requires { length code.now < 2 ^ 16 }
    ensures accepted { IfOk result (λ checked. (checked ≡ code.now) × CertCarriesCode code.now cert.now) }
    ensures typed { IfOk result IsWellTyped }
    ensures carried { CertCarriesCode code.now cert.now
        → MatchResult result (λ checked. ⊤) (λ fault. fault ≡ WordFault.Memory) }
    ensures refused { IfErr result (λ fault. IfRefused fault (IsFirstFaultOf code.now (states_of cert.now))) }
{
    first_fault_laws();
    listing_laws();
    order_laws();
    effects_keep_shapes();
    let Some(states) = states_for(cert) else {
        return Err(WordFault::Refused {
            pc: 0,
            reason: Reason::CertMismatch,
        });
    };
    check_method(
        alloc,
        &WordRules::new(),
        &CheckedMethod::of_words(alloc, code),
        states,
    )?;
    Ok(CheckedWords { code })
}
