//! From the texts of a command line to an answer.

ghost use Rattle.std.specs.Prelude.{◌≡◌, ◌<◌, ◌≤◌, ◌^◌, ℕ, List, length, IfOk, IfErr};
ghost use Rattle.jc_host.specs.Texts.{AnswersTexts, IsCodeText, IsTextFault};

use crate::answer::EvalAnswer;
use crate::eval::eval;
use hex::FromHexError;
use std::alloc::Global;
use std::fmt;

/// The most bytes of code.
pub const MOST_CODE: usize = 65535;

/// The words for an odd number of characters.
const ODD_LENGTH: &str = "an odd number of characters, blanks and signs among them";

/// Why there is no answer to texts.
#[derive(Clone, Copy, Debug, PartialEq, Eq)]
pub enum TextFault {
    /// CODE isn't hexadecimal.
    BadCode(FromHexError),
    /// CODE has more than 65,535 bytes.
    LongCode,
    /// CERT isn't hexadecimal.
    BadCert(FromHexError),
    /// No memory was left.
    Memory,
}

impl fmt::Display for TextFault {
    ghost use Rattle.jc_host.specs.Texts.{fault_line_of};

    ghost output = { fault_line_of };

    fn fmt<W: fmt::Write>(&self, f: &mut fmt::Formatter<W>) -> fmt::Result {
        match self {
            TextFault::BadCode(FromHexError::OddLength) => {
                write!(f, "CODE isn't hexadecimal: {ODD_LENGTH}")
            }
            TextFault::BadCode(error) => write!(f, "CODE isn't hexadecimal: {error}"),
            TextFault::LongCode => write!(f, "CODE has more than {MOST_CODE} bytes"),
            TextFault::BadCert(FromHexError::OddLength) => {
                write!(f, "CERT isn't hexadecimal: {ODD_LENGTH}")
            }
            TextFault::BadCert(error) => write!(f, "CERT isn't hexadecimal: {error}"),
            TextFault::Memory => write!(f, "out of memory"),
        }
    }
}

/// The answer of `eval` to code and a certificate in hexadecimal, which is never `EvalAnswer::Memory`. It reads CODE
/// first.
pub fn answer_of(alloc: Global, code: &str, cert: &str, steps: u32) -> Result<EvalAnswer, TextFault>
    ensures answered { IfOk result (AnswersTexts code.now cert.now steps) }
    ensures faults { IfErr result (IsTextFault code.now cert.now) }
{
    let code = code_of(alloc, code)?;
    let cert = match hex::decode(alloc, cert) {
        Ok(cert) => cert,
        Err(FromHexError::OutOfMemory) => return Err(TextFault::Memory),
        Err(error) => return Err(TextFault::BadCert(error)),
    };
    match eval(alloc, &code, &cert, steps) {
        EvalAnswer::Memory => Err(TextFault::Memory),
        answer => Ok(answer),
    }
}

// The bytes of CODE.
fn code_of(alloc: Global, text: &str) -> Result<Vec<u8>, TextFault>
    ensures bytes { IfOk result (λ code. IsCodeText text.now code.items) }
    ensures faults { IfErr result (λ fault. (cert : List ℕ) → IsTextFault text.now cert fault) }
{
    let code = match hex::decode(alloc, text) {
        Ok(code) => code,
        Err(FromHexError::OutOfMemory) => return Err(TextFault::Memory),
        Err(error) => return Err(TextFault::BadCode(error)),
    };
    within_limit(&code)?;
    Ok(code)
}

// Code has more than 65,535 bytes.
#[derive(Drop)]
struct LongCode;

impl From<LongCode> for TextFault {
    ghost use Rattle.jc_host.specs.declared.texts.TextFault.TheVariants.{LongCode};

    ghost from_gives = { λ _ fault. fault ≡ LongCode };

    fn from(_long: LongCode) -> TextFault {
        TextFault::LongCode
    }
}

// Tests that code isn't too long.
fn within_limit(code: &[u8]) -> Result<(), LongCode>
    ensures within { IfOk result (λ _. length code.now < 2 ^ 16) }
    ensures beyond { IfErr result (λ _. 2 ^ 16 ≤ length code.now) }
{
    if code.len() > MOST_CODE {
        return Err(LongCode);
    }
    Ok(())
}
