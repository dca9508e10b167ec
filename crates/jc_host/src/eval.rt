//! Evaluation of code alone.

ghost use Rattle.std.specs.Prelude.{◌≡◌, ◌<◌, ◌^◌, length};
ghost use Rattle.jc_host.specs.Eval.{IsAnswer};
ghost use Rattle.jc_host.specs.PrivateEval.{answer_to};

use crate::answer::EvalAnswer;
use jc_base::LoadFault;
use jc_check::{WordFault, check_words};
use jc_eval::{CodeEnd, run_code};
use jc_store::Store;
use std::alloc::Global;

fn ending_answer(end: CodeEnd) -> EvalAnswer
    ensures { result ≡ answer_to end }
{
    match end {
        CodeEnd::Gave(word) => EvalAnswer::Value(word.cast_signed()),
        CodeEnd::Divided => EvalAnswer::Throws,
        CodeEnd::UsedUp => EvalAnswer::StepsUsedUp,
    }
}

/// Reads a certificate, checks code with it, and runs the code for at most `steps` steps.
pub fn eval(alloc: Global, code: &[u8], cert: &[u8], steps: u32) -> EvalAnswer
    requires { length code.now < 2 ^ 16 }
    ensures { IsAnswer result code.now cert.now steps }
{
    let cert = match jc_cert::read(alloc, cert) {
        Ok(cert) => cert,
        Err(LoadFault::BadCertificate) => return EvalAnswer::BadCertificate,
        Err(LoadFault::Memory) => return EvalAnswer::Memory,
        // A certificate has no other fault.
        Err(_) => unreachable!(),
    };
    match check_words(alloc, code, &cert) {
        Ok(checked) => match Store::new(alloc, 0, 0) {
            Ok(mut store) => ending_answer(run_code(&checked, &mut store, steps)),
            Err(_) => EvalAnswer::Memory,
        },
        Err(WordFault::Refused { pc, reason }) => EvalAnswer::Refused { pc, reason },
        Err(WordFault::Memory) => EvalAnswer::Memory,
    }
}
