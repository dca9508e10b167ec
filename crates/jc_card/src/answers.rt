//! The answers to commands, and the registered instances after them (Java Card Runtime Environment Specification,
//! Applet Lifetime, Selection).

ghost use Rattle.jc_card.specs.Answering.{AreAnswered};

use jc_natives::calls_register_the_installed;

/// The answers to commands. An answer's data are what this command's call of process has sent, and its status is that
/// of the end of this call; if process wasn't called, there are no data. Only an install registers an instance. An
/// install whose method ends normally, and has registered an instance, answers its number. After an install that fails
/// the registered instances are unchanged. It does nothing.
pub fn commands_are_answered()
    ensures { AreAnswered }
{
    calls_register_the_installed();
}
