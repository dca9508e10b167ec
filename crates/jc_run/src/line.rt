//! The lines of answers.

ghost use Rattle.std.specs.Prelude.{◌≡◌, ◌+◌, ◌≤◌, ◌++◌, [], codes, length};
ghost use Rattle.std.specs.Fmt.{decimal};
ghost use Rattle.arrayvec.specs.ArrayVec.{array_vec_len};
ghost use Rattle.jc_base.specs.Fault.{words_of};
ghost use Rattle.jc_base.specs.declared.fault.LoadFault.TheVariants.{MethodRefused};
ghost use Rattle.jc_run.specs.Answer.{install_words, line_of, response_line, shown, status_text};
ghost use Rattle.jc_run.specs.Play.{answer_line};

use crate::answer::CommandAnswer;
use arrayvec::ArrayVec;
use itoa::Buffer;
use jc_base::{LoadFault, Reason};
use jc_card::InstallFault;
use jc_script::put_digits;

/// The most bytes of an answer's line: two digits for each of 256 bytes, and the words around them.
const MOST_IN_ANSWER: usize = 526;

/// The line of an answer, or its beginning.
pub(crate) type AnswerLine = ArrayVec<u8, MOST_IN_ANSWER>;

/// Appends bytes to a line.
fn put_bytes(line: &mut AnswerLine, bytes: &[u8])
    requires room { array_vec_len line.old + length bytes.now ≤ 526 }
    ensures items { line.new.items ≡ line.old.items ++ bytes.now }
    ensures long { array_vec_len line.new ≡ array_vec_len line.old + length bytes.now }
{
    match line.try_extend_from_slice(bytes) {
        Ok(()) => {}
        Err(_) => unreachable!(),
    }
}

/// Appends words and a number in decimal to a line.
fn put_number(line: &mut AnswerLine, words: &[u8], number: u32)
    requires room { array_vec_len line.old + length words.now ≤ 516 }
    ensures items { line.new.items ≡ line.old.items ++ (words.now ++ decimal number) }
    ensures few { array_vec_len line.new ≤ array_vec_len line.old + length words.now + 10 }
{
    put_bytes(line, words);
    let mut digits = Buffer::new();
    put_bytes(line, digits.format(number).as_bytes());
}

/// Appends how many of something are used, and how many there may be, to a line.
fn put_share(line: &mut AnswerLine, words: &[u8], used: u16, most: u16)
    requires room { array_vec_len line.old + length words.now ≤ 500 }
    ensures items { line.new.items
        ≡ line.old.items ++ (((words.now ++ decimal used) ++ codes " of ") ++ decimal most) }
    ensures few { array_vec_len line.new ≤ array_vec_len line.old + length words.now + 24 }
{
    put_number(line, words, u32::from(used));
    put_number(line, b" of ", u32::from(most));
}

/// Appends a status word to a line, as four digits.
fn put_status(line: &mut AnswerLine, status: u16)
    requires room { array_vec_len line.old + 4 ≤ 526 }
    ensures items { line.new.items ≡ line.old.items ++ status_text status }
    ensures long { array_vec_len line.new ≡ array_vec_len line.old + 4 }
{
    let bytes = [(status / 256) as u8, (status % 256) as u8];
    put_digits(line, &bytes);
}

/// Appends the answer to a reader to an empty line: the status, and before it the data, if any were sent.
fn put_response(line: &mut AnswerLine, sent: &[u8], status: u16)
    requires empty { line.old.items ≡ [] }
    requires few { length sent.now ≤ 256 }
    ensures items { line.new.items ≡ response_line sent.now status }
    ensures few { array_vec_len line.new ≤ 525 }
{
    if sent.is_empty() {
        put_bytes(line, b"sw ");
    } else {
        put_bytes(line, b"data ");
        put_digits(line, sent);
        put_bytes(line, b" sw ");
    }
    put_status(line, status);
}

/// Appends why an image's method is refused to a line, with the method's offset and a pc.
fn put_refused_method(line: &mut AnswerLine, method: u16, pc: u16, reason: Reason)
    requires room { array_vec_len line.old ≤ 400 }
    ensures items { line.new.items
        ≡ line.old.items ++ words_of (MethodRefused method pc reason) }
    ensures few { array_vec_len line.new ≤ array_vec_len line.old + 64 }
{
    put_number(line, b"17 MethodRefused ", u32::from(method));
    put_number(line, b" ", u32::from(pc));
    put_bytes(line, b" ");
    put_bytes(line, reason.name().as_bytes());
}

/// Appends the words of a refusal that names one place to a line.
fn put_placed(line: &mut AnswerLine, words: &[u8], place: u16)
    requires room { array_vec_len line.old ≤ 400 }
    requires short { length words.now ≤ 32 }
    ensures items { line.new.items ≡ line.old.items ++ (words.now ++ decimal place) }
    ensures few { array_vec_len line.new ≤ array_vec_len line.old + 64 }
{
    put_number(line, words, u32::from(place));
}

/// Appends the words of a refused load to a line: number, name and places.
fn put_load_refusal(line: &mut AnswerLine, fault: &LoadFault)
    requires room { array_vec_len line.old ≤ 400 }
    ensures items { line.new.items ≡ line.old.items ++ words_of fault.now }
    ensures few { array_vec_len line.new ≤ array_vec_len line.old + 64 }
{
    match *fault {
        LoadFault::ShortComponent => put_bytes(line, b"1 ShortComponent"),
        LoadFault::ExtraBytes => put_bytes(line, b"2 ExtraBytes"),
        LoadFault::MissingComponent(tag) => {
            put_placed(line, b"3 MissingComponent ", u16::from(tag))
        }
        LoadFault::RepeatedComponent(tag) => {
            put_placed(line, b"4 RepeatedComponent ", u16::from(tag))
        }
        LoadFault::BadMagic => put_bytes(line, b"5 BadMagic"),
        LoadFault::FormatVersion => put_bytes(line, b"6 FormatVersion"),
        LoadFault::IntPackage => put_bytes(line, b"7 IntPackage"),
        LoadFault::BadAid => put_bytes(line, b"8 BadAid"),
        LoadFault::Malformed(tag) => put_placed(line, b"9 Malformed ", u16::from(tag)),
        LoadFault::MissingImport(token) => {
            put_placed(line, b"10 MissingImport ", u16::from(token))
        }
        LoadFault::Unresolved(index) => put_placed(line, b"11 Unresolved ", index),
        LoadFault::TypeMismatch(index) => put_placed(line, b"12 TypeMismatch ", index),
        LoadFault::BadClass(offset) => put_placed(line, b"13 BadClass ", offset),
        LoadFault::BadStatic(offset) => put_placed(line, b"14 BadStatic ", offset),
        LoadFault::DuplicatePackage => put_bytes(line, b"15 DuplicatePackage"),
        LoadFault::BadCertificate => put_bytes(line, b"16 BadCertificate"),
        LoadFault::MethodRefused { method, pc, reason } => {
            put_refused_method(line, method, pc, reason)
        }
        LoadFault::Full => put_bytes(line, b"18 Full"),
        LoadFault::Memory => put_bytes(line, b"19 Memory"),
    }
}

/// Appends a failed install to a line, with its status.
fn put_failed_install(line: &mut AnswerLine, status: u16)
    requires room { array_vec_len line.old ≤ 400 }
    ensures items { line.new.items ≡ line.old.items ++ (codes "24 InstallFailed " ++ status_text status) }
    ensures few { array_vec_len line.new ≤ array_vec_len line.old + 64 }
{
    put_bytes(line, b"24 InstallFailed ");
    put_status(line, status);
}

/// Appends the words of a refused install to a line: number and name, and the status of an install that failed.
fn put_install_refusal(line: &mut AnswerLine, fault: InstallFault)
    requires room { array_vec_len line.old ≤ 400 }
    ensures items { line.new.items ≡ line.old.items ++ install_words fault }
    ensures few { array_vec_len line.new ≤ array_vec_len line.old + 64 }
{
    match fault {
        InstallFault::UnknownApplet => put_bytes(line, b"20 UnknownApplet"),
        InstallFault::TooLong => put_bytes(line, b"21 TooLong"),
        InstallFault::AidInUse => put_bytes(line, b"22 AidInUse"),
        InstallFault::NoInstance => put_bytes(line, b"23 NoInstance"),
        InstallFault::InstallFailed(failure) => put_failed_install(line, failure.status),
    }
}

/// Appends an answer to an empty line.
fn put_answer(line: &mut AnswerLine, answer: &CommandAnswer)
    requires empty { line.old.items ≡ [] }
    ensures items { line.new.items ≡ line_of (shown answer.now) }
    ensures few { array_vec_len line.new ≤ 525 }
{
    match answer {
        CommandAnswer::Loaded(number) => put_number(line, b"loaded ", u32::from(*number)),
        CommandAnswer::NotLoaded(fault) => {
            put_bytes(line, b"refused ");
            put_load_refusal(line, fault);
        }
        CommandAnswer::Installed(number) => put_number(line, b"installed ", u32::from(*number)),
        CommandAnswer::NotInstalled(fault) => {
            put_bytes(line, b"refused ");
            put_install_refusal(line, *fault);
        }
        CommandAnswer::Responds(answer) => {
            put_response(line, answer.sent.as_slice(), answer.status)
        }
        CommandAnswer::Reset => put_bytes(line, b"reset"),
        CommandAnswer::Cells { used, most } => put_share(line, b"cells ", *used, *most),
        CommandAnswer::Objects { used, most } => put_share(line, b"objects ", *used, *most),
        CommandAnswer::Steps(steps) => put_number(line, b"steps ", *steps),
    }
}

/// Writes the line of an answer to an empty line, with its line feed. There is room for each.
pub(crate) fn put_line(line: &mut AnswerLine, answer: &CommandAnswer)
    requires { line.old.items ≡ [] }
    ensures { line.new.items ≡ answer_line (shown answer.now) }
{
    put_answer(line, answer);
    put_bytes(line, b"\n");
}
