//! The jobs of the program.

use jc_machine::Limits;

/// The job of a command line. Hexadecimal is text here, as it was written, and so are the names of files.
#[derive(Debug, Drop)]
pub enum Job<'a> {
    /// Runs code with its certificate for at most `steps` steps.
    Eval {
        code: &'a str,
        cert: &'a str,
        steps: u32,
    },
    /// Verifies a package, and infers its certificate.
    Verify(VerifyJob<'a>),
    /// Plays a script on a new card.
    Run(RunJob<'a>),
    /// Answers the lines of standard input with a new card.
    Session(CardJob<'a>),
}

/// A package to be verified, by the names of folders and files.
#[derive(Debug, Drop)]
pub struct VerifyJob<'a> {
    /// The folder of the package.
    pub folder: &'a str,
    /// The file to which the certificate is written.
    pub cert: &'a str,
    /// The folders of the packages before it, in the order in which they are linked.
    pub earlier: Vec<&'a str>,
    /// The file of the binding, if it isn't the default one.
    pub binding: Option<&'a str>,
    /// Whether the exit status shows that no certificate is written.
    pub strict: bool,
}

/// A script to be played on a new card, by the names of files.
#[derive(Debug, Drop)]
pub struct RunJob<'a> {
    /// The file of the script.
    pub script: &'a str,
    /// The card on which it is played.
    pub card: CardJob<'a>,
}

/// A new card, and whether its answers are explained.
#[derive(Debug, Drop)]
pub struct CardJob<'a> {
    /// The limits of the card, and of a call of an applet.
    pub limits: Limits,
    /// The file of the binding, if it isn't the default one.
    pub binding: Option<&'a str>,
    /// Whether it explains an answer without a precise diagnosis.
    pub explains: bool,
}
