//! The answers to the commands of a script.

use jc_base::LoadFault;
use jc_card::{Answer, InstallFault};

/// The answer to a command.
#[derive(Debug, Drop)]
pub enum CommandAnswer {
    /// A package is loaded, and has this number.
    Loaded(u8),
    /// The package isn't loaded.
    NotLoaded(LoadFault),
    /// An applet is installed, and the instance has this number.
    Installed(u8),
    /// The applet isn't installed.
    NotInstalled(InstallFault),
    /// The answer to a command of a reader.
    Responds(Answer),
    /// The card is reset.
    Reset,
    /// How many cells are used, and how many there may be.
    Cells { used: u16, most: u16 },
    /// How many objects there are, and how many there may be.
    Objects { used: u16, most: u16 },
    /// Sets how many steps a call may make from now on.
    Steps(u32),
}
