ghost use Rattle.std.specs.Prelude.{◌≡◌};
ghost use Rattle.trace_args.specs.Topics.{topic_text};

use crate::help::{DUMP, PROGRAM, REPORT, RESTORE, SELFTEST, SPLIT, VERSION};
use crate::tool::Tool;

/// What the program tells of itself.
#[derive(Clone, Copy, Debug, PartialEq, Eq)]
pub enum Topic {
    /// The help of the whole program.
    Help,
    /// The help of a command.
    HelpOf(Tool),
    /// The program's name and version.
    Version,
}

impl Topic {
    /// The text, whose last line ends in a newline.
    pub fn text(self) -> &'static str
        ensures { result.now ≡ topic_text self }
    {
        match self {
            Topic::Help => PROGRAM,
            Topic::HelpOf(Tool::Report) => REPORT,
            Topic::HelpOf(Tool::Dump) => DUMP,
            Topic::HelpOf(Tool::SelfTest) => SELFTEST,
            Topic::HelpOf(Tool::Split) => SPLIT,
            Topic::HelpOf(Tool::Restore) => RESTORE,
            Topic::Version => VERSION,
        }
    }
}
