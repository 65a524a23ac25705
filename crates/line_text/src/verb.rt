//! Verbs of lines that have a path and nothing else.
ghost use Rattle.std.specs.Prelude.{◌≡◌};
ghost use Rattle.line_text.specs.Lines.{path_verb, asking_verb, command_on};

use tree_model::{Command, Path};

/// The verb of a line that has a path and nothing else.
#[derive(Clone, Copy)]
pub enum PathVerb {
    Mkdir,
    Create,
    Remove,
    List,
    Stat,
    Layout,
}

impl PathVerb {
    /// The verb that a field writes, if it is one of these.
    pub fn from_field(field: &[u8]) -> Option<PathVerb>
        ensures { result ≡ path_verb field.now }
    {
        match field {
            b"mkdir" => Some(PathVerb::Mkdir),
            b"create" => Some(PathVerb::Create),
            b"remove" => Some(PathVerb::Remove),
            _ => PathVerb::asking(field),
        }
    }

    /// A verb that changes nothing.
    fn asking(field: &[u8]) -> Option<PathVerb>
        ensures { result ≡ asking_verb field.now }
    {
        match field {
            b"list" => Some(PathVerb::List),
            b"stat" => Some(PathVerb::Stat),
            b"layout" => Some(PathVerb::Layout),
            _ => None,
        }
    }

    /// The command of this verb on a path.
    pub fn command(self, path: Path) -> Command
        ensures { result ≡ command_on self path }
    {
        match self {
            PathVerb::Mkdir => Command::Mkdir { path },
            PathVerb::Create => Command::Create { path },
            PathVerb::Remove => Command::Remove { path },
            PathVerb::List => Command::List { path },
            PathVerb::Stat => Command::Stat { path },
            PathVerb::Layout => Command::Layout { path },
        }
    }
}
