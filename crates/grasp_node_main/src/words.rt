//! The words that are answered by a text.
ghost use Rattle.std.specs.Prelude.{◌≡◌, map, string_bytes};
ghost use Rattle.grasp_node_main.specs.Words.{text_for, text_named};

const HELP: &str = "\
Usage: grasp_node run FILE

  run        runs the node that FILE configures, and writes what it holds, what
             came of its wants, and what floods told its readers

  --help     prints this text
  --version  prints the version

For example:

  grasp_node run node.toml

FILE is a TOML table of at most 65,536 bytes.

The exit status is 0 where the node made all its turns, and 2 for other words.
It is 3 where FILE is no configuration: a line on standard error names the first
key that is bad. It is 4 and 5 for a failed read or write, 6 for want of memory,
7 where FILE is too large, and 8 where the node's sockets can't be opened.
";

const VERSION: &str = "grasp_node 0.1.0\n";

/// A text of the program's own.
#[derive(Clone, Copy, Debug, PartialEq, Eq)]
pub enum Text {
    /// How the program is called.
    Help,
    /// Its name and version.
    Version,
}

impl Text {
    /// The text itself.
    pub fn text(self) -> &'static str {
        match self {
            Text::Help => HELP,
            Text::Version => VERSION,
        }
    }
}

/// The text that these words alone ask for: `--help` and `--version` do.
pub fn text_for(words: &[String]) -> Option<Text>
    ensures { result ≡ text_for (map string_bytes words.now) }
{
    match words {
        [word] => text_named(word.as_str()),
        _ => None,
    }
}

fn text_named(word: &str) -> Option<Text>
    ensures { result ≡ text_named word.now }
{
    if word == "--help" {
        Some(Text::Help)
    } else if word == "--version" {
        Some(Text::Version)
    } else {
        None
    }
}
