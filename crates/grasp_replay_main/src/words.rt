//! The words that are answered by a text.
ghost use Rattle.std.specs.Prelude.{◌≡◌, map, string_bytes};
ghost use Rattle.grasp_replay_main.specs.Words.{text_for, text_named};

const HELP: &str = "\
Usage: grasp_replay show < STREAM
       grasp_replay pack < LINES
       grasp_replay replay < SCRIPT
       grasp_replay gen N
       grasp_replay draw N
       grasp_replay resolve < SCRIPT
       grasp_replay keep < SCRIPT
       grasp_replay record < SCRIPT
       grasp_replay audit < RECORD

  show       writes a line for each GRASP message (RFC 8990) of the stream
  pack       writes the message of each line, in its shortest encoding
  replay     runs a script of a network, and writes what each line comes to
  gen N      runs the script of a network that is drawn from the number N,
             and writes one line that tells what it came to
  draw N     writes the script that is drawn from the number N
  resolve    runs a script of a network whose nodes ask each other about
             doubtful prefixes, and writes what each line comes to
  keep       runs a script of a network whose nodes keep pools on disks and may
             crash and begin anew, and writes what each line comes to
  record     runs a script as replay does, and writes what each node took and
             answered at each line
  audit      says whether such a record is that of a run, or names its first line
             that fails, and why

  --help     prints this text
  --version  prints the version

For example:

  printf '\\203\\007\\001\\031\\023\\210' | grasp_replay show
  echo 'wait 1 5000' | grasp_replay pack > stream
  grasp_replay replay < script > reports
  grasp_replay gen 7
  grasp_replay draw 7 | grasp_replay replay > reports

The exit status is 0 where all went well, and 1 where the input is wrong at one
place: a line on standard error names it, and all that comes before it is
written, but nothing of a record. It is 2 for other words, and 3 where the input
is to be a script and is none: a line on standard error names its bad line, and
nothing is written. It is 4 and 5 for a failed read or write, 6 for want of
memory, and 7 for an input of more than 16,777,216 bytes, a script of more than
200,000 lines, or a script or record whose nodes send more than 268,435,456
bytes.
";

const VERSION: &str = "grasp_replay 0.2.0\n";

/// A text of the program's own.
#[derive(Clone, Copy, Debug, PartialEq, Eq)]
pub enum Text {
    /// How the program is called.
    Help,
    /// Its name and version.
    Version,
}

impl Text {
    /// The text itself.
    pub fn text(self) -> &'static str {
        match self {
            Text::Help => HELP,
            Text::Version => VERSION,
        }
    }
}

/// The text that these words alone ask for: `--help` and `--version` do.
pub fn text_for(words: &[String]) -> Option<Text>
    ensures { result ≡ text_for (map string_bytes words.now) }
{
    match words {
        [word] => text_named(word.as_str()),
        _ => None,
    }
}

fn text_named(word: &str) -> Option<Text>
    ensures { result ≡ text_named word.now }
{
    if word == "--help" {
        Some(Text::Help)
    } else if word == "--version" {
        Some(Text::Version)
    } else {
        None
    }
}
