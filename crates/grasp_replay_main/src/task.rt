//! What the program is asked for.
ghost use Rattle.std.specs.Prelude.{◌≡◌, map, string_bytes};
ghost use Rattle.grasp_replay_main.specs.Task.{task_of, task_named, task_numbered};

use grasp_text::number;

/// A form of the program's call.
#[derive(Clone, Copy, Debug, PartialEq, Eq)]
pub enum Task {
    /// Write a line for each message of a stream.
    Show,
    /// Write the message of each line.
    Pack,
    /// Run a script, and write what each of its lines comes to.
    Replay,
    /// Run a script in a network whose nodes keep their pools on disks, and may crash, and write what each of its lines comes to.
    Keep,
    /// Run a script in a network whose nodes ask each other about doubtful prefixes, and write what each of its lines comes to.
    Resolve,
    /// Run a script, and write the record of its run.
    Record,
    /// Say whether a record is that of a run.
    Audit,
    /// Run the script that is drawn from the number, and write what it came to.
    Gen { number: u64 },
    /// Write the script that is drawn from the number.
    Draw { number: u64 },
}

/// What the words after the program's name ask for.
pub fn task_of(words: &[String]) -> Option<Task>
    ensures { result ≡ task_of (map string_bytes words.now) }
{
    match words {
        [word] => task_named(word.as_str()),
        [word, number] => task_numbered(word.as_str(), number.as_str()),
        _ => None,
    }
}

fn task_named(word: &str) -> Option<Task>
    ensures { result ≡ task_named word.now }
{
    if word == "show" {
        Some(Task::Show)
    } else if word == "pack" {
        Some(Task::Pack)
    } else if word == "replay" {
        Some(Task::Replay)
    } else if word == "keep" {
        Some(Task::Keep)
    } else if word == "resolve" {
        Some(Task::Resolve)
    } else if word == "record" {
        Some(Task::Record)
    } else if word == "audit" {
        Some(Task::Audit)
    } else {
        None
    }
}

fn task_numbered(word: &str, digits: &str) -> Option<Task>
    ensures { result ≡ task_numbered word.now digits.now }
{
    if word != "gen" && word != "draw" {
        return None;
    }
    match number(digits.as_bytes(), u64::MAX) {
        Some(number) if word == "gen" => Some(Task::Gen { number }),
        Some(number) => Some(Task::Draw { number }),
        None => None,
    }
}
