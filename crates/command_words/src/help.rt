//! Which words ask for help, and what they ask about.

ghost use Rattle.std.specs.Prelude.{◌≡◌, map, string_bytes, IfSome, None};
ghost use Rattle.command_words.specs.Words.{request_of, mine_request_of};
ghost use Rattle.command_words.specs.Help.{command_read, alone_read, help_read};

/// A command of the program.
#[derive(Clone, Copy, Debug, PartialEq, Eq)]
pub enum Command {
    Publish,
    Mine,
    Check,
    Eval,
    Made,
}

/// What help is asked for.
#[derive(Clone, Copy, Debug, PartialEq, Eq)]
pub enum Help {
    /// The page of the whole program.
    All,
    /// The page of one command.
    About(Command),
    /// The program's name and version.
    Version,
}

// The command of a word.
fn command_of(word: &str) -> Option<Command>
    ensures { result ≡ command_read word.now }
{
    if word == "publish" {
        return Some(Command::Publish);
    }
    if word == "mine" {
        return Some(Command::Mine);
    }
    if word == "check" {
        return Some(Command::Check);
    }
    if word == "eval" {
        return Some(Command::Eval);
    }
    if word == "made" {
        return Some(Command::Made);
    }
    None
}

// What one word asks for that stands alone.
fn alone(word: &str) -> Option<Help>
    ensures { result ≡ alone_read word.now }
{
    if word == "--help" {
        return Some(Help::All);
    }
    if word == "-h" {
        return Some(Help::All);
    }
    if word == "help" {
        return Some(Help::All);
    }
    if word == "--version" {
        return Some(Help::Version);
    }
    None
}

// What is asked for by words that ask for help.
fn asked(words: &[String]) -> Option<Help>
    ensures { result ≡ help_read (map string_bytes words.now) }
{
    match words {
        [word] => alone(word.as_str()),
        [command, option] => {
            if option.as_str() == "--help" {
                Some(Help::About(command_of(command.as_str())?))
            } else {
                None
            }
        }
        _ => None,
    }
}

/// What help is asked for, if the words ask for help: `--help`, `-h` or `help` alone, `--version` alone, or a command and then
/// `--help`.
pub fn help_of(words: &[String]) -> Option<Help>
    ensures value { result ≡ help_read (map string_bytes words.now) }
    // No such words are in the grammar of a command.
    ensures apart { IfSome result (λ help. (request_of (map string_bytes words.now) ≡ None) × (mine_request_of (map string_bytes words.now) ≡ None)) }
{
    asked(words)
}
