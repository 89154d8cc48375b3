// The words of commands that wait for nobody.
ghost use Rattle.std.specs.Prelude.{◌≡◌, map, option_map, string_bytes};
ghost use Rattle.cli_words.specs.Command.{asked};
ghost use Rattle.command_meaning.specs.Commands.{command_of, notebook_of};

use crate::positional::names_something;

/// What the program is to do.
#[derive(Clone, Copy)]
pub enum Command<'a> {
    /// To open the notebook of a file.
    Once { file: &'a str },
    /// To play a script of visitors on the notebook of a file.
    Play { file: &'a str, script: &'a str },
}

impl<'a> Command<'a> {
    /// The file of the notebook.
    pub fn notebook(self) -> &'a str
        ensures { result.now ≡ notebook_of (asked self.entry) }
    {
        match self {
            Command::Once { file } | Command::Play { file, .. } => file,
        }
    }
}

/// The command that the words ask for, `once FILE` or `script FILE SCRIPT`; none where they ask for none. The program's own name is no word.
pub fn read_command(words: &[String]) -> Option<Command<'_>>
    ensures { option_map asked result ≡ command_of (map string_bytes words.now) }
{
    match words {
        [word, file] if word.as_str() == "once" && names_something(file.as_str()) => {
            Some(Command::Once {
                file: file.as_str(),
            })
        }
        [word, file, script]
            if word.as_str() == "script"
                && names_something(file.as_str())
                && names_something(script.as_str()) => {
            Some(Command::Play {
                file: file.as_str(),
                script: script.as_str(),
            })
        }
        _ => None,
    }
}
