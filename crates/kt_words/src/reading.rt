//! The words of a tool, from left to right.
//! The rules: docs/COMMANDS.md, "Words".
ghost use Rattle.std.specs.Prelude.{◌≡◌, ◌+◌, ◌<◌, length, IfOk};
ghost use Rattle.kt_words.specs.Fits.{IsRead};
ghost use Rattle.kt_words.specs.Reading.{given_by};

use crate::given::Given;
use crate::judging::{finish, refused};
use crate::stop::WordStop;
use crate::tool::Tool;
use crate::words::Words;

/// What the words behind the first say to a tool, or the first faulty one.
pub(crate) fn read_given(tool: Tool, words: &Words) -> Result<Given, WordStop>
    requires { 0 < length words.now }
    ensures value { result ≡ given_by tool words.now }
    ensures read { IfOk result (IsRead tool) }
{
    let mut given = Given::new();
    'words: for n in 1..words.len() {
        given = match given.with_word(tool, n as u32 + 1, words.word(n)) {
            Ok(given) => given,
            Err(cause) => return refused(n as u32 + 1, cause),
        };
    }
    match finish(&given, tool, words.len() as u32) {
        Ok(()) => Ok(given),
        Err(stop) => Err(stop),
    }
}
