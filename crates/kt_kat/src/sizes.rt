//! Finding all files before one of them is read.
//! The rules: docs/COMMANDS.md, "kat".
ghost use Rattle.std.specs.Prelude.{◌≡◌, ◌+◌, ◌<◌, ◌≤◌, length, drop, Ok, Err, IfOk, IfErr, IfSome};
ghost use Rattle.kt_kat.specs.Files.{found_file, files_of, file_limit};
ghost use Rattle.kt_kat.specs.Found.{IsFound, AreFound, TellsRefusal, Looked};

use crate::stops::{absent_stop, size_within};
use kt_ends::ToolStop;
use kt_out::Inputs;
use kt_rec::Name;
use kt_words::Words;
use std::alloc::{AllocError, Global};

/// A name of these bytes.
fn name_of(alloc: Global, bytes: &[u8]) -> Result<Name, AllocError>
    ensures { IfOk result (λ name. name ≡ bytes.now) }
{
    let mut name = Name::new(alloc);
    name.append(bytes)?;
    Ok(name)
}

/// The size of the file of this name, at most 2^30 bytes.
fn size_of<I: Inputs>(alloc: Global, inputs: &mut I, word: &[u8]) -> Result<u64, ToolStop>
    ensures found { IfOk result (λ size. IfSome (I.state inputs.old).held (λ files. IsFound word.now (files word.now) size)) }

    ensures refused { IfErr result (λ stop. IfSome (I.state inputs.old).held (λ files. TellsRefusal (found_file word.now (files word.now)) stop)) }

    ensures counted { Looked (I.state inputs.old) (I.state inputs.new) result }
{
    let Ok(name) = name_of(alloc, word) else {
        return Err(ToolStop::NoMemory);
    };
    match inputs.size(word) {
        Ok(size) => size_within(name, size),
        Err(why) => Err(absent_stop(name, why)),
    }
}

/// The sizes of the files that all words but the first name, in their order. The first that is missing or too large is refused.
pub(crate) fn find_sizes<I: Inputs>(
    alloc: Global,
    words: &Words,
    inputs: &mut I,
) -> Result<Vec<u64>, ToolStop>
    requires { 0 < length words.now }
    ensures found { IfOk result (λ sizes. IfSome (I.state inputs.old).held (λ files. AreFound (drop 1 words.now) files sizes.items)) }
    ensures each { IfOk result (λ sizes. length sizes.items + 1 ≡ length words.now) }

    ensures refused { IfErr result (λ stop. IfSome (I.state inputs.old).held (λ files. TellsRefusal (files_of (drop 1 words.now) files) stop)) }

    ensures counted { Looked (I.state inputs.old) (I.state inputs.new) result }
{
    let mut sizes = Vec::new(alloc);
    'words: for n in 1..words.len() {
        let size = match size_of(alloc, inputs, words.word(n)) {
            Ok(size) => size,
            Err(stop) => return Err(stop),
        };
        if let Err(_) = sizes.push(size) {
            return Err(ToolStop::NoMemory);
        }
    }
    Ok(sizes)
}
