//! The words of a call, taken from the arguments of the program.
ghost use Rattle.std.specs.Prelude.{◌≡◌, ◌≢◌, IfOk, IfErr, IsOk, IsErr};
ghost use Rattle.std.specs.IoError.{error_kind};
ghost use Rattle.call_words.specs.Arguments.{words_in};

use edge_io::Text;
use std::alloc::{AllocError, Global};
use std::env::Args;
use std::io;
use std::io::ErrorKind;

/// The words of a call: its arguments but for the first, which is the program's name. Where an argument isn't UTF-8
/// there are none, which are no words of a command either. Err: no memory was left.
pub fn words_of(alloc: Global, arguments: io::Result<Args>) -> Result<Vec<Text>, AllocError>
    ensures words { IfOk result (λ words. words.items ≡ words_in arguments) }
    ensures no_memory { IfErr arguments (λ fault. error_kind fault ≡ ErrorKind.OutOfMemory → IsErr result) }
    ensures no_words { IfErr arguments (λ fault. error_kind fault ≢ ErrorKind.OutOfMemory → IsOk result) }
{
    let mut words = Vec::new(alloc);
    let mut arguments = match arguments {
        Ok(arguments) => arguments,
        Err(error) if error.kind() == ErrorKind::OutOfMemory => return Err(AllocError),
        Err(_) => return Ok(words),
    };
    let _name = arguments.next();
    for word in arguments {
        words.push(Text::from_slice(alloc, word.as_bytes())?)?;
    }
    Ok(words)
}
