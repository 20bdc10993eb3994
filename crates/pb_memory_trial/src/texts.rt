//! A source is read as a script, which is printed again.
ghost use Rattle.std.specs.Prelude.{◌≡◌, List, ◌<◌, ◌^◌, length, IfOk};
ghost use Rattle.pb_object.specs.declared.kind.Kind.TheVariants.{Map};
ghost use Rattle.pb_object.specs.declared.request.Ask.{Ask};
ghost use Rattle.pb_script.specs.Print.{script_text};
ghost use Rattle.pb_script.specs.Script.{IsShort, IsScript};
ghost use Rattle.pb_script.specs.Words.{lines};

use pb_object::Kind;
use pb_script::{ScriptFault, parse_script, print_script};
use std::alloc::{AllocError, Global};

/// For how many clients of a map a source is read.
const CLIENTS: u32 = 2;

/// The plain form of the script that a source is, or nothing where it is none.
pub fn plain_script(alloc: Global, source: &[u8]) -> Result<Vec<u8>, AllocError>
    requires { length source.now < 2 ^ 32 }
    ensures { IfOk result (λ text. (asks : List Ask) → IsShort (lines source.now) → IsScript Map CLIENTS (lines source.now) asks →
        text.items ≡ script_text asks) }
{
    match parse_script(alloc, source, Kind::Map, CLIENTS) {
        Ok(asks) => print_script(alloc, &asks, Kind::Map),
        Err(ScriptFault::Memory) => Err(AllocError),
        Err(_) => Ok(Vec::new(alloc)),
    }
}
