//! The plain form of a script.
ghost use Rattle.std.specs.Prelude.{◌≡◌, ℕ, List, ◌++◌, IfOk, decimal};
ghost use Rattle.pb_object.specs.Text.{op_text, spaced};
ghost use Rattle.pb_script.specs.Print.{request_text, line_text, script_text};
ghost use Rattle.pb_script.specs.Script.{IsScript};
ghost use Rattle.pb_script.specs.Words.{lines};

use itoa::Buffer;
use pb_object::{Action, Ask, Kind, Op};
use std::alloc::{AllocError, Global};

/// Prints requests in the plain form: a line for each, with one space between fields, no leading zeros, no blank lines and no
/// comments. Where the requests are a script of this kind, the text is a script of the same requests.
pub fn print_script(alloc: Global, asks: &[Ask], kind: Kind) -> Result<Vec<u8>, AllocError>
    ensures plain { IfOk result (λ text. text.items ≡ script_text asks.now) }
    ensures same { IfOk result (λ text. (clients : ℕ) (source : List (List ℕ)) →
        IsScript kind clients source asks.now → IsScript kind clients (lines text.items) asks.now) }
{
    let mut text = Vec::new(alloc);
    for ask in asks {
        print_line(&mut text, ask)?;
    }
    Ok(text)
}

fn print_line(text: &mut Vec<u8>, ask: &Ask) -> Result<(), AllocError>
    ensures { IfOk result (λ _. text.new.items ≡ text.old.items ++ line_text ask.now) }
{
    print_request(text, ask)?;
    text.push(b'\n')?;
    Ok(())
}

fn print_request(text: &mut Vec<u8>, ask: &Ask) -> Result<(), AllocError>
    ensures { IfOk result (λ _. text.new.items ≡ text.old.items ++ request_text ask.now) }
{
    print_number(text, u64::from(ask.client))?;
    text.push(b' ')?;
    print_number(text, ask.number)?;
    text.push(b' ')?;
    print_op(text, &ask.op)
}

fn print_op(text: &mut Vec<u8>, op: &Op) -> Result<(), AllocError>
    ensures { IfOk result (λ _. text.new.items ≡ text.old.items ++ op_text op.now) }
{
    match Action::from_code(op.code) {
        Some(action) => {
            text.extend_from_slice(action.word().as_bytes())?;
            let arguments = [op.a, op.b, op.c];
            print_arguments(text, &arguments[..action.argument_count()])
        }
        None => Ok(()),
    }
}

fn print_arguments(text: &mut Vec<u8>, arguments: &[u64]) -> Result<(), AllocError>
    ensures { IfOk result (λ _. text.new.items ≡ text.old.items ++ spaced arguments.now) }
{
    for argument in arguments {
        text.push(b' ')?;
        print_number(text, *argument)?;
    }
    Ok(())
}

fn print_number(text: &mut Vec<u8>, number: u64) -> Result<(), AllocError>
    ensures { IfOk result (λ _. text.new.items ≡ text.old.items ++ decimal number) }
{
    let mut buffer = Buffer::new();
    text.extend_from_slice(buffer.format(number).as_bytes())
}
