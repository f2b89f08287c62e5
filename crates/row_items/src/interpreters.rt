//! Interpreters whose command and arguments are texts.

use justfile_attribute::Interpreter;
use row_notation::{Answer, push_copy};
use std::alloc::{AllocError, Global};

/// Writes the command of the default interpreter for scripts, the number of its arguments, and its
/// text. Writes `uncopied` if its copy isn't equal to it.
pub fn push_default(answer: &mut Answer) {
    match Interpreter::<String>::default_script_interpreter(answer.alloc()) {
        Ok(interpreter) => push_script(&interpreter, answer),
        Err(_) => answer.fail(),
    }
}

fn push_script(interpreter: &Interpreter<String>, answer: &mut Answer) {
    answer.push(interpreter.command.as_str());
    answer.push_number(interpreter.arguments.len());
    answer.push_display(interpreter);
    push_copy(interpreter, interpreter.clone(answer.alloc()), answer);
}

/// Makes an interpreter of the words of a text.
fn interpreter_of<'row>(
    alloc: Global,
    text: &'row str,
) -> Result<Interpreter<&'row str>, AllocError> {
    let mut words = text.split_whitespace();
    let command = words.next().unwrap_or("");
    let mut arguments = Vec::new(alloc);
    for word in words {
        arguments.push(word)?;
    }
    Ok(Interpreter { command, arguments })
}

/// Writes the interpreter whose command and arguments are the words of a text. Writes `least` and
/// `other` if the same command without arguments is less than it, and another one.
pub fn push_interpreter(answer: &mut Answer, text: &str) {
    match interpreter_of(answer.alloc(), text) {
        Ok(interpreter) => push_compared(&interpreter, answer),
        Err(_) => answer.fail(),
    }
}

fn push_compared(interpreter: &Interpreter<&str>, answer: &mut Answer) {
    answer.push_display(interpreter);
    let bare = Interpreter {
        command: interpreter.command,
        arguments: Vec::new(answer.alloc()),
    };
    answer.push_if("least", bare < *interpreter);
    answer.push_if("other", bare != *interpreter);
}
