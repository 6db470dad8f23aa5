ghost use Rattle.std.specs.Prelude.{◌≡◌, ◌++◌, ◌∷◌, [], OnOk, IfOk, string_bytes, map};
ghost use Rattle.std.specs.List.{flat_map};
ghost use Rattle.lvish_syntax.specs.Nested.{statements};
ghost use Rattle.lvish_checks.specs.declared.line.Line.TheVariants as line;
ghost use Rattle.lvish_checks.specs.Spelling.{term_word};
ghost use Rattle.lvish_script.specs.Spells.{version_lines, statement_lines, body_lines, procedure_lines};
ghost use Rattle.lvish_script.specs.Canonical.{words_joined, line_text, lines_text, text_of};

use crate::write_line::{write_command, write_declaration, write_opening, write_proc};
use lvish_syntax::{Block, Command, Declaration, Procedure, Script, Statement, Term, Version};
use std::alloc::{AllocError, Global};

/// The line of a version, if it has one.
fn write_version(text: &mut String, version: Version) -> Result<(), AllocError>
    ensures { OnOk result (string_bytes text.new ≡ string_bytes text.old ++ lines_text (version_lines version)) }
{
    match version {
        Version::One => Ok(()),
        Version::Two => {
            text.push_str("lvish 2\n")?;
            Ok(())
        }
    }
}

/// The line that opens a block.
fn opening(alloc: Global, text: &mut String, first: &str, test: &Term) -> Result<(), AllocError>
    ensures { OnOk result (string_bytes text.new ≡ string_bytes text.old ++ (words_joined (first.now ∷ term_word test.now ∷ []) ++ 10 ∷ [])) }
{
    write_opening(alloc, text, first, test)?;
    text.push('\n')?;
    Ok(())
}

/// The line of a statement of one line.
fn command_line(alloc: Global, text: &mut String, command: &Command) -> Result<(), AllocError>
    ensures { OnOk result (string_bytes text.new ≡ string_bytes text.old ++ line_text (line.Do command.now)) }
{
    write_command(alloc, text, command)?;
    text.push('\n')?;
    Ok(())
}

/// The lines of statements in order.
#[cycle(write)]
fn write_block(alloc: Global, text: &mut String, block: &Block) -> Result<(), AllocError>
    ensures { OnOk result (string_bytes text.new ≡ string_bytes text.old ++ lines_text (body_lines (statements block.now))) }
{
    for statement in &block.items {
        write_statement(alloc, text, statement)?;
    }
    Ok(())
}

/// The lines of a statement, from its first to its end.
#[cycle(write)]
fn write_statement(
    alloc: Global,
    text: &mut String,
    statement: &Statement,
) -> Result<(), AllocError>
    ensures { OnOk result (string_bytes text.new ≡ string_bytes text.old ++ lines_text (statement_lines statement.now)) }
{
    match statement {
        Statement::Do(command) => command_line(alloc, text, command.get()),
        Statement::If(test, block) => {
            opening(alloc, text, "if", test.get())?;
            write_block(alloc, text, block)?;
            text.push_str("end\n")?;
            Ok(())
        }
        Statement::IfElse(test, first, second) => {
            opening(alloc, text, "if", test.get())?;
            write_block(alloc, text, first)?;
            text.push_str("else\n")?;
            write_block(alloc, text, second)?;
            text.push_str("end\n")?;
            Ok(())
        }
        Statement::While(test, block) => {
            opening(alloc, text, "while", test.get())?;
            write_block(alloc, text, block)?;
            text.push_str("end\n")?;
            Ok(())
        }
    }
}

/// The lines of declarations in order.
fn write_declarations(text: &mut String, declarations: &[Declaration]) -> Result<(), AllocError>
    ensures { OnOk result (string_bytes text.new ≡ string_bytes text.old ++ lines_text (map (λ d. line.Declare d) declarations.now)) }
{
    for declaration in declarations {
        write_declaration(text, declaration)?;
        text.push('\n')?;
    }
    Ok(())
}

/// The lines of a procedure, from its first to its end.
fn write_procedure(
    alloc: Global,
    text: &mut String,
    procedure: &Procedure,
) -> Result<(), AllocError>
    ensures { OnOk result (string_bytes text.new ≡ string_bytes text.old ++ lines_text (procedure_lines procedure.now)) }
{
    write_proc(text, &procedure.name, procedure.parameters.as_slice())?;
    text.push('\n')?;
    write_block(alloc, text, &procedure.body)?;
    text.push_str("end\n")?;
    Ok(())
}

/// The lines of procedures in order.
fn write_procedures(
    alloc: Global,
    text: &mut String,
    procedures: &[Procedure],
) -> Result<(), AllocError>
    ensures { OnOk result (string_bytes text.new ≡ string_bytes text.old ++ lines_text (flat_map procedure_lines procedures.now)) }
{
    for procedure in procedures {
        write_procedure(alloc, text, procedure)?;
    }
    Ok(())
}

/// The script in canonical form: its lines in order, that of its version first, words separated by
/// one space, numbers in their shortest decimal form, each line ended by a line feed. Comments and
/// blank lines are no part of a script.
pub fn write_script(alloc: Global, script: &Script) -> Result<String, AllocError>
    ensures { IfOk result (λ text. string_bytes text ≡ text_of script.now) }
{
    let mut text = String::new(alloc);
    write_version(&mut text, script.version())?;
    write_declarations(&mut text, script.declarations())?;
    write_procedures(alloc, &mut text, script.procedures())?;
    Ok(text)
}
