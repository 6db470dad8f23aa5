//! The words of lines, written behind what a text has. Where a growth is refused some of them stand
//! there; `write_script`, whose text it is, drops it then.

ghost use Rattle.std.specs.Prelude.{◌≡◌, ◌++◌, ◌∷◌, [], map, OnOk, string_bytes, codes};
ghost use Rattle.std.specs.Fmt.{signed_decimal};
ghost use Rattle.lvish_checks.specs.Spelling.{term_word, kind_word, operator_word, value_words, threshold_words, pool_words, command_words, declaration_words};
ghost use Rattle.lvish_script.specs.Canonical.{spaced, words_joined};

use lvish_syntax::{
    Command, Declaration, Identifier, LetValue, Operator, SimpleKind, Term, Threshold, VariableKind,
};
use std::alloc::{AllocError, Global};

/// A word, after a space.
fn word(text: &mut String, word: &str) -> Result<(), AllocError>
    ensures { OnOk result (string_bytes text.new ≡ string_bytes text.old ++ 32 ∷ word.now) }
{
    text.push(' ')?;
    text.push_str(word)?;
    Ok(())
}

/// A number, after a space.
fn number(alloc: Global, text: &mut String, number: i64) -> Result<(), AllocError>
    ensures { OnOk result (string_bytes text.new ≡ string_bytes text.old ++ 32 ∷ signed_decimal number) }
{
    word(text, number.to_string(alloc)?.as_str())
}

/// A term, after a space.
fn term(alloc: Global, text: &mut String, term: &Term) -> Result<(), AllocError>
    ensures { OnOk result (string_bytes text.new ≡ string_bytes text.old ++ 32 ∷ term_word term.now) }
{
    match term {
        Term::Local(name) => word(text, name.as_str()),
        Term::Number(value) => number(alloc, text, *value),
    }
}

/// Names, each after a space.
pub fn write_names(text: &mut String, names: &[Identifier]) -> Result<(), AllocError>
    ensures { OnOk result (string_bytes text.new ≡ string_bytes text.old ++ spaced names.now) }
{
    for name in names {
        word(text, name.as_str())?;
    }
    Ok(())
}

/// Terms, each after a space.
fn write_terms(alloc: Global, text: &mut String, terms: &[Term]) -> Result<(), AllocError>
    ensures { OnOk result (string_bytes text.new ≡ string_bytes text.old ++ spaced (map term_word terms.now)) }
{
    for item in terms {
        term(alloc, text, item)?;
    }
    Ok(())
}

/// Numbers, each after a space.
fn write_numbers(alloc: Global, text: &mut String, numbers: &[i64]) -> Result<(), AllocError>
    ensures { OnOk result (string_bytes text.new ≡ string_bytes text.old ++ spaced (map signed_decimal numbers.now)) }
{
    for item in numbers {
        number(alloc, text, *item)?;
    }
    Ok(())
}

fn operator_text(operator: Operator) -> &'static str
    ensures { result.now ≡ operator_word operator }
{
    match operator {
        Operator::Add => "+",
        Operator::Subtract => "-",
        Operator::Multiply => "*",
        Operator::Divide => "/",
        Operator::Remainder => "%",
        Operator::Less => "<",
        Operator::Equal => "=",
    }
}

fn kind_text(kind: SimpleKind) -> &'static str
    ensures { result.now ≡ kind_word kind }
{
    match kind {
        SimpleKind::Cell => "cell",
        SimpleKind::Set => "set",
        SimpleKind::Max => "max",
    }
}

fn write_value(alloc: Global, text: &mut String, value: &LetValue) -> Result<(), AllocError>
    ensures { OnOk result (string_bytes text.new ≡ string_bytes text.old ++ spaced (value_words value.now)) }
{
    match value {
        LetValue::Same(same) => term(alloc, text, same),
        LetValue::Combined(left, operator, right) => {
            term(alloc, text, left)?;
            word(text, operator_text(*operator))?;
            term(alloc, text, right)
        }
    }
}

fn write_threshold(
    alloc: Global,
    text: &mut String,
    threshold: &Threshold,
) -> Result<(), AllocError>
    ensures { OnOk result (string_bytes text.new ≡ string_bytes text.old ++ spaced (threshold_words threshold.now)) }
{
    match threshold {
        Threshold::Any => word(text, "any"),
        Threshold::In(numbers) => {
            word(text, "in")?;
            write_numbers(alloc, text, numbers.as_slice())
        }
        Threshold::Has(element) => {
            word(text, "has")?;
            term(alloc, text, element)
        }
        Threshold::Least(least) => {
            word(text, "least")?;
            term(alloc, text, least)
        }
        Threshold::Total(total) => {
            word(text, "total")?;
            term(alloc, text, total)
        }
    }
}

/// The pools of a freeze, if there are any.
fn write_pools(text: &mut String, pools: &[Identifier]) -> Result<(), AllocError>
    ensures { OnOk result (string_bytes text.new ≡ string_bytes text.old ++ spaced (pool_words pools.now)) }
{
    if pools.is_empty() {
        return Ok(());
    }
    word(text, "after")?;
    write_names(text, pools)
}

/// The first word of a line, and a name.
fn begin(text: &mut String, first: &str, name: &Identifier) -> Result<(), AllocError>
    ensures { OnOk result (string_bytes text.new ≡ string_bytes text.old ++ words_joined (first.now ∷ name.now ∷ [])) }
{
    text.push_str(first)?;
    word(text, name.as_str())
}

/// The first word of a line, and two names.
fn begin_two(
    text: &mut String,
    first: &str,
    name: &Identifier,
    other: &Identifier,
) -> Result<(), AllocError>
    ensures { OnOk result (string_bytes text.new ≡ string_bytes text.old ++ words_joined (first.now ∷ name.now ∷ other.now ∷ [])) }
{
    begin(text, first, name)?;
    word(text, other.as_str())
}

/// The words of a statement that runs a procedure on terms.
fn write_run(
    alloc: Global,
    text: &mut String,
    first: &str,
    procedure: &Identifier,
    terms: &[Term],
) -> Result<(), AllocError>
    ensures { OnOk result (string_bytes text.new ≡ string_bytes text.old ++ words_joined (first.now ∷ procedure.now ∷ map term_word terms.now)) }
{
    begin(text, first, procedure)?;
    write_terms(alloc, text, terms)
}

/// The words of a statement of one line.
pub fn write_command(alloc: Global, text: &mut String, command: &Command) -> Result<(), AllocError>
    ensures { OnOk result (string_bytes text.new ≡ string_bytes text.old ++ words_joined (command_words command.now)) }
{
    match command {
        Command::Let(local, value) => {
            begin(text, "let", local)?;
            write_value(alloc, text, value)
        }
        Command::Put(variable, value) => {
            begin(text, "put", variable)?;
            term(alloc, text, value)
        }
        Command::PutAt(variable, place, value) => {
            begin(text, "put", variable)?;
            term(alloc, text, place)?;
            term(alloc, text, value)
        }
        Command::Get(local, variable, threshold) => {
            begin_two(text, "get", local, variable)?;
            write_threshold(alloc, text, threshold)
        }
        Command::GetAt(local, variable, place, threshold) => {
            begin_two(text, "get", local, variable)?;
            term(alloc, text, place)?;
            write_threshold(alloc, text, threshold)
        }
        Command::Fork(name, terms) => write_run(alloc, text, "fork", name, terms.as_slice()),
        Command::Call(name, terms) => write_run(alloc, text, "call", name, terms.as_slice()),
        Command::Handle(pool, procedure) => begin_two(text, "handle", pool, procedure),
        Command::Freeze(local, variable, pools) => {
            begin_two(text, "freeze", local, variable)?;
            write_pools(text, pools.as_slice())
        }
        Command::FreezeEach(local, variable, pools, procedure) => {
            begin_two(text, "freeze", local, variable)?;
            write_pools(text, pools.as_slice())?;
            word(text, "each")?;
            word(text, procedure.as_str())
        }
    }
}

/// The words of a declaration.
pub fn write_declaration(text: &mut String, declaration: &Declaration) -> Result<(), AllocError>
    ensures { OnOk result (string_bytes text.new ≡ string_bytes text.old ++ words_joined (declaration_words declaration.now)) }
{
    match declaration {
        Declaration::Variable(name, VariableKind::Simple(kind)) => {
            begin(text, kind_text(*kind), name)
        }
        Declaration::Variable(name, VariableKind::Map) => begin(text, "map", name),
        Declaration::Variable(name, VariableKind::Pair(first, second)) => {
            begin(text, "pair", name)?;
            word(text, kind_text(*first))?;
            word(text, kind_text(*second))
        }
        Declaration::Variable(name, VariableKind::Tally) => begin(text, "tally", name),
        Declaration::Pool(pool, variable) => begin_two(text, "pool", pool, variable),
    }
}

/// The words of a line that opens a block.
pub fn write_opening(
    alloc: Global,
    text: &mut String,
    first: &str,
    test: &Term,
) -> Result<(), AllocError>
    ensures { OnOk result (string_bytes text.new ≡ string_bytes text.old ++ words_joined (first.now ∷ term_word test.now ∷ [])) }
{
    text.push_str(first)?;
    term(alloc, text, test)
}

/// The words of the line of a procedure.
pub fn write_proc(
    text: &mut String,
    name: &Identifier,
    parameters: &[Identifier],
) -> Result<(), AllocError>
    ensures { OnOk result (string_bytes text.new ≡ string_bytes text.old ++ words_joined (codes "proc" ∷ name.now ∷ parameters.now)) }
{
    begin(text, "proc", name)?;
    write_names(text, parameters)
}
