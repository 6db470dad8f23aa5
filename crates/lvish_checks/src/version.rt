//! What stands in the scripts of a version.

ghost use Rattle.std.specs.Prelude.{◌≡◌, ◌&&◌, ◌∷◌, []};
ghost use Rattle.std.specs.List.{list_all};
ghost use Rattle.lvish_syntax.specs.Version.{is_later, is_name_in, is_kind_in, is_term_in, is_value_in, is_threshold_in, is_command_in, is_declaration_in};
ghost use Rattle.lvish_checks.specs.Checks.{is_told, is_line_in, version_of};

use crate::line::Line;
use crate::word::is;
use lvish_syntax::{
    Command, Declaration, Identifier, LetValue, Term, Threshold, VariableKind, Version,
};

/// Whether a line has words.
pub fn is_told(line: &Line) -> bool
    ensures { result ≡ is_told line.now }
{
    !matches!(line, Line::Blank)
}

fn says_version(line: &Line) -> Version
    ensures { result ≡ version_of (line.now ∷ []) }
{
    match line {
        Line::Version => Version::Two,
        _ => Version::One,
    }
}

/// The version that lines say, by the first of them that has words.
pub fn version_of(lines: &[Line]) -> Version
    ensures { result ≡ version_of lines.now }
{
    for line in lines {
        if is_told(line) {
            return says_version(line);
        }
    }
    Version::One
}

/// Whether a name is one of the words that version 2 reserves beside those of version 1.
fn is_later(name: &Identifier) -> bool
    ensures { result ≡ is_later name.now }
{
    let text = name.as_str().as_bytes();
    is(text, b"lvish") || is(text, b"tally") || is(text, b"total")
}

fn is_name_in(version: Version, name: &Identifier) -> bool
    ensures { result ≡ is_name_in version name.now }
{
    match version {
        Version::One => true,
        Version::Two => !is_later(name),
    }
}

fn are_names_in(version: Version, names: &[Identifier]) -> bool
    ensures { result ≡ list_all (is_name_in version) names.now }
{
    for name in names {
        if !is_name_in(version, name) {
            return false;
        }
    }
    true
}

fn is_kind_in(version: Version, kind: VariableKind) -> bool
    ensures { result ≡ is_kind_in version kind }
{
    match kind {
        VariableKind::Tally => version == Version::Two,
        VariableKind::Simple(_) | VariableKind::Map | VariableKind::Pair(_, _) => true,
    }
}

fn is_term_in(version: Version, term: &Term) -> bool
    ensures { result ≡ is_term_in version term.now }
{
    match term {
        Term::Local(name) => is_name_in(version, name),
        Term::Number(_) => true,
    }
}

fn are_terms_in(version: Version, terms: &[Term]) -> bool
    ensures { result ≡ list_all (is_term_in version) terms.now }
{
    for term in terms {
        if !is_term_in(version, term) {
            return false;
        }
    }
    true
}

fn is_value_in(version: Version, value: &LetValue) -> bool
    ensures { result ≡ is_value_in version value.now }
{
    match value {
        LetValue::Same(term) => is_term_in(version, term),
        LetValue::Combined(left, _, right) => is_term_in(version, left)
            && is_term_in(version, right),
    }
}

fn is_threshold_in(version: Version, threshold: &Threshold) -> bool
    ensures { result ≡ is_threshold_in version threshold.now }
{
    match threshold {
        Threshold::Any | Threshold::In(_) => true,
        Threshold::Has(term) | Threshold::Least(term) => is_term_in(version, term),
        Threshold::Total(term) => version == Version::Two && is_term_in(version, term),
    }
}

fn are_both_in(version: Version, first: &Identifier, second: &Identifier) -> bool
    ensures { result ≡ (is_name_in version first.now && is_name_in version second.now) }
{
    is_name_in(version, first) && is_name_in(version, second)
}

fn is_command_in(version: Version, command: &Command) -> bool
    ensures { result ≡ is_command_in version command.now }
{
    match command {
        Command::Let(x, value) => is_name_in(version, x) && is_value_in(version, value),
        Command::Put(v, term) => is_name_in(version, v) && is_term_in(version, term),
        Command::PutAt(v, place, term) => {
            is_name_in(version, v) && is_term_in(version, place) && is_term_in(version, term)
        }
        Command::Get(x, v, threshold) => {
            are_both_in(version, x, v) && is_threshold_in(version, threshold)
        }
        Command::GetAt(x, v, place, threshold) => {
            are_both_in(version, x, v)
                && is_term_in(version, place)
                && is_threshold_in(version, threshold)
        }
        Command::Fork(procedure, terms) | Command::Call(procedure, terms) => {
            is_name_in(version, procedure) && are_terms_in(version, terms.as_slice())
        }
        Command::Handle(pool, procedure) => are_both_in(version, pool, procedure),
        Command::Freeze(x, v, pools) => {
            are_both_in(version, x, v) && are_names_in(version, pools.as_slice())
        }
        Command::FreezeEach(x, v, pools, procedure) => {
            are_both_in(version, x, v)
                && are_names_in(version, pools.as_slice())
                && is_name_in(version, procedure)
        }
    }
}

fn is_declaration_in(version: Version, declaration: &Declaration) -> bool
    ensures { result ≡ is_declaration_in version declaration.now }
{
    match declaration {
        Declaration::Variable(name, kind) => is_name_in(version, name)
            && is_kind_in(version, *kind),
        Declaration::Pool(pool, variable) => are_both_in(version, pool, variable),
    }
}

/// Whether what a line says stands in scripts of this version.
pub fn is_line_in(version: Version, line: &Line) -> bool
    ensures { result ≡ is_line_in version line.now }
{
    match line {
        Line::Declare(declaration) => is_declaration_in(version, declaration.get()),
        Line::Proc(name, parameters) => {
            is_name_in(version, name.get()) && are_names_in(version, parameters.get().as_slice())
        }
        Line::Do(command) => is_command_in(version, command.get()),
        Line::If(term) | Line::While(term) => is_term_in(version, term.get()),
        Line::Blank | Line::Bad | Line::Version | Line::Else | Line::End => true,
    }
}
