ghost use Rattle.std.specs.Prelude.{◌≡◌, ◌++◌, IfOk, OnOk, length};
ghost use Rattle.lvish_lattice.specs.GrowSet.{items_of};
ghost use Rattle.lvish_facts.specs.Names.{names_in};
ghost use Rattle.lvish_pointing.specs.Answers.{lines_with, pointed};
ghost use Rattle.lvish_pointing.specs.Numbers.{name_at};
ghost use Rattle.lvish_pointing.specs.Rows.{rows_of, row_of};

use lvish_facts::Node;
use lvish_lattice::GrowSet;
use lvish_rules::Answer;
use std::alloc::{AllocError, Global};

/// Adds a name, if there is such a node.
fn put_name(text: &mut Vec<u8>, names: &[&[u8]], node: Node) -> Result<(), AllocError>
    ensures { OnOk result (text.new.items ≡ text.old.items ++ name_at (names_in names.now) node) }
{
    if let Some(name) = names.get(node.number) {
        text.extend_from_slice(name)?;
    }
    Ok(())
}

/// Adds the line of what the pointer points to, if that is anything.
fn put_row(
    text: &mut Vec<u8>,
    names: &[&[u8]],
    pointer: Node,
    targets: &GrowSet<Node>,
) -> Result<(), AllocError>
    ensures { OnOk result (text.new.items ≡ text.old.items ++ lines_with (row_of (names_in names.now) pointer (items_of targets.now))) }
{
    if targets.len() == 0 {
        return Ok(());
    }
    put_name(text, names, pointer)?;
    text.push(b':')?;
    for node in targets.items() {
        text.push(b' ')?;
        put_name(text, names, *node)?;
    }
    text.push(b'\n')?;
    Ok(())
}

/// Who points to whom, a line for each that points to anything.
#[derive(Drop)]
pub struct Listed {
    pub text: Vec<u8>,
    /// How many names are pointed to, counted at each that points to them.
    pub count: usize,
}

/// Who points to whom by the answer, over these names.
pub fn listing(
    alloc: Global,
    names: &[&[u8]],
    answer: &Answer<GrowSet<Node>>,
) -> Result<Listed, AllocError>
    ensures text { IfOk result (λ l. l.text.items ≡ lines_with (rows_of items_of (names_in names.now) answer.now.states (length (names_in names.now)))) }
    ensures counted { IfOk result (λ l. l.count ≡ pointed (rows_of items_of (names_in names.now) answer.now.states (length (names_in names.now)))) }
{
    let mut text = Vec::new(alloc);
    let mut count = 0;
    for number in 0..names.len() {
        if let Some(targets) = answer.state(number) {
            put_row(&mut text, names, Node { number }, targets)?;
            count += targets.len();
        }
    }
    Ok(Listed { text, count })
}
