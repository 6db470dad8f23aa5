//! How standard error tells of what came of words.

ghost use Rattle.std.specs.Prelude.{IfOk};
ghost use Rattle.lvish_cli.specs.Painted.{IsHeadLength, IsPainted};

use std::alloc::{AllocError, Global};

/// Where standard error goes.
#[derive(Clone, Copy)]
pub enum Hearer {
    /// To a file or a program.
    Stream,
    /// To a terminal, which may show colours.
    Terminal { colours: bool },
}

/// What is told there.
#[derive(Clone, Copy)]
pub(crate) struct Telling {
    /// Whether refusals and runs are explained.
    pub explains: bool,
    /// Whether the first line of an explanation stands out.
    pub colours: bool,
}

impl Telling {
    /// As words ask for it, and else where a terminal shows it.
    pub fn of(why: Option<bool>, hearer: Hearer) -> Telling {
        match hearer {
            Hearer::Stream => Telling {
                explains: why.unwrap_or(false),
                colours: false,
            },
            Hearer::Terminal { colours } => Telling {
                explains: why.unwrap_or(true),
                colours,
            },
        }
    }
}

/// What makes a terminal print bold, and what ends it.
const BOLD: &[u8] = b"\x1b[1m";

const PLAIN: &[u8] = b"\x1b[0m";

/// The text with its first line in bold.
pub(crate) fn painted(alloc: Global, text: &[u8]) -> Result<Vec<u8>, AllocError>
    ensures { IfOk result (λ painted. IsPainted text.now painted.items) }
{
    let (head, rest) = text.split_at(head_length(text));
    let mut painted = Vec::new(alloc);
    painted.extend_from_slice(BOLD)?;
    painted.extend_from_slice(head)?;
    painted.extend_from_slice(PLAIN)?;
    painted.extend_from_slice(rest)?;
    Ok(painted)
}

/// The length of the first line, without its end.
fn head_length(text: &[u8]) -> usize
    ensures { IsHeadLength text.now result }
{
    for i in 0..text.len() {
        if text[i] == b'\n' {
            return i;
        }
    }
    text.len()
}
