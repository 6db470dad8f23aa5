//! Variables and pools by their names.

use crate::spot::Spot;
use lvish_syntax::{Declaration, Identifier};

/// The variable of this name, at a key or on a side.
pub fn spot_named<'a>(
    declarations: &'a [Declaration],
    variable: &Identifier,
    at: Option<i64>,
) -> Option<Spot<'a>> {
    for declaration in declarations {
        if let Declaration::Variable(name, kind) = declaration {
            if name == variable {
                return Some(Spot {
                    kind: *kind,
                    variable: name.as_str(),
                    at,
                });
            }
        }
    }
    None
}

/// The variable on which the pool of this name is.
pub fn spot_of_pool<'a>(declarations: &'a [Declaration], pool: &Identifier) -> Option<Spot<'a>> {
    for declaration in declarations {
        if let Declaration::Pool(name, variable) = declaration {
            if name == pool {
                return spot_named(declarations, variable, None);
            }
        }
    }
    None
}
