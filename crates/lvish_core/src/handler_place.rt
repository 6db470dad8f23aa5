ghost use Rattle.std.specs.Prelude.{◌≡◌};

/// Where a handler is: its variable, its pool and its procedure.
#[derive(Clone, Copy, PartialEq, Eq)]
pub struct HandlerPlace {
    pub variable: usize,
    pub pool: usize,
    pub procedure: usize,
}

impl HandlerPlace {
    /// The place of a handler in the pool, on its variable.
    pub fn new(variable: usize, pool: usize, procedure: usize) -> Self
        ensures { result ≡ record { variable = variable; pool = pool; procedure = procedure } }
    {
        HandlerPlace {
            variable,
            pool,
            procedure,
        }
    }
}

/// Where a handler stands: its variable, and its place among that variable's handlers.
#[derive(Clone, Copy)]
pub(crate) struct HandlerSeat {
    pub variable: usize,
    pub at: usize,
}
