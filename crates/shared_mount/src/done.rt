//! The commands that were done in an exchange. They are for clauses only, and take no bytes.

ghost use Rattle.std.specs.Prelude.{List};
ghost use Rattle.trace_command.specs.Requests.{Request};

use crate::exchange::Exchange;
use std::marker::{Model, PhantomData};

/// Some commands, the last one first.
#[derive(Drop)]
pub(crate) struct Done {
    marker: PhantomData<u8>,
    pub ghost commands: { List Request },
}

impl Model for Done {
    ghost use base.Fml.{ftrue};

    ghost also_owns = { λ _. ftrue };
}

impl Done {
    ghost use Rattle.shared_mount.specs.private.Exchanges.{IsDoneIn};

    /// Commands that were done in an exchange, as some were.
    pub(crate) fn within(exchange: &Exchange) -> Done
        requires { (commands : List Request) × IsDoneIn exchange.now commands }
        ensures { IsDoneIn exchange.now result.commands }
    {
        let _ = exchange;
        Done {
            marker: PhantomData,
        }
    }
}
