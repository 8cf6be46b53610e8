// The responses of services, each found once.

ghost use Rattle.std.specs.Prelude.{◌≡◌, IfOk};
ghost use Rattle.camac_response_times.specs.Found.{response_at};

use crate::search::{Response, response_of};
use crate::source::Source;
use std::alloc::{AllocError, Global};
use std::marker::Model;

/// Services, and what is found of each. Contracts see the services.
#[derive(Debug, Drop)]
pub struct Responses {
    sources: Vec<Source>,
    found: Vec<Option<Response>>,
}

impl Model for Responses {
    ghost use Rattle.std.specs.Prelude.{List};
    ghost use Rattle.camac_response_times.specs.declared.source.Source.{Source};
    ghost use Rattle.camac_response_times.specs.Found.{AreFound};

    ghost Value = { List Source };

    ghost view = { λ r. r.sources.items };

    ghost invariant = { λ r. AreFound r.sources.items r.found.items };
}

impl Responses {
    /// Finds the responses of these services. The error is want of memory.
    pub fn of(alloc: Global, sources: Vec<Source>) -> Result<Self, AllocError>
        ensures { IfOk result (λ r. r ≡ sources.items) }
    {
        let mut found = Vec::new(alloc);
        'services: for number in 0..sources.len() {
            found.push(response_of(&sources, number))?;
        }
        Ok(Responses { sources, found })
    }

    /// The services, in their order.
    pub fn sources(&self) -> &[Source]
        ensures { result.now ≡ self.now }
    {
        &self.sources
    }

    /// The response of the service of this number, from 0, as of `response_of`.
    pub fn at(&self, number: usize) -> Option<Response>
        ensures { result ≡ response_at self.now number }
    {
        *self.found.get(number)?
    }
}
