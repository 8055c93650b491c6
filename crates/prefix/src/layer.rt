// The layer.
ghost use Rattle.std.specs.Prelude.{◌≡◌};
ghost use Rattle.std.specs.Option.{option_map, option_and_then};
ghost use Rattle.std.specs.List.{slice_get};
ghost use Rattle.prefix.specs.Keys.{name_after, names_after};
ghost use Rattle.prefix.specs.Layers.{under, layered};
ghost use Rattle.prefix.specs.Prefixes.{front};

use crate::prefixes::Prefix;
use carrier::faults::SetFault;
use carrier::names::is_name;
use carrier::traits::{Carrier, Extractor, Injector};
use text::check::is_lawful;
use text::take::strip_prefix;

// A carrier, each name of which stands under the prefix in the carrier below.
#[derive(Drop)]
pub struct Prefixed<C> {
    pub below: C,
    pub prefix: Prefix,
}

impl<C> Prefixed<C> {
    pub fn new(below: C, prefix: Prefix) -> Prefixed<C>
        ensures below { result.below ≡ below }
        ensures prefix { result.prefix ≡ prefix }
    {
        Prefixed { below, prefix }
    }
}

impl<C: Carrier> Carrier for Prefixed<C> {
    ghost kind = { layered C.Carrier.kind };

    ghost held = { λ s. under (front s.prefix) (C.Carrier.held s.below) };
}

impl<C: Extractor> Prefixed<C> {
    // The layer's name at that place below, if there is one.
    fn key_below(&self, at: usize) -> Option<&[u8]>
        ensures { option_map (λ x. x.now) result ≡ option_and_then (name_after (front self.now.prefix)) (slice_get (C.Extractor.order self.now.below) at) }
    {
        let key = self.below.key_at(at)?;
        strip_prefix(key, self.prefix.bytes()).filter(|rest| !rest.is_empty())
    }
}

impl<C: Extractor> Extractor for Prefixed<C> {
    ghost order = { λ s. names_after (front s.prefix) (C.Extractor.order s.below) };

    fn get<'a>(&'a self, name: &[u8]) -> Option<&'a [u8]> {
        let joined = self.prefix.joined(name)?;
        self.below.get(joined.as_slice())
    }

    fn key_count(&self) -> usize {
        (0..self.below.key_count())
            .filter_map(|at| self.key_below(at))
            .count()
    }

    // The chain begins as that of `key_count`: its type holds a closure, so no function can answer it.
    fn key_at(&self, at: usize) -> Option<&[u8]> {
        (0..self.below.key_count())
            .filter_map(|at| self.key_below(at))
            .nth(at)
    }
}

impl<C: Injector> Injector for Prefixed<C> {
    fn takes(&self, name: &[u8], len: usize) -> bool {
        self.prefix
            .joined(name)
            .is_some_and(|joined| self.below.takes(joined.as_slice(), len))
    }

    // A lawful name and value can only be refused for want of room, below too.
    fn set(&mut self, name: &[u8], value: &[u8]) -> Result<(), SetFault> {
        // Every carrier's set begins so; what follows differs.
        if !is_name(name) || !is_lawful(value) {
            return Err(SetFault::Unlawful);
        }
        let joined = self.prefix.joined(name).ok_or(SetFault::Full)?;
        self.below
            .set(joined.as_slice(), value)
            .map_err(|_| SetFault::Full)
    }

    fn unset(&mut self, name: &[u8]) {
        if let Some(joined) = self.prefix.joined(name) {
            self.below.unset(joined.as_slice());
        }
    }
}
