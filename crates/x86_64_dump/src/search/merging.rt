//! Stretches of two lists of segments, as those of one list.
ghost use Rattle.std.specs.Prelude.{◌≡◌, IfOk};
ghost use Rattle.x86_64_dump.specs.private.Search.{AreInOrder, AreMerged};
ghost use Rattle.x86_64_dump.specs.private.Merging.{rest_after, place_passed, next_from, lower};

use super::{Place, Stretch};
use std::alloc::{AllocError, Global};

/// Stretches that are passed one after the other.
#[derive(Drop)]
struct Side<'a> {
    /// The stretches that are left.
    rest: &'a [Stretch],
    /// The place that the last of the others has.
    place: Option<Place>,
}

impl<'a> Side<'a> {
    /// Passes the next stretch if it begins at an address.
    fn go_to(&mut self, address: u64)
        ensures rest { self.new.rest.now ≡ rest_after address self.old.rest.now }
        ensures place { self.new.place ≡ place_passed address self.old.place self.old.rest.now }
    {
        if let Some((next, rest)) = self.rest.split_first() {
            if next.from == address {
                self.place = next.place;
                self.rest = rest;
            }
        }
    }

    /// Returns where the next stretch begins, or `None` if none is left.
    fn next_from(&self) -> Option<u64>
        ensures { result ≡ next_from self.now.rest.now }
    {
        Some(self.rest.first()?.from)
    }
}

/// Returns the lower of two addresses, if there are any.
fn lower(one: Option<u64>, other: Option<u64>) -> Option<u64>
    ensures { result ≡ lower one other }
{
    match (one, other) {
        (Some(one), Some(other)) => Some(one.min(other)),
        (one, other) => one.or(other),
    }
}

/// Merges stretches: the place of an address is that by those in front, or that by those in the back if they have none.
pub fn merge(alloc: Global, front: &[Stretch], back: &[Stretch]) -> Result<Vec<Stretch>, AllocError>
    requires front { AreInOrder front.now }
    requires back { AreInOrder back.now }
    ensures order { IfOk result (λ merged. AreInOrder merged.items) }
    ensures merged { IfOk result (λ merged. AreMerged front.now back.now merged.items) }
{
    let mut merged = Vec::with_capacity(alloc, front.len() + back.len())?;
    let mut front = Side {
        rest: front,
        place: None,
    };
    let mut back = Side {
        rest: back,
        place: None,
    };
    while let Some(from) = lower(front.next_from(), back.next_from()) {
        front.go_to(from);
        back.go_to(from);
        merged.push(Stretch {
            from,
            place: front.place.or(back.place),
        })?;
    }
    Ok(merged)
}
