//! What is told of some receivers, in the order of their numbers.

ghost use Rattle.std.specs.Prelude.{◌≡◌, ◌<◌, [], ◌∷◌, ◌++◌, length};
ghost use Rattle.signal_base.specs.declared.limits.TheConstants.{MOST_RECEIVERS};

use formats::ReceiverHeard;
use signal_base::MOST_RECEIVERS;
use std::marker::Model;

/// What is told of at most eight receivers, kept in the value itself.
#[derive(Drop)]
pub struct HeardList {
    items: [ReceiverHeard; MOST_RECEIVERS],
    count: usize,
}

impl Model for HeardList {
    ghost use Rattle.std.specs.Prelude.{◌≤◌, List, take};
    ghost use Rattle.formats.specs.declared.heard.ReceiverHeard.{ReceiverHeard};
    ghost use Rattle.signal_base.specs.declared.limits.TheConstants.{MOST_RECEIVERS};

    ghost Value = { List ReceiverHeard };

    ghost view = { λ list. take list.count list.items };

    ghost invariant = { λ list. list.count ≤ MOST_RECEIVERS };
}

impl HeardList {
    /// Of no receiver.
    pub fn new() -> HeardList
        ensures { result ≡ [] }
    {
        let none = ReceiverHeard {
            number: 0,
            unknown: 0,
            cost: 0,
        };
        HeardList {
            items: [none; MOST_RECEIVERS],
            count: 0,
        }
    }

    /// Adds what is told of the next receiver.
    pub fn push(&mut self, heard: ReceiverHeard)
        requires { length self.old < MOST_RECEIVERS }
        ensures { self.new ≡ self.old ++ heard ∷ [] }
    {
        self.items[self.count] = heard;
        self.count += 1;
    }

    /// All of them.
    pub fn as_slice(&self) -> &[ReceiverHeard]
        ensures { result.now ≡ self.now }
    {
        &self.items[..self.count]
    }
}
