//! The hands of all calls that are under way.
ghost use Rattle.std.specs.Prelude.{◌≡◌, ◌∷◌, ◌++◌, [], length, OnOk, OnErr};

use lufs_base::Mem;
use std::alloc::Global;
use std::marker::Model;
use volume_model::Hand;

/// What the calls that are under way hold of a volume.
#[derive(Debug, Drop)]
pub struct Hands {
    hands: Vec<Hand>,
}

impl Model for Hands {
    ghost use Rattle.std.specs.Prelude.{List};
    ghost use Rattle.volume_model.specs.declared.hand.Hand.{Hand};

    ghost Value = { List Hand };

    ghost view = { λ l. l.hands.items };
}

impl Hands {
    pub fn new(alloc: Global) -> Self
        ensures { result ≡ [] }
    {
        Hands {
            hands: Vec::new(alloc),
        }
    }

    /// Adds a hand at the end. An `Err` leaves the list as it was.
    pub fn push(&mut self, hand: Hand) -> Result<(), Mem>
        ensures ok { OnOk result (self.new ≡ self.old ++ hand ∷ []) }
        ensures err { OnErr result (self.new ≡ self.old) }
    {
        self.hands.push(hand)?;
        Ok(())
    }

    pub fn as_slice(&self) -> &[Hand]
        ensures { result.now ≡ self.now }
    {
        self.hands.as_slice()
    }

    pub fn len(&self) -> usize
        ensures { result ≡ length self.now }
    {
        self.hands.len()
    }
}
