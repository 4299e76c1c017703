ghost use Rattle.std.specs.Prelude.{◌≡◌};
ghost use Rattle.games.specs.Shelves.{shelf_codes, shelf_lawful};

use turns::{Game, Step};

// A game made of two: the first answers for the codes that it knows, the second for the rest.
#[derive(Drop)]
pub struct Shelf<A: Drop, B: Drop> {
    pub first: A,
    pub second: B,
}

impl<X: Game + Drop, Y: Game + Drop> Game for Shelf<X, Y> {
    ghost codes = { λ s. shelf_codes (X.Game.codes s.first) (Y.Game.codes s.second) };

    ghost lawful = { λ s. shelf_lawful (X.Game.codes s.first) (X.Game.lawful s.first) (Y.Game.lawful s.second) };

    fn knows(&self, code: u8) -> bool {
        self.first.knows(code) || self.second.knows(code)
    }

    fn allows(&self, step: &Step) -> bool {
        if self.first.knows(step.code) {
            self.first.allows(step)
        } else {
            self.second.allows(step)
        }
    }
}
