ghost use Rattle.std.specs.Prelude.{◌≡◌, Some};
ghost use Rattle.turns.specs.Refusals.{layer_number};
ghost use Rattle.turns.specs.Words.{layer_words};

use std::fmt;

// Which part of the house refused.
#[derive(Clone, Copy, PartialEq, Eq)]
pub enum Layer {
    Game = 1,
    Scheme = 2,
    Turns = 3,
    Docket = 4,
    Station = 5,
}

impl From<Layer> for u8 {
    ghost from_gives = { λ layer n. n ≡ layer_number layer };

    fn from(layer: Layer) -> u8 {
        layer as u8
    }
}

impl fmt::Display for Layer {
    ghost output = { λ x. Some (layer_words x) };

    fn fmt<W: fmt::Write>(&self, f: &mut fmt::Formatter<W>) -> fmt::Result {
        f.write_str(match self {
            Layer::Game => "game",
            Layer::Scheme => "scheme",
            Layer::Turns => "turn rules",
            Layer::Docket => "docket",
            Layer::Station => "station",
        })
    }
}
