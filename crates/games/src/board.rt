ghost use Rattle.std.specs.Prelude.{◌≡◌};
ghost use Rattle.games.specs.Boards.{legal_board, holds_line, mover_first, one_more, marks, wins, full, ends, mark_stakes, is_end, stakes_of};

const CELLS: u32 = 9;
// a mask is below this
const MASKS: u16 = 512;
// the cells of each line
const LINES: [u16; 8] = [7, 56, 448, 73, 146, 292, 273, 84];

// The cells that each side has marked: bit i for cell i.
#[derive(Clone, Copy)]
pub(crate) struct Board {
    pub(crate) crosses: u16,
    pub(crate) noughts: u16,
}

// What a mark makes of a round.
#[derive(Clone, Copy)]
pub(crate) enum Outcome {
    Line,
    Full,
    GoesOn,
}

impl Outcome {
    pub(crate) fn ends(self) -> bool
        ensures { result ≡ is_end self }
    {
        match self {
            Outcome::Line | Outcome::Full => true,
            Outcome::GoesOn => false,
        }
    }

    // How many stakes a later mark moves: one for a draw, else two.
    pub(crate) fn stakes(self) -> u8
        ensures { result ≡ stakes_of self }
    {
        match self {
            Outcome::Full => 1,
            Outcome::Line | Outcome::GoesOn => 2,
        }
    }
}

#[tactic(auto, unfolding(crate::specs::Boards::holds_line))]
fn holds_line(mask: u16) -> bool
    ensures { result ≡ holds_line mask }
{
    LINES.iter().any(|line| mask & line == *line)
}

// Whether every old mark is kept and there is one more.
fn one_more(old: u16, new: u16) -> bool
    ensures { result ≡ one_more old new }
{
    old & new == old && new.count_ones() == old.count_ones() + 1
}

impl Board {
    #[tactic(auto, unfolding(crate::specs::Boards::legal_board))]
    pub(crate) fn is_legal(&self) -> bool
        ensures { result ≡ legal_board self.now }
    {
        self.crosses < MASKS && self.noughts < MASKS && self.crosses & self.noughts == 0
    }

    // The masks of a board: that of the side which is to move on this one, and that of the other side.
    fn mover_first(&self, board: &Board) -> (u16, u16)
        ensures { result ≡ mover_first self.now board.now }
    {
        if self.crosses.count_ones() == self.noughts.count_ones() {
            (board.crosses, board.noughts)
        } else {
            (board.noughts, board.crosses)
        }
    }

    // Whether the side that is to move marks one cell, and the other side none.
    #[tactic(auto, unfolding(crate::specs::Boards::marks))]
    pub(crate) fn marks_one(&self, after: &Board) -> bool
        ensures { result ≡ marks self.now after.now }
    {
        let (old, other) = self.mover_first(self);
        let (new, other_after) = self.mover_first(after);
        one_more(old, new) && other == other_after
    }

    // Whether the side that moved now holds a line.
    fn is_won(&self, after: &Board) -> bool
        ensures { result ≡ wins self.now after.now }
    {
        holds_line(self.mover_first(after).0)
    }

    fn is_full(&self) -> bool
        ensures { result ≡ full self.now }
    {
        self.crosses.count_ones() + self.noughts.count_ones() == CELLS
    }

    // What a mark makes of the round. A line is looked for first: with one, a full board is no draw.
    #[tactic(auto, unfolding(crate::specs::Boards::ends, crate::specs::Boards::mark_stakes))]
    pub(crate) fn outcome(&self, after: &Board) -> Outcome
        ensures ends { is_end result ≡ ends self.now after.now }
        ensures stakes { stakes_of result ≡ mark_stakes self.now after.now }
    {
        if self.is_won(after) {
            Outcome::Line
        } else if after.is_full() {
            Outcome::Full
        } else {
            Outcome::GoesOn
        }
    }
}
